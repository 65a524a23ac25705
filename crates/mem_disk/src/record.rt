//! The record of a disk in memory: its writes and syncs, each as what undoes it.
ghost use Rattle.std.specs.Prelude.{◌≡◌, ◌<◌, ◌++◌, [], ◌∷◌, IsTrue, vec_len, vec_capacity};
ghost use Rattle.mem_disk.specs.declared.record.Step.{Step};
ghost use Rattle.mem_disk.specs.Memory.{IsSyncOf};

use std::alloc::Global;
use vol_numbers::{Block, BlockNo};

/// A block before a write.
#[derive(Drop)]
pub(crate) struct Before {
    pub(crate) at: BlockNo,
    pub(crate) block: Block,
    pub(crate) was_unsynced: bool,
}

/// A call that changed the disk.
#[derive(Drop)]
pub(crate) enum Step {
    Wrote(Before),
    /// The flags before the sync.
    Synced(Vec<bool>),
}

/// Adds a step. Where there is no memory for it the record ends.
pub(crate) fn note(steps: &mut Vec<Step>, is_told: &mut bool, step: Step)
    // It goes on where it has room. That there is room can't be said: memory may be wanting.
    ensures told { IsTrue is_told.old → vec_len steps.old < vec_capacity steps.old → IsTrue is_told.new }
    ensures kept { IsTrue is_told.new → IsTrue is_told.old × (steps.new.items ≡ steps.old.items ++ step ∷ []) }
{
    if *is_told {
        *is_told = steps.push(step).is_ok();
    }
}

/// Adds a sync, before which these flags stood.
pub(crate) fn note_sync(alloc: Global, steps: &mut Vec<Step>, is_told: &mut bool, flags: &[bool])
    ensures kept { IsTrue is_told.new → IsTrue is_told.old
        × ((step : Step) × (IsSyncOf step flags.now) × (steps.new.items ≡ steps.old.items ++ step ∷ [])) }
{
    match flags.to_vec(alloc) {
        Ok(copy) => note(steps, is_told, Step::Synced(copy)),
        Err(_) => *is_told = false,
    }
}
