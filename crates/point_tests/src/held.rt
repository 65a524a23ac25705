//! Stages effects, and looks whether what is staged is within the rules of a volume.
ghost use Rattle.std.specs.Prelude.{◌≡◌, ◌<◌, ◌≤◌, true, ◌+◌, ℕ, All, IfSome, IsTrue};
ghost use Rattle.dir_slots.specs.Slots.{IsDirectory};
ghost use Rattle.block_format.specs.Inode.{blocks_of};
ghost use Rattle.dirty_store.specs.Laws.{dirty_spots};
ghost use Rattle.dirty_store.specs.Overlay.{IsEffect};
ghost use Rattle.volume_model.specs.Places.{has_spot};
ghost use Rattle.inode_file.specs.Inodes.{IsTable};
ghost use Rattle.held_list.specs.declared.held.Held.{Held as HeldOf};
ghost use Rattle.point_plan.specs.State.{IsOfSize, IsStagedWithin, inode_in, size_in, slots_in};
ghost use Rattle.point_tests.specs.Within.{IsNumberWithin};
ghost use Rattle.vol_numbers.specs.declared.runs.Run.{Run as RunOf};

use crate::slots::are_slots;
use block_format::Inode;
use consistency_point::PointState;
use dirty_store::Effect;
use std::alloc::Global;
use vol_numbers::{InoNo, Run};

/// The state with this effect staged. None where memory is wanting, or where what is staged would be outside the rules.
pub fn staged(alloc: Global, state: PointState, effect: Effect) -> Option<PointState>
    requires { IsEffect effect }
    ensures { IfSome result (λ after. (blocks : ℕ) → IsOfSize blocks state → IsOfSize blocks after) }
{
    let mut state = state;
    state.dirty.stage(alloc, effect).ok()?;
    if !is_within(alloc, &state) {
        return None;
    }
    Some(state)
}

/// Whether what is staged is within the rules.
fn is_within(alloc: Global, state: &PointState) -> bool
    ensures { IsTrue result → IsTable state.now.inodes → IsStagedWithin state.now }
{
    let Ok(numbers) = state.dirty.numbers(alloc) else {
        return false;
    };
    if !are_directories(state) {
        return false;
    }
    for n in numbers.as_slice() {
        if !is_number(alloc, state, *n) {
            return false;
        }
    }
    true
}

/// The directories of the last point are directories.
fn are_directories(state: &PointState) -> bool
    ensures { IsTrue result → All (λ (h : HeldOf). IsDirectory h.slots) state.now.directories }
{
    for held in state.directories.as_slice() {
        if held.slots.width() > 65_534 {
            return false;
        }
    }
    true
}

/// Whether what is staged of a number is within the rules.
fn is_number(alloc: Global, state: &PointState, n: InoNo) -> bool
    ensures { IsTrue result → IsNumberWithin state.now n }
{
    if n < 1 || n > 65_535 {
        return false;
    }
    let size = size_of(state, n);
    size <= 4_294_967_296 && has_slots(state, n) && has_places(alloc, state, n, size)
}

/// The size of a file now, and 0 of any other node.
fn size_of(state: &PointState, n: InoNo) -> u64
    requires { n ≤ 65535 }
    ensures size { result ≡ size_in (inode_in state.now n) }
{
    let inode = match state.dirty.inode(n) {
        Some(inode) => inode,
        None => state.inodes.get(n),
    };
    match inode {
        Inode::File { size, .. } => size,
        _ => 0,
    }
}

/// Whether the slots of a number are a directory's.
fn has_slots(state: &PointState, n: InoNo) -> bool
    ensures { IsTrue result → IsDirectory (slots_in state.now n) }
{
    if state.dirty.cut_to(n) == 0 {
        return are_slots(None, &state.dirty, n);
    }
    are_slots(state.directories.get(n), &state.dirty, n)
}

/// Whether the dirty places of a number are below its size.
fn has_places(alloc: Global, state: &PointState, n: InoNo, size: u64) -> bool
    requires { size ≤ 4294967296 }
    ensures { IsTrue result → (p : ℕ) → has_spot (dirty_spots state.now.dirty.overlay) (n, p) ≡ true → p < blocks_of size }
{
    let Ok(runs) = state.dirty.runs_of(alloc, n) else {
        return false;
    };
    are_below(runs.as_slice(), (size + 4_095) / 4_096)
}

/// Whether each run ends at this place or before it.
fn are_below(runs: &[Run], end: u64) -> bool
    ensures { IsTrue result → All (λ (r : RunOf). r.first + r.length ≤ end) runs.now }
{
    runs.iter()
        .all(|run| u64::from(run.first) + u64::from(run.length) <= end)
}
