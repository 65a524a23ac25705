//! Spells the pages of a directory.
ghost use Rattle.std.specs.Prelude.{◌≡◌, ◌≢◌, ◌<◌, ◌≤◌, ◌+◌, ◌*◌, ◌++◌, ℕ, All, length, IfOk};
ghost use Rattle.std.specs.Option.{option_copied};
ghost use Rattle.std.specs.FinMap.{find};
ghost use Rattle.block_format.specs.Slot.{slot_part};
ghost use Rattle.block_tree.specs.Notes.{page_blocks};
ghost use Rattle.dir_slots.specs.Pages.{IsPage};
ghost use Rattle.point_model.specs.NodePlan.{is_changed_page};
ghost use Rattle.volume_model.specs.Places.{spot_cmp};
ghost use Rattle.tree_plan.specs.Pages.{slots_or_none, part_with, SlotsFit, SpellsPage, AreSpelled};

use crate::pages::SLOTS;
use block_format::write_slot;
use dir_slots::Directory;
use dirty_store::DirtyStore;
use run_allocator::FreeMap;
use std::alloc::{AllocError, Global};
use vol_numbers::{Block, Change, ChangeList, Fbn, InoNo, Page};

/// Pages that are written, and the changes of the tree that lead to them.
#[derive(Drop)]
pub(crate) struct Spelled {
    pub pages: Vec<Page>,
    pub changes: ChangeList,
}

/// Takes the lowest free block for each of these pages of a directory, and spells it as it is now.
pub(crate) fn spell_pages(
    alloc: Global,
    left: Option<&Directory>,
    store: &DirtyStore,
    number: InoNo,
    places: &[Fbn],
    free: &mut FreeMap,
) -> Result<Spelled, AllocError>
    requires fits { SlotsFit store.now.overlay number }
    requires places { All (λ p. p < 4096) places.now }
    requires free { length places.now ≤ length free.old }
    ensures spelled { IfOk result (λ s. AreSpelled (SpellsPage (slots_or_none (option_copied left.entry)) store.now.overlay number) places.now s.pages.items s.changes) }
    ensures taken { IfOk result (λ s. page_blocks s.pages.items ++ free.new ≡ free.old) }
{
    let mut pages = Vec::new(alloc);
    let mut changes = Vec::new(alloc);
    for place in places {
        let block = spelled_page(left, store, number, *place);
        let at = free.take_one();
        pages.push(Page { at, block })?;
        changes.push(Change {
            place: *place,
            block: at,
        })?;
    }
    Ok(Spelled {
        pages,
        changes: ChangeList::from_vec(changes),
    })
}

/// The block of a directory's page: of each slot what is staged, else what is left.
pub(crate) fn spelled_page(
    left: Option<&Directory>,
    store: &DirtyStore,
    number: InoNo,
    place: Fbn,
) -> Block
    requires fits { SlotsFit store.now.overlay number }
    requires place { place < 4096 }
    ensures { SpellsPage (slots_or_none (option_copied left.entry)) store.now.overlay number place result.bytes }
{
    let mut block = page_left(left, place);
    put_staged(store, number, place, &mut block);
    block
}

/// Whether a staged slot of a page differs from what is left of the last point.
///
/// The page is spelled as it is left and as it is now, and the two are compared. Nothing is read from the disk.
pub(crate) fn is_changed_page(
    left: Option<&Directory>,
    store: &DirtyStore,
    number: InoNo,
    place: Fbn,
) -> bool
    requires fits { SlotsFit store.now.overlay number }
    requires place { place < 4096 }
    ensures { result ≡ is_changed_page (slots_or_none (option_copied left.entry)) store.now.overlay number place }
{
    let before = page_left(left, place);
    let after = spelled_page(left, store, number, place);
    after.bytes != before.bytes
}

/// The block of a page as it is left of the last point.
fn page_left(left: Option<&Directory>, place: Fbn) -> Block
    ensures { IsPage (slots_or_none (option_copied left.entry)) place result.bytes }
{
    let mut block = Block::zero();
    if let Some(directory) = left {
        directory.page(place, &mut block);
    }
    block
}

/// Puts the staged slots of a page into its block.
fn put_staged(store: &DirtyStore, number: InoNo, place: Fbn, block: &mut Block)
    requires fits { SlotsFit store.now.overlay number }
    requires place { place < 4096 }
    ensures { (j : ℕ) → j < 16 → slot_part j block.new.bytes ≡ part_with (find spot_cmp (number, 16 * place + j) store.now.overlay.slots) (slot_part j block.old.bytes) }
{
    for j in 0..SLOTS {
        put_slot(store, number, SLOTS * place + j, j, block);
    }
}

/// Puts a slot of a directory, where it is staged, into its position in a block.
fn put_slot(store: &DirtyStore, number: InoNo, k: u32, j: u32, block: &mut Block)
    requires fits { SlotsFit store.now.overlay number }
    requires j { j < 16 }
    ensures own { slot_part j block.new.bytes ≡ part_with (find spot_cmp (number, k) store.now.overlay.slots) (slot_part j block.old.bytes) }
    ensures others { (i : ℕ) → i ≢ j → slot_part i block.new.bytes ≡ slot_part i block.old.bytes }
{
    if let Some(slot) = store.slot(number, k) {
        write_slot(slot, j, block);
    }
}
