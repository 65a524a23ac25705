//! Whether the slots of a directory, with what is staged of it, are within the rules.
ghost use Rattle.std.specs.Prelude.{◌≡◌, ◌≢◌, ◌<◌, ℕ, true, false, Some, is_some, IsTrue, IsFalse};
ghost use Rattle.std.specs.FinMap.{find};
ghost use Rattle.std.specs.Option.{option_copied};
ghost use Rattle.block_format.specs.declared.slot.Slot.{Slot as SlotOf};
ghost use Rattle.dir_slots.specs.Slots.{IsDirectory, is_used, name_of, slot_of};
ghost use Rattle.tree_plan.specs.Pages.{slots_or_none};
ghost use Rattle.tree_plan.specs.Renewed.{slots_with};
ghost use Rattle.volume_model.specs.Places.{spot_cmp};
ghost use Rattle.point_tests.specs.Within.{IsEntryWithin, IsSlotWithin};

use block_format::Slot;
use dir_slots::Directory;
use dirty_store::DirtyStore;
use vol_numbers::{InoNo, Name};

/// Whether the slots that are left and those that are staged are a directory's.
pub(crate) fn are_slots(left: Option<&Directory>, store: &DirtyStore, n: InoNo) -> bool
    ensures { IsTrue result → IsDirectory (slots_with (slots_or_none (option_copied left.entry)) store.now.overlay n) }
{
    let width = store.width(n);
    if width > 65_534 || !is_left(left) {
        return false;
    }
    for k in 0..width {
        if !is_slot(left, store, n, k) {
            return false;
        }
    }
    true
}

/// What is left is a directory's, or there is nothing.
fn is_left(left: Option<&Directory>) -> bool
    ensures { IsTrue result → IsDirectory (slots_or_none (option_copied left.entry)) }
{
    match left {
        Some(slots) => slots.width() <= 65_534,
        None => true,
    }
}

/// Whether a slot, where it is staged, fits into the directory.
fn is_slot(left: Option<&Directory>, store: &DirtyStore, n: InoNo, k: u32) -> bool
    ensures { IsTrue result → IsSlotWithin (slots_or_none (option_copied left.entry)) store.now.overlay n k }
{
    match store.slot(n, k) {
        Some(Slot::Entry { number, name }) => is_entry(left, store, n, k, *number, name),
        _ => true,
    }
}

/// Whether an entry that is staged in a slot fits into the directory.
fn is_entry(
    left: Option<&Directory>,
    store: &DirtyStore,
    n: InoNo,
    k: u32,
    number: InoNo,
    name: &Name,
) -> bool
    ensures { IsTrue result → IsEntryWithin (slots_or_none (option_copied left.entry)) store.now.overlay n k number name.now }
{
    if number < 1 || number > 65_535 || name.as_bytes().is_empty() {
        return false;
    }
    if !is_apart(store, n, k, name) {
        return false;
    }
    is_moved(left, store, n, name)
}

/// Whether no staged slot below this one has the name.
fn is_apart(store: &DirtyStore, n: InoNo, k: u32, name: &Name) -> bool
    ensures { IsTrue result → (j : ℕ) (slot : SlotOf) → j < k → find spot_cmp (n, j) store.now.overlay.slots ≡ Some slot → is_used slot ≡ true → name_of slot ≢ name.now }
{
    for j in 0..k {
        if has_name(store, n, j, name) {
            return false;
        }
    }
    true
}

/// Whether a slot is staged and has the name.
fn has_name(store: &DirtyStore, n: InoNo, j: u32, name: &Name) -> bool
    ensures { IsFalse result → (slot : SlotOf) → find spot_cmp (n, j) store.now.overlay.slots ≡ Some slot → is_used slot ≡ true → name_of slot ≢ name.now }
{
    match store.slot(n, j) {
        Some(Slot::Entry { name: other, .. }) => other == name,
        _ => false,
    }
}

/// Whether the slot that the name had among those that are left is staged anew, or there is none.
fn is_moved(left: Option<&Directory>, store: &DirtyStore, n: InoNo, name: &Name) -> bool
    ensures { IsTrue result → (j : ℕ) → slot_of (slots_or_none (option_copied left.entry)) name.now ≡ Some j → is_some (find spot_cmp (n, j) store.now.overlay.slots) ≡ true }
{
    let Some(slots) = left else {
        return true;
    };
    match slots.slot_of(name) {
        Some(j) => store.slot(n, j).is_some(),
        None => true,
    }
}
