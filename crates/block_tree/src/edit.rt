//! What a cut and changes make of a leaf.
ghost use Rattle.std.specs.Prelude.{◌≡◌, ◌<◌, ◌≤◌, ◌+◌, ◌*◌, ℕ, List, All, nat_lt, if◌then◌else◌, length, slice_index};
ghost use Rattle.vol_numbers.specs.Layout.{Layout};
ghost use Rattle.vol_numbers.specs.declared.runs.Change.{Change as ChangeOf};
ghost use Rattle.place_words.specs.Different.{times};
ghost use Rattle.block_format.specs.Index.{IsPointer};
ghost use Rattle.block_tree.specs.Notes.{brought, change_blocks};
ghost use Rattle.block_tree.specs.Pages.{LeadInto};
ghost use Rattle.block_tree.specs.Edit.{cut_at, with_changes, portion, IsEdit};

use block_format::Index;
use vol_numbers::{BlockNo, Change, Fbn};

/// What a tree is to be: its places from `cut_to` on are dropped, the changes are made, which stand in the order of their leaves, and it has this height then.
#[derive(Clone, Copy)]
pub(crate) struct Edit<'a> {
    pub(crate) cut_to: Fbn,
    pub(crate) changes: &'a [Change],
    pub(crate) height: u32,
}

/// The pointers of the leaf k after a cut and then the changes in it.
pub(crate) fn edited(was: &Index, k: u32, cut_to: Fbn, part: &[Change]) -> Index
    requires { k < 1024 }
    ensures edit { (changes : List ChangeOf) → part.now ≡ portion k changes → IsEdit changes cut_to k was.now.ptrs result.ptrs }
    ensures brings { (b : ℕ) → brought b was.now.ptrs result.ptrs ≤ times b (change_blocks part.now) }
    ensures pointers { (g : Layout) → All (IsPointer g) was.now.ptrs → LeadInto g part.now → All (IsPointer g) result.ptrs }
{
    let mut index = *was;
    cut_entries(&mut index.ptrs, 1_024 * k, cut_to);
    put_changes(&mut index.ptrs, part);
    index
}

/// Drops the places from one on.
fn cut_entries(ptrs: &mut [u32], first: u32, cut_to: Fbn)
    requires length { length ptrs.old ≡ 1024 }
    requires first { first < 1048576 }
    ensures { (old : ℕ → ℕ) → (i : ℕ) → i < 1024 → slice_index ptrs.old i ≡ old (first + i) → slice_index ptrs.new i ≡ cut_at cut_to old (first + i) }
{
    for i in 0..1_024 {
        ptrs[i as usize] = kept(ptrs[i as usize], first + i, cut_to);
    }
}

/// What a cut leaves of the pointer of a place.
fn kept(ptr: BlockNo, place: Fbn, cut_to: Fbn) -> BlockNo
    ensures { result ≡ (if nat_lt place cut_to then ptr else 0) }
{
    if place < cut_to { ptr } else { 0 }
}

/// Makes the changes of places of one leaf.
fn put_changes(ptrs: &mut [u32], part: &[Change])
    requires { length ptrs.old ≡ 1024 }
    ensures { ptrs.new ≡ with_changes part.now ptrs.old }
{
    for change in part {
        ptrs[(change.place % 1_024) as usize] = change.block;
    }
}
