//! Leaves after a cut and changes.
ghost use Rattle.std.specs.Prelude.{◌≡◌, ◌<◌, ◌≤◌, ◌+◌, ℕ, All, false, List, length, IfOk, OnOk, IsTrue, nat_lt, slice_index};
ghost use Rattle.vol_numbers.specs.Geometry.{layout_of};
ghost use Rattle.vol_numbers.specs.Layout.{Layout};
ghost use Rattle.disk_model.specs.Past.{Adds};
ghost use Rattle.block_format.specs.Index.{IsPointer};
ghost use Rattle.place_words.specs.Different.{times};
ghost use Rattle.block_tree.specs.Tree.{blocks_in};
ghost use Rattle.block_tree.specs.Notes.{Takes, Uses, LeavesUse, AreSound, brought, change_blocks};
ghost use Rattle.vol_numbers.specs.declared.runs.Change.{Change as ChangeOf};
ghost use Rattle.block_tree.specs.Edit.{IsEdit, portion, AreInOrder};
ghost use Rattle.block_tree.specs.Pages.{LeadInto};
ghost use Rattle.block_tree.specs.Renewal.{NeedsBlock};
ghost use Rattle.block_tree.specs.Room.{leaf_room, leaves_room};
ghost use Rattle.block_tree.specs.Opened.{first_of};
ghost use Rattle.block_tree.specs.Leaf.{IsLeafEdited, IsLeafRewritten, IsFirstRewritten, IsUntouched, AreLeavesRewritten};
ghost use Rattle.block_tree.specs.Causes.{HasTreeCause, IsTreeDamage, IfTreeDamaged, IsBlockOf, IsBlockAmong};

use crate::edit::{Edit, edited};
use crate::looking::entries;
use crate::notes::Notes;
use crate::opening::one_pointer;
use crate::portion::portion_of;
use crate::renewal::{note, renew};
use crate::{TreeFault, TreeRoot};
use block_format::Index;
use disk_model::Disk;
use std::alloc::AllocError;
use vol_numbers::{BlockNo, Change, Geometry};

/// A leaf that had the pointers `was` and is to have those of `index`.
fn rewrite_leaf(
    leaf: BlockNo,
    was: &Index,
    index: &Index,
    notes: &mut Notes,
) -> Result<BlockNo, AllocError>
    requires free { NeedsBlock leaf was.now.ptrs index.now.ptrs → 1 ≤ length notes.old.free }
    ensures edited { IfOk result (λ new. (changes : List ChangeOf) (cut k : ℕ) → IsEdit changes cut k was.now.ptrs index.now.ptrs → IsLeafEdited changes cut k leaf was.now.ptrs new notes.old notes.new) }
    ensures takes { OnOk result (Takes notes.old notes.new) }
    ensures at_most { OnOk result (length notes.old.free ≤ length notes.new.free + 1) }
    ensures spares { OnOk result ((NeedsBlock leaf was.now.ptrs index.now.ptrs → ⊥) → notes.new.free ≡ notes.old.free) }
    ensures uses { OnOk result ((changes : List ChangeOf) → ((b : ℕ) → brought b was.now.ptrs index.now.ptrs ≤ times b (change_blocks changes)) → Uses changes notes.old notes.new) }
    ensures sound { IfOk result (λ new. (g : Layout) → All (IsPointer g) index.now.ptrs → IsPointer g leaf → AreSound g notes.old → AreSound g notes.new × IsPointer g new) }
{
    let new = renew(leaf, was, index, notes)?;
    note(&was.ptrs, &index.ptrs, notes)?;
    Ok(new)
}

/// Whether the leaf k is gone over: all leaves are where the tree has no top index then, else those that the cut or a change touches.
fn is_gone_over(edit: &Edit<'_>, k: u32, part: &[Change]) -> bool
    requires { k < 1024 }
    ensures { result ≡ false → IsUntouched (nat_lt edit.now.height 2) part.now edit.now.cut_to k }
{
    if edit.height < 2 {
        return true;
    }
    if edit.cut_to < 1_024 * (k + 1) {
        return true;
    }
    !part.is_empty()
}

/// The leaf k of a disk. It is read only where it is gone over.
fn rewrite_one<D: Disk>(
    disk: &mut D,
    g: &Geometry,
    leaf: BlockNo,
    k: u32,
    edit: &Edit<'_>,
    notes: &mut Notes,
) -> Result<BlockNo, TreeFault>
    requires size { (layout_of g.now).blocks ≡ (D.fixed disk.old).size }
    requires leaf { IsPointer (layout_of g.now) leaf }
    requires k { k < 1024 }
    requires order { AreInOrder edit.now.changes.now }
    requires free { leaf_room edit.now.changes.now edit.now.cut_to k ≤ length notes.old.free }
    ensures rewritten { IfOk result (λ new. IsTrue D.tells → IsLeafRewritten (blocks_in (D.state disk.old).contents) edit.now.changes.now edit.now.cut_to (nat_lt edit.now.height 2) k leaf new notes.old notes.new) }
    ensures takes { OnOk result (Takes notes.old notes.new) }
    ensures room { OnOk result (length notes.old.free ≤ length notes.new.free + leaf_room edit.now.changes.now edit.now.cut_to k) }
    ensures uses { OnOk result (Uses (portion k edit.now.changes.now) notes.old notes.new) }
    ensures sound { IfOk result (λ new. LeadInto (layout_of g.now) edit.now.changes.now → AreSound (layout_of g.now) notes.old → AreSound (layout_of g.now) notes.new × IsPointer (layout_of g.now) new) }
    ensures damaged { IsTreeDamage (layout_of g.now) D.tells (blocks_in (D.state disk.new).contents) (D.given disk.old) (D.given disk.new) result }
    ensures read { IfTreeDamaged result (IsBlockOf leaf) }
    ensures same { IsTrue D.tells → D.state disk.new ≡ D.state disk.old }
    ensures moments { IsTrue D.tells → Adds (D.past disk.old) (D.past disk.new) (λ s. s ≡ D.state disk.old) }
    ensures fixed { D.fixed disk.new ≡ D.fixed disk.old }
    ensures cause { HasTreeCause (D.faults disk.old) (D.faults disk.new) result }
{
    let part = portion_of(edit.changes, k);
    if !is_gone_over(edit, k, part) {
        return Ok(leaf);
    }
    let was = entries(disk, g, leaf)?;
    let index = edited(&was, k, edit.cut_to, part);
    let new = rewrite_leaf(leaf, &was, &index, notes)?;
    Ok(new)
}

/// The leaf 0 of a tree that has a leaf then: it is made of the block of place 0 where there was none.
pub(crate) fn rewrite_first<D: Disk>(
    disk: &mut D,
    g: &Geometry,
    root: &TreeRoot,
    leaf: BlockNo,
    edit: &Edit<'_>,
    notes: &mut Notes,
) -> Result<BlockNo, TreeFault>
    requires size { (layout_of g.now).blocks ≡ (D.fixed disk.old).size }
    requires leaf { IsPointer (layout_of g.now) leaf }
    requires root { IsPointer (layout_of g.now) root.now.ptr }
    requires hole { root.now.height ≡ 0 → leaf ≡ 0 }
    requires order { AreInOrder edit.now.changes.now }
    requires free { leaf_room edit.now.changes.now edit.now.cut_to 0 + 1 ≤ length notes.old.free }
    ensures rewritten { IfOk result (λ new. IsTrue D.tells → IsFirstRewritten (blocks_in (D.state disk.old).contents) edit.now.changes.now edit.now.cut_to leaf (first_of (blocks_in (D.state disk.old).contents) root.now leaf) new notes.old notes.new) }
    ensures takes { OnOk result (Takes notes.old notes.new) }
    ensures room { OnOk result (length notes.old.free ≤ length notes.new.free + leaf_room edit.now.changes.now edit.now.cut_to 0 + 1) }
    ensures uses { OnOk result (Uses (portion 0 edit.now.changes.now) notes.old notes.new) }
    ensures sound { IfOk result (λ new. LeadInto (layout_of g.now) edit.now.changes.now → AreSound (layout_of g.now) notes.old → AreSound (layout_of g.now) notes.new × IsPointer (layout_of g.now) new) }
    ensures damaged { IsTreeDamage (layout_of g.now) D.tells (blocks_in (D.state disk.new).contents) (D.given disk.old) (D.given disk.new) result }
    ensures read { IfTreeDamaged result (IsBlockOf leaf) }
    ensures same { IsTrue D.tells → D.state disk.new ≡ D.state disk.old }
    ensures moments { IsTrue D.tells → Adds (D.past disk.old) (D.past disk.new) (λ s. s ≡ D.state disk.old) }
    ensures fixed { D.fixed disk.new ≡ D.fixed disk.old }
    ensures cause { HasTreeCause (D.faults disk.old) (D.faults disk.new) result }
{
    if root.height > 0 {
        let kept = rewrite_one(disk, g, leaf, 0, edit, notes)?;
        return Ok(kept);
    }
    let was = one_pointer(root.ptr);
    let index = edited(&was, 0, edit.cut_to, portion_of(edit.changes, 0));
    let new = rewrite_leaf(leaf, &was, &index, notes)?;
    Ok(new)
}

/// The leaves from 1 up to one: those that are gone over.
pub(crate) fn rewrite_rest<D: Disk>(
    disk: &mut D,
    g: &Geometry,
    leaves: &mut Index,
    end: u32,
    edit: &Edit<'_>,
    notes: &mut Notes,
) -> Result<(), TreeFault>
    requires size { (layout_of g.now).blocks ≡ (D.fixed disk.old).size }
    requires leaves { (j : ℕ) → 1 ≤ j → j < 1024 → IsPointer (layout_of g.now) (slice_index leaves.old.ptrs j) }
    requires end { end ≤ 1024 }
    requires some { 1 ≤ end }
    requires order { AreInOrder edit.now.changes.now }
    requires free { leaves_room edit.now.changes.now edit.now.cut_to 1 end + 1 ≤ length notes.old.free }
    ensures rewritten { OnOk result (IsTrue D.tells → AreLeavesRewritten (blocks_in (D.state disk.old).contents) edit.now.changes.now edit.now.cut_to (nat_lt edit.now.height 2) end leaves.old.ptrs leaves.new.ptrs notes.old notes.new) }
    ensures takes { OnOk result (Takes notes.old notes.new) }
    ensures left { OnOk result (1 ≤ length notes.new.free) }
    ensures uses { OnOk result (LeavesUse edit.now.changes.now end notes.old notes.new) }
    ensures sound { OnOk result (LeadInto (layout_of g.now) edit.now.changes.now → AreSound (layout_of g.now) notes.old → AreSound (layout_of g.now) notes.new × ((j : ℕ) → 1 ≤ j → j < 1024 → IsPointer (layout_of g.now) (slice_index leaves.new.ptrs j))) }
    ensures long { OnOk result (length leaves.new.ptrs ≡ 1024) }
    ensures first { OnOk result (slice_index leaves.new.ptrs 0 ≡ slice_index leaves.old.ptrs 0) }
    ensures damaged { IsTreeDamage (layout_of g.now) D.tells (blocks_in (D.state disk.new).contents) (D.given disk.old) (D.given disk.new) result }
    ensures read { IfTreeDamaged result (IsBlockAmong 1 leaves.old.ptrs) }
    ensures same { IsTrue D.tells → D.state disk.new ≡ D.state disk.old }
    ensures moments { IsTrue D.tells → Adds (D.past disk.old) (D.past disk.new) (λ s. s ≡ D.state disk.old) }
    ensures fixed { D.fixed disk.new ≡ D.fixed disk.old }
    ensures cause { HasTreeCause (D.faults disk.old) (D.faults disk.new) result }
{
    for k in 1..end {
        let new = rewrite_one(disk, g, leaves.ptrs[k as usize], k, edit, notes)?;
        leaves.ptrs[k as usize] = new;
    }
    Ok(())
}
