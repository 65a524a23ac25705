//! Rewrites a tree.
ghost use Rattle.std.specs.Prelude.{◌≡◌, ◌≢◌, ◌<◌, ◌≤◌, ◌+◌, ℕ, true, [], All, List, length, IfOk, OnOk, IsTrue, nat_lt};
ghost use Rattle.vol_numbers.specs.Geometry.{layout_of};
ghost use Rattle.vol_numbers.specs.Layout.{Layout};
ghost use Rattle.vol_numbers.specs.declared.runs.Change.{Change as ChangeOf};
ghost use Rattle.disk_model.specs.Past.{Adds};
ghost use Rattle.block_format.specs.Index.{IsPointer};
ghost use Rattle.block_tree.specs.Tree.{Blocks, blocks_in, nonzero};
ghost use Rattle.block_tree.specs.Root.{tree_indexes, IsRoot};
ghost use Rattle.block_tree.specs.declared.root.TreeRoot.{TreeRoot as RootOf};
ghost use Rattle.place_words.specs.Different.{different, is_among};
ghost use Rattle.block_tree.specs.Edit.{leaves_of, portion, AreInOrder};
ghost use Rattle.block_tree.specs.Notes.{Noted, Takes, Uses, AreSound};
ghost use Rattle.block_tree.specs.Order.{InTurn};
ghost use Rattle.block_tree.specs.Pages.{LeadInto};
ghost use Rattle.block_tree.specs.Opened.{FitsHeight, ChangesFit, HasLeaves, IsGivenWay, IsTreeRewritten, first_of};
ghost use Rattle.block_tree.specs.Causes.{HasTreeCause, IsTreeDamage, IfTreeDamaged, IsBlockOf};

use crate::edit::{Edit, edited};
use crate::leaves::{rewrite_first, rewrite_rest};
use crate::notes::Notes;
use crate::opening::{first_pointers, open_tree};
use crate::portion::portion_of;
use crate::renewal::{note, renew};
use crate::{TreeFault, TreeRoot};
use block_format::Index;
use disk_model::Disk;
use std::alloc::AllocError;
use vol_numbers::{BlockNo, Geometry};

/// The old top index with its pointers, and the leaves after a cut and changes.
#[derive(Clone, Copy)]
pub(crate) struct Leaves {
    pub(crate) top: BlockNo,
    pub(crate) was: Index,
    pub(crate) leaves: Index,
}

/// Rewrites the leaves of a tree that has a height of 1 or 2 then.
fn rewrite_leaves<D: Disk>(
    disk: &mut D,
    g: &Geometry,
    root: &TreeRoot,
    edit: &Edit<'_>,
    notes: &mut Notes,
) -> Result<Leaves, TreeFault>
    requires size { (layout_of g.now).blocks ≡ (D.fixed disk.old).size }
    requires root { IsRoot (layout_of g.now) root.now }
    requires height { edit.now.height ≤ 2 }
    requires changes { ChangesFit edit.now.height edit.now.changes.now }
    requires order { AreInOrder edit.now.changes.now }
    requires fits { IsTrue D.tells → FitsHeight (blocks_in (D.state disk.old).contents) root.now edit.now.cut_to edit.now.height }
    requires free { different (leaves_of edit.now.changes.now) + 3 ≤ length notes.old.free }
    ensures leaves { IfOk result (λ l. IsTrue D.tells → HasLeaves (blocks_in (D.state disk.old).contents) root.now edit.now.changes.now edit.now.cut_to (nat_lt edit.now.height 2) l.top l.was.ptrs l.leaves.ptrs notes.old notes.new) }
    // The pages are those of leaves, by position.
    ensures in_turn { IfOk result (λ l. IsTrue D.tells → InTurn (nonzero l.leaves.ptrs) notes.old notes.new) }
    ensures takes { OnOk result (Takes notes.old notes.new) }
    ensures left { OnOk result (1 ≤ length notes.new.free) }
    ensures uses { OnOk result (Uses edit.now.changes.now notes.old notes.new) }
    ensures sound { IfOk result (λ l. LeadInto (layout_of g.now) edit.now.changes.now → AreSound (layout_of g.now) notes.old → AreSound (layout_of g.now) notes.new × IsPointer (layout_of g.now) l.top × All (IsPointer (layout_of g.now)) l.leaves.ptrs) }
    ensures damaged { IsTreeDamage (layout_of g.now) D.tells (blocks_in (D.state disk.new).contents) (D.given disk.old) (D.given disk.new) result }
    ensures among { IfTreeDamaged result (λ b. IsTrue D.tells → is_among (tree_indexes (blocks_in (D.state disk.old).contents) root.now) b ≡ true) }
    ensures same { IsTrue D.tells → D.state disk.new ≡ D.state disk.old }
    ensures moments { IsTrue D.tells → Adds (D.past disk.old) (D.past disk.new) (λ s. s ≡ D.state disk.old) }
    ensures fixed { D.fixed disk.new ≡ D.fixed disk.old }
    ensures cause { HasTreeCause (D.faults disk.old) (D.faults disk.new) result }
{
    let opened = open_tree(disk, g, root)?;
    let mut leaves = opened.leaves;
    let first = rewrite_first(disk, g, root, leaves.ptrs[0], edit, notes)?;
    leaves.ptrs[0] = first;
    let end = end_of(root.height, edit.height);
    rewrite_rest(disk, g, &mut leaves, end, edit, notes)?;
    Ok(Leaves {
        top: opened.top,
        was: opened.was,
        leaves,
    })
}

/// The block of the root over these leaves: the leaf 0 alone, or a top index. The old top index, if there was one, had the pointers `was`.
fn put_root(
    top: BlockNo,
    was: &Index,
    leaves: &Index,
    height: u32,
    notes: &mut Notes,
) -> Result<BlockNo, AllocError>
    requires long { length was.now.ptrs ≡ 1024 }
    requires some { 1 ≤ height }
    requires at_most { height ≤ 2 }
    requires free { 1 ≤ length notes.old.free }
    ensures rewritten { IfOk result (λ ptr. (read : Blocks) (root : RootOf) (changes : List ChangeOf) (cut : ℕ) (m : Noted)
        → HasLeaves read root changes cut (nat_lt height 2) top was.now.ptrs leaves.now.ptrs m notes.old → InTurn (nonzero leaves.now.ptrs) m notes.old → FitsHeight read root cut height → ChangesFit height changes
        → IsTreeRewritten read root changes cut (record { height = height; ptr = ptr }) m notes.new) }
    ensures takes { OnOk result (Takes notes.old notes.new) }
    ensures uses { OnOk result (Uses [] notes.old notes.new) }
    ensures sound { IfOk result (λ ptr. (g : Layout) → IsPointer g top → All (IsPointer g) leaves.now.ptrs → AreSound g notes.old → AreSound g notes.new × IsPointer g ptr) }
{
    if height == 1 {
        notes.remove(top)?;
        return Ok(leaves.ptrs[0]);
    }
    let ptr = renew(top, was, leaves, notes)?;
    Ok(ptr)
}

/// The block of place 0 of a tree whose leaf 0 gives way to it.
fn give_way<D: Disk>(
    disk: &mut D,
    g: &Geometry,
    root: &TreeRoot,
    leaf: BlockNo,
    edit: &Edit<'_>,
    notes: &mut Notes,
) -> Result<BlockNo, TreeFault>
    requires size { (layout_of g.now).blocks ≡ (D.fixed disk.old).size }
    requires root { IsRoot (layout_of g.now) root.now }
    requires leaf { IsPointer (layout_of g.now) leaf }
    requires order { AreInOrder edit.now.changes.now }
    ensures given { IfOk result (λ ptr. IsTrue D.tells → IsGivenWay edit.now.changes.now edit.now.cut_to leaf (first_of (blocks_in (D.state disk.old).contents) root.now leaf) ptr notes.old notes.new) }
    ensures pages { OnOk result (notes.new.pages ≡ notes.old.pages) }
    ensures free { OnOk result (notes.new.free ≡ notes.old.free) }
    ensures uses { OnOk result (Uses (portion 0 edit.now.changes.now) notes.old notes.new) }
    ensures pointer { IfOk result (λ ptr. LeadInto (layout_of g.now) edit.now.changes.now → IsPointer (layout_of g.now) ptr) }
    ensures damaged { IsTreeDamage (layout_of g.now) D.tells (blocks_in (D.state disk.new).contents) (D.given disk.old) (D.given disk.new) result }
    ensures read { IfTreeDamaged result (IsBlockOf leaf) }
    ensures same { IsTrue D.tells → D.state disk.new ≡ D.state disk.old }
    ensures moments { IsTrue D.tells → Adds (D.past disk.old) (D.past disk.new) (λ s. s ≡ D.state disk.old) }
    ensures fixed { D.fixed disk.new ≡ D.fixed disk.old }
    ensures cause { HasTreeCause (D.faults disk.old) (D.faults disk.new) result }
{
    let was = first_pointers(disk, g, root, leaf)?;
    let index = edited(&was, 0, edit.cut_to, portion_of(edit.changes, 0));
    notes.remove(leaf)?;
    note(&was.ptrs, &index.ptrs, notes)?;
    Ok(index.ptrs[0])
}

/// Rewrites a tree that is one block then.
fn rewrite_to_block<D: Disk>(
    disk: &mut D,
    g: &Geometry,
    root: &TreeRoot,
    edit: &Edit<'_>,
    notes: &mut Notes,
) -> Result<BlockNo, TreeFault>
    requires size { (layout_of g.now).blocks ≡ (D.fixed disk.old).size }
    requires root { IsRoot (layout_of g.now) root.now }
    requires height { edit.now.height ≡ 0 }
    requires changes { ChangesFit 0 edit.now.changes.now }
    requires order { AreInOrder edit.now.changes.now }
    requires fits { IsTrue D.tells → FitsHeight (blocks_in (D.state disk.old).contents) root.now edit.now.cut_to 0 }
    requires free { different (leaves_of edit.now.changes.now) + 3 ≤ length notes.old.free }
    ensures rewritten { IfOk result (λ ptr. IsTrue D.tells → IsTreeRewritten (blocks_in (D.state disk.old).contents) root.now edit.now.changes.now edit.now.cut_to (record { height = 0; ptr = ptr }) notes.old notes.new) }
    ensures takes { OnOk result (Takes notes.old notes.new) }
    ensures uses { OnOk result (Uses edit.now.changes.now notes.old notes.new) }
    ensures sound { IfOk result (λ ptr. LeadInto (layout_of g.now) edit.now.changes.now → AreSound (layout_of g.now) notes.old → AreSound (layout_of g.now) notes.new × IsPointer (layout_of g.now) ptr) }
    ensures damaged { IsTreeDamage (layout_of g.now) D.tells (blocks_in (D.state disk.new).contents) (D.given disk.old) (D.given disk.new) result }
    ensures among { IfTreeDamaged result (λ b. IsTrue D.tells → is_among (tree_indexes (blocks_in (D.state disk.old).contents) root.now) b ≡ true) }
    ensures same { IsTrue D.tells → D.state disk.new ≡ D.state disk.old }
    ensures moments { IsTrue D.tells → Adds (D.past disk.old) (D.past disk.new) (λ s. s ≡ D.state disk.old) }
    ensures fixed { D.fixed disk.new ≡ D.fixed disk.old }
    ensures cause { HasTreeCause (D.faults disk.old) (D.faults disk.new) result }
{
    let mut opened = open_tree(disk, g, root)?;
    let ptr = give_way(disk, g, root, opened.leaves.ptrs[0], edit, notes)?;
    opened.leaves.ptrs[0] = 0;
    rewrite_rest(
        disk,
        g,
        &mut opened.leaves,
        end_of(root.height, 0),
        edit,
        notes,
    )?;
    notes.remove(opened.top)?;
    Ok(ptr)
}

/// Rewrites a tree.
pub(crate) fn rewrite_tree<D: Disk>(
    disk: &mut D,
    g: &Geometry,
    root: &TreeRoot,
    edit: &Edit<'_>,
    notes: &mut Notes,
) -> Result<TreeRoot, TreeFault>
    requires size { (layout_of g.now).blocks ≡ (D.fixed disk.old).size }
    requires root { IsRoot (layout_of g.now) root.now }
    requires height { edit.now.height ≤ 2 }
    requires changes { ChangesFit edit.now.height edit.now.changes.now }
    requires order { AreInOrder edit.now.changes.now }
    requires fits { IsTrue D.tells → FitsHeight (blocks_in (D.state disk.old).contents) root.now edit.now.cut_to edit.now.height }
    requires free { different (leaves_of edit.now.changes.now) + 3 ≤ length notes.old.free }
    ensures rewritten { IfOk result (λ new. IsTrue D.tells → IsTreeRewritten (blocks_in (D.state disk.old).contents) root.now edit.now.changes.now edit.now.cut_to new notes.old notes.new) }
    ensures height { IfOk result (λ new. new.height ≡ edit.now.height) }
    ensures takes { OnOk result (Takes notes.old notes.new) }
    ensures uses { OnOk result (Uses edit.now.changes.now notes.old notes.new) }
    ensures sound { IfOk result (λ new. LeadInto (layout_of g.now) edit.now.changes.now → AreSound (layout_of g.now) notes.old → AreSound (layout_of g.now) notes.new × IsPointer (layout_of g.now) new.ptr) }
    ensures damaged { IsTreeDamage (layout_of g.now) D.tells (blocks_in (D.state disk.new).contents) (D.given disk.old) (D.given disk.new) result }
    ensures among { IfTreeDamaged result (λ b. IsTrue D.tells → is_among (tree_indexes (blocks_in (D.state disk.old).contents) root.now) b ≡ true) }
    ensures same { IsTrue D.tells → D.state disk.new ≡ D.state disk.old }
    ensures moments { IsTrue D.tells → Adds (D.past disk.old) (D.past disk.new) (λ s. s ≡ D.state disk.old) }
    ensures fixed { D.fixed disk.new ≡ D.fixed disk.old }
    ensures cause { HasTreeCause (D.faults disk.old) (D.faults disk.new) result }
{
    if edit.height == 0 {
        let ptr = rewrite_to_block(disk, g, root, edit, notes)?;
        return Ok(TreeRoot { height: 0, ptr });
    }
    let made = rewrite_leaves(disk, g, root, edit, notes)?;
    let ptr = put_root(made.top, &made.was, &made.leaves, edit.height, notes)?;
    Ok(TreeRoot {
        height: edit.height,
        ptr,
    })
}

/// How many leaves there are to go over.
fn end_of(old: u32, new: u32) -> u32
    requires { new ≤ 2 }
    ensures some { 1 ≤ result }
    ensures at_most { result ≤ 1024 }
    ensures low { result ≢ 1024 → (old < 2) × (new < 2) }
{
    if old < 2 && new < 2 { 1 } else { 1_024 }
}
