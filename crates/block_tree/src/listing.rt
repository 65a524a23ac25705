//! Lists the pointers of a tree.
ghost use Rattle.std.specs.Prelude.{◌≡◌, ◌∷◌, ◌++◌, ℕ, true, [], All, length, IfOk, OnOk, IsErrOf, IsTrue};
ghost use Rattle.std.specs.List.{flat_map};
ghost use Rattle.vol_numbers.specs.Geometry.{layout_of};
ghost use Rattle.disk_model.specs.Past.{Adds};
ghost use Rattle.block_format.specs.Index.{IsPointer};
ghost use Rattle.place_words.specs.Different.{is_among};
ghost use Rattle.block_tree.specs.Tree.{blocks_in, index_at, nonzero};
ghost use Rattle.block_tree.specs.Root.{tree_indexes, tree_pointers, IsRoot};
ghost use Rattle.block_tree.specs.Parts.{all_pointers};
ghost use Rattle.block_tree.specs.Causes.{HasTreeCause, IsTreeDamage, IfTreeDamaged, IsBlockAmong};
ghost use Rattle.block_tree.specs.declared.fault.TreeFault.TheVariants.{Damaged};

use crate::looking::entries;
use crate::{TreeFault, TreeRoot};
use block_format::Index;
use disk_model::Disk;
use std::alloc::{AllocError, Global};
use vol_numbers::{BlockNo, Geometry, PointerList};

/// The pointers of a tree to blocks, with repeats: to its index blocks, that of the root first, and then to the blocks of its places, in their order.
pub fn pointers<D: Disk>(
    alloc: Global,
    disk: &mut D,
    g: &Geometry,
    root: &TreeRoot,
) -> Result<PointerList, TreeFault>
    requires size { (layout_of g.now).blocks ≡ (D.fixed disk.old).size }
    requires root { IsRoot (layout_of g.now) root.now }
    ensures pointers { IfOk result (λ ptrs. IsTrue D.tells → ptrs ≡ tree_pointers (blocks_in (D.state disk.old).contents) root.now) }
    ensures damaged { IsTreeDamage (layout_of g.now) D.tells (blocks_in (D.state disk.new).contents) (D.given disk.old) (D.given disk.new) result }
    // A damaged block is one of the tree's index blocks.
    ensures among { (b : ℕ) → IsErrOf result (Damaged b) → IsTrue D.tells → is_among (tree_indexes (blocks_in (D.state disk.old).contents) root.now) b ≡ true }
    ensures same { IsTrue D.tells → D.state disk.new ≡ D.state disk.old }
    ensures moments { IsTrue D.tells → Adds (D.past disk.old) (D.past disk.new) (λ s. s ≡ D.state disk.old) }
    ensures fixed { D.fixed disk.new ≡ D.fixed disk.old }
    ensures cause { HasTreeCause (D.faults disk.old) (D.faults disk.new) result }
{
    let mut out = Vec::new(alloc);
    push_tree(disk, g, root, &mut out)?;
    Ok(PointerList::from_vec(out))
}

/// The pointers of a tree, level by level.
fn push_tree<D: Disk>(
    disk: &mut D,
    g: &Geometry,
    root: &TreeRoot,
    out: &mut Vec<BlockNo>,
) -> Result<(), TreeFault>
    requires size { (layout_of g.now).blocks ≡ (D.fixed disk.old).size }
    requires root { IsRoot (layout_of g.now) root.now }
    ensures pushed { OnOk result (IsTrue D.tells → out.new.items ≡ out.old.items ++ nonzero (all_pointers (blocks_in (D.state disk.old).contents) root.now)) }
    ensures damaged { IsTreeDamage (layout_of g.now) D.tells (blocks_in (D.state disk.new).contents) (D.given disk.old) (D.given disk.new) result }
    ensures among { IfTreeDamaged result (λ b. IsTrue D.tells → is_among (tree_indexes (blocks_in (D.state disk.old).contents) root.now) b ≡ true) }
    ensures same { IsTrue D.tells → D.state disk.new ≡ D.state disk.old }
    ensures moments { IsTrue D.tells → Adds (D.past disk.old) (D.past disk.new) (λ s. s ≡ D.state disk.old) }
    ensures fixed { D.fixed disk.new ≡ D.fixed disk.old }
    ensures cause { HasTreeCause (D.faults disk.old) (D.faults disk.new) result }
{
    push_one(out, root.ptr)?;
    if root.height == 0 {
        return Ok(());
    }
    let top = entries(disk, g, root.ptr)?;
    push_all(out, &top.ptrs)?;
    if root.height == 1 {
        return Ok(());
    }
    push_leaves(disk, g, &top, out)?;
    Ok(())
}

/// The pointers of some leaves.
fn push_leaves<D: Disk>(
    disk: &mut D,
    g: &Geometry,
    tops: &Index,
    out: &mut Vec<BlockNo>,
) -> Result<(), TreeFault>
    requires size { (layout_of g.now).blocks ≡ (D.fixed disk.old).size }
    requires tops { All (IsPointer (layout_of g.now)) tops.now.ptrs }
    ensures pushed { OnOk result (IsTrue D.tells → out.new.items ≡ out.old.items ++ nonzero (flat_map (index_at (blocks_in (D.state disk.old).contents)) tops.now.ptrs)) }
    ensures damaged { IsTreeDamage (layout_of g.now) D.tells (blocks_in (D.state disk.new).contents) (D.given disk.old) (D.given disk.new) result }
    ensures read { IfTreeDamaged result (IsBlockAmong 0 tops.now.ptrs) }
    ensures same { IsTrue D.tells → D.state disk.new ≡ D.state disk.old }
    ensures moments { IsTrue D.tells → Adds (D.past disk.old) (D.past disk.new) (λ s. s ≡ D.state disk.old) }
    ensures fixed { D.fixed disk.new ≡ D.fixed disk.old }
    ensures cause { HasTreeCause (D.faults disk.old) (D.faults disk.new) result }
{
    for i in 0..1_024 {
        let index = entries(disk, g, tops.ptrs[i])?;
        push_all(out, &index.ptrs)?;
    }
    Ok(())
}

/// Those of these pointers that lead to blocks.
fn push_all(out: &mut Vec<BlockNo>, ptrs: &[u32]) -> Result<(), AllocError>
    ensures { OnOk result (out.new.items ≡ out.old.items ++ nonzero ptrs.now) }
{
    for ptr in ptrs {
        push_one(out, *ptr)?;
    }
    Ok(())
}

fn push_one(out: &mut Vec<BlockNo>, ptr: BlockNo) -> Result<(), AllocError>
    ensures { OnOk result (out.new.items ≡ out.old.items ++ nonzero (ptr ∷ [])) }
{
    if ptr != 0 {
        out.push(ptr)?;
    }
    Ok(())
}
