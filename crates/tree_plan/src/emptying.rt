//! A node that has no blocks any more.
ghost use Rattle.std.specs.Prelude.{◌≡◌, ◌<◌, ◌≤◌, ℕ, [], List, IfOk, IsTrue};
ghost use Rattle.vol_numbers.specs.Geometry.{layout_of};
ghost use Rattle.vol_numbers.specs.declared.block.Block.{Block};
ghost use Rattle.disk_model.specs.Past.{Adds};
ghost use Rattle.block_format.specs.declared.inode.Inode.TheVariants.{Unused};
ghost use Rattle.block_tree.specs.Tree.{blocks_in};
ghost use Rattle.block_tree.specs.Root.{IsRoot};
ghost use Rattle.block_tree.specs.Causes.{HasTreeCause, IsTreeDamage, IfTreeDamaged};
ghost use Rattle.point_model.specs.NodePlan.{TreeIsPlanned, PointersArePlanned, node_pointers};
ghost use Rattle.tree_plan.specs.Trees.{root_of, EndsAt, IsOldIndex};

use crate::TreePlan;
use crate::root::root_of;
use block_format::Inode;
use block_tree::{TreeFault, pointers};
use disk_model::Disk;
use std::alloc::Global;
use vol_numbers::{Geometry, PageList, PointerList};

/// Plans a number that is unused from now on: all pointers of its old tree are dropped, and nothing is written.
pub fn plan_removed<D: Disk>(
    alloc: Global,
    disk: &mut D,
    g: &Geometry,
    was: &Inode,
) -> Result<TreePlan, TreeFault>
    requires volume { (layout_of g.now).blocks ≡ (D.fixed disk.old).size }
    requires was { IsRoot (layout_of g.now) (root_of was.now) }
    ensures unused { IfOk result (λ p. p.inode ≡ Unused) }
    ensures nothing { IfOk result (λ p. (p.pages ≡ []) × (p.added ≡ [])) }
    ensures dropped { IfOk result (λ p. IsTrue D.tells → p.dropped ≡ node_pointers (D.state disk.old).contents was.now) }
    // In each image: where no place outlives the cut, nothing but the cut is planned of its tree.
    ensures tree { IfOk result (λ p. IsTrue D.tells → (cut : ℕ) → EndsAt (D.state disk.old).contents was.now cut 0
        → (new : List Block) → TreeIsPlanned (D.state disk.old).contents new was.now p.inode cut []) }
    ensures pointers { IfOk result (λ p. IsTrue D.tells → (n : ℕ) (new : List Block) → PointersArePlanned (D.state disk.old).contents new n was.now p.inode p.added p.dropped []) }
    ensures damaged { IsTreeDamage (layout_of g.now) D.tells (blocks_in (D.state disk.new).contents) (D.given disk.old) (D.given disk.new) result }
    // A damaged block is one of the index blocks of the old tree.
    ensures among { IfTreeDamaged result (IsOldIndex D.tells (D.state disk.old).contents was.now) }
    ensures same { IsTrue D.tells → D.state disk.new ≡ D.state disk.old }
    ensures moments { IsTrue D.tells → Adds (D.past disk.old) (D.past disk.new) (λ s. s ≡ D.state disk.old) }
    ensures fixed { D.fixed disk.new ≡ D.fixed disk.old }
    ensures cause { HasTreeCause (D.faults disk.old) (D.faults disk.new) result }
{
    without_blocks(alloc, disk, g, was, Inode::Unused)
}

/// Plans a node that has no blocks any more: all pointers of its old tree are dropped.
pub(crate) fn without_blocks<D: Disk>(
    alloc: Global,
    disk: &mut D,
    g: &Geometry,
    was: &Inode,
    is: Inode,
) -> Result<TreePlan, TreeFault>
    requires volume { (layout_of g.now).blocks ≡ (D.fixed disk.old).size }
    requires was { IsRoot (layout_of g.now) (root_of was.now) }
    ensures inode { IfOk result (λ p. p.inode ≡ is) }
    ensures nothing { IfOk result (λ p. (p.pages ≡ []) × (p.added ≡ [])) }
    ensures dropped { IfOk result (λ p. IsTrue D.tells → p.dropped ≡ node_pointers (D.state disk.old).contents was.now) }
    ensures damaged { IsTreeDamage (layout_of g.now) D.tells (blocks_in (D.state disk.new).contents) (D.given disk.old) (D.given disk.new) result }
    ensures among { IfTreeDamaged result (IsOldIndex D.tells (D.state disk.old).contents was.now) }
    ensures same { IsTrue D.tells → D.state disk.new ≡ D.state disk.old }
    ensures moments { IsTrue D.tells → Adds (D.past disk.old) (D.past disk.new) (λ s. s ≡ D.state disk.old) }
    ensures fixed { D.fixed disk.new ≡ D.fixed disk.old }
    ensures cause { HasTreeCause (D.faults disk.old) (D.faults disk.new) result }
{
    let dropped = pointers(alloc, disk, g, &root_of(was))?;
    Ok(TreePlan {
        inode: is,
        pages: PageList::new(alloc),
        added: PointerList::new(alloc),
        dropped,
    })
}
