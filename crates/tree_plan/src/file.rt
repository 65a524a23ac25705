//! Plans a file.
ghost use Rattle.std.specs.Prelude.{◌≡◌, ◌<◌, ◌≤◌, ◌+◌, ◌++◌, ℕ, All, length, List, IfOk, OnErr, IsTrue, false};
ghost use Rattle.vol_numbers.specs.Geometry.{layout_of};
ghost use Rattle.vol_numbers.specs.declared.block.Block.{Block};
ghost use Rattle.vol_numbers.specs.declared.runs.Change.{Change as ChangeOf};
ghost use Rattle.disk_model.specs.Past.{Adds};
ghost use Rattle.place_words.specs.Different.{different, is_among, times};
ghost use Rattle.block_format.specs.Index.{IsPointer};
ghost use Rattle.block_format.specs.Inode.{blocks_of, inode_shape, pointer_of};
ghost use Rattle.block_format.specs.declared.inode.Inode.TheVariants.{File};
ghost use Rattle.block_tree.specs.Tree.{blocks_in};
ghost use Rattle.block_tree.specs.Root.{IsRoot};
ghost use Rattle.block_tree.specs.Notes.{page_blocks, change_blocks};
ghost use Rattle.block_tree.specs.Pages.{LeadInto};
ghost use Rattle.block_tree.specs.Edit.{leaves_of};
ghost use Rattle.block_tree.specs.Causes.{HasTreeCause, IsTreeDamage, IfTreeDamaged};
ghost use Rattle.image_model.specs.Planned.{height_in};
ghost use Rattle.point_model.specs.NodePlan.{TreeIsPlanned, PointersArePlanned, node_metas};
ghost use Rattle.tree_plan.specs.Trees.{root_of, IsFullTree, EndsAt, Carries, IsTop, IsOldIndex};

use crate::TreePlan;
use crate::emptying::without_blocks;
use crate::root::{cut_within, root_of};
use block_format::Inode;
use block_tree::{TreeFault, rewrite};
use disk_model::Disk;
use run_allocator::FreeMap;
use std::alloc::Global;
use vol_numbers::{ChangeList, Fbn, Geometry};

/// Plans a file of a size, from an old tree whose places from `cut_to` on are dropped and in which the changes are made then. It writes nothing.
///
/// The lowest free blocks are taken for the index blocks that are written.
pub fn plan_file<D: Disk>(
    alloc: Global,
    disk: &mut D,
    g: &Geometry,
    was: &Inode,
    size: u64,
    cut_to: Fbn,
    changes: &ChangeList,
    free: &mut FreeMap,
) -> Result<TreePlan, TreeFault>
    requires volume { (layout_of g.now).blocks ≡ (D.fixed disk.old).size }
    requires was { IsRoot (layout_of g.now) (root_of was.now) }
    requires size { size ≤ 4294967296 }
    requires changes { All (λ (c : ChangeOf). c.place < blocks_of size) changes.now }
    requires free { different (leaves_of changes.now) + 3 ≤ length free.old }
    ensures inode { IfOk result (λ p. p.inode ≡ File size (height_in p.inode) (pointer_of p.inode)) }
    ensures shape { IfOk result (λ p. IsTrue (inode_shape p.inode)) }
    // In each image in which the pages stand, and the old index blocks as they were, the tree is the old one after the cut and the changes, where no place past the size outlives the cut.
    ensures tree { IfOk result (λ p. IsTrue D.tells → EndsAt (D.state disk.old).contents was.now cut_to (blocks_of size) → IsFullTree (D.state disk.old).contents was.now → (new : List Block) → Carries (D.state disk.old).contents new was.now p.pages
        → TreeIsPlanned (D.state disk.old).contents new was.now p.inode cut_to changes.now) }
    // Its pointers are the old ones with those added and without those dropped, and its metadata is some of the old or a page's.
    ensures pointers { IfOk result (λ p. IsTrue D.tells → (n : ℕ) (new : List Block) → Carries (D.state disk.old).contents new was.now p.pages
        → PointersArePlanned (D.state disk.old).contents new n was.now p.inode p.added p.dropped (page_blocks p.pages)) }
    // In such an image its metadata is at least the pages.
    ensures at_most { IfOk result (λ p. IsTrue D.tells → (n : ℕ) (new : List Block) → Carries (D.state disk.old).contents new was.now p.pages → length (page_blocks p.pages) ≤ length (node_metas new n p.inode)) }
    // A top index is a page's or the old one.
    ensures top { IfOk result (λ p. IsTrue D.tells → height_in p.inode ≡ 2 → 0 < pointer_of p.inode → is_among (page_blocks p.pages) (pointer_of p.inode) ≡ false → IsTop was.now (pointer_of p.inode)) }
    // What comes leads to a page or to the block of a change, and no more often.
    ensures used { IfOk result (λ p. (b : ℕ) → times b p.added ≤ times b (page_blocks p.pages) + times b (change_blocks changes.now)) }
    ensures taken { IfOk result (λ p. page_blocks p.pages ++ free.new ≡ free.old) }
    // Where the changes and the free blocks lead nowhere or into the area, so does the inode.
    ensures begins { IfOk result (λ p. LeadInto (layout_of g.now) changes.now → All (IsPointer (layout_of g.now)) free.old → IsRoot (layout_of g.now) (root_of p.inode)) }
    ensures unchanged { OnErr result (free.new ≡ free.old) }
    ensures damaged { IsTreeDamage (layout_of g.now) D.tells (blocks_in (D.state disk.new).contents) (D.given disk.old) (D.given disk.new) result }
    // A damaged block is one of the index blocks of the old tree.
    ensures among { IfTreeDamaged result (IsOldIndex D.tells (D.state disk.old).contents was.now) }
    ensures same { IsTrue D.tells → D.state disk.new ≡ D.state disk.old }
    ensures moments { IsTrue D.tells → Adds (D.past disk.old) (D.past disk.new) (λ s. s ≡ D.state disk.old) }
    ensures fixed { D.fixed disk.new ≡ D.fixed disk.old }
    ensures cause { HasTreeCause (D.faults disk.old) (D.faults disk.new) result }
{
    if size == 0 {
        let is = Inode::File {
            size,
            height: 0,
            ptr: 0,
        };
        return without_blocks(alloc, disk, g, was, is);
    }
    let root = root_of(was);
    let cut = cut_within(cut_to, size);
    let made = rewrite(alloc, disk, g, &root, cut, changes, size, free)?;
    Ok(TreePlan {
        inode: Inode::File {
            size,
            height: made.root.height,
            ptr: made.root.ptr,
        },
        pages: made.pages,
        added: made.added,
        dropped: made.dropped,
    })
}
