//! Plans a node by its kind now.
ghost use Rattle.std.specs.Prelude.{◌≡◌, ◌<◌, ◌≤◌, ◌+◌, ◌++◌, ℕ, All, length, List, IfOk, IsErrOf, OnErr, IsTrue, Some, true};
ghost use Rattle.std.specs.Option.{option_copied, option_map};
ghost use Rattle.vol_numbers.specs.Geometry.{layout_of};
ghost use Rattle.vol_numbers.specs.declared.block.Block.{Block};
ghost use Rattle.vol_numbers.specs.declared.runs.Change.{Change as ChangeOf};
ghost use Rattle.disk_model.specs.Past.{Adds};
ghost use Rattle.place_words.specs.Different.{is_among, times};
ghost use Rattle.block_format.specs.Index.{IsPointer};
ghost use Rattle.block_format.specs.Inode.{blocks_of, inode_shape};
ghost use Rattle.block_tree.specs.Notes.{Stand, page_blocks, change_blocks};
ghost use Rattle.block_tree.specs.Pages.{LeadInto};
ghost use Rattle.block_tree.specs.Root.{IsRoot, tree_indexes};
ghost use Rattle.block_tree.specs.Tree.{blocks_in};
ghost use Rattle.dir_slots.specs.Slots.{IsDirectory};
ghost use Rattle.dirty_store.specs.Overlay.{node_of};
ghost use Rattle.node_table.specs.Held.{info};
ghost use Rattle.node_table.specs.declared.held.NodeInfo.TheVariants.{File as FileOf};
ghost use Rattle.point_model.specs.Holding.{staged_or, kind_of};
ghost use Rattle.point_model.specs.NodePlan.{node_metas};
ghost use Rattle.point_model.specs.PointPlan.{LiveStays, told};
ghost use Rattle.volume_model.specs.Machine.{Machine, Rules};
ghost use Rattle.node_plan.specs.Faults.{HasNodeCause, IsNodeDamage};
ghost use Rattle.node_plan.specs.Nodes.{left_after, slots_over, node_over, size_in, rough_need, IsAtPoint, PlansNode, IsTreePlanned};
ghost use Rattle.tree_plan.specs.Pages.{slots_or_none};
ghost use Rattle.tree_plan.specs.Trees.{root_of};
ghost use Rattle.node_plan.specs.declared.fault.NodeFault.TheVariants.{Damaged, Short};

use crate::counting::{index_count, index_count_with};
use crate::kinds::plan_tree;
use crate::{NodeFault, NodePlan};
use block_format::Inode;
use dir_slots::Directory;
use dirty_store::DirtyStore;
use disk_model::Disk;
use run_allocator::FreeMap;
use std::alloc::Global;
use tree_plan::{own_pages, root_of};
use vol_numbers::{ChangeList, Geometry, InoNo};

/// Plans a number of which something is staged, by its kind now. It writes nothing.
///
/// `was` is its inode at the last point, and `left` has its slots then, where it was a directory. `changes` are its dirty places with the fresh blocks that they get,
/// none where it is no file now. Where fewer blocks are free than are enough whatever the old tree is, the answer is `Short`.
pub fn plan_node<D: Disk>(
    alloc: Global,
    disk: &mut D,
    g: &Geometry,
    store: &DirtyStore,
    number: InoNo,
    was: &Inode,
    left: Option<&Directory>,
    changes: &ChangeList,
    free: &mut FreeMap,
) -> Result<NodePlan, NodeFault>
    requires volume { (layout_of g.now).blocks ≡ (D.fixed disk.old).size }
    requires was { IsRoot (layout_of g.now) (root_of was.now) }
    requires slots { IsDirectory (slots_over store.now.overlay number (slots_or_none (option_copied left))) }
    requires size { size_in (staged_or (node_of store.now.overlay number) was.now) ≤ 4294967296 }
    requires places { All (λ (c : ChangeOf). c.place < blocks_of (size_in (staged_or (node_of store.now.overlay number) was.now))) changes.now }
    ensures shape { IfOk result (λ p. IsTrue (inode_shape p.inode)) }
    // On every disk the inode is of the kind and size of now.
    ensures kind { IfOk result (λ p. told p.inode ≡ option_map info (node_over store.now.overlay number was.now (slots_or_none (option_copied left.entry)))) }
    // In each image in which the pages stand, and the live blocks as they were, the number is planned, where the old image holds what is handed in.
    ensures planned { IfOk result (λ p. IsTrue D.tells → PlansNode (D.state disk.old).contents store.now.overlay number was.now (slots_or_none (option_copied left.entry)) changes.now p.inode p.added p.dropped p.pages) }
    ensures metadata_before { IfOk result (λ p. IsTrue D.tells → (r : Rules) (m : Machine) → IsAtPoint r (D.state disk.old).contents store.now.overlay m number was.now (slots_or_none (option_copied left.entry))
        → p.metadata_before ≡ length (node_metas (D.state disk.old).contents number was.now)) }
    ensures metadata { IfOk result (λ p. IsTrue D.tells → (r : Rules) (m : Machine) → IsAtPoint r (D.state disk.old).contents store.now.overlay m number was.now (slots_or_none (option_copied left.entry))
        → (new : List Block) → LiveStays (D.state disk.old).contents new → Stand p.pages (blocks_in new) → p.metadata ≡ length (node_metas new number p.inode)) }
    // Each page is a block of metadata.
    ensures at_most { IfOk result (λ p. IsTrue D.tells → (r : Rules) (m : Machine) → IsAtPoint r (D.state disk.old).contents store.now.overlay m number was.now (slots_or_none (option_copied left.entry))
        → (new : List Block) → LiveStays (D.state disk.old).contents new → Stand p.pages (blocks_in new) → length (page_blocks p.pages) ≤ p.metadata) }
    // What comes leads to a page or to the block of a change, and no more often.
    ensures used { IfOk result (λ p. (b : ℕ) → times b p.added ≤ times b (page_blocks p.pages) + times b (change_blocks changes.now)) }
    ensures taken { IfOk result (λ p. page_blocks p.pages ++ free.new ≡ free.old) }
    // Where the changes and the free blocks lead nowhere or into the area, so does the inode.
    ensures begins { IfOk result (λ p. LeadInto (layout_of g.now) changes.now → All (IsPointer (layout_of g.now)) free.old → IsRoot (layout_of g.now) (root_of p.inode)) }
    ensures short { IsErrOf result Short → length free.old < rough_need store.now.overlay number was.now (slots_or_none (option_copied left.entry)) changes.now }
    ensures unchanged { OnErr result (free.new ≡ free.old) }
    ensures damaged { IsNodeDamage (layout_of g.now) D.tells (blocks_in (D.state disk.new).contents) (D.given disk.old) (D.given disk.new) result }
    // A damaged block is one of the index blocks of the old tree.
    ensures among { (b : ℕ) → IsErrOf result (Damaged b) → IsTrue D.tells → is_among (tree_indexes (blocks_in (D.state disk.old).contents) (root_of was.now)) b ≡ true }
    ensures same { IsTrue D.tells → D.state disk.new ≡ D.state disk.old }
    ensures moments { IsTrue D.tells → Adds (D.past disk.old) (D.past disk.new) (λ s. s ≡ D.state disk.old) }
    ensures fixed { D.fixed disk.new ≡ D.fixed disk.old }
    ensures cause { HasNodeCause (D.faults disk.old) (D.faults disk.new) result }
{
    let root_before = root_of(was);
    let indexes_before = index_count(disk, g, &root_before)?;
    let own_before = own_pages(was);
    let plan = plan_tree(alloc, disk, g, store, number, was, left, changes, free)?;
    let root = root_of(&plan.inode);
    let pages = plan.pages.as_slice();
    let indexes = index_count_with(&root, pages, indexes_before);
    let own = own_pages(&plan.inode);
    Ok(NodePlan {
        metadata_before: indexes_before + own_before,
        metadata: indexes + own,
        inode: plan.inode,
        pages: plan.pages,
        added: plan.added,
        dropped: plan.dropped,
    })
}
