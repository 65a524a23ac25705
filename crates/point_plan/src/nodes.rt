//! Plans the staged numbers, one after the other.
ghost use Rattle.std.specs.Prelude.{◌≡◌, ◌≤◌, ◌<◌, ◌+◌, ◌++◌, ◌∷◌, [], ℕ, All, length, List, map, IfOk, OnOk, OnErr, IsErrOf, IsTrue, option_map};
ghost use Rattle.std.specs.List.{AllZip, flat_map};
ghost use Rattle.vol_numbers.specs.Geometry.{layout_of};
ghost use Rattle.vol_numbers.specs.declared.block.Block.{Block};
ghost use Rattle.disk_model.specs.Past.{Adds};
ghost use Rattle.block_format.specs.Index.{IsPointer};
ghost use Rattle.block_format.specs.Inode.{inode_shape};
ghost use Rattle.block_tree.specs.Notes.{Stand, page_blocks, change_blocks};
ghost use Rattle.block_tree.specs.Pages.{LeadInto};
ghost use Rattle.block_tree.specs.Tree.{blocks_in};
ghost use Rattle.dirty_store.specs.Laws.{dirty_spots};
ghost use Rattle.dirty_store.specs.Numbers.{AreOnce, staged_numbers};
ghost use Rattle.held_list.specs.Held.{slots_at};
ghost use Rattle.inode_file.specs.Inodes.{inode_of};
ghost use Rattle.inode_file.specs.Loading.{IsWhole};
ghost use Rattle.node_plan.specs.Faults.{HasNodeCause, IsNodeDamage};
ghost use Rattle.node_plan.specs.Nodes.{rough_need};
ghost use Rattle.tree_plan.specs.Pages.{slots_or_none};
ghost use Rattle.node_plan.specs.declared.fault.NodeFault.TheVariants.{Damaged, Short};
ghost use Rattle.node_table.specs.Held.{info};
ghost use Rattle.place_words.specs.Different.{times};
ghost use Rattle.point_model.specs.NodePlan.{node_metas};
ghost use Rattle.point_model.specs.PointPlan.{LiveStays, told};
ghost use Rattle.point_plan.specs.Gathered.{numbers_in, pages_in};
ghost use Rattle.point_plan.specs.Made.{AreNodesPlanned};
ghost use Rattle.point_plan.specs.Nodes.{Ascend, HadInodes, all_added};
ghost use Rattle.point_plan.specs.PlanNodes.{AreAllOfPlaces, AreAtDirty, IsPlanOf, IsPlanWhereTold, StopsShort};
ghost use Rattle.point_plan.specs.State.{HoldsPoint, IsOfSize, node_in};
ghost use Rattle.point_plan.specs.declared.planned_node.PlannedNode.{PlannedNode as NodeOf};
ghost use Rattle.volume_model.specs.Machine.{Machine, Rules};
ghost use Rattle.volume_model.specs.Places.{Places};

use crate::{PlannedNode, PlannedNodeList, PointState};
use disk_model::Disk;
use node_plan::{NodeFault, plan_node};
use run_allocator::FreeMap;
use std::alloc::{AllocError, Global};
use vol_numbers::{ChangeList, InoNo};

/// Plans each staged number, by number, with its changes at its place of their list. It writes nothing.
///
/// On refusal the free blocks of the numbers before are taken.
pub(crate) fn plan_nodes<D: Disk>(
    alloc: Global,
    disk: &mut D,
    state: &PointState,
    numbers: &[InoNo],
    changes: &[ChangeList],
    free: &mut FreeMap,
) -> Result<PlannedNodeList, NodeFault>
    requires size { IsOfSize (D.fixed disk.old).size state.now }
    requires numbers { AreOnce (staged_numbers state.now.dirty.overlay) numbers.now }
    requires changes { AllZip (AreAtDirty (dirty_spots state.now.dirty.overlay)) numbers.now changes.now }
    ensures ascend { IfOk result (Ascend 1) }
    ensures numbers { IfOk result (λ nodes. numbers_in nodes ≡ numbers.now) }
    ensures had { IfOk result (HadInodes state.now.inodes.inodes) }
    ensures shapes { IfOk result (All (λ (p : NodeOf). IsTrue (inode_shape p.is))) }
    ensures were_shapes { IfOk result (All (λ (p : NodeOf). IsTrue (inode_shape p.was))) }
    ensures kinds { IfOk result (All (λ (p : NodeOf). told p.is ≡ option_map info (node_in state.now p.number))) }
    // In each image in which the pages stand, and the live blocks as they were, all numbers are planned.
    ensures planned { IfOk result (λ nodes. IsTrue D.tells → (r : Rules) (m : Machine) → HoldsPoint r m (D.state disk.old).contents state.now
        → (placed : Places) → AreAllOfPlaces m.dirty placed numbers.now changes.now → AreNodesPlanned (D.state disk.old).contents state.now.dirty.overlay m placed nodes) }
    ensures metadata_before { IfOk result (λ nodes. IsTrue D.tells → (r : Rules) (m : Machine) → HoldsPoint r m (D.state disk.old).contents state.now
        → All (λ (p : NodeOf). p.metadata_before ≡ length (node_metas (D.state disk.old).contents p.number p.was)) nodes) }
    ensures metadata { IfOk result (λ nodes. IsTrue D.tells → (r : Rules) (m : Machine) → HoldsPoint r m (D.state disk.old).contents state.now
        → (new : List Block) → LiveStays (D.state disk.old).contents new → All (λ (p : NodeOf). Stand p.pages (blocks_in new)) nodes
        → All (λ (p : NodeOf). p.metadata ≡ length (node_metas new p.number p.is)) nodes) }
    // Each page is a block of metadata.
    ensures at_most { IfOk result (λ nodes. IsTrue D.tells → (r : Rules) (m : Machine) → HoldsPoint r m (D.state disk.old).contents state.now
        → (new : List Block) → LiveStays (D.state disk.old).contents new → All (λ (p : NodeOf). Stand p.pages (blocks_in new)) nodes
        → All (λ (p : NodeOf). length (page_blocks p.pages) ≤ p.metadata) nodes) }
    // What comes leads to a page or to the block of a change, and no more often.
    ensures used { IfOk result (λ nodes. (b : ℕ) → times b (all_added nodes) ≤ times b (pages_in nodes) + times b (flat_map change_blocks changes.now)) }
    ensures taken { IfOk result (λ nodes. pages_in nodes ++ free.new ≡ free.old) }
    // Where the free blocks and the changes lead nowhere or into the area, so do the inodes.
    ensures begins { IfOk result (λ nodes. All (IsPointer (layout_of state.now.geometry)) free.old → All (LeadInto (layout_of state.now.geometry)) changes.now
        → All (λ (p : NodeOf). IsWhole (layout_of state.now.geometry) p.is) nodes) }
    ensures short { IsErrOf result Short → StopsShort D.tells (D.state disk.old).contents state.now numbers.now changes.now free.old }
    ensures left { OnErr result ((taken : List ℕ) × (taken ++ free.new ≡ free.old)) }
    ensures damaged { IsNodeDamage (layout_of state.now.geometry) D.tells (blocks_in (D.state disk.new).contents) (D.given disk.old) (D.given disk.new) result }
    // Over contents that hold a machine no block is damaged.
    ensures sound { (b : ℕ) → IsErrOf result (Damaged b) → IsTrue D.tells → (r : Rules) (m : Machine) → HoldsPoint r m (D.state disk.old).contents state.now → ⊥ }
    ensures same { IsTrue D.tells → D.state disk.new ≡ D.state disk.old }
    ensures moments { IsTrue D.tells → Adds (D.past disk.old) (D.past disk.new) (λ s. s ≡ D.state disk.old) }
    ensures fixed { D.fixed disk.new ≡ D.fixed disk.old }
    ensures cause { HasNodeCause (D.faults disk.old) (D.faults disk.new) result }
{
    let mut nodes = Vec::new(alloc);
    for k in 0..numbers.len() {
        let node = plan_number(alloc, disk, state, numbers[k], &changes[k], free)?;
        add_node(&mut nodes, node)?;
    }
    Ok(PlannedNodeList::from_vec(nodes))
}

/// Plans a staged number, from what memory has of it.
fn plan_number<D: Disk>(
    alloc: Global,
    disk: &mut D,
    state: &PointState,
    number: InoNo,
    changes: &ChangeList,
    free: &mut FreeMap,
) -> Result<PlannedNode, NodeFault>
    requires size { IsOfSize (D.fixed disk.old).size state.now }
    requires number { number ≤ 65535 }
    requires changes { AreAtDirty (dirty_spots state.now.dirty.overlay) number changes.now }
    ensures number { IfOk result (λ p. p.number ≡ number) }
    ensures plan { IfOk result (IsPlanOf state.now) }
    ensures over { IfOk result (IsPlanWhereTold D.tells (D.state disk.old).contents state.now (number ∷ []) (changes.now ∷ [])) }
    ensures used { IfOk result (λ p. (b : ℕ) → times b p.added ≤ times b (page_blocks p.pages) + times b (change_blocks changes.now)) }
    ensures taken { IfOk result (λ p. page_blocks p.pages ++ free.new ≡ free.old) }
    ensures begins { IfOk result (λ p. All (IsPointer (layout_of state.now.geometry)) free.old → LeadInto (layout_of state.now.geometry) changes.now → IsWhole (layout_of state.now.geometry) p.is) }
    ensures short { IsErrOf result Short → length free.old < rough_need state.now.dirty.overlay number (inode_of state.now.inodes.inodes number) (slots_or_none (slots_at state.now.directories number)) changes.now }
    ensures unchanged { OnErr result (free.new ≡ free.old) }
    ensures damaged { IsNodeDamage (layout_of state.now.geometry) D.tells (blocks_in (D.state disk.new).contents) (D.given disk.old) (D.given disk.new) result }
    // Over contents that hold a machine no block is damaged.
    ensures sound { (b : ℕ) → IsErrOf result (Damaged b) → IsTrue D.tells → (r : Rules) (m : Machine) → HoldsPoint r m (D.state disk.old).contents state.now → ⊥ }
    ensures same { IsTrue D.tells → D.state disk.new ≡ D.state disk.old }
    ensures moments { IsTrue D.tells → Adds (D.past disk.old) (D.past disk.new) (λ s. s ≡ D.state disk.old) }
    ensures fixed { D.fixed disk.new ≡ D.fixed disk.old }
    ensures cause { HasNodeCause (D.faults disk.old) (D.faults disk.new) result }
{
    let was = state.inodes.get(number);
    let left = state.directories.get(number);
    let plan = plan_node(
        alloc,
        disk,
        &state.geometry,
        &state.dirty,
        number,
        &was,
        left,
        changes,
        free,
    )?;
    Ok(PlannedNode {
        number,
        was,
        is: plan.inode,
        pages: plan.pages,
        added: plan.added,
        dropped: plan.dropped,
        metadata_before: plan.metadata_before,
        metadata: plan.metadata,
    })
}

/// Puts a planned node behind the others.
fn add_node(nodes: &mut Vec<PlannedNode>, node: PlannedNode) -> Result<(), AllocError>
    ensures { OnOk result (nodes.new.items ≡ nodes.old.items ++ node ∷ []) }
{
    nodes.push(node)?;
    Ok(())
}
