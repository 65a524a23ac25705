//! Plans the tree of a node by its kind now.
ghost use Rattle.std.specs.Prelude.{◌≡◌, ◌<◌, ◌≤◌, ◌++◌, All, length, IfOk, IsErrOf, OnErr, IsTrue, None, Some, true};
ghost use Rattle.std.specs.Option.{option_copied};
ghost use Rattle.vol_numbers.specs.Geometry.{layout_of};
ghost use Rattle.vol_numbers.specs.declared.runs.Change.{Change as ChangeOf};
ghost use Rattle.disk_model.specs.Past.{Adds};
ghost use Rattle.block_format.specs.Index.{IsPointer};
ghost use Rattle.block_format.specs.Inode.{blocks_of};
ghost use Rattle.block_tree.specs.Notes.{page_blocks};
ghost use Rattle.block_tree.specs.Pages.{LeadInto};
ghost use Rattle.block_tree.specs.Root.{IsRoot};
ghost use Rattle.block_tree.specs.Tree.{blocks_in};
ghost use Rattle.dir_slots.specs.Slots.{IsDirectory};
ghost use Rattle.dirty_store.specs.Overlay.{node_of};
ghost use Rattle.node_table.specs.declared.held.NodeInfo.TheVariants.{File as FileOf};
ghost use Rattle.point_model.specs.Holding.{staged_or, kind_of};
ghost use Rattle.point_model.specs.PointPlan.{told};
ghost use Rattle.node_plan.specs.Faults.{HasNodeCause, IsNodeDamage, IfNodeDamaged};
ghost use Rattle.node_plan.specs.Nodes.{left_after, slots_over, size_in, rough_need, IsTreePlanned};
ghost use Rattle.tree_plan.specs.Pages.{slots_or_none};
ghost use Rattle.tree_plan.specs.Trees.{root_of, IsOldIndex};
ghost use Rattle.node_plan.specs.declared.fault.NodeFault.TheVariants.{Short};

use crate::NodeFault;
use crate::room::{has_room, leaf_count};
use block_format::Inode;
use dir_slots::Directory;
use dirty_store::DirtyStore;
use disk_model::Disk;
use run_allocator::FreeMap;
use std::alloc::Global;
use tree_plan::{TreePlan, plan_directory, plan_file, plan_removed, written_pages};
use vol_numbers::{ChangeList, Geometry, InoNo};

/// Plans the tree of a number by its kind now.
pub(crate) fn plan_tree<D: Disk>(
    alloc: Global,
    disk: &mut D,
    g: &Geometry,
    store: &DirtyStore,
    number: InoNo,
    was: &Inode,
    left: Option<&Directory>,
    changes: &ChangeList,
    free: &mut FreeMap,
) -> Result<TreePlan, NodeFault>
    requires volume { (layout_of g.now).blocks ≡ (D.fixed disk.old).size }
    requires was { IsRoot (layout_of g.now) (root_of was.now) }
    requires slots { IsDirectory (slots_over store.now.overlay number (slots_or_none (option_copied left))) }
    requires size { size_in (staged_or (node_of store.now.overlay number) was.now) ≤ 4294967296 }
    requires places { All (λ (c : ChangeOf). c.place < blocks_of (size_in (staged_or (node_of store.now.overlay number) was.now))) changes.now }
    ensures plan { IfOk result (IsTreePlanned D.tells (D.state disk.old).contents store.now.overlay number was.now (slots_or_none (option_copied left.entry)) changes.now) }
    ensures taken { IfOk result (λ p. page_blocks p.pages ++ free.new ≡ free.old) }
    ensures begins { IfOk result (λ p. LeadInto (layout_of g.now) changes.now → All (IsPointer (layout_of g.now)) free.old → IsRoot (layout_of g.now) (root_of p.inode)) }
    ensures short { IsErrOf result Short → length free.old < rough_need store.now.overlay number was.now (slots_or_none (option_copied left.entry)) changes.now }
    ensures unchanged { OnErr result (free.new ≡ free.old) }
    ensures damaged { IsNodeDamage (layout_of g.now) D.tells (blocks_in (D.state disk.new).contents) (D.given disk.old) (D.given disk.new) result }
    // A damaged block is one of the index blocks of the old tree.
    ensures among { IfNodeDamaged result (IsOldIndex D.tells (D.state disk.old).contents was.now) }
    ensures same { IsTrue D.tells → D.state disk.new ≡ D.state disk.old }
    ensures moments { IsTrue D.tells → Adds (D.past disk.old) (D.past disk.new) (λ s. s ≡ D.state disk.old) }
    ensures fixed { D.fixed disk.new ≡ D.fixed disk.old }
    ensures cause { HasNodeCause (D.faults disk.old) (D.faults disk.new) result }
{
    match inode_now(store, number, was) {
        Inode::Unused => plan_unused(alloc, disk, g, store, number, was, left, changes, free),
        Inode::File { size, .. } => plan_bytes(
            alloc, disk, g, store, number, was, left, changes, size, free,
        ),
        Inode::Directory { .. } => {
            plan_names(alloc, disk, g, store, number, was, left, changes, free)
        }
    }
}

/// The kind and size of a number now: what is staged, else those of the last point.
fn inode_now(store: &DirtyStore, number: InoNo, was: &Inode) -> Inode
    ensures { result ≡ staged_or (node_of store.now.overlay number) was.now }
{
    store.inode(number).unwrap_or(*was)
}

/// The slots that are left of the last point, none where the number was cut to no block since.
fn left_now<'a>(
    store: &DirtyStore,
    number: InoNo,
    left: Option<&'a Directory>,
) -> Option<&'a Directory>
    ensures { slots_or_none (option_copied result) ≡ left_after store.now.overlay number (slots_or_none (option_copied left.entry)) }
{
    if store.cut_to(number) == 0 {
        None
    } else {
        left
    }
}

/// Plans a number that is unused now.
fn plan_unused<D: Disk>(
    alloc: Global,
    disk: &mut D,
    g: &Geometry,
    store: &DirtyStore,
    number: InoNo,
    was: &Inode,
    left: Option<&Directory>,
    changes: &ChangeList,
    free: &mut FreeMap,
) -> Result<TreePlan, NodeFault>
    requires volume { (layout_of g.now).blocks ≡ (D.fixed disk.old).size }
    requires was { IsRoot (layout_of g.now) (root_of was.now) }
    requires now { told (staged_or (node_of store.now.overlay number) was.now) ≡ None }
    ensures plan { IfOk result (IsTreePlanned D.tells (D.state disk.old).contents store.now.overlay number was.now (slots_or_none (option_copied left.entry)) changes.now) }
    ensures taken { IfOk result (λ p. page_blocks p.pages ++ free.new ≡ free.old) }
    ensures begins { IfOk result (λ p. LeadInto (layout_of g.now) changes.now → All (IsPointer (layout_of g.now)) free.old → IsRoot (layout_of g.now) (root_of p.inode)) }
    ensures short { IsErrOf result Short → length free.old < rough_need store.now.overlay number was.now (slots_or_none (option_copied left.entry)) changes.now }
    ensures unchanged { OnErr result (free.new ≡ free.old) }
    ensures damaged { IsNodeDamage (layout_of g.now) D.tells (blocks_in (D.state disk.new).contents) (D.given disk.old) (D.given disk.new) result }
    ensures among { IfNodeDamaged result (IsOldIndex D.tells (D.state disk.old).contents was.now) }
    ensures same { IsTrue D.tells → D.state disk.new ≡ D.state disk.old }
    ensures moments { IsTrue D.tells → Adds (D.past disk.old) (D.past disk.new) (λ s. s ≡ D.state disk.old) }
    ensures fixed { D.fixed disk.new ≡ D.fixed disk.old }
    ensures cause { HasNodeCause (D.faults disk.old) (D.faults disk.new) result }
{
    let plan = plan_removed(alloc, disk, g, was)?;
    Ok(plan)
}

/// Plans a number that is a file now.
fn plan_bytes<D: Disk>(
    alloc: Global,
    disk: &mut D,
    g: &Geometry,
    store: &DirtyStore,
    number: InoNo,
    was: &Inode,
    left: Option<&Directory>,
    changes: &ChangeList,
    size: u64,
    free: &mut FreeMap,
) -> Result<TreePlan, NodeFault>
    requires volume { (layout_of g.now).blocks ≡ (D.fixed disk.old).size }
    requires was { IsRoot (layout_of g.now) (root_of was.now) }
    requires now { told (staged_or (node_of store.now.overlay number) was.now) ≡ Some (FileOf size) }
    requires size { size ≤ 4294967296 }
    requires places { All (λ (c : ChangeOf). c.place < blocks_of size) changes.now }
    ensures plan { IfOk result (IsTreePlanned D.tells (D.state disk.old).contents store.now.overlay number was.now (slots_or_none (option_copied left.entry)) changes.now) }
    ensures taken { IfOk result (λ p. page_blocks p.pages ++ free.new ≡ free.old) }
    ensures begins { IfOk result (λ p. LeadInto (layout_of g.now) changes.now → All (IsPointer (layout_of g.now)) free.old → IsRoot (layout_of g.now) (root_of p.inode)) }
    ensures short { IsErrOf result Short → length free.old < rough_need store.now.overlay number was.now (slots_or_none (option_copied left.entry)) changes.now }
    ensures unchanged { OnErr result (free.new ≡ free.old) }
    ensures damaged { IsNodeDamage (layout_of g.now) D.tells (blocks_in (D.state disk.new).contents) (D.given disk.old) (D.given disk.new) result }
    ensures among { IfNodeDamaged result (IsOldIndex D.tells (D.state disk.old).contents was.now) }
    ensures same { IsTrue D.tells → D.state disk.new ≡ D.state disk.old }
    ensures moments { IsTrue D.tells → Adds (D.past disk.old) (D.past disk.new) (λ s. s ≡ D.state disk.old) }
    ensures fixed { D.fixed disk.new ≡ D.fixed disk.old }
    ensures cause { HasNodeCause (D.faults disk.old) (D.faults disk.new) result }
{
    if !has_room(free, leaf_count(changes), 3) {
        return Err(NodeFault::Short);
    }
    let cut_to = store.cut_to(number);
    let plan = plan_file(alloc, disk, g, was, size, cut_to, changes, free)?;
    Ok(plan)
}

/// Plans a number that is a directory now.
fn plan_names<D: Disk>(
    alloc: Global,
    disk: &mut D,
    g: &Geometry,
    store: &DirtyStore,
    number: InoNo,
    was: &Inode,
    left: Option<&Directory>,
    changes: &ChangeList,
    free: &mut FreeMap,
) -> Result<TreePlan, NodeFault>
    requires volume { (layout_of g.now).blocks ≡ (D.fixed disk.old).size }
    requires was { IsRoot (layout_of g.now) (root_of was.now) }
    requires now { kind_of (staged_or (node_of store.now.overlay number) was.now) ≡ Some true }
    requires slots { IsDirectory (slots_over store.now.overlay number (slots_or_none (option_copied left))) }
    ensures plan { IfOk result (IsTreePlanned D.tells (D.state disk.old).contents store.now.overlay number was.now (slots_or_none (option_copied left.entry)) changes.now) }
    ensures taken { IfOk result (λ p. page_blocks p.pages ++ free.new ≡ free.old) }
    ensures begins { IfOk result (λ p. LeadInto (layout_of g.now) changes.now → All (IsPointer (layout_of g.now)) free.old → IsRoot (layout_of g.now) (root_of p.inode)) }
    ensures short { IsErrOf result Short → length free.old < rough_need store.now.overlay number was.now (slots_or_none (option_copied left.entry)) changes.now }
    ensures unchanged { OnErr result (free.new ≡ free.old) }
    ensures damaged { IsNodeDamage (layout_of g.now) D.tells (blocks_in (D.state disk.new).contents) (D.given disk.old) (D.given disk.new) result }
    ensures among { IfNodeDamaged result (IsOldIndex D.tells (D.state disk.old).contents was.now) }
    ensures same { IsTrue D.tells → D.state disk.new ≡ D.state disk.old }
    ensures moments { IsTrue D.tells → Adds (D.past disk.old) (D.past disk.new) (λ s. s ≡ D.state disk.old) }
    ensures fixed { D.fixed disk.new ≡ D.fixed disk.old }
    ensures cause { HasNodeCause (D.faults disk.old) (D.faults disk.new) result }
{
    let left = left_now(store, number, left);
    let places = written_pages(alloc, left, store, number)?;
    if !has_room(free, places.len(), 7) {
        return Err(NodeFault::Short);
    }
    let plan = plan_directory(alloc, disk, g, store, number, was, left, free)?;
    Ok(plan)
}
