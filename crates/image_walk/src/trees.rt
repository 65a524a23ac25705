//! The blocks of nodes.
ghost use Rattle.std.specs.Prelude.{◌≡◌, ◌≤◌, ◌<◌, ◌+◌, ◌*◌, ◌==◌, ◌∷◌, ◌++◌, [], ℕ, List, OnOk, IsTrue, length, slice_index, drop};
ghost use Rattle.std.specs.List.{flat_map, list_all};
ghost use Rattle.vol_numbers.specs.Geometry.{layout_of};
ghost use Rattle.vol_numbers.specs.Layout.{Layout, count_blocks};
ghost use Rattle.disk_model.specs.Past.{Adds};
ghost use Rattle.block_format.specs.Index.{IsPointer, IsInArea};
ghost use Rattle.block_tree.specs.Tree.{blocks_in, index_at};
ghost use Rattle.image_model.specs.Walk.{empty_met, places_met, tops_met, leaf_met, leaves_met, tree_met, node_met};
ghost use Rattle.image_walk.specs.Cause.{HasWalkCause, IsNoDevice};
ghost use Rattle.image_walk.specs.declared.marks.Mark.{Mark};
ghost use Rattle.image_walk.specs.Going.{Walks};
ghost use Rattle.image_walk.specs.Kept.{node_lasts, all_lasts};
ghost use Rattle.image_walk.specs.Order.{KeepsOf, InOrder};
ghost use Rattle.image_walk.specs.Reads.{metadata_count, pointer_count};
ghost use Rattle.image_walk.specs.Trees.{owner_met, place_met, top_met, PassesOver, OwnerPasses};

use crate::index::meet_index;
use crate::reached::{Owner, Reached};
use crate::reading::read_pointers;
use crate::{Marks, WalkFault};
use block_format::Inode;
use disk_model::Disk;
use image_model::Finding;
use vol_numbers::{BlockNo, Fbn, Geometry, InoNo};

/// The blocks of all nodes, by their numbers.
pub(crate) fn walk_trees<D: Disk>(
    disk: &mut D,
    g: &Geometry,
    nodes: &[(InoNo, Inode)],
    reached: &mut Reached,
) -> Result<(), WalkFault>
    requires size { (layout_of g.now).blocks ≡ (D.fixed disk.old).size }
    requires marks { length reached.old.marks ≡ 1024 * count_blocks (layout_of g.now) }
    requires order { InOrder (layout_of g.now).blocks nodes.now reached.old }
    ensures walked { IsTrue D.tells → PassesOver (layout_of g.now) reached.old reached.new (flat_map (node_met (blocks_in (D.state disk.old).contents)) nodes.now) (all_lasts (blocks_in (D.state disk.old).contents) nodes.now) result }
    ensures order { OnOk result (InOrder (layout_of g.now).blocks [] reached.new) }
    ensures long { OnOk result (length reached.new.marks ≡ length reached.old.marks) }
    ensures same { IsTrue D.tells → D.state disk.new ≡ D.state disk.old }
    ensures moments { IsTrue D.tells → Adds (D.past disk.old) (D.past disk.new) (λ s. s ≡ D.state disk.old) }
    ensures fixed { D.fixed disk.new ≡ D.fixed disk.old }
    ensures reads { OnOk result (IsTrue D.tells → (D.given disk.new).count ≤ (D.given disk.old).count + metadata_count (flat_map (node_met (blocks_in (D.state disk.old).contents)) nodes.now)) }
    ensures cause { HasWalkCause (D.faults disk.old) (D.faults disk.new) result }
{
    for node in nodes {
        walk_node(disk, g, node, reached)?;
    }
    Ok(())
}

/// The blocks of a node.
fn walk_node<D: Disk>(
    disk: &mut D,
    g: &Geometry,
    node: &(InoNo, Inode),
    reached: &mut Reached,
) -> Result<(), WalkFault>
    requires size { (layout_of g.now).blocks ≡ (D.fixed disk.old).size }
    requires marks { length reached.old.marks ≡ 1024 * count_blocks (layout_of g.now) }
    ensures walked { IsTrue D.tells → PassesOver (layout_of g.now) reached.old reached.new (node_met (blocks_in (D.state disk.old).contents) node.now) (node_lasts (blocks_in (D.state disk.old).contents) node.now) result }
    ensures keeps { OnOk result (KeepsOf (layout_of g.now).blocks node.now.0 reached.old reached.new) }
    ensures long { OnOk result (length reached.new.marks ≡ length reached.old.marks) }
    ensures same { IsTrue D.tells → D.state disk.new ≡ D.state disk.old }
    ensures moments { IsTrue D.tells → Adds (D.past disk.old) (D.past disk.new) (λ s. s ≡ D.state disk.old) }
    ensures fixed { D.fixed disk.new ≡ D.fixed disk.old }
    ensures reads { OnOk result (IsTrue D.tells → (D.given disk.new).count ≤ (D.given disk.old).count + metadata_count (node_met (blocks_in (D.state disk.old).contents) node.now)) }
    ensures cause { HasWalkCause (D.faults disk.old) (D.faults disk.new) result }
{
    match node.1 {
        Inode::Unused => Ok(()),
        Inode::File { size, height, ptr } => {
            let owner = Owner {
                number: node.0,
                is_directory: false,
                blocks: size.div_ceil(4_096),
            };
            walk_tree(disk, g, &owner, height, ptr, reached)
        }
        Inode::Directory { width, height, ptr } => {
            let owner = Owner {
                number: node.0,
                is_directory: true,
                blocks: (256 * u64::from(width)).div_ceil(4_096),
            };
            walk_tree(disk, g, &owner, height, ptr, reached)
        }
    }
}

/// The blocks below a pointer, level by level.
fn walk_tree<D: Disk>(
    disk: &mut D,
    g: &Geometry,
    owner: &Owner,
    height: u32,
    ptr: BlockNo,
    reached: &mut Reached,
) -> Result<(), WalkFault>
    requires size { (layout_of g.now).blocks ≡ (D.fixed disk.old).size }
    requires marks { length reached.old.marks ≡ 1024 * count_blocks (layout_of g.now) }
    ensures walked { IsTrue D.tells → OwnerPasses (layout_of g.now) owner.now reached.old reached.new (tree_met (blocks_in (D.state disk.old).contents) (owner_met owner.now) owner.now.blocks height ptr) result }
    ensures keeps { OnOk result (KeepsOf (layout_of g.now).blocks owner.now.number reached.old reached.new) }
    ensures long { OnOk result (length reached.new.marks ≡ length reached.old.marks) }
    ensures same { IsTrue D.tells → D.state disk.new ≡ D.state disk.old }
    ensures moments { IsTrue D.tells → Adds (D.past disk.old) (D.past disk.new) (λ s. s ≡ D.state disk.old) }
    ensures fixed { D.fixed disk.new ≡ D.fixed disk.old }
    ensures reads { OnOk result (IsTrue D.tells → (D.given disk.new).count ≤ (D.given disk.old).count + metadata_count (tree_met (blocks_in (D.state disk.old).contents) (owner_met owner.now) owner.now.blocks height ptr)) }
    ensures cause { HasWalkCause (D.faults disk.old) (D.faults disk.new) result }
{
    if height == 0 {
        return meet_place(reached, g, owner, 0, ptr);
    }
    meet_index(&mut reached.marks, g, 0 < owner.blocks, ptr)?;
    if height == 1 {
        return walk_leaf(disk, g, owner, 0, ptr, reached);
    }
    walk_top(disk, g, owner, ptr, reached)
}

/// A top index, and then its leaves, where there is one.
fn walk_top<D: Disk>(
    disk: &mut D,
    g: &Geometry,
    owner: &Owner,
    at: BlockNo,
    reached: &mut Reached,
) -> Result<(), WalkFault>
    requires size { (layout_of g.now).blocks ≡ (D.fixed disk.old).size }
    requires at { IsPointer (layout_of g.now) at }
    requires marks { length reached.old.marks ≡ 1024 * count_blocks (layout_of g.now) }
    ensures walked { IsTrue D.tells → OwnerPasses (layout_of g.now) owner.now reached.old reached.new (top_met (blocks_in (D.state disk.old).contents) owner.now at) result }
    ensures keeps { OnOk result (KeepsOf (layout_of g.now).blocks owner.now.number reached.old reached.new) }
    ensures long { OnOk result (length reached.new.marks ≡ length reached.old.marks) }
    ensures same { IsTrue D.tells → D.state disk.new ≡ D.state disk.old }
    ensures moments { IsTrue D.tells → Adds (D.past disk.old) (D.past disk.new) (λ s. s ≡ D.state disk.old) }
    ensures fixed { D.fixed disk.new ≡ D.fixed disk.old }
    ensures reads { OnOk result (IsTrue D.tells → (D.given disk.new).count ≤ (D.given disk.old).count + (pointer_count (at ∷ []) + metadata_count (top_met (blocks_in (D.state disk.old).contents) owner.now at))) }
    ensures cause { HasWalkCause (D.faults disk.old) (D.faults disk.new) result }
{
    if at == 0 {
        return Ok(());
    }
    let tops = read_pointers(disk, g, at)?;
    meet_empty(&tops, at)?;
    meet_tops(&mut reached.marks, g, owner.blocks, &tops)?;
    walk_leaves(disk, g, owner, &tops, reached)
}

/// The leaves of a top index, by position.
fn walk_leaves<D: Disk>(
    disk: &mut D,
    g: &Geometry,
    owner: &Owner,
    tops: &[BlockNo],
    reached: &mut Reached,
) -> Result<(), WalkFault>
    requires size { (layout_of g.now).blocks ≡ (D.fixed disk.old).size }
    requires many { length tops.now ≡ 1024 }
    requires tops { (k : ℕ) → k < 1024 → IsPointer (layout_of g.now) (slice_index tops.now k) }
    requires marks { length reached.old.marks ≡ 1024 * count_blocks (layout_of g.now) }
    ensures walked { IsTrue D.tells → OwnerPasses (layout_of g.now) owner.now reached.old reached.new (leaves_met (blocks_in (D.state disk.old).contents) (owner_met owner.now) owner.now.blocks 0 tops.now) result }
    ensures keeps { OnOk result (KeepsOf (layout_of g.now).blocks owner.now.number reached.old reached.new) }
    ensures long { OnOk result (length reached.new.marks ≡ length reached.old.marks) }
    ensures same { IsTrue D.tells → D.state disk.new ≡ D.state disk.old }
    ensures moments { IsTrue D.tells → Adds (D.past disk.old) (D.past disk.new) (λ s. s ≡ D.state disk.old) }
    ensures fixed { D.fixed disk.new ≡ D.fixed disk.old }
    ensures reads { OnOk result ((D.given disk.new).count ≤ (D.given disk.old).count + pointer_count tops.now) }
    ensures cause { HasWalkCause (D.faults disk.old) (D.faults disk.new) result }
{
    for k in 0..1_024 {
        walk_leaf(disk, g, owner, 1_024 * k, tops[k as usize], reached)?;
    }
    Ok(())
}

/// A leaf, whose pointers are of the places from one on, where there is one.
fn walk_leaf<D: Disk>(
    disk: &mut D,
    g: &Geometry,
    owner: &Owner,
    place: Fbn,
    at: BlockNo,
    reached: &mut Reached,
) -> Result<(), WalkFault>
    requires size { (layout_of g.now).blocks ≡ (D.fixed disk.old).size }
    requires place { place ≤ 1047552 }
    requires at { IsPointer (layout_of g.now) at }
    requires marks { length reached.old.marks ≡ 1024 * count_blocks (layout_of g.now) }
    ensures walked { IsTrue D.tells → OwnerPasses (layout_of g.now) owner.now reached.old reached.new (leaf_met (blocks_in (D.state disk.old).contents) (owner_met owner.now) owner.now.blocks place at) result }
    ensures keeps { OnOk result (KeepsOf (layout_of g.now).blocks owner.now.number reached.old reached.new) }
    ensures long { OnOk result (length reached.new.marks ≡ length reached.old.marks) }
    ensures same { IsTrue D.tells → D.state disk.new ≡ D.state disk.old }
    ensures moments { IsTrue D.tells → Adds (D.past disk.old) (D.past disk.new) (λ s. s ≡ D.state disk.old) }
    ensures fixed { D.fixed disk.new ≡ D.fixed disk.old }
    ensures reads { OnOk result ((D.given disk.new).count ≤ (D.given disk.old).count + pointer_count (at ∷ [])) }
    ensures cause { HasWalkCause (D.faults disk.old) (D.faults disk.new) result }
{
    if at == 0 {
        return Ok(());
    }
    let ptrs = read_pointers(disk, g, at)?;
    meet_empty(&ptrs, at)?;
    meet_places(reached, g, owner, place, &ptrs)
}

/// Whether an index block has a pointer at all.
fn meet_empty(ptrs: &[BlockNo], at: BlockNo) -> Result<(), WalkFault>
    ensures walked { (g : Layout) (marks : List Mark) → Walks g marks marks (empty_met at ptrs.now) result }
    ensures cause { IsNoDevice result }
{
    if are_zero(ptrs) {
        return Err(WalkFault::Found(Finding::BadPointer(at)));
    }
    Ok(())
}

fn are_zero(ptrs: &[BlockNo]) -> bool
    ensures { result ≡ list_all (λ p. p == 0) ptrs.now }
{
    ptrs.iter().all(|ptr| *ptr == 0)
}

/// The pointers of a top index, each of which is of 1,024 places.
fn meet_tops(
    marks: &mut Marks,
    g: &Geometry,
    blocks: u64,
    tops: &[BlockNo],
) -> Result<(), WalkFault>
    requires many { length tops.now ≡ 1024 }
    requires marks { length marks.old ≡ 1024 * count_blocks (layout_of g.now) }
    ensures walked { Walks (layout_of g.now) marks.old marks.new (tops_met blocks 0 tops.now) result }
    ensures counted { OnOk result (pointer_count tops.now ≤ metadata_count (tops_met blocks 0 tops.now)) }
    ensures cause { IsNoDevice result }
    ensures within { OnOk result ((k : ℕ) → k < 1024 → IsPointer (layout_of g.now) (slice_index tops.now k)) }
{
    for k in 0..1_024 {
        meet_index(marks, g, 1_024 * k < blocks, tops[k as usize])?;
    }
    Ok(())
}

/// The pointers of a leaf.
fn meet_places(
    reached: &mut Reached,
    g: &Geometry,
    owner: &Owner,
    place: Fbn,
    ptrs: &[BlockNo],
) -> Result<(), WalkFault>
    requires place { place ≤ 1047552 }
    requires many { length ptrs.now ≡ 1024 }
    requires marks { length reached.old.marks ≡ 1024 * count_blocks (layout_of g.now) }
    ensures walked { OwnerPasses (layout_of g.now) owner.now reached.old reached.new (places_met (owner_met owner.now) owner.now.blocks place ptrs.now) result }
    ensures keeps { OnOk result (KeepsOf (layout_of g.now).blocks owner.now.number reached.old reached.new) }
    ensures cause { IsNoDevice result }
{
    for i in 0..1_024 {
        meet_place(reached, g, owner, place + i, ptrs[i as usize])?;
    }
    Ok(())
}

/// The pointer of a place.
fn meet_place(
    reached: &mut Reached,
    g: &Geometry,
    owner: &Owner,
    place: Fbn,
    ptr: BlockNo,
) -> Result<(), WalkFault>
    requires { length reached.old.marks ≡ 1024 * count_blocks (layout_of g.now) }
    ensures walked { OwnerPasses (layout_of g.now) owner.now reached.old reached.new (place_met owner.now place ptr) result }
    ensures keeps { OnOk result (KeepsOf (layout_of g.now).blocks owner.now.number reached.old reached.new) }
    ensures cause { IsNoDevice result }
{
    if ptr == 0 {
        return Ok(());
    }
    if u64::from(place) >= owner.blocks {
        return Err(WalkFault::Found(Finding::BadPointer(ptr)));
    }
    if owner.is_directory {
        reached.meet_page(g, owner, place, ptr)
    } else {
        reached.meet_content(g, owner, place, ptr)
    }
}
