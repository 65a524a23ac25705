//! The inode blocks.
ghost use Rattle.std.specs.Prelude.{◌≡◌, ◌≤◌, ◌<◌, ◌+◌, ◌∷◌, ◌++◌, [], ℕ, List, Some, false, if◌then◌else◌, IfOk, OnOk, IsTrue, length, slice_index};
ghost use Rattle.std.specs.List.{flat_map};
ghost use Rattle.vol_numbers.specs.Geometry.{layout_of};
ghost use Rattle.disk_model.specs.Past.{Adds};
ghost use Rattle.block_format.specs.Index.{IsPointer};
ghost use Rattle.block_format.specs.Inode.{inode_at, inode_in, inode_part, is_inode, pointer_of};
ghost use Rattle.vol_numbers.specs.Layout.{Layout};
ghost use Rattle.image_model.specs.Met.{stray};
ghost use Rattle.block_tree.specs.Tree.{blocks_in};
ghost use Rattle.image_model.specs.Walk.{bad_met, block_met, blocks_met, inodes_from, blocks_inodes, nodes_of, is_used};
ghost use Rattle.image_walk.specs.Cause.{HasWalkCause, IsNoDevice};
ghost use Rattle.image_walk.specs.Going.{Checks};
ghost use Rattle.image_walk.specs.Order.{NodesGrow};
ghost use Rattle.image_walk.specs.Inodes.{block_at, inodes_at};
ghost use Rattle.image_walk.specs.Reads.{pointer_count};

use crate::WalkFault;
use crate::area::is_in_area;
use crate::reading::read_block;
use crate::stray::stray_in;
use block_format::{Inode, read_any_inode};
use disk_model::Disk;
use image_model::Finding;
use std::alloc::AllocError;
use vol_numbers::{Block, BlockNo, Geometry, InoNo};

/// How many bytes an inode has.
const INODE_SIZE: usize = 64;

/// The inode blocks by position, and their inodes by number. The used ones are added to the nodes.
pub(crate) fn walk_inodes<D: Disk>(
    disk: &mut D,
    g: &Geometry,
    entries: &[BlockNo],
    nodes: &mut Vec<(InoNo, Inode)>,
) -> Result<(), WalkFault>
    requires size { (layout_of g.now).blocks ≡ (D.fixed disk.old).size }
    requires many { length entries.now ≡ 1024 }
    requires entries { (k : ℕ) → k < 1024 → IsPointer (layout_of g.now) (slice_index entries.now k) }
    ensures walked { IsTrue D.tells → Checks (layout_of g.now) (blocks_met (blocks_in (D.state disk.old).contents) 0 entries.now) result }
    ensures nodes { OnOk result (IsTrue D.tells → nodes.new.items ≡ nodes.old.items ++ nodes_of (blocks_inodes (blocks_in (D.state disk.old).contents) 0 entries.now)) }
    ensures grows { OnOk result (NodesGrow 0 65536 nodes.old.items nodes.new.items) }
    ensures same { IsTrue D.tells → D.state disk.new ≡ D.state disk.old }
    ensures moments { IsTrue D.tells → Adds (D.past disk.old) (D.past disk.new) (λ s. s ≡ D.state disk.old) }
    ensures fixed { D.fixed disk.new ≡ D.fixed disk.old }
    ensures reads { OnOk result ((D.given disk.new).count ≤ (D.given disk.old).count + pointer_count entries.now) }
    ensures cause { HasWalkCause (D.faults disk.old) (D.faults disk.new) result }
{
    for k in 0..1_024 {
        walk_block(disk, g, entries[k as usize], 64 * k, nodes)?;
    }
    Ok(())
}

/// An inode block, whose numbers are from one on, where there is one.
fn walk_block<D: Disk>(
    disk: &mut D,
    g: &Geometry,
    at: BlockNo,
    first: InoNo,
    nodes: &mut Vec<(InoNo, Inode)>,
) -> Result<(), WalkFault>
    requires size { (layout_of g.now).blocks ≡ (D.fixed disk.old).size }
    requires at { IsPointer (layout_of g.now) at }
    requires first { first ≤ 65472 }
    ensures walked { IsTrue D.tells → Checks (layout_of g.now) (block_at (blocks_in (D.state disk.old).contents) first at) result }
    ensures nodes { OnOk result (IsTrue D.tells → nodes.new.items ≡ nodes.old.items ++ nodes_of (inodes_at (blocks_in (D.state disk.old).contents) first at)) }
    ensures grows { OnOk result (NodesGrow first (first + 64) nodes.old.items nodes.new.items) }
    ensures same { IsTrue D.tells → D.state disk.new ≡ D.state disk.old }
    ensures moments { IsTrue D.tells → Adds (D.past disk.old) (D.past disk.new) (λ s. s ≡ D.state disk.old) }
    ensures fixed { D.fixed disk.new ≡ D.fixed disk.old }
    ensures reads { OnOk result ((D.given disk.new).count ≤ (D.given disk.old).count + pointer_count (at ∷ [])) }
    ensures cause { HasWalkCause (D.faults disk.old) (D.faults disk.new) result }
{
    if at == 0 {
        return Ok(());
    }
    let block = read_block(disk, g, at)?;
    meet_block(&block, g, first, nodes)
}

/// The inodes of a block, of which one has to be used.
fn meet_block(
    block: &Block,
    g: &Geometry,
    first: InoNo,
    nodes: &mut Vec<(InoNo, Inode)>,
) -> Result<(), WalkFault>
    requires { first ≤ 65472 }
    ensures walked { Checks (layout_of g.now) (block_met first (inodes_from 64 first block.now.bytes)) result }
    ensures nodes { OnOk result (nodes.new.items ≡ nodes.old.items ++ nodes_of (inodes_from 64 first block.now.bytes)) }
    ensures grows { OnOk result (NodesGrow first (first + 64) nodes.old.items nodes.new.items) }
    ensures cause { IsNoDevice result }
{
    let before = nodes.len();
    meet_inodes(block, g, first, nodes)?;
    if nodes.len() == before {
        return Err(WalkFault::Found(Finding::BadInode(first)));
    }
    Ok(())
}

/// The inodes of a block, by number.
fn meet_inodes(
    block: &Block,
    g: &Geometry,
    first: InoNo,
    nodes: &mut Vec<(InoNo, Inode)>,
) -> Result<(), WalkFault>
    requires { first ≤ 65472 }
    ensures walked { Checks (layout_of g.now) (flat_map bad_met (inodes_from 64 first block.now.bytes)) result }
    ensures nodes { OnOk result (nodes.new.items ≡ nodes.old.items ++ nodes_of (inodes_from 64 first block.now.bytes)) }
    ensures cause { IsNoDevice result }
{
    for k in 0..64 {
        let inode = meet_inode(block, g, k, first + k)?;
        keep_node(nodes, first + k, inode)?;
    }
    Ok(())
}

/// The inode k of a block, as the inode of a number.
fn meet_inode(block: &Block, g: &Geometry, k: u32, n: InoNo) -> Result<Inode, WalkFault>
    requires { k < 64 }
    ensures walked { Checks (layout_of g.now) (bad_met (n, inode_part k block.now.bytes)) result }
    ensures inode { IfOk result (λ inode. inode ≡ inode_in (inode_part k block.now.bytes)) }
    ensures cause { IsNoDevice result }
{
    match read_any_inode(block, k) {
        Some(inode) => meet_good(n, inode),
        None => {
            let at = INODE_SIZE * k as usize;
            meet_bad(&block.bytes[at..at + INODE_SIZE], g, n)
        }
    }
}

/// An inode within the grammar: number 0 may not be used.
fn meet_good(n: InoNo, inode: Inode) -> Result<Inode, WalkFault>
    ensures walked { (g : Layout) (bytes : List ℕ) → inode_at bytes ≡ Some inode → Checks g (bad_met (n, bytes)) result }
    ensures inode { IfOk result (λ x. x ≡ inode) }
    ensures cause { IsNoDevice result }
{
    if n == 0 && is_used(&inode) {
        return Err(WalkFault::Found(Finding::BadInode(n)));
    }
    Ok(inode)
}

/// An inode outside the grammar. Where it only has a pointer that it shouldn't have, and that leads nowhere, the pointer is what is wrong.
fn meet_bad(bytes: &[u8], g: &Geometry, n: InoNo) -> Result<Inode, WalkFault>
    requires many { length bytes.now ≡ 64 }
    requires outside { is_inode bytes.now ≡ false }
    ensures walked { Checks (layout_of g.now) (bad_met (n, bytes.now)) result }
    ensures inode { IfOk result (λ inode. inode ≡ inode_in bytes.now) }
    ensures cause { IsNoDevice result }
{
    if n == 0 {
        return Err(WalkFault::Found(Finding::BadInode(n)));
    }
    match stray_in(bytes) {
        Some(inode) => meet_stray(g, n, inode),
        None => Err(WalkFault::Found(Finding::BadInode(n))),
    }
}

/// A node of no bytes that has a pointer.
fn meet_stray(g: &Geometry, n: InoNo, inode: Inode) -> Result<Inode, WalkFault>
    ensures walked { Checks (layout_of g.now) (stray n (pointer_of inode) ∷ []) result }
    ensures inode { IfOk result (λ x. x ≡ inode) }
    ensures cause { IsNoDevice result }
{
    if is_in_area(inode.pointer(), g) {
        return Err(WalkFault::Found(Finding::BadInode(n)));
    }
    Ok(inode)
}

/// A node more, if the inode is used.
fn keep_node(nodes: &mut Vec<(InoNo, Inode)>, n: InoNo, inode: Inode) -> Result<(), AllocError>
    ensures { OnOk result (nodes.new.items ≡ nodes.old.items ++ (if is_used inode then (n, inode) ∷ [] else [])) }
{
    if is_used(&inode) {
        nodes.push((n, inode))?;
    }
    Ok(())
}

/// Whether the number is a node's.
fn is_used(inode: &Inode) -> bool
    ensures { result ≡ is_used inode.now }
{
    match inode {
        Inode::Unused => false,
        Inode::File { .. } | Inode::Directory { .. } => true,
    }
}
