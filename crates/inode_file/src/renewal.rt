//! Inode blocks and the inode index, written afresh where they change.
ghost use Rattle.std.specs.Prelude.{◌≡◌, ◌<◌, ◌≤◌, ◌+◌, ◌*◌, ◌++◌, ◌↔◌, not, bytes_eq, ℕ, true, IsTrue, IfOk, OnOk, List, length};
ghost use Rattle.block_format.specs.Words.{words};
ghost use Rattle.block_format.specs.Inode.{inode_shape};
ghost use Rattle.inode_file.specs.Inodes.{inode_of, block_of};
ghost use Rattle.inode_file.specs.Rewriting.{is_current, is_fresh, is_written, passing_from};
ghost use Rattle.inode_file.specs.Counting.{used_positions};
ghost use Rattle.inode_file.specs.Renewal.{IsRenewed, AreRenewed, IsIndexRenewed};

use crate::inode_block::{INODES, are_same, has_used, spelled};
use crate::notes::Notes;
use block_format::{Index, Inode, write_index};
use run_allocator::FreeMap;
use std::alloc::AllocError;
use vol_numbers::{Block, BlockNo};

/// The inodes of the block at a position.
pub(crate) fn block_of(inodes: &[Inode], k: usize) -> &[Inode]
    requires { 64 * k + 64 ≤ length inodes.now }
    ensures { result.now ≡ block_of inodes.now k }
{
    let first = INODES * k;
    &inodes[first..first + INODES]
}

/// Whether there is an inode block that has just these inodes.
fn is_current(ptr: BlockNo, was: &[Inode], inodes: &[Inode]) -> bool
    ensures { result ≡ is_current ptr was.now inodes.now }
{
    ptr != 0 && are_same(was, inodes)
}

/// Whether these inodes are to be written into a fresh block.
pub(crate) fn is_fresh(ptr: BlockNo, was: &[Inode], inodes: &[Inode]) -> bool
    ensures { result ≡ is_fresh ptr was.now inodes.now }
{
    has_used(inodes) && !is_current(ptr, was, inodes)
}

/// The block of these inodes: none where no node has one of them, the old one where it has just these, and else a fresh one.
fn renew_block(
    old: BlockNo,
    was: &[Inode],
    inodes: &[Inode],
    free: &mut FreeMap,
    notes: &mut Notes,
) -> Result<BlockNo, AllocError>
    requires many { length inodes.now ≡ 64 }
    requires shape { (j : ℕ) → IsTrue (inode_shape (inode_of inodes.now j)) }
    requires free { is_fresh old was.now inodes.now ≡ true → 1 ≤ length free.old }
    ensures { IfOk result (λ new. IsRenewed old was.now inodes.now new free.old free.new notes.old notes.new) }
{
    if !has_used(inodes) {
        notes.remove(old)?;
        return Ok(0);
    }
    if is_current(old, was, inodes) {
        return Ok(old);
    }
    notes.remove(old)?;
    let at = free.take_one();
    notes.write(at, spelled(inodes))?;
    Ok(at)
}

/// Renews the inode blocks, by position.
pub(crate) fn renew_blocks(
    inodes: &[Inode],
    stored: &[Inode],
    pointers: &mut Index,
    free: &mut FreeMap,
    notes: &mut Notes,
) -> Result<(), AllocError>
    requires inodes { length inodes.now ≡ 65536 }
    requires stored { length stored.now ≡ 65536 }
    requires shape { (n : ℕ) → IsTrue (inode_shape (inode_of inodes.now n)) }
    requires free { length (passing_from (is_written (record { inodes = inodes.now; stored = stored.now; pointers = pointers.old.ptrs; index = 0 })) 0 pointers.old.ptrs) + 1 ≤ length free.old }
    ensures renewed { OnOk result (AreRenewed (record { inodes = inodes.now; stored = stored.now; pointers = pointers.old.ptrs; index = 0 }) 1024 pointers.new.ptrs free.old free.new notes.old notes.new) }
    ensures left { OnOk result (1 ≤ length free.new) }
{
    for k in 0..1_024 {
        let was = block_of(stored, k);
        let block = block_of(inodes, k);
        let new = renew_block(pointers.ptrs[k], was, block, free, notes)?;
        pointers.ptrs[k] = new;
    }
    Ok(())
}

/// The inode index of these pointers: the old one where it has just these, and else a fresh one.
pub(crate) fn renew_index(
    old: BlockNo,
    was: &Index,
    index: &Index,
    free: &mut FreeMap,
    notes: &mut Notes,
) -> Result<BlockNo, AllocError>
    requires old { 0 < old }
    requires free { 1 ≤ length free.old }
    ensures { IfOk result (λ new. IsIndexRenewed (not (bytes_eq was.now.ptrs index.now.ptrs)) old was.now.ptrs index.now.ptrs new free.old free.new notes.old notes.new) }
{
    if is_same(&was.ptrs, &index.ptrs) {
        return Ok(old);
    }
    notes.remove(old)?;
    let at = free.take_one();
    notes.write(at, spelled_index(index))?;
    Ok(at)
}

/// Whether these are the same pointers.
fn is_same(ptrs: &[BlockNo], other: &[BlockNo]) -> bool
    ensures test { result ≡ bytes_eq ptrs.now other.now }
    ensures is { IsTrue result ↔ (ptrs.now ≡ other.now) }
{
    ptrs == other
}

/// The block that spells these pointers.
fn spelled_index(index: &Index) -> Block
    ensures { words result.bytes ≡ index.now.ptrs }
{
    let mut block = Block::zero();
    write_index(index, &mut block);
    block
}

/// How many inode blocks are to be written afresh.
pub(crate) fn count_fresh(inodes: &[Inode], stored: &[Inode], pointers: &Index) -> u32
    requires inodes { length inodes.now ≡ 65536 }
    requires stored { length stored.now ≡ 65536 }
    ensures is { result ≡ length (passing_from (is_written (record { inodes = inodes.now; stored = stored.now; pointers = pointers.now.ptrs; index = 0 })) 0 pointers.now.ptrs) }
    ensures at_most { result ≤ 1024 }
{
    let mut count = 0;
    for k in 0..1_024 {
        if is_fresh(pointers.ptrs[k], block_of(stored, k), block_of(inodes, k)) {
            count += 1;
        }
    }
    count
}

/// How many positions have the number of a node.
pub(crate) fn count_used(inodes: &[Inode]) -> u32
    requires { length inodes.now ≡ 65536 }
    ensures is { result ≡ used_positions inodes.now }
    ensures at_most { result ≤ 1024 }
{
    let mut count = 0;
    for k in 0..1_024 {
        if has_used(block_of(inodes, k)) {
            count += 1;
        }
    }
    count
}

/// Makes the second inodes the same as the first.
pub(crate) fn copy_inodes(inodes: &[Inode], stored: &mut Vec<Inode>)
    requires { length inodes.now ≡ length stored.old.items }
    ensures { stored.new.items ≡ inodes.now }
{
    stored.copy_from_slice(inodes);
}
