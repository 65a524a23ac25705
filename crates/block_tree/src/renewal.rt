//! Index blocks that are written afresh where they change.
ghost use Rattle.std.specs.Prelude.{◌≡◌, ◌≤◌, ◌<◌, ◌↔◌, [], ◌∷◌, length, IfOk, OnOk, IsTrue};
ghost use Rattle.block_format.specs.Index.{index_bytes};
ghost use Rattle.block_format.specs.Words.{words};
ghost use Rattle.block_tree.specs.Tree.{nonzero};
ghost use Rattle.block_tree.specs.Renewal.{IsRenewed, IsNoted, NeedsBlock};

use crate::notes::Notes;
use block_format::{Index, write_index};
use std::alloc::AllocError;
use vol_numbers::{Block, BlockNo};

/// The block of these pointers: none where each is 0, the old one where it has just these, and else a fresh one.
pub(crate) fn renew(
    old: BlockNo,
    was: &Index,
    index: &Index,
    notes: &mut Notes,
) -> Result<BlockNo, AllocError>
    requires { NeedsBlock old was.now.ptrs index.now.ptrs → 1 ≤ length notes.old.free }
    ensures { IfOk result (λ new. IsRenewed old was.now.ptrs index.now.ptrs new notes.old notes.new) }
{
    if leads_nowhere(&index.ptrs) {
        notes.remove(old)?;
        return Ok(0);
    }
    if is_kept(old, was, index) {
        return Ok(old);
    }
    notes.remove(old)?;
    let at = notes.write(spelled(index))?;
    Ok(at)
}

/// Whether there is an old block that has just these pointers.
fn is_kept(old: BlockNo, was: &Index, index: &Index) -> bool
    ensures { IsTrue result ↔ ((0 < old) × (index.now.ptrs ≡ was.now.ptrs)) }
{
    old != 0 && index.ptrs == was.ptrs
}

/// Whether no pointer leads to a block.
fn leads_nowhere(ptrs: &[u32]) -> bool
    ensures { IsTrue result ↔ (nonzero ptrs.now ≡ []) }
{
    for ptr in ptrs {
        if *ptr != 0 {
            return false;
        }
    }
    true
}

/// The block that spells these pointers.
fn spelled(index: &Index) -> Block
    ensures spelled { result.bytes ≡ index_bytes index.now.ptrs }
    ensures reads_back { words result.bytes ≡ index.now.ptrs }
{
    let mut block = Block::zero();
    write_index(index, &mut block);
    block
}

/// Notes which pointers come and go.
pub(crate) fn note(was: &[u32], ptrs: &[u32], notes: &mut Notes) -> Result<(), AllocError>
    requires { length was.now ≡ length ptrs.now }
    ensures { OnOk result (IsNoted was.now ptrs.now notes.old notes.new) }
{
    for (i, old) in was.iter().enumerate() {
        note_one(*old, ptrs[i], notes)?;
    }
    Ok(())
}

fn note_one(old: BlockNo, new: BlockNo, notes: &mut Notes) -> Result<(), AllocError>
    ensures { OnOk result (IsNoted (old ∷ []) (new ∷ []) notes.old notes.new) }
{
    if old == new {
        return Ok(());
    }
    notes.remove(old)?;
    notes.add(new)?;
    Ok(())
}
