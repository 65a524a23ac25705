//! Blocks that are stored on a disk and used in a cache, and runs of dirty blocks.
ghost use Rattle.std.specs.Prelude.{◌≡◌, ◌<◌, ◌≤◌, ◌+◌, OnOk, IfOk, IsTrue, length, ◌∷◌, []};
ghost use Rattle.sequence_rule.specs.Matches.{LieBelow, HaveFingerprints};

use content_model::{ContentCache, fingerprint};
use disk_model::{Disk, DiskFault};
use sequence_rule::{BlockList, DirtyRun, DirtyRunList, DirtyRuns};
use std::alloc::{AllocError, Global};
use vol_numbers::{Block, BlockNo, Fbn};

/// Writes a block of one letter, and uses it.
fn store<D: Disk, K: ContentCache>(
    disk: &mut D,
    cache: &mut K,
    at: BlockNo,
    letter: u8,
) -> Result<(), DiskFault>
    requires at { at < (D.fixed disk.old).size }
    requires blocks { LieBelow (D.fixed disk.old).size (K.list cache.old) }
    requires fingerprints { IsTrue D.tells → HaveFingerprints (D.state disk.old).contents (K.list cache.old) }
    ensures blocks { OnOk result (LieBelow (D.fixed disk.old).size (K.list cache.new)) }
    ensures fingerprints { OnOk result (IsTrue D.tells → HaveFingerprints (D.state disk.new).contents (K.list cache.new)) }
    ensures fixed { D.fixed disk.new ≡ D.fixed disk.old }
{
    let block = Block::filled(letter);
    disk.write_block(at, &block)?;
    cache.use_block(&fingerprint(&block), at);
    Ok(())
}

/// Stores blocks one after the other.
pub(crate) fn store_all<D: Disk, K: ContentCache>(
    disk: &mut D,
    cache: &mut K,
    blocks: &[(BlockNo, u8)],
) -> Result<(), DiskFault>
    requires blocks { LieBelow (D.fixed disk.old).size (K.list cache.old) }
    requires fingerprints { IsTrue D.tells → HaveFingerprints (D.state disk.old).contents (K.list cache.old) }
    ensures blocks { OnOk result (LieBelow (D.fixed disk.new).size (K.list cache.new)) }
    ensures fingerprints { OnOk result (IsTrue D.tells → HaveFingerprints (D.state disk.new).contents (K.list cache.new)) }
    ensures fixed { D.fixed disk.new ≡ D.fixed disk.old }
{
    for row in blocks {
        if row.0 >= disk.blocks() {
            return Err(DiskFault);
        }
        store(disk, cache, row.0, row.1)?;
    }
    Ok(())
}

/// A block of each letter.
fn blocks_of(alloc: Global, letters: &[u8]) -> Result<BlockList, AllocError>
    ensures { IfOk result (λ blocks. length blocks ≡ length letters.now) }
{
    let mut blocks = Vec::new(alloc);
    for letter in letters {
        blocks.push(Block::filled(*letter))?;
    }
    Ok(BlockList::from_vec(blocks))
}

fn run_of(alloc: Global, first: Fbn, letters: &[u8]) -> Result<DirtyRun, AllocError>
    ensures first { IfOk result (λ run. run.first ≡ first) }
    ensures blocks { IfOk result (λ run. length run.blocks ≡ length letters.now) }
{
    Ok(DirtyRun {
        first,
        blocks: blocks_of(alloc, letters)?,
    })
}

fn runs_of(alloc: Global, run: DirtyRun) -> Result<DirtyRunList, AllocError>
    ensures { IfOk result (λ runs. runs ≡ run ∷ []) }
{
    let mut runs = Vec::new(alloc);
    runs.push(run)?;
    Ok(DirtyRunList::from_vec(runs))
}

/// One run of letters from the first place on.
pub(crate) fn one_run(alloc: Global, letters: &[u8]) -> Result<DirtyRuns, AllocError>
    requires some { 0 < length letters.now }
    requires few { length letters.now ≤ 1048576 }
{
    let run = run_of(alloc, 0, letters)?;
    Ok(DirtyRuns {
        runs: runs_of(alloc, run)?,
    })
}

fn both_runs(alloc: Global, first: DirtyRun, second: DirtyRun) -> Result<DirtyRunList, AllocError>
    ensures { IfOk result (λ runs. runs ≡ first ∷ second ∷ []) }
{
    let mut runs = Vec::new(alloc);
    runs.push(first)?;
    runs.push(second)?;
    Ok(DirtyRunList::from_vec(runs))
}

/// Two runs of letters, the second from the place behind the gap after the first.
pub(crate) fn two_runs(alloc: Global, first: &[u8], second: &[u8]) -> Result<DirtyRuns, AllocError>
    requires first { 0 < length first.now }
    requires second { 0 < length second.now }
    requires few { length first.now + length second.now ≤ 1000 }
{
    let run = run_of(alloc, 0, first)?;
    let next = run_of(alloc, first.len() as u32 + 1, second)?;
    Ok(DirtyRuns {
        runs: both_runs(alloc, run, next)?,
    })
}
