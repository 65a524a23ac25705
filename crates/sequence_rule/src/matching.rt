//! Finds the cached blocks that hold the bytes of each dirty block.
ghost use Rattle.std.specs.Prelude.{◌≡◌, ◌≤◌, ◌<◌, ◌&&◌, ◌+◌, ◌∷◌, [], ◌++◌, ℕ, List, IfOk, OnOk, IsTrue, length, true};
ghost use Rattle.vol_numbers.specs.Cause.{HasCause};
ghost use Rattle.disk_model.specs.Past.{Adds};
ghost use Rattle.place_words.specs.Different.{is_among};
ghost use Rattle.sha2.specs.Sha256.{sha256};
ghost use Rattle.volume_model.specs.Cache.{cached_blocks, kin};
ghost use Rattle.volume_model.specs.Sharing.{same_bytes};
ghost use Rattle.sequence_rule.specs.Causes.{HasFindCause};
ghost use Rattle.sequence_rule.specs.Matched.{IsRowOf, AreRowsOf};
ghost use Rattle.sequence_rule.specs.Matches.{holds, HaveFingerprints, LieBelow};
ghost use Rattle.sequence_rule.specs.Runs.{DirtyBlock, blocks_from, dirty_blocks};

use crate::matched::PlaceMatches;
use crate::{DirtyRun, DirtyRuns, FindFault};
use content_model::{ContentCache, KinList, Steps, fingerprint};
use disk_model::{Disk, DiskFault};
use std::alloc::{AllocError, Global};
use std::sync::ledger::{Blank, Ledger};
use vol_numbers::{Block, BlockNo, Fbn};

/// A row for each dirty place, in their order.
pub(crate) fn match_all<D: Disk, K: ContentCache, L: Ledger>(
    alloc: Global,
    dirty: &DirtyRuns,
    cache: &K,
    disk: &mut D,
    blank: Blank,
) -> Result<Vec<PlaceMatches>, FindFault>
    requires name { blank.name ≡ L.name }
    requires parts { blank.parts ≡ L.parts }
    requires some { 0 < L.parts }
    requires blocks { LieBelow (D.fixed disk.old).size (K.list cache.now) }
    requires fingerprints { IsTrue D.tells → HaveFingerprints (D.state disk.old).contents (K.list cache.now) }
    ensures rows { IfOk result (λ rows. AreRowsOf D.tells (K.list cache.now) (D.state disk.old).contents (dirty_blocks dirty.now.runs) rows.items) }
    ensures same { IsTrue D.tells → D.state disk.new ≡ D.state disk.old }
    ensures moments { IsTrue D.tells → Adds (D.past disk.old) (D.past disk.new) (λ s. s ≡ D.state disk.old) }
    ensures fixed { D.fixed disk.new ≡ D.fixed disk.old }
    ensures given { (D.given disk.old).count ≤ (D.given disk.new).count }
    ensures cause { HasFindCause (D.faults disk.old) (D.faults disk.new) result }
{
    let mut steps = Steps::<L>::new(blank);
    let mut rows = Vec::new(alloc);
    for run in dirty.runs.as_slice() {
        match_run(&mut rows, run, cache, disk, &mut steps)?;
    }
    Ok(rows)
}

/// Adds the rows of a run.
fn match_run<D: Disk, K: ContentCache, L: Ledger>(
    rows: &mut Vec<PlaceMatches>,
    run: &DirtyRun,
    cache: &K,
    disk: &mut D,
    steps: &mut Steps<L>,
) -> Result<(), FindFault>
    requires places { run.now.first + length run.now.blocks ≤ 1048576 }
    requires blocks { LieBelow (D.fixed disk.old).size (K.list cache.now) }
    requires fingerprints { IsTrue D.tells → HaveFingerprints (D.state disk.old).contents (K.list cache.now) }
    ensures rows { OnOk result ((dirty : List DirtyBlock) → AreRowsOf D.tells (K.list cache.now) (D.state disk.old).contents dirty rows.old.items
        → AreRowsOf D.tells (K.list cache.now) (D.state disk.old).contents (dirty ++ blocks_from run.now.first run.now.blocks) rows.new.items) }
    ensures same { IsTrue D.tells → D.state disk.new ≡ D.state disk.old }
    ensures moments { IsTrue D.tells → Adds (D.past disk.old) (D.past disk.new) (λ s. s ≡ D.state disk.old) }
    ensures fixed { D.fixed disk.new ≡ D.fixed disk.old }
    ensures given { (D.given disk.old).count ≤ (D.given disk.new).count }
    ensures cause { HasFindCause (D.faults disk.old) (D.faults disk.new) result }
{
    for (n, block) in run.blocks.as_slice().iter().enumerate() {
        let row = match_block(run.first + n as u32, block, cache, disk, steps)?;
        push_row(rows, row)?;
    }
    Ok(())
}

fn push_row(rows: &mut Vec<PlaceMatches>, row: PlaceMatches) -> Result<(), AllocError>
    ensures { OnOk result (rows.new.items ≡ rows.old.items ++ row ∷ []) }
{
    rows.push(row)?;
    Ok(())
}

/// The row of a dirty block. The block is hashed once, and each cached block of its fingerprint is read and compared.
fn match_block<D: Disk, K: ContentCache, L: Ledger>(
    place: Fbn,
    block: &Block,
    cache: &K,
    disk: &mut D,
    steps: &mut Steps<L>,
) -> Result<PlaceMatches, DiskFault>
    requires blocks { LieBelow (D.fixed disk.old).size (K.list cache.now) }
    requires fingerprints { IsTrue D.tells → HaveFingerprints (D.state disk.old).contents (K.list cache.now) }
    ensures row { IfOk result (IsRowOf D.tells (K.list cache.now) (D.state disk.old).contents (place, block.now)) }
    ensures same { IsTrue D.tells → D.state disk.new ≡ D.state disk.old }
    ensures moments { IsTrue D.tells → Adds (D.past disk.old) (D.past disk.new) (λ s. s ≡ D.state disk.old) }
    ensures fixed { D.fixed disk.new ≡ D.fixed disk.old }
    ensures given { (D.given disk.old).count ≤ (D.given disk.new).count }
    ensures cause { HasCause (D.faults disk.old) (D.faults disk.new) result }
{
    let kin = candidates(block, cache, steps);
    let blocks = holding(disk, kin.as_slice(), block)?;
    Ok(PlaceMatches { place, blocks })
}

/// The cached blocks of the fingerprint of a block.
fn candidates<K: ContentCache, L: Ledger>(block: &Block, cache: &K, steps: &mut Steps<L>) -> KinList
    ensures { (at : ℕ) → is_among result at ≡ is_among (cached_blocks (kin (K.list cache.now) (sha256 block.now.bytes))) at }
{
    let mut kin = KinList::new();
    cache.kin(&fingerprint(block), &mut kin, steps);
    kin
}

/// Those of these disk blocks that hold the same bytes.
fn holding<D: Disk>(disk: &mut D, kin: &[BlockNo], block: &Block) -> Result<KinList, DiskFault>
    requires few { length kin.now ≤ 8 }
    requires within { (at : ℕ) → is_among kin.now at ≡ true → at < (D.fixed disk.old).size }
    ensures kin { IfOk result (λ blocks. (at : ℕ) → is_among blocks at ≡ true → is_among kin.now at ≡ true) }
    ensures holding { IfOk result (λ blocks. IsTrue D.tells → (at : ℕ) → is_among blocks at ≡ (is_among kin.now at && holds (D.state disk.old).contents at block.now)) }
    ensures same { IsTrue D.tells → D.state disk.new ≡ D.state disk.old }
    ensures moments { IsTrue D.tells → Adds (D.past disk.old) (D.past disk.new) (λ s. s ≡ D.state disk.old) }
    ensures fixed { D.fixed disk.new ≡ D.fixed disk.old }
    ensures given { (D.given disk.old).count ≤ (D.given disk.new).count }
    ensures cause { HasCause (D.faults disk.old) (D.faults disk.new) result }
{
    let mut blocks = KinList::new();
    for at in kin {
        if holds(disk, *at, block)? {
            blocks.include(*at);
        }
    }
    Ok(blocks)
}

/// Whether a disk block holds the same bytes. It is read once.
fn holds<D: Disk>(disk: &mut D, at: BlockNo, block: &Block) -> Result<bool, DiskFault>
    requires { at < (D.fixed disk.old).size }
    ensures holds { IfOk result (λ same. IsTrue D.tells → same ≡ holds (D.state disk.old).contents at block.now) }
    ensures same { IsTrue D.tells → D.state disk.new ≡ D.state disk.old }
    ensures moments { IsTrue D.tells → Adds (D.past disk.old) (D.past disk.new) (λ s. s ≡ D.state disk.old) }
    ensures fixed { D.fixed disk.new ≡ D.fixed disk.old }
    ensures given { (D.given disk.old).count ≤ (D.given disk.new).count }
    ensures cause { HasCause (D.faults disk.old) (D.faults disk.new) result }
{
    let mut held = Block::zero();
    disk.read_block(at, &mut held)?;
    Ok(is_same(block, &held))
}

#[tactic(auto, using(crate::proofs::Bytes::pointwise_same))]
fn is_same(block: &Block, held: &Block) -> bool
    ensures { result ≡ same_bytes block.now.bytes held.now.bytes }
{
    block.bytes == held.bytes
}
