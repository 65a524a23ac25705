//! Which sequences are shared, over a disk in memory.
ghost use Rattle.std.specs.Prelude.{◌≡◌, IsTrue};
ghost use Rattle.sequence_rule.specs.Matches.{LieBelow, HaveFingerprints};

use crate::stored::{one_run, store_all, two_runs};
use content_model::{ContentCache, PlainCache};
use disk_model::Disk;
use mem_disk::MemDisk;
use sequence_rule::{FindFault, Sequence, SequenceList, plain_select};
use std::alloc::{AllocError, Global};
use std::test::Fail;
use vol_numbers::{BlockNo, CallList, Fbn};

/// What is shared of dirty blocks from place 0 on, told by their letters, after blocks were stored and used in this order.
struct Row {
    stored: &'static [(BlockNo, u8)],
    dirty: &'static [u8],
    threshold: u32,
    /// The first place, the length and the first block of each sequence.
    shared: &'static [(Fbn, u32, BlockNo)],
}

/// A file of eight blocks.
const EIGHT: &[(BlockNo, u8)] = &[
    (105, b'A'),
    (106, b'B'),
    (107, b'C'),
    (108, b'D'),
    (109, b'E'),
    (110, b'F'),
    (111, b'G'),
    (112, b'H'),
];

/// The same, and a file of which the first two blocks are in it too.
const TWO_FILES: &[(BlockNo, u8)] = &[
    (105, b'A'),
    (106, b'B'),
    (107, b'C'),
    (108, b'D'),
    (109, b'E'),
    (110, b'F'),
    (111, b'G'),
    (112, b'H'),
    (117, b'D'),
    (118, b'E'),
    (119, b'P'),
    (120, b'Q'),
];

/// The second file has six blocks.
const LONGER: &[(BlockNo, u8)] = &[
    (105, b'A'),
    (106, b'B'),
    (107, b'C'),
    (108, b'D'),
    (109, b'E'),
    (110, b'F'),
    (111, b'G'),
    (112, b'H'),
    (117, b'D'),
    (118, b'E'),
    (119, b'P'),
    (120, b'Q'),
    (121, b'R'),
    (122, b'S'),
];

/// Two files with the same four blocks.
const TWICE: &[(BlockNo, u8)] = &[
    (105, b'A'),
    (106, b'B'),
    (107, b'C'),
    (108, b'D'),
    (109, b'A'),
    (110, b'B'),
    (111, b'C'),
    (112, b'D'),
];

/// Nine blocks of one fingerprint, of which 105 leaves the list.
const NINE: &[(BlockNo, u8)] = &[
    (105, b'A'),
    (103, b'A'),
    (106, b'A'),
    (104, b'A'),
    (107, b'A'),
    (109, b'A'),
    (108, b'A'),
    (110, b'A'),
    (111, b'A'),
];

const ROWS: &[Row] = &[
    Row {
        stored: EIGHT,
        dirty: b"ABCDEFGH",
        threshold: 4,
        shared: &[(0, 8, 105)],
    },
    // One below the threshold, and at it.
    Row {
        stored: EIGHT,
        dirty: b"ABC",
        threshold: 4,
        shared: &[],
    },
    Row {
        stored: EIGHT,
        dirty: b"ABCD",
        threshold: 4,
        shared: &[(0, 4, 105)],
    },
    // The longest is taken, and what is left of the other is too short.
    Row {
        stored: LONGER,
        dirty: b"ABCDEPQRS",
        threshold: 4,
        shared: &[(3, 6, 117)],
    },
    // Of two as long from one place, the one to the least block.
    Row {
        stored: TWICE,
        dirty: b"ABCD",
        threshold: 4,
        shared: &[(0, 4, 105)],
    },
    // Of two as long, the one from the least place.
    Row {
        stored: TWO_FILES,
        dirty: b"BCDEPQ",
        threshold: 4,
        shared: &[(0, 4, 106)],
    },
    // What is left of the other is long enough now.
    Row {
        stored: TWO_FILES,
        dirty: b"BCDEPQ",
        threshold: 2,
        shared: &[(0, 4, 106), (4, 2, 119)],
    },
    // Blocks 106 to 111 are six in a row, and then 103 and 104 are two.
    Row {
        stored: NINE,
        dirty: b"AAAAAAAA",
        threshold: 2,
        shared: &[(0, 6, 106), (6, 2, 103)],
    },
    // One block is enough where the threshold is 1, and where it is 0.
    Row {
        stored: &[(105, b'A')],
        dirty: b"A",
        threshold: 1,
        shared: &[(0, 1, 105)],
    },
    Row {
        stored: &[(105, b'A')],
        dirty: b"A",
        threshold: 0,
        shared: &[(0, 1, 105)],
    },
    // A block that is written over holds other bytes.
    Row {
        stored: &[(105, b'A'), (106, b'B'), (105, b'C')],
        dirty: b"ABC",
        threshold: 1,
        shared: &[(1, 1, 106), (2, 1, 105)],
    },
];

/// Four dirty blocks have one candidate each: which read fails, and whether the selection is made. A fifth read is never made.
const FAILING: &[(u64, bool)] = &[(0, false), (1, false), (2, false), (3, false), (4, true)];

fn are_these(list: &[Sequence], want: &[(Fbn, u32, BlockNo)]) -> bool {
    for (sequence, row) in list.iter().zip(want.iter()) {
        if sequence.first != row.0 || sequence.length != row.1 || sequence.block != row.2 {
            return false;
        }
    }
    list.len() == want.len()
}

fn is_selected(selected: Result<SequenceList, FindFault>, want: &[(Fbn, u32, BlockNo)]) -> bool {
    match selected {
        Ok(list) => are_these(list.as_slice(), want),
        Err(_) => false,
    }
}

/// Whether the row's sequences are selected of these blocks.
fn selects<D: Disk, K: ContentCache>(
    alloc: Global,
    disk: &mut D,
    cache: &K,
    row: &Row,
) -> Result<bool, Fail>
    requires blocks { LieBelow (D.fixed disk.old).size (K.list cache.now) }
    requires fingerprints { IsTrue D.tells → HaveFingerprints (D.state disk.old).contents (K.list cache.now) }
{
    if row.dirty.is_empty() || row.dirty.len() > 64 {
        return Ok(false);
    }
    let dirty = one_run(alloc, row.dirty)?;
    let selected = plain_select(alloc, &dirty, cache, disk, row.threshold);
    Ok(is_selected(selected, row.shared))
}

/// The same after the row's blocks were stored.
fn holds_on(alloc: Global, disk: &mut MemDisk, row: &Row) -> Result<bool, Fail> {
    let mut cache = PlainCache::with_capacity(alloc, 64)?;
    match store_all(disk, &mut cache, row.stored) {
        Ok(()) => selects(alloc, disk, &cache, row),
        Err(_) => Ok(false),
    }
}

fn all_hold(alloc: Global, rows: &[Row]) -> Result<bool, Fail> {
    for row in rows {
        let mut disk = MemDisk::new(alloc, 128)?;
        if !holds_on(alloc, &mut disk, row)? {
            return Ok(false);
        }
    }
    Ok(true)
}

#[test]
fn the_sequences_of_the_rule_are_selected(rt: HostRuntime) -> Result<(), Fail> {
    assert!(rt; all_hold(rt.alloc(), ROWS)?);
    Ok(())
}

/// A plan by which one call fails.
fn plan_of(alloc: Global, call: u64) -> Result<CallList, AllocError> {
    let mut calls = Vec::new(alloc);
    calls.push(call)?;
    Ok(CallList::from_vec(calls))
}

/// Whether the selection is made, or the disk's fault is answered.
fn is_made(selected: Result<SequenceList, FindFault>) -> Option<bool> {
    match selected {
        Ok(list) => are_these(list.as_slice(), &[(0, 4, 105)]).then_some(true),
        Err(FindFault::Device) => Some(false),
        Err(FindFault::OutOfMemory) => None,
    }
}

/// Selects among four blocks while a call fails.
fn select_failing<K: ContentCache>(
    alloc: Global,
    disk: &mut MemDisk,
    cache: &K,
    call: u64,
) -> Result<Option<bool>, Fail>
    requires blocks { LieBelow (⟦<MemDisk as Disk>⟧.fixed disk.old).size (K.list cache.now) }
    requires fingerprints { HaveFingerprints (⟦<MemDisk as Disk>⟧.state disk.old).contents (K.list cache.now) }
{
    disk.plan(plan_of(alloc, call)?, None, 0);
    let dirty = one_run(alloc, b"ABCD")?;
    Ok(is_made(plain_select(alloc, &dirty, cache, disk, 4)))
}

fn is_failing_as(alloc: Global, disk: &mut MemDisk, row: &(u64, bool)) -> Result<bool, Fail> {
    let mut cache = PlainCache::with_capacity(alloc, 64)?;
    match store_all(disk, &mut cache, EIGHT) {
        Ok(()) => Ok(select_failing(alloc, disk, &cache, row.0)? == Some(row.1)),
        Err(_) => Ok(false),
    }
}

fn all_fail(alloc: Global, rows: &[(u64, bool)]) -> Result<bool, Fail> {
    for row in rows {
        let mut disk = MemDisk::new(alloc, 128)?;
        if !is_failing_as(alloc, &mut disk, row)? {
            return Ok(false);
        }
    }
    Ok(true)
}

#[test]
fn each_candidate_is_read_once_and_its_fault_answered(rt: HostRuntime) -> Result<(), Fail> {
    assert!(rt; all_fail(rt.alloc(), FAILING)?);
    Ok(())
}

/// Selects among `AB` from place 0 and `CD` from place 3 on.
fn select_apart<K: ContentCache>(
    alloc: Global,
    disk: &mut MemDisk,
    cache: &K,
    threshold: u32,
    shared: &[(Fbn, u32, BlockNo)],
) -> Result<bool, Fail>
    requires blocks { LieBelow (⟦<MemDisk as Disk>⟧.fixed disk.old).size (K.list cache.now) }
    requires fingerprints { HaveFingerprints (⟦<MemDisk as Disk>⟧.state disk.old).contents (K.list cache.now) }
{
    let dirty = two_runs(alloc, b"AB", b"CD")?;
    let selected = plain_select(alloc, &dirty, cache, disk, threshold);
    Ok(is_selected(selected, shared))
}

fn is_apart(alloc: Global, threshold: u32, shared: &[(Fbn, u32, BlockNo)]) -> Result<bool, Fail> {
    let mut disk = MemDisk::new(alloc, 128)?;
    is_apart_on(alloc, &mut disk, threshold, shared)
}

fn is_apart_on(
    alloc: Global,
    disk: &mut MemDisk,
    threshold: u32,
    shared: &[(Fbn, u32, BlockNo)],
) -> Result<bool, Fail> {
    let mut cache = PlainCache::with_capacity(alloc, 64)?;
    match store_all(disk, &mut cache, EIGHT) {
        Ok(()) => select_apart(alloc, disk, &cache, threshold, shared),
        Err(_) => Ok(false),
    }
}

#[test]
fn no_sequence_goes_over_a_gap(rt: HostRuntime) -> Result<(), Fail> {
    assert!(rt; is_apart(rt.alloc(), 2, &[(0, 2, 105), (3, 2, 107)])?);
    Ok(())
}

#[test]
fn runs_are_not_joined_over_a_gap(rt: HostRuntime) -> Result<(), Fail> {
    assert!(rt; is_apart(rt.alloc(), 3, &[])?);
    Ok(())
}
