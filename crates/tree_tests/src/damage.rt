//! Damaged records, records at their limits, and the first bad one.
use crate::logs::{ACTS, Outcome, USED, block_at, block_of, outcome_with, put_acts, put_block};
use crate::records::{CREATE, WRITE, WRITE_HEAD};
use mem_disk::MemDisk;
use op_log::LogFault;
use std::alloc::Global;
use std::test::Fail;
use vol_numbers::Block;

// ---- logs of one record

const BAD: Outcome = Outcome::Fault(LogFault::BadRecord(0));

const GOOD: Outcome = Outcome::Records(1);

/// The first block of a log of one record, whose later ones are zeros.
#[derive(Clone, Copy)]
enum First<'a> {
    /// It begins with these bytes, but one of them has this value.
    Changed(&'a [u8], usize, u8),
    /// A write, with these for the low byte of its data's length and the third one.
    Data(u8, u8),
    /// It makes a file at a path of these bytes.
    At(&'a [u8]),
    /// The same at a path of so many names of so many letters, and a last one.
    Long(usize, usize, usize),
}

/// A first block, how many blocks are used, and what comes of reading.
type Row = (First<'static>, u32, Outcome);

/// A block that begins with these bytes, of which one is another.
fn block_but(bytes: &[u8], at: usize, byte: u8) -> Block {
    let mut block = block_of(bytes, 0);
    if at < 4_096 {
        block.bytes[at] = byte;
    }
    block
}

fn write_of_length(low: u8, high: u8) -> Block {
    let mut block = block_of(WRITE_HEAD, 0);
    block.bytes[16] = low;
    block.bytes[18] = high;
    block
}

/// A record that makes a file at a path of these bytes.
fn create_at(path: &[u8]) -> Block {
    let mut block = block_of(&[2], 0);
    block.bytes[4] = (path.len() % 256) as u8;
    block.bytes[5] = (path.len() / 256 % 256) as u8;
    for (i, byte) in path.iter().enumerate() {
        if i < 4_000 {
            block.bytes[24 + i] = *byte;
        }
    }
    block
}

fn push_name(path: &mut Vec<u8>, letters: usize) -> Result<(), Fail> {
    path.push(b'/')?;
    path.resize(path.len().saturating_add(letters), b'n')?;
    Ok(())
}

fn long_path(alloc: Global, names: usize, letters: usize, last: usize) -> Result<Vec<u8>, Fail> {
    let mut path = Vec::new(alloc);
    for _ in 0..names {
        push_name(&mut path, letters)?;
    }
    push_name(&mut path, last)?;
    Ok(path)
}

fn create_long(alloc: Global, names: usize, letters: usize, last: usize) -> Result<Block, Fail> {
    let path = long_path(alloc, names, letters, last)?;
    Ok(create_at(&path))
}

fn first_block(alloc: Global, first: First) -> Result<Block, Fail> {
    match first {
        First::Changed(bytes, at, byte) => Ok(block_but(bytes, at, byte)),
        First::Data(low, high) => Ok(write_of_length(low, high)),
        First::At(path) => Ok(create_at(path)),
        First::Long(names, letters, last) => create_long(alloc, names, letters, last),
    }
}

fn outcome_of_first(
    alloc: Global,
    disk: &mut MemDisk,
    first: First,
    used: u32,
) -> Result<Outcome, Fail> {
    let block = first_block(alloc, first)?;
    put_block(disk, 5, &block)?;
    outcome_with(alloc, disk, 1, used)
}

fn reads_on(alloc: Global, disk: &mut MemDisk, rows: &[Row]) -> Result<bool, Fail> {
    for (first, used, want) in rows {
        if outcome_of_first(alloc, disk, *first, *used)? != *want {
            return Ok(false);
        }
    }
    Ok(true)
}

fn reads(alloc: Global, rows: &[Row]) -> Result<bool, Fail> {
    let mut disk = MemDisk::new(alloc, 165)?;
    reads_on(alloc, &mut disk, rows)
}

/// A byte of a record and another value for it. First kinds that want data or a second path, and no kinds; each zero field; the lengths; the path;
/// behind the end. Then other kinds without data, and other names. Then the write.
const DAMAGED: &[Row] = &[
    (First::Changed(CREATE, 0, 0), 1, BAD),
    (First::Changed(CREATE, 0, 3), 1, BAD),
    (First::Changed(CREATE, 0, 6), 1, BAD),
    (First::Changed(CREATE, 0, 7), 1, BAD),
    (First::Changed(CREATE, 1, 1), 1, BAD),
    (First::Changed(CREATE, 2, 1), 1, BAD),
    (First::Changed(CREATE, 3, 0x80), 1, BAD),
    (First::Changed(CREATE, 4, 0), 1, BAD),
    (First::Changed(CREATE, 4, 1), 1, BAD),
    (First::Changed(CREATE, 4, 3), 1, BAD),
    (First::Changed(CREATE, 5, 1), 1, BAD),
    (First::Changed(CREATE, 7, 0x80), 1, BAD),
    (First::Changed(CREATE, 8, 1), 1, BAD),
    (First::Changed(CREATE, 15, 0x80), 1, BAD),
    (First::Changed(CREATE, 16, 1), 1, BAD),
    (First::Changed(CREATE, 19, 0x80), 1, BAD),
    (First::Changed(CREATE, 20, 1), 1, BAD),
    (First::Changed(CREATE, 23, 0x80), 1, BAD),
    (First::Changed(CREATE, 24, 0x61), 1, BAD),
    (First::Changed(CREATE, 25, 0), 1, BAD),
    (First::Changed(CREATE, 25, 0x2e), 1, BAD),
    (First::Changed(CREATE, 25, 0x2f), 1, BAD),
    (First::Changed(CREATE, 26, 1), 1, BAD),
    (First::Changed(CREATE, 4_095, 0x80), 1, BAD),
    (First::Changed(CREATE, 0, 1), 1, GOOD),
    (First::Changed(CREATE, 0, 2), 1, GOOD),
    (First::Changed(CREATE, 0, 4), 1, GOOD),
    (First::Changed(CREATE, 0, 5), 1, GOOD),
    (First::Changed(CREATE, 25, 0xff), 1, GOOD),
    (First::Changed(WRITE, 0, 2), 1, BAD),
    (First::Changed(WRITE, 16, 0), 1, BAD),
    (First::Changed(WRITE, 16, 2), 1, BAD),
    (First::Changed(WRITE, 20, 1), 1, BAD),
    (First::Changed(WRITE, 29, 1), 1, BAD),
    (First::Changed(WRITE, 4_095, 1), 1, BAD),
];

#[test]
fn damaged_records_are_refused(rt: HostRuntime) -> Result<(), Fail> {
    assert!(rt; reads(rt.alloc(), DAMAGED)?);
    Ok(())
}

/// The data are zeros, as is all behind the record.
const LENGTHS: &[Row] = &[
    (First::Data(0, 0), 1, BAD),
    (First::Data(1, 0), 1, GOOD),
    (First::Data(0, 1), 17, GOOD),
    (First::Data(0, 1), 16, BAD),
    (First::Data(1, 1), 17, BAD),
];

#[test]
fn data_has_1_to_65_536_bytes(rt: HostRuntime) -> Result<(), Fail> {
    assert!(rt; reads(rt.alloc(), LENGTHS)?);
    Ok(())
}

/// No paths; names of 250 and 251 bytes, 32 and 33 names, 1,024 and 1,025 bytes.
const PATHS: &[Row] = &[
    (First::At(b""), 1, BAD),
    (First::At(b"a"), 1, BAD),
    (First::At(b"/"), 1, BAD),
    (First::At(b"//a"), 1, BAD),
    (First::At(b"/a/"), 1, BAD),
    (First::At(b"/a//b"), 1, BAD),
    (First::At(b"/."), 1, BAD),
    (First::At(b"/.."), 1, BAD),
    (First::At(b"/a/../b"), 1, BAD),
    (First::At(b"/a\0"), 1, BAD),
    (First::Long(0, 0, 250), 1, GOOD),
    (First::Long(0, 0, 251), 1, BAD),
    (First::Long(31, 1, 1), 1, GOOD),
    (First::Long(32, 1, 1), 1, BAD),
    (First::Long(4, 250, 19), 1, GOOD),
    (First::Long(4, 250, 20), 1, BAD),
];

#[test]
fn paths_keep_their_limits(rt: HostRuntime) -> Result<(), Fail> {
    assert!(rt; reads(rt.alloc(), PATHS)?);
    Ok(())
}

// ---- the first bad record

/// Damages the record that begins at a block of the log.
fn damage(disk: &mut MemDisk, at: u32) -> Result<(), Fail> {
    let mut block = block_at(disk, at)?;
    block.bytes[20] = 1;
    put_block(disk, at, &block)
}

fn tells_bad(alloc: Global, disk: &mut MemDisk, number: u32) -> Result<bool, Fail> {
    if put_acts(alloc, disk, ACTS)? != Some(USED) {
        return Ok(false);
    }
    damage(disk, number.saturating_add(5))?;
    Ok(outcome_with(alloc, disk, 7, USED)? == Outcome::Fault(LogFault::BadRecord(number)))
}

fn tells_each_bad(alloc: Global, disk: &mut MemDisk) -> Result<bool, Fail> {
    for number in 0..7 {
        if !tells_bad(alloc, disk, number)? {
            return Ok(false);
        }
    }
    Ok(true)
}

fn tells_first_bad(alloc: Global) -> Result<bool, Fail> {
    let mut disk = MemDisk::new(alloc, 165)?;
    tells_each_bad(alloc, &mut disk)
}

#[test]
fn the_first_bad_record_is_told(rt: HostRuntime) -> Result<(), Fail> {
    assert!(rt; tells_first_bad(rt.alloc())?);
    Ok(())
}
