//! Records by the bytes of the format, read back, and on disks that fail.
use crate::acts::{Act, command};
use crate::logs::{
    ACTS, BEHIND, Outcome, USED, block_at, block_of, commands, outcome_with, put_acts, put_all,
    read, root,
};
use mem_disk::MemDisk;
use op_log::{LogFault, blocks_of, record_blocks};
use std::alloc::Global;
use std::test::Fail;
use tree_model::Command;
use vol_numbers::CallList;

// ---- the bytes of each kind of record

/// The first bytes of the record of `create /a`: kind 2, a path of 2 bytes.
pub(crate) const CREATE: &[u8] = &[
    2, 0, 0, 0, 2, 0, 0, 0, 0, 0, 0, 0, 0, 0, 0, 0, 0, 0, 0, 0, 0, 0, 0, 0, 0x2f, 0x61,
];

/// Those of `write /a 8192 3` with the bytes `xyz`.
pub(crate) const WRITE: &[u8] = &[
    3, 0, 0, 0, 2, 0, 0, 0, 0, 0x20, 0, 0, 0, 0, 0, 0, 3, 0, 0, 0, 0, 0, 0, 0, 0x2f, 0x61, 0x78,
    0x79, 0x7a,
];

/// The same without its data.
pub(crate) const WRITE_HEAD: &[u8] = &[
    3, 0, 0, 0, 2, 0, 0, 0, 0, 0x20, 0, 0, 0, 0, 0, 0, 3, 0, 0, 0, 0, 0, 0, 0, 0x2f, 0x61,
];

const MKDIR: &[u8] = &[
    1, 0, 0, 0, 4, 0, 0, 0, 0, 0, 0, 0, 0, 0, 0, 0, 0, 0, 0, 0, 0, 0, 0, 0, 0x2f, 0x64, 0x2f, 0x65,
];

const TRUNCATE: &[u8] = &[
    4, 0, 0, 0, 2, 0, 0, 0, 255, 255, 255, 255, 255, 255, 255, 255, 0, 0, 0, 0, 0, 0, 0, 0, 0x2f,
    0x61,
];

const REMOVE: &[u8] = &[
    5, 0, 0, 0, 4, 0, 0, 0, 0, 0, 0, 0, 0, 0, 0, 0, 0, 0, 0, 0, 0, 0, 0, 0, 0x2f, 0x64, 0x2f, 0x65,
];

/// Kind 6: the new path stands behind the old one, and its length at byte 16.
const RENAME: &[u8] = &[
    6, 0, 0, 0, 2, 0, 0, 0, 0, 0, 0, 0, 0, 0, 0, 0, 4, 0, 0, 0, 0, 0, 0, 0, 0x2f, 0x61, 0x2f, 0x64,
    0x2f, 0x66,
];

/// Data of 65,536 bytes at offset 1.
const FILL: &[u8] = &[
    3, 0, 0, 0, 2, 0, 0, 0, 1, 0, 0, 0, 0, 0, 0, 0, 0, 0, 1, 0, 0, 0, 0, 0, 0x2f, 0x61,
];

/// Blocks by their first bytes, and the byte that fills the rest.
const BLOCKS: &[(u32, &[u8], u8)] = &[
    (5, CREATE, 0),
    (6, WRITE, 0),
    (7, MKDIR, 0),
    (8, TRUNCATE, 0),
    (9, REMOVE, 0),
    (10, RENAME, 0),
    (11, FILL, 0x5a),
    (26, &[], 0x5a),
    (27, &[0x5a; 26], 0),
    (BEHIND, &[], 0),
];

fn are_blocks(disk: &mut MemDisk, rows: &[(u32, &[u8], u8)]) -> Result<bool, Fail> {
    for (at, bytes, more) in rows {
        if block_at(disk, *at)? != block_of(bytes, *more) {
            return Ok(false);
        }
    }
    Ok(true)
}

// ---- how many blocks a record takes

/// A record of a block, of 4,096 bytes, of one more, and of the greatest data; and commands that have no record, since they speak of the root.
const COUNTS: &[(Act<'static>, u32)] = &[
    (Act::Create(b"a"), 1),
    (Act::Fill(b"a", 0, 1, 4_070), 1),
    (Act::Fill(b"a", 0, 1, 4_071), 2),
    (Act::Fill(b"a", 0, 1, 65_536), 17),
    (Act::Mkdir(b""), 1),
    (Act::Rename(b"", b""), 1),
];

fn count_made(alloc: Global, act: Act) -> Result<u32, Fail> {
    let command = command(alloc, act)?;
    let count = count_of(&command);
    drop(command);
    Ok(count)
}

/// How many blocks, and 0 for a command that changes nothing.
fn count_of(command: &Command) -> u32 {
    if command.is_change() {
        record_blocks(command)
    } else {
        0
    }
}

fn counts_all(alloc: Global, rows: &[(Act, u32)]) -> Result<bool, Fail> {
    for (act, want) in rows {
        if count_made(alloc, *act)? != *want {
            return Ok(false);
        }
    }
    Ok(true)
}

#[test]
fn records_take_whole_blocks(rt: HostRuntime) -> Result<(), Fail> {
    assert!(rt; counts_all(rt.alloc(), COUNTS)?);
    Ok(())
}

// ---- records that read back

fn same_blocks(disk: &mut MemDisk, other: &mut MemDisk) -> Result<bool, Fail> {
    for at in 5..BEHIND {
        if block_at(disk, at)? != block_at(other, at)? {
            return Ok(false);
        }
    }
    Ok(true)
}

/// Whether the commands have the records that stand on the disk.
fn has_copies(alloc: Global, disk: &mut MemDisk, commands: &[Command]) -> Result<bool, Fail> {
    let mut copy = MemDisk::new(alloc, 165)?;
    if put_all(&mut copy, commands) != Some(USED) {
        return Ok(false);
    }
    same_blocks(disk, &mut copy)
}

fn reads_copies(alloc: Global, disk: &mut MemDisk) -> Result<bool, Fail> {
    let body = root(7, USED)?;
    let commands = read(alloc, disk, &body)?;
    if commands.len() != 7 || blocks_of(&commands) != USED {
        return Ok(false);
    }
    has_copies(alloc, disk, commands.as_slice())
}

/// A root with fewer blocks cuts the last record off, one with fewer records leaves it out.
const ROOTS: &[(u32, u32, Outcome)] = &[
    (7, 23, Outcome::Records(7)),
    (7, 22, Outcome::Fault(LogFault::BadRecord(6))),
    (6, 23, Outcome::Records(6)),
    (0, 0, Outcome::Records(0)),
];

fn reads_roots(
    alloc: Global,
    disk: &mut MemDisk,
    rows: &[(u32, u32, Outcome)],
) -> Result<bool, Fail> {
    for (records, used, want) in rows {
        if outcome_with(alloc, disk, *records, *used)? != *want {
            return Ok(false);
        }
    }
    Ok(true)
}

fn goes_there_and_back(alloc: Global, disk: &mut MemDisk) -> Result<bool, Fail> {
    if put_acts(alloc, disk, ACTS)? != Some(USED) || !are_blocks(disk, BLOCKS)? {
        return Ok(false);
    }
    if !reads_copies(alloc, disk)? {
        return Ok(false);
    }
    reads_roots(alloc, disk, ROOTS)
}

fn goes_round(alloc: Global) -> Result<bool, Fail> {
    let mut disk = MemDisk::new(alloc, 165)?;
    goes_there_and_back(alloc, &mut disk)
}

#[test]
fn records_have_the_bytes_of_the_format_and_read_back(rt: HostRuntime) -> Result<(), Fail> {
    assert!(rt; goes_round(rt.alloc())?);
    Ok(())
}

// ---- calls that fail

fn put_failing(alloc: Global, disk: &mut MemDisk, call: u64, commands: &[Command]) -> bool {
    disk.plan(CallList::new(alloc), Some(call), 0xff);
    put_all(disk, commands).is_some()
}

/// 23 blocks are written by 23 calls.
fn writes_fail(alloc: Global, disk: &mut MemDisk) -> Result<bool, Fail> {
    let commands = commands(alloc, ACTS)?;
    for call in 0..24 {
        if put_failing(alloc, disk, call, &commands) != (call == 23) {
            return Ok(false);
        }
    }
    Ok(true)
}

fn outcome_failing(alloc: Global, disk: &mut MemDisk, call: u64) -> Result<Outcome, Fail> {
    disk.plan(CallList::new(alloc), Some(call), 0xff);
    outcome_with(alloc, disk, 7, USED)
}

/// And read by as many.
fn reads_fail(alloc: Global, disk: &mut MemDisk) -> Result<bool, Fail> {
    for call in 0..23 {
        if outcome_failing(alloc, disk, call)? != Outcome::Fault(LogFault::Device) {
            return Ok(false);
        }
    }
    Ok(outcome_failing(alloc, disk, 23)? == Outcome::Records(7))
}

fn calls_fail(alloc: Global, disk: &mut MemDisk) -> Result<bool, Fail> {
    if !writes_fail(alloc, disk)? {
        return Ok(false);
    }
    reads_fail(alloc, disk)
}

fn fails(alloc: Global) -> Result<bool, Fail> {
    let mut disk = MemDisk::new(alloc, 165)?;
    calls_fail(alloc, &mut disk)
}

#[test]
fn each_call_may_fail(rt: HostRuntime) -> Result<(), Fail> {
    assert!(rt; fails(rt.alloc())?);
    Ok(())
}
