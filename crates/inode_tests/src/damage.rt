//! Inodes that can't be loaded: a read fails, or a block is outside the grammar.
use crate::volume::{
    BLOCKS, FIRST_BLOCK, FIRST_INDEX, Miss, ROOT, first_block, first_index, geometry, load, write,
    write_fresh,
};
use block_format::Inode;
use block_tree::TreeFault;
use disk_model::Disk;
use mem_disk::MemDisk;
use std::alloc::{AllocError, Global};
use std::test::Fail;
use vol_numbers::{Block, BlockNo, CallList, Geometry};

/// The call that fails, and what loading a fresh volume comes to. Calls 0 and 1 read the inode index and the only inode block.
const FAILING: &[(u64, Result<Inode, Miss>)] = &[
    (0, Err(Miss::Load(TreeFault::Device))),
    (1, Err(Miss::Load(TreeFault::Device))),
    (2, Ok(ROOT)),
];

/// A byte of a block of a fresh volume is changed.
struct Damage {
    at: BlockNo,
    byte: usize,
    value: u8,
    outcome: Result<Inode, Miss>,
}

/// An inode is outside the grammar with a stray byte, with a height that isn't that of its size, or with a pointer that leads out of the
/// area, which is that of blocks 103 to 2,047. The inode 1 begins at byte 64: its height is byte 65, its pointer 68 to 71, and its size 72 to 79.
const DAMAGES: &[Damage] = &[
    Damage {
        at: FIRST_BLOCK,
        byte: 127,
        value: 1,
        outcome: Err(Miss::Load(TreeFault::Damaged(FIRST_BLOCK))),
    },
    Damage {
        at: FIRST_BLOCK,
        byte: 65,
        value: 1,
        outcome: Err(Miss::Load(TreeFault::Damaged(FIRST_BLOCK))),
    },
    // A node of size 0 points to nothing.
    Damage {
        at: FIRST_BLOCK,
        byte: 68,
        value: 110,
        outcome: Err(Miss::Load(TreeFault::Damaged(FIRST_BLOCK))),
    },
    // Byte 0 of an inode is its kind: 2 is a directory, and 1 a file.
    Damage {
        at: FIRST_BLOCK,
        byte: 64,
        value: 3,
        outcome: Err(Miss::Load(TreeFault::Damaged(FIRST_BLOCK))),
    },
    Damage {
        at: FIRST_BLOCK,
        byte: 64,
        value: 1,
        outcome: Ok(Inode::File {
            size: 0,
            height: 0,
            ptr: 0,
        }),
    },
    // The pointer 0 of the inode index is its bytes 0 to 3, and 102 is no block of the area.
    Damage {
        at: FIRST_INDEX,
        byte: 0,
        value: 102,
        outcome: Err(Miss::Load(TreeFault::Damaged(FIRST_INDEX))),
    },
    // Where there is no block, no number is used.
    Damage {
        at: FIRST_INDEX,
        byte: 0,
        value: 0,
        outcome: Ok(Inode::Unused),
    },
];

/// The inode of the root directory, where all inodes are loaded.
fn loaded<D: Disk>(alloc: Global, disk: &mut D, g: &Geometry) -> Result<Inode, Miss> {
    match load(alloc, disk, g, FIRST_INDEX) {
        Ok(file) => Ok(file.get(1)),
        Err(miss) => Err(miss),
    }
}

/// A block of a fresh volume, with a byte changed.
fn damaged(damage: &Damage) -> Block {
    let mut block = if damage.at == FIRST_BLOCK {
        first_block()
    } else {
        first_index()
    };
    if damage.byte < 4_096 {
        block.bytes[damage.byte] = damage.value;
    }
    block
}

fn run_damaged(alloc: Global, damage: &Damage) -> Result<bool, Fail> {
    let mut disk = MemDisk::new(alloc, BLOCKS)?;
    if !write_fresh(&mut disk) || !write(&mut disk, damage.at, &damaged(damage)) {
        return Ok(false);
    }
    match geometry() {
        Some(g) => Ok(loaded(alloc, &mut disk, &g) == damage.outcome),
        None => Ok(false),
    }
}

fn all_damages_are_told(alloc: Global) -> Result<bool, Fail> {
    for damage in DAMAGES {
        if !run_damaged(alloc, damage)? {
            return Ok(false);
        }
    }
    Ok(true)
}

#[test]
fn damage_is_told(rt: HostRuntime) -> Result<(), Fail> {
    assert!(rt; all_damages_are_told(rt.alloc())?);
    Ok(())
}

/// A list of one call.
fn one_call(alloc: Global, number: u64) -> Result<CallList, AllocError> {
    let mut calls = Vec::new(alloc);
    calls.push(number)?;
    Ok(CallList::from_vec(calls))
}

/// What loading comes to over a disk of which one call fails.
fn run_failing(alloc: Global, number: u64) -> Result<Result<Inode, Miss>, Fail> {
    let fails = one_call(alloc, number)?;
    let mut disk = MemDisk::new(alloc, BLOCKS)?;
    if !write_fresh(&mut disk) {
        return Ok(Err(Miss::Test));
    }
    disk.plan(fails, None, 7);
    match geometry() {
        Some(g) => Ok(loaded(alloc, &mut disk, &g)),
        None => Ok(Err(Miss::Test)),
    }
}

fn all_failures_are_told(alloc: Global) -> Result<bool, Fail> {
    for row in FAILING {
        if run_failing(alloc, row.0)? != row.1 {
            return Ok(false);
        }
    }
    Ok(true)
}

#[test]
fn failing_reads_are_told(rt: HostRuntime) -> Result<(), Fail> {
    assert!(rt; all_failures_are_told(rt.alloc())?);
    Ok(())
}
