//! Disks that fail: the check says so, and changes nothing.
use check_rows::{BLOCKS, Put, SAMPLE, Want, answer, image};
use disk_model::Disk;
use fs_check::{CheckFault, check};
use mem_disk::MemDisk;
use std::alloc::{AllocError, Global};
use std::test::Fail;
use vol_numbers::{Block, BlockNo, CallList};

/// `create /f` and `create /g`.
const LOGGED: &[Put] = &[
    Put::Same(1, 9, 2, 2),
    Put::Number(5, 0, 2),
    Put::Number(5, 1, 2),
    Put::Number(5, 6, 0x662f),
    Put::Number(6, 0, 2),
    Put::Number(6, 1, 2),
    Put::Number(6, 6, 0x672f),
];

const GOOD: Want = Want::Good(6, 2, 54);

/// What a check of it reads: the selector and the root, the inode index, the block of inodes, two leaves and a top index, the last blocks of two files,
/// the blocks of two directories, the counts, and two blocks of the log.
const READS: u64 = 14;

/// Has this call fail, and all behind it where they do.
fn plan_fault(
    alloc: Global,
    disk: &mut MemDisk,
    call: u64,
    onwards: bool,
) -> Result<(), AllocError> {
    let mut calls = Vec::new(alloc);
    calls.push(call)?;
    let from = if onwards { Some(call) } else { None };
    disk.plan(CallList::from_vec(calls), from, 7);
    Ok(())
}

/// The disk, on which this call fails, and all behind it where they do.
fn failing(alloc: Global, call: u64, onwards: bool) -> Result<Option<MemDisk>, Fail> {
    let Some(mut disk) = image(alloc, BLOCKS, &[SAMPLE, LOGGED])? else {
        return Ok(None);
    };
    plan_fault(alloc, &mut disk, call, onwards)?;
    Ok(Some(disk))
}

/// A block, where the disk has it and gives it.
fn block_at<D: Disk>(disk: &mut D, at: BlockNo) -> Option<Block> {
    if at >= disk.blocks() {
        return None;
    }
    let mut block = Block::zero();
    match disk.read_block(at, &mut block) {
        Ok(()) => Some(block),
        Err(_) => None,
    }
}

/// Whether both give the same block.
fn same_block(disk: &mut MemDisk, other: &mut MemDisk, at: BlockNo) -> bool {
    match (block_at(disk, at), block_at(other, at)) {
        (Some(block), Some(there)) => block == there,
        _ => false,
    }
}

/// Whether both give the same blocks.
fn same_blocks(disk: &mut MemDisk, other: &mut MemDisk) -> bool {
    for at in 0..BLOCKS {
        if !same_block(disk, other, at) {
            return false;
        }
    }
    true
}

/// Whether the check of a disk says that it failed, and wrote nothing.
fn fails(alloc: Global, disk: &mut MemDisk) -> bool {
    let moments = disk.moments();
    let told = check(alloc, disk) == Err(CheckFault::Device);
    told && disk.moments() == moments
}

/// Whether a disk that fails no more has the image.
fn keeps_image(alloc: Global, disk: &mut MemDisk) -> Result<bool, Fail> {
    disk.plan(CallList::new(alloc), None, 7);
    match image(alloc, BLOCKS, &[SAMPLE, LOGGED])? {
        Some(mut other) => Ok(same_blocks(disk, &mut other)),
        None => Ok(false),
    }
}

/// Whether the check of a disk says that it failed, wrote nothing, and left the disk as it was.
fn fails_unchanged(alloc: Global, disk: &mut MemDisk) -> Result<bool, Fail> {
    if !fails(alloc, disk) {
        return Ok(false);
    }
    keeps_image(alloc, disk)
}

/// Whether the check says that the disk failed in this call, wrote nothing, and left the disk as it was.
fn is_told(alloc: Global, call: u64, onwards: bool) -> Result<bool, Fail> {
    match failing(alloc, call, onwards)? {
        Some(mut disk) => fails_unchanged(alloc, &mut disk),
        None => Ok(false),
    }
}

/// The first call whose fault isn't told.
fn first_untold(alloc: Global, onwards: bool) -> Result<Option<u64>, Fail> {
    for call in 0..READS {
        if !is_told(alloc, call, onwards)? {
            return Ok(Some(call));
        }
    }
    Ok(None)
}

#[test]
fn each_failing_call_is_told(rt: HostRuntime) -> Result<(), Fail> {
    assert_eq!(rt; first_untold(rt.alloc(), false)?, None);
    Ok(())
}

#[test]
fn each_end_of_a_disk_is_told(rt: HostRuntime) -> Result<(), Fail> {
    assert_eq!(rt; first_untold(rt.alloc(), true)?, None);
    Ok(())
}

/// Whether the check reads so many blocks and no more.
fn is_good_before(alloc: Global, call: u64) -> Result<bool, Fail> {
    let Some(mut disk) = failing(alloc, call, true)? else {
        return Ok(false);
    };
    Ok(check(alloc, &mut disk) == answer(GOOD))
}

#[test]
fn each_block_is_read_once(rt: HostRuntime) -> Result<(), Fail> {
    assert!(rt; is_good_before(rt.alloc(), READS)?);
    Ok(())
}
