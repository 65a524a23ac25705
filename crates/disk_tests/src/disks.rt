//! Disks in memory: that their calls succeed where there is memory, and what a plan and a cut leave.
ghost use Rattle.std.specs.Prelude.{◌≡◌, ◌<◌};

use disk_model::{Disk, DiskFault, NotOpen, Pick};
use mem_disk::{MemDisk, SureDisk};
use std::alloc::{AllocError, Global};
use vol_numbers::{Block, BlockNo, CallList};

/// A list of one call.
pub(crate) fn call(alloc: Global, number: u64) -> Result<CallList, AllocError> {
    let mut calls = Vec::new(alloc);
    calls.push(number)?;
    Ok(CallList::from_vec(calls))
}

/// Whether the block that is read has this byte throughout.
pub(crate) fn reads<D: Disk>(disk: &mut D, at: BlockNo, byte: u8) -> bool
    ensures { D.fixed disk.new ≡ D.fixed disk.old }
{
    if at >= disk.blocks() {
        return false;
    }
    let mut block = Block::zero();
    disk.read_block(at, &mut block).is_ok() && block == Block::filled(byte)
}

/// Whether a block of this byte is written.
pub(crate) fn writes<D: Disk>(disk: &mut D, at: BlockNo, byte: u8) -> bool
    ensures { D.fixed disk.new ≡ D.fixed disk.old }
{
    at < disk.blocks() && disk.write_block(at, &Block::filled(byte)).is_ok()
}

/// Whether a planned write fills the block with the byte of the plan, and is told as a fault.
fn fails_by_plan(disk: &mut MemDisk, fails: CallList) -> bool {
    disk.plan(fails, None, 7);
    !writes(disk, 3, 1) && reads(disk, 3, 7)
}

/// Whether a power cut puts a block in the place of one that is unsynced, and of no other.
fn is_cut(disk: &mut MemDisk) -> bool {
    let block = Block::filled(9);
    let synced = Pick { at: 2, block };
    let unsynced = Pick { at: 3, block };
    disk.cut(&[synced]) == Err(NotOpen)
        && disk.cut(&[unsynced]) == Ok(())
        && reads(disk, 3, 9)
        && !disk.is_open(3)
}

fn has_size(alloc: Global) -> Result<bool, AllocError> {
    Ok(SureDisk::new(alloc, 4)?.blocks() == 4)
}

fn is_planned_and_cut(alloc: Global) -> Result<bool, AllocError> {
    let fails = call(alloc, 0)?;
    let mut disk = MemDisk::new(alloc, 4)?;
    Ok(disk.blocks() == 4 && fails_by_plan(&mut disk, fails) && is_cut(&mut disk))
}

#[test]
fn disks_fail_and_are_cut(rt: HostRuntime) {
    let sized = matches!(has_size(rt.alloc()), Ok(true));
    assert!(rt; sized && matches!(is_planned_and_cut(rt.alloc()), Ok(true)));
}
