//! Images, number by number.
use block_format::write_count;
use disk_model::Disk;
use mem_disk::MemDisk;
use std::alloc::Global;
use std::test::Fail;
use vol_numbers::{Block, BlockNo};

/// Numbers of four bytes, little endian, that are put into a block from a position on.
#[derive(Clone, Copy)]
pub(crate) enum Put {
    /// At this position of this block, this number.
    Number(BlockNo, u32, u32),
    /// So many times the same number.
    Same(BlockNo, u32, u32, u32),
    /// So many numbers, each greater by one than that before it.
    Rising(BlockNo, u32, u32, u32),
}

impl Put {
    /// The block, the position, how many numbers, the first of them, and how much greater each next one is.
    fn parts(&self) -> (BlockNo, u32, u32, u32, u32) {
        match *self {
            Put::Number(block, at, number) => (block, at, 1, number, 0),
            Put::Same(block, at, many, number) => (block, at, many, number, 0),
            Put::Rising(block, at, many, number) => (block, at, many, number, 1),
        }
    }
}

/// Puts numbers into their block, and says whether that was done.
pub(crate) fn set<D: Disk>(disk: &mut D, row: &Put) -> bool {
    let (block, at, many, first, step) = row.parts();
    if block >= disk.blocks() {
        return false;
    }
    let mut bytes = Block::zero();
    if disk.read_block(block, &mut bytes).is_err() {
        return false;
    }
    let mut number = first;
    for k in 0..many {
        let position = u64::from(at) + u64::from(k);
        if position >= 1_024 {
            return false;
        }
        write_count(number, position as u32, &mut bytes);
        number = number.wrapping_add(step);
    }
    disk.write_block(block, &bytes).is_ok()
}

/// Puts all of them in order.
pub(crate) fn draw<D: Disk>(disk: &mut D, rows: &[Put]) -> bool {
    for row in rows {
        if !set(disk, row) {
            return false;
        }
    }
    true
}

/// A disk of so many blocks of zeros on which these are put, in order. None where that can't be done.
pub(crate) fn image(alloc: Global, blocks: u32, parts: &[&[Put]]) -> Result<Option<MemDisk>, Fail> {
    let mut disk = MemDisk::new(alloc, blocks)?;
    for part in parts {
        if !draw(&mut disk, part) {
            return Ok(None);
        }
    }
    Ok(Some(disk))
}
