//! A small image, word by word.
ghost use Rattle.std.specs.Prelude.{◌≡◌};

use block_format::{HomeBits, RootBody, write_count};
use disk_model::Disk;
use mem_disk::MemDisk;
use std::alloc::Global;
use std::test::Fail;
use vol_numbers::{Block, BlockNo, CallList, Geometry};

/// The least volume: its area begins at 3 + 2 + 64 + 32, which is 101, and has 64 blocks.
pub(crate) const BLOCKS: u32 = 165;

/// Where the inode index is.
pub(crate) const INDEX: BlockNo = 101;

/// A number of four bytes in a block: its position, and what it is.
#[derive(Clone, Copy)]
pub(crate) struct Word {
    pub(crate) block: BlockNo,
    pub(crate) at: u32,
    pub(crate) value: u32,
}

/// The inode index points to block 102. An inode has 16 words: kind and height, pointer, size.
/// Number 1 is a directory of two slots in block 103: number 2 is `a`, and number 3 is `b`. A slot has 64 words: the number, and then the length of the name
/// and its first letter, which is 97 or 98 times 65,536.
/// Number 2 is a file of two blocks behind the leaf 104. Number 3 is a file of 100 bytes, in the first block of number 2.
/// The counts are in block 3: block 105 has two pointers.
const IMAGE: &[(BlockNo, u32, u32)] = &[
    (3, 101, 1),
    (3, 102, 1),
    (3, 103, 1),
    (3, 104, 1),
    (3, 105, 2),
    (3, 106, 1),
    (INDEX, 0, 102),
    (102, 16, 2),
    (102, 17, 103),
    (102, 18, 512),
    (102, 32, 257),
    (102, 33, 104),
    (102, 34, 8_192),
    (102, 48, 1),
    (102, 49, 105),
    (102, 50, 100),
    (103, 0, 2),
    (103, 1, 6_356_993),
    (103, 64, 3),
    (103, 65, 6_422_529),
    (104, 0, 105),
    (104, 1, 106),
];

/// Puts a word into its block, and says whether that was done.
pub(crate) fn put<D: Disk>(disk: &mut D, word: &Word) -> bool {
    if word.block >= disk.blocks() || word.at >= 1_024 {
        return false;
    }
    let mut block = Block::zero();
    if disk.read_block(word.block, &mut block).is_err() {
        return false;
    }
    write_count(word.value, word.at, &mut block);
    disk.write_block(word.block, &block).is_ok()
}

/// Puts the image on a disk of zeros.
fn draw<D: Disk>(disk: &mut D) -> bool {
    for row in IMAGE {
        let word = Word {
            block: row.0,
            at: row.1,
            value: row.2,
        };
        if !put(disk, &word) {
            return false;
        }
    }
    true
}

/// The image with some words changed.
pub(crate) fn image(alloc: Global, words: &[Word]) -> Result<Option<MemDisk>, Fail> {
    let mut disk = MemDisk::new(alloc, BLOCKS)?;
    if !draw(&mut disk) {
        return Ok(None);
    }
    for word in words {
        if !put(&mut disk, word) {
            return Ok(None);
        }
    }
    Ok(Some(disk))
}

/// The volume's geometry.
pub(crate) fn geometry() -> Option<Geometry> {
    Geometry::new(BLOCKS, 64).ok()
}

/// A root of the volume.
pub(crate) fn root(geometry: Geometry, records: u32, log_used: u32, homes: HomeBits) -> RootBody
    ensures { result.geometry ≡ geometry }
{
    RootBody {
        geometry,
        point: 0,
        inode_index: INDEX,
        records,
        log_used,
        homes,
    }
}

/// No call of a disk.
pub(crate) fn no_call(alloc: Global) -> CallList {
    CallList::new(alloc)
}

/// The next call of a disk.
pub(crate) fn next_call(alloc: Global) -> Result<CallList, Fail> {
    let mut calls = Vec::new(alloc);
    calls.push(0)?;
    Ok(CallList::from_vec(calls))
}
