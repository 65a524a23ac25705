//! A small image, word by word.
use block_format::write_count;
use disk_model::Disk;
use image_walk::{WalkFault, Walked, walk};
use std::alloc::Global;
use vol_numbers::{Block, BlockNo, Geometry};

/// The least volume: its area begins at 3 + 2 + 64 + 32, which is 101.
pub(crate) const BLOCKS: u32 = 165;

/// Where the inode index is.
pub(crate) const INDEX: BlockNo = 101;

/// A number of four bytes in a block: its position, and what it is.
#[derive(Clone, Copy)]
pub(crate) struct Word {
    pub(crate) block: BlockNo,
    pub(crate) at: u32,
    pub(crate) value: u32,
}

/// The inode index points to block 102. An inode has 16 words: kind and height, pointer, size.
/// Number 1 is a directory of one block, 103. Number 2 is a file of two blocks behind the leaf 104. Number 3 is a file of one block, which is
/// the first one of number 2 too.
const IMAGE: &[(BlockNo, u32, u32)] = &[
    (INDEX, 0, 102),
    (102, 16, 2),
    (102, 17, 103),
    (102, 18, 256),
    (102, 32, 257),
    (102, 33, 104),
    (102, 34, 8_192),
    (102, 48, 1),
    (102, 49, 105),
    (102, 50, 100),
    (104, 0, 105),
    (104, 1, 106),
];

/// Puts a word into its block, and says whether that was done.
pub(crate) fn put<D: Disk>(disk: &mut D, word: &Word) -> bool {
    if word.block >= disk.blocks() || word.at >= 1_024 {
        return false;
    }
    let mut block = Block::zero();
    if disk.read_block(word.block, &mut block).is_err() {
        return false;
    }
    write_count(word.value, word.at, &mut block);
    disk.write_block(word.block, &block).is_ok()
}

/// Puts the image on a disk of zeros.
pub(crate) fn draw<D: Disk>(disk: &mut D) -> bool {
    for row in IMAGE {
        let word = Word {
            block: row.0,
            at: row.1,
            value: row.2,
        };
        if !put(disk, &word) {
            return false;
        }
    }
    true
}

/// The volume's geometry.
pub(crate) fn geometry() -> Option<Geometry> {
    Geometry::new(BLOCKS, 64).ok()
}

/// What a walk comes to. None where the test itself is wrong.
pub(crate) fn walked<D: Disk>(
    alloc: Global,
    disk: &mut D,
    at: BlockNo,
) -> Option<Result<Walked, WalkFault>> {
    let g = geometry()?;
    if disk.blocks() != g.blocks() {
        return None;
    }
    Some(walk(alloc, disk, &g, at))
}
