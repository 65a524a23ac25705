//! A volume of the least size, as a format leaves it. Its counts are in block 3, its log is in the blocks from 5 on, and its area begins at
//! 3 + 2 + 64 + 32, which is 101. That is the block of inodes, and 102 is the inode index. 62 blocks are free.
//!
//! An inode has 16 numbers of four bytes: kind and height, the pointer, and two for the size. A slot has 64: the number, then the length of
//! the name and its first letter, which is times 65,536.
use crate::picture::Put;

pub(crate) const BLOCKS: u32 = 165;

pub(crate) const FRESH: &[Put] = &[
    Put::Number(1, 0, 0x4445_4449),
    Put::Number(1, 1, 0x5346_5055),
    Put::Number(1, 2, 1),
    Put::Number(1, 3, 165),
    Put::Number(1, 4, 64),
    Put::Number(1, 8, 102),
    Put::Number(3, 101, 1),
    Put::Number(3, 102, 1),
    Put::Number(102, 0, 101),
    Put::Number(101, 16, 2),
];

/// The other slot, as each odd point writes it, but for its point number and the inode index: the counts are in block 4 then.
pub(crate) const OTHER_SLOT: &[Put] = &[
    Put::Number(0, 0, 1),
    Put::Number(2, 0, 0x4445_4449),
    Put::Number(2, 1, 0x5346_5055),
    Put::Number(2, 2, 1),
    Put::Number(2, 3, 165),
    Put::Number(2, 4, 64),
    Put::Number(2, 12, 1),
];
