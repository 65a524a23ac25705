//! Rows: a volume, what is changed of it, and what its check answers.
use crate::{Put, draw, image};
use fs_check::{CheckFault, Summary, check};
use image_model::Finding;
use std::alloc::Global;
use std::test::Fail;
use vol_numbers::BlockNo;

/// What a check answers.
#[derive(Clone, Copy)]
pub enum Want {
    /// How many nodes, records and free blocks.
    Good(u32, u32, u32),
    /// What is found.
    Bad(Finding),
    /// A wrong count is found: of this block, the count that is kept, and the number of pointers to it.
    Wrong(BlockNo, u32, u32),
}

/// What is changed, and what is answered then.
pub type Row = (&'static [Put], Want);

/// The number of blocks of the sample.
pub const BLOCKS: u32 = 165;

/// A volume of the least size. Its log is in the blocks from 5 on, and its area begins at 3 + 2 + 64 + 32, which is 101.
/// The root is in block 1, the counts are in block 3, the inode index is block 101, and the inodes of the numbers below 64 are in block 102.
///
/// An inode has 16 numbers of four bytes: kind and height, the pointer, and two for the size. A slot has 64: the number, then the length of
/// the name and its first letter, which is times 65,536.
///
/// | Number | Path | What it is |
/// |---|---|---|
/// | 1 | `/` | four slots in block 103, the third of them unused |
/// | 2 | `/a` | a file of 8,192 bytes, with the leaf 104 and the blocks 105 and 106 |
/// | 3 | `/b` | a file of 100 bytes in block 105 |
/// | 4 | `/d` | two slots in block 107 |
/// | 5 | `/d/s` | a file of 5,000,000 bytes, with the top index 108, the leaf 109 and the block 110, which is place 1,100 |
/// | 6 | `/d/e` | a file of no bytes |
pub const SAMPLE: &[Put] = &[
    Put::Number(1, 0, 0x4445_4449),
    Put::Number(1, 1, 0x5346_5055),
    Put::Number(1, 2, 1),
    Put::Number(1, 3, 165),
    Put::Number(1, 4, 64),
    Put::Number(1, 8, 101),
    Put::Same(3, 101, 10, 1),
    Put::Number(3, 105, 2),
    Put::Number(101, 0, 102),
    // Number 1.
    Put::Number(102, 16, 2),
    Put::Number(102, 17, 103),
    Put::Number(102, 18, 1_024),
    Put::Number(103, 0, 2),
    Put::Number(103, 1, 0x0061_0001),
    Put::Number(103, 64, 3),
    Put::Number(103, 65, 0x0062_0001),
    Put::Number(103, 192, 4),
    Put::Number(103, 193, 0x0064_0001),
    // Number 2.
    Put::Number(102, 32, 257),
    Put::Number(102, 33, 104),
    Put::Number(102, 34, 8_192),
    Put::Number(104, 0, 105),
    Put::Number(104, 1, 106),
    // Number 3.
    Put::Number(102, 48, 1),
    Put::Number(102, 49, 105),
    Put::Number(102, 50, 100),
    // Number 4.
    Put::Number(102, 64, 2),
    Put::Number(102, 65, 107),
    Put::Number(102, 66, 512),
    Put::Number(107, 0, 5),
    Put::Number(107, 1, 0x0073_0001),
    Put::Number(107, 64, 6),
    Put::Number(107, 65, 0x0065_0001),
    // Number 5.
    Put::Number(102, 80, 513),
    Put::Number(102, 81, 108),
    Put::Number(102, 82, 5_000_000),
    Put::Number(108, 1, 109),
    Put::Number(109, 76, 110),
    // Number 6.
    Put::Number(102, 96, 1),
];

/// What is wanted, as an answer.
pub fn answer(want: Want) -> Result<Summary, CheckFault> {
    match want {
        Want::Good(nodes, records, free) => Ok(Summary {
            nodes,
            records,
            free,
        }),
        Want::Bad(finding) => Err(CheckFault::Found(finding)),
        Want::Wrong(block, kept, counted) => Err(CheckFault::Found(Finding::WrongCount {
            block,
            kept,
            counted,
        })),
    }
}

/// Whether the check of a disk of so many blocks answers what is wanted, where these parts are put on it, and then these changes.
fn comes_out(alloc: Global, blocks: u32, parts: &[&[Put]], row: &Row) -> Result<bool, Fail> {
    let Some(mut disk) = image(alloc, blocks, parts)? else {
        return Ok(false);
    };
    if !draw(&mut disk, row.0) {
        return Ok(false);
    }
    Ok(check(alloc, &mut disk) == answer(row.1))
}

/// The first row that comes out otherwise, of changes of a volume of so many blocks on which these parts are put.
pub fn first_wrong(
    alloc: Global,
    blocks: u32,
    parts: &[&[Put]],
    rows: &[Row],
) -> Result<Option<usize>, Fail> {
    for (k, row) in rows.iter().enumerate() {
        if !comes_out(alloc, blocks, parts, row)? {
            return Ok(Some(k));
        }
    }
    Ok(None)
}
