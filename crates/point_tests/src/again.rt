//! What is removed and made again, cut and grown again, emptied and filled again, and as it was before. A point gives blocks in this order, each from what is free before
//! it: the data, then by number a directory's blocks and a file's index blocks, then the block of inodes, then the inode index.
use crate::acts::{Act, Kind};
use crate::picture::Put;
use crate::small::{BLOCKS, FRESH, OTHER_SLOT};
use crate::volume::{Outcome, comes_out};
use std::test::Fail;

/// After `create /a`, a write of two blocks and a point: data 103 and 104, the directory's block 105, the leaf 106, inodes 107, inode index 108.
const TWO_BLOCKS: &[Put] = &[
    Put::Number(2, 6, 1),
    Put::Number(2, 8, 108),
    Put::Same(4, 103, 6, 1),
    Put::Same(103, 0, 1_024, 0x4141_4141),
    Put::Same(104, 0, 1_024, 0x4242_4242),
    Put::Number(105, 0, 2),
    Put::Number(105, 1, 0x0061_0001),
    Put::Rising(106, 0, 2, 103),
    Put::Number(107, 16, 2),
    Put::Number(107, 17, 105),
    Put::Number(107, 18, 256),
    Put::Number(107, 32, 257),
    Put::Number(107, 33, 106),
    Put::Number(107, 34, 8_192),
    Put::Number(108, 0, 107),
];

/// The file is removed, and its number and its slot are those of `/b`, with one block.
const MADE_AGAIN: &[Act] = &[
    Act::Made(2, Kind::File(0), &[(1, 0, 2, b'a')]),
    Act::Wrote(2, 8_192, &[(0, 2, b'A')]),
    Act::Point((1, 2, 58, &[(2, 0, 2, 103)])),
    Act::Removed(2, &[(1, 0, 0, 0)]),
    Act::Made(2, Kind::File(0), &[(1, 0, 2, b'b')]),
    Act::Wrote(2, 4_096, &[(0, 1, b'C')]),
    Act::Point((2, 1, 60, &[(2, 0, 1, 101)])),
];

/// 101 and 102 are free, then all from 109 on: data 101, the directory's block 102, inodes 109, inode index 110. Nothing of the first file is left.
const AFTER_MADE_AGAIN: &[Put] = &[
    Put::Number(0, 0, 0),
    Put::Number(1, 6, 2),
    Put::Number(1, 8, 110),
    Put::Same(3, 109, 2, 1),
    Put::Same(101, 0, 1_024, 0x4343_4343),
    Put::Number(102, 0, 2),
    Put::Number(102, 1, 0x0062_0001),
    Put::Number(109, 16, 2),
    Put::Number(109, 17, 102),
    Put::Number(109, 18, 256),
    Put::Number(109, 32, 1),
    Put::Number(109, 33, 101),
    Put::Number(109, 34, 4_096),
    Put::Number(110, 0, 109),
];

/// The file is cut to its first block and grown to two again: its second place is a hole then.
const GROWN_AGAIN: &[Act] = &[
    Act::Made(2, Kind::File(0), &[(1, 0, 2, b'a')]),
    Act::Wrote(2, 8_192, &[(0, 2, b'A')]),
    Act::Point((1, 2, 58, &[(2, 0, 2, 103)])),
    Act::Resized(2, 4_096, 1),
    Act::Resized(2, 8_192, 2),
    Act::Point((2, 0, 59, &[])),
];

/// The leaf 101, inodes 102, inode index 109. Block 103 and the directory's block 105 stay.
const AFTER_GROWN_AGAIN: &[Put] = &[
    Put::Number(0, 0, 0),
    Put::Number(1, 6, 2),
    Put::Number(1, 8, 109),
    Put::Number(3, 103, 1),
    Put::Number(3, 105, 1),
    Put::Number(3, 109, 1),
    Put::Same(101, 0, 1_024, 0),
    Put::Number(101, 0, 103),
    Put::Same(102, 0, 1_024, 0),
    Put::Number(102, 16, 2),
    Put::Number(102, 17, 105),
    Put::Number(102, 18, 256),
    Put::Number(102, 32, 257),
    Put::Number(102, 33, 101),
    Put::Number(102, 34, 8_192),
    Put::Number(109, 0, 102),
];

/// Two files of no bytes are made, then removed, then one is made: the directory stays two slots wide.
const FILLED_AGAIN: &[Act] = &[
    Act::Made(2, Kind::File(0), &[(1, 0, 2, b'a')]),
    Act::Made(3, Kind::File(0), &[(1, 1, 3, b'b')]),
    Act::Point((1, 0, 61, &[])),
    Act::Removed(2, &[(1, 0, 0, 0)]),
    Act::Removed(3, &[(1, 1, 0, 0)]),
    Act::Point((2, 0, 61, &[])),
    Act::Made(2, Kind::File(0), &[(1, 0, 2, b'c')]),
    Act::Point((3, 0, 61, &[])),
];

/// The directory's block 103, inodes 104, inode index 105. Then 101, 102, 106: the block of unused slots is zeros. Then 103, 104, 105 again.
const AFTER_FILLED_AGAIN: &[Put] = &[
    Put::Number(1, 6, 2),
    Put::Number(1, 8, 106),
    Put::Number(3, 106, 1),
    Put::Same(101, 0, 1_024, 0),
    Put::Same(102, 0, 1_024, 0),
    Put::Number(102, 16, 2),
    Put::Number(102, 17, 101),
    Put::Number(102, 18, 512),
    Put::Number(106, 0, 102),
    Put::Number(2, 6, 3),
    Put::Number(2, 8, 105),
    Put::Same(4, 103, 3, 1),
    Put::Number(103, 0, 2),
    Put::Number(103, 1, 0x0063_0001),
    Put::Number(104, 16, 2),
    Put::Number(104, 17, 103),
    Put::Number(104, 18, 512),
    Put::Number(104, 32, 1),
    Put::Number(105, 0, 104),
];

/// A directory with one file is removed and made again under the same numbers with other names, between two points.
const DIRECTORY_AGAIN: &[Act] = &[
    Act::Made(2, Kind::Directory, &[(1, 0, 2, b'd')]),
    Act::Made(3, Kind::File(0), &[(2, 0, 3, b'x')]),
    Act::Point((1, 0, 60, &[])),
    Act::Removed(3, &[(2, 0, 0, 0)]),
    Act::Removed(2, &[(1, 0, 0, 0)]),
    Act::Made(2, Kind::Directory, &[(1, 0, 2, b'e')]),
    Act::Made(3, Kind::File(0), &[(2, 0, 3, b'y')]),
    Act::Point((2, 0, 60, &[])),
];

/// The directories' blocks 103 and 104, inodes 105, inode index 106. Then 101, 102, 107, 108.
const AFTER_DIRECTORY_AGAIN: &[Put] = &[
    Put::Number(2, 6, 1),
    Put::Number(2, 8, 106),
    Put::Same(4, 103, 4, 1),
    Put::Number(103, 0, 2),
    Put::Number(103, 1, 0x0064_0001),
    Put::Number(104, 0, 3),
    Put::Number(104, 1, 0x0078_0001),
    Put::Number(105, 16, 2),
    Put::Number(105, 17, 103),
    Put::Number(105, 18, 256),
    Put::Number(105, 32, 2),
    Put::Number(105, 33, 104),
    Put::Number(105, 34, 256),
    Put::Number(105, 48, 1),
    Put::Number(106, 0, 105),
    Put::Number(0, 0, 0),
    Put::Number(1, 6, 2),
    Put::Number(1, 8, 108),
    Put::Same(3, 107, 2, 1),
    Put::Same(101, 0, 1_024, 0),
    Put::Number(101, 0, 2),
    Put::Number(101, 1, 0x0065_0001),
    Put::Number(102, 0, 3),
    Put::Number(102, 1, 0x0079_0001),
    Put::Number(107, 16, 2),
    Put::Number(107, 17, 101),
    Put::Number(107, 18, 256),
    Put::Number(107, 32, 2),
    Put::Number(107, 33, 102),
    Put::Number(107, 34, 256),
    Put::Number(107, 48, 1),
    Put::Number(108, 0, 107),
];

/// A second file is made and removed between two points, then the first one is removed and made again just as it was.
const AS_BEFORE: &[Act] = &[
    Act::Made(2, Kind::File(0), &[(1, 0, 2, b'a')]),
    Act::Point((1, 0, 61, &[])),
    Act::Made(3, Kind::File(0), &[(1, 1, 3, b'b')]),
    Act::Removed(3, &[(1, 1, 0, 0)]),
    Act::Point((2, 0, 61, &[])),
    Act::Removed(2, &[(1, 0, 0, 0)]),
    Act::Made(2, Kind::File(0), &[(1, 0, 2, b'a')]),
    Act::Point((3, 0, 61, &[])),
];

/// The directory's block 103, inodes 104, inode index 105. Then the directory is two slots wide, and its second slot is unused as before: its block 103
/// stays, and 101 and 102 are the least free blocks, for the inodes and the inode index. The last point writes the root alone.
const AFTER_AS_BEFORE: &[Put] = &[
    Put::Same(4, 103, 3, 1),
    Put::Number(103, 0, 2),
    Put::Number(103, 1, 0x0061_0001),
    Put::Number(104, 16, 2),
    Put::Number(104, 17, 103),
    Put::Number(104, 18, 256),
    Put::Number(104, 32, 1),
    Put::Number(105, 0, 104),
    Put::Number(1, 6, 2),
    Put::Number(3, 103, 1),
    Put::Number(101, 17, 103),
    Put::Number(101, 18, 512),
    Put::Number(101, 32, 1),
    Put::Number(2, 6, 3),
    Put::Number(2, 8, 102),
    Put::Number(2, 12, 0),
];

#[test]
fn a_number_is_made_again(rt: HostRuntime) -> Result<(), Fail> {
    assert_eq!(rt;
        comes_out(
            rt.alloc(),
            BLOCKS,
            &[FRESH],
            MADE_AGAIN,
            &[FRESH, OTHER_SLOT, TWO_BLOCKS, AFTER_MADE_AGAIN]
        )?,
        Outcome::Good(2, 60)
    );
    Ok(())
}

#[test]
fn a_file_is_cut_and_grown_again(rt: HostRuntime) -> Result<(), Fail> {
    assert_eq!(rt;
        comes_out(
            rt.alloc(),
            BLOCKS,
            &[FRESH],
            GROWN_AGAIN,
            &[FRESH, OTHER_SLOT, TWO_BLOCKS, AFTER_GROWN_AGAIN]
        )?,
        Outcome::Good(2, 59)
    );
    Ok(())
}

#[test]
fn a_directory_is_emptied_and_filled_again(rt: HostRuntime) -> Result<(), Fail> {
    assert_eq!(rt;
        comes_out(
            rt.alloc(),
            BLOCKS,
            &[FRESH],
            FILLED_AGAIN,
            &[FRESH, OTHER_SLOT, AFTER_FILLED_AGAIN]
        )?,
        Outcome::Good(2, 61)
    );
    Ok(())
}

#[test]
fn a_directory_is_removed_and_made_again(rt: HostRuntime) -> Result<(), Fail> {
    assert_eq!(rt;
        comes_out(
            rt.alloc(),
            BLOCKS,
            &[FRESH],
            DIRECTORY_AGAIN,
            &[FRESH, OTHER_SLOT, AFTER_DIRECTORY_AGAIN]
        )?,
        Outcome::Good(3, 60)
    );
    Ok(())
}

#[test]
fn a_page_that_is_as_before_stays(rt: HostRuntime) -> Result<(), Fail> {
    assert_eq!(rt;
        comes_out(
            rt.alloc(),
            BLOCKS,
            &[FRESH],
            AS_BEFORE,
            &[FRESH, OTHER_SLOT, AFTER_AS_BEFORE]
        )?,
        Outcome::Good(2, 61)
    );
    Ok(())
}
