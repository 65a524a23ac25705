//! A file that grows from one block to two and to 1,025, and is cut back: its tree has the heights 0, 1 and 2, and then 1 and 0.
use crate::acts::{Act, Kind};
use crate::picture::Put;
use crate::small::{BLOCKS, FRESH, OTHER_SLOT};
use crate::volume::{Outcome, comes_out};
use std::test::Fail;

/// At height 0: data 103, the directory's block 104, inodes 105, inode index 106. At height 1: data 101, the leaf 102, inodes 107, inode index 108. At height
/// 2: data 105, the leaf of the places from 1,024 on 106, the top index 109, inodes 110, inode index 111; the first leaf stays.
const GROWN: &[Act] = &[
    Act::Made(2, Kind::File(0), &[(1, 0, 2, b'a')]),
    Act::Wrote(2, 4_096, &[(0, 1, b'A')]),
    Act::Point((1, 1, 60, &[(2, 0, 1, 103)])),
    Act::Wrote(2, 8_192, &[(1, 1, b'B')]),
    Act::Point((2, 1, 58, &[(2, 1, 1, 101)])),
    Act::Wrote(2, 4_198_400, &[(1_024, 1, b'C')]),
    Act::Point((3, 1, 55, &[(2, 1_024, 1, 105)])),
];

/// Then it is cut to two blocks: inodes 107, inode index 108, and no other block is written. Then to one: inodes 105, inode index 106.
const CUT: &[Act] = &[
    Act::Made(2, Kind::File(0), &[(1, 0, 2, b'a')]),
    Act::Wrote(2, 4_096, &[(0, 1, b'A')]),
    Act::Point((1, 1, 60, &[(2, 0, 1, 103)])),
    Act::Wrote(2, 8_192, &[(1, 1, b'B')]),
    Act::Point((2, 1, 58, &[(2, 1, 1, 101)])),
    Act::Wrote(2, 4_198_400, &[(1_024, 1, b'C')]),
    Act::Point((3, 1, 55, &[(2, 1_024, 1, 105)])),
    Act::Resized(2, 8_192, 2),
    Act::Point((4, 0, 58, &[])),
    Act::Resized(2, 4_096, 1),
    Act::Point((5, 0, 60, &[])),
];

/// What the points 1 and 2 leave for later: the directory, the blocks of places 0 and 1, the first leaf, and what point 4 writes again.
const TO_TWO: &[Put] = &[
    Put::Same(103, 0, 1_024, 0x4141_4141),
    Put::Number(104, 0, 2),
    Put::Number(104, 1, 0x0061_0001),
    Put::Number(1, 6, 2),
    Put::Number(1, 8, 108),
    Put::Same(3, 103, 2, 1),
    Put::Same(3, 107, 2, 1),
    Put::Same(101, 0, 1_024, 0x4242_4242),
    Put::Number(102, 0, 103),
    Put::Number(102, 1, 101),
    Put::Number(107, 16, 2),
    Put::Number(107, 17, 104),
    Put::Number(107, 18, 256),
    Put::Number(107, 32, 257),
    Put::Number(107, 33, 102),
    Put::Number(107, 34, 8_192),
    Put::Number(108, 0, 107),
];

/// What point 3 leaves.
const TO_MANY: &[Put] = &[
    Put::Number(2, 6, 3),
    Put::Number(2, 8, 111),
    Put::Same(4, 101, 6, 1),
    Put::Same(4, 109, 3, 1),
    Put::Same(105, 0, 1_024, 0x4343_4343),
    Put::Number(106, 0, 105),
    Put::Number(109, 0, 102),
    Put::Number(109, 1, 106),
    Put::Number(110, 16, 2),
    Put::Number(110, 17, 104),
    Put::Number(110, 18, 256),
    Put::Number(110, 32, 513),
    Put::Number(110, 33, 109),
    Put::Number(110, 34, 4_198_400),
    Put::Number(111, 0, 110),
];

/// What the points 4 and 5 leave: the inodes and the inode index of point 4 have the bytes of point 2.
const TO_ONE: &[Put] = &[
    Put::Number(1, 6, 4),
    Put::Number(2, 6, 5),
    Put::Number(2, 8, 106),
    Put::Same(4, 101, 2, 0),
    Put::Same(4, 109, 3, 0),
    Put::Same(105, 0, 1_024, 0),
    Put::Number(105, 16, 2),
    Put::Number(105, 17, 104),
    Put::Number(105, 18, 256),
    Put::Number(105, 32, 1),
    Put::Number(105, 33, 103),
    Put::Number(105, 34, 4_096),
    Put::Same(106, 0, 1_024, 0),
    Put::Number(106, 0, 105),
];

#[test]
fn a_file_grows_to_height_two(rt: HostRuntime) -> Result<(), Fail> {
    assert_eq!(rt;
        comes_out(
            rt.alloc(),
            BLOCKS,
            &[FRESH],
            GROWN,
            &[FRESH, OTHER_SLOT, TO_TWO, TO_MANY]
        )?,
        Outcome::Good(2, 55)
    );
    Ok(())
}

#[test]
fn and_is_cut_to_height_nought(rt: HostRuntime) -> Result<(), Fail> {
    assert_eq!(rt;
        comes_out(
            rt.alloc(),
            BLOCKS,
            &[FRESH],
            CUT,
            &[FRESH, OTHER_SLOT, TO_TWO, TO_MANY, TO_ONE]
        )?,
        Outcome::Good(2, 60)
    );
    Ok(())
}
