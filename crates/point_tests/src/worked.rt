//! A volume of 2,048 blocks: a point with nothing pending, one after a file of eight blocks was made, and another one. It has two count blocks, so its
//! log begins at block 7, and its area, in which blocks are taken, at 103.
use crate::acts::{Act, Kind};
use crate::picture::Put;
use crate::volume::{Outcome, comes_out};
use std::test::Fail;

const BLOCKS: u32 = 2_048;

/// The volume as a format leaves it, by the 48 bytes that its root begins with: the inodes are in block 103, the inode index is block 104.
const FRESH: &[Put] = &[
    Put::Number(1, 0, 0x4445_4449),
    Put::Number(1, 1, 0x5346_5055),
    Put::Number(1, 2, 1),
    Put::Number(1, 3, 2_048),
    Put::Number(1, 4, 64),
    Put::Number(1, 8, 104),
    Put::Number(3, 103, 1),
    Put::Number(3, 104, 1),
    Put::Number(104, 0, 103),
    Put::Number(103, 16, 2),
];

/// A root more: that of point 1, in the other slot, which the selector names then.
const NEXT_ROOT: &[Put] = &[
    Put::Number(0, 0, 1),
    Put::Number(2, 0, 0x4445_4449),
    Put::Number(2, 1, 0x5346_5055),
    Put::Number(2, 2, 1),
    Put::Number(2, 3, 2_048),
    Put::Number(2, 4, 64),
    Put::Number(2, 6, 1),
    Put::Number(2, 8, 104),
];

/// And that of point 2, in the first slot again.
const ROOT_AFTER: &[Put] = &[Put::Number(0, 0, 0), Put::Number(1, 6, 2)];

const NOTHING: &[Act] = &[Act::Point((1, 0, 1_943, &[]))];

const NOTHING_TWICE: &[Act] = &[
    Act::Point((1, 0, 1_943, &[])),
    Act::Point((2, 0, 1_943, &[])),
];

/// `create /a`, a write of eight blocks from `A` to `H`, and a point.
const FIRST_ACTS: &[Act] = &[
    Act::Made(2, Kind::File(0), &[(1, 0, 2, b'a')]),
    Act::Wrote(2, 32_768, &[(0, 8, b'A')]),
    Act::Point((1, 8, 1_933, &[(2, 0, 8, 105)])),
];

/// Fresh data come first: 103 and 104 are taken, so eight blocks in a row begin at 105. Then the directory's block 113, the leaf of the file 114, the block
/// of inodes 115, and the inode index 116. The counts of block 0 to 1,023 are in the other home, block 4.
const FIRST: &[Put] = &[
    Put::Number(0, 0, 1),
    Put::Number(2, 0, 0x4445_4449),
    Put::Number(2, 1, 0x5346_5055),
    Put::Number(2, 2, 1),
    Put::Number(2, 3, 2_048),
    Put::Number(2, 4, 64),
    Put::Number(2, 6, 1),
    Put::Number(2, 8, 116),
    Put::Number(2, 12, 1),
    Put::Same(4, 105, 12, 1),
    Put::Same(105, 0, 1_024, 0x4141_4141),
    Put::Same(106, 0, 1_024, 0x4242_4242),
    Put::Same(107, 0, 1_024, 0x4343_4343),
    Put::Same(108, 0, 1_024, 0x4444_4444),
    Put::Same(109, 0, 1_024, 0x4545_4545),
    Put::Same(110, 0, 1_024, 0x4646_4646),
    Put::Same(111, 0, 1_024, 0x4747_4747),
    Put::Same(112, 0, 1_024, 0x4848_4848),
    Put::Number(113, 0, 2),
    Put::Number(113, 1, 0x0061_0001),
    Put::Rising(114, 0, 8, 105),
    Put::Number(115, 16, 2),
    Put::Number(115, 17, 113),
    Put::Number(115, 18, 256),
    Put::Number(115, 32, 257),
    Put::Number(115, 33, 114),
    Put::Number(115, 34, 32_768),
    Put::Number(116, 0, 115),
];

/// Then `create /b`, a write of the same bytes, and a point that shares nothing.
const SECOND_ACTS: &[Act] = &[
    Act::Made(2, Kind::File(0), &[(1, 0, 2, b'a')]),
    Act::Wrote(2, 32_768, &[(0, 8, b'A')]),
    Act::Point((1, 8, 1_933, &[(2, 0, 8, 105)])),
    Act::Made(3, Kind::File(0), &[(1, 1, 3, b'b')]),
    Act::Wrote(3, 32_768, &[(0, 8, b'A')]),
    Act::Point((2, 8, 1_924, &[(3, 0, 8, 117)])),
];

/// 103 and 104 are free, and all from 117 on: eight blocks in a row begin at 117. Then the least free blocks: 103 for the directory, 104 for the leaf of
/// `/b`, 125 for the inodes, 126 for the inode index. The directory's block 113, the inodes 115 and the inode index 116 are free after it, and 21 blocks of
/// the 1,945 are counted. The counts are in block 3 again, and the root is in block 1.
const SECOND: &[Put] = &[
    Put::Number(0, 0, 0),
    Put::Number(1, 6, 2),
    Put::Number(1, 8, 126),
    Put::Same(3, 103, 10, 1),
    Put::Number(3, 114, 1),
    Put::Same(3, 117, 10, 1),
    Put::Same(117, 0, 1_024, 0x4141_4141),
    Put::Same(118, 0, 1_024, 0x4242_4242),
    Put::Same(119, 0, 1_024, 0x4343_4343),
    Put::Same(120, 0, 1_024, 0x4444_4444),
    Put::Same(121, 0, 1_024, 0x4545_4545),
    Put::Same(122, 0, 1_024, 0x4646_4646),
    Put::Same(123, 0, 1_024, 0x4747_4747),
    Put::Same(124, 0, 1_024, 0x4848_4848),
    Put::Same(103, 0, 1_024, 0),
    Put::Number(103, 0, 2),
    Put::Number(103, 1, 0x0061_0001),
    Put::Number(103, 64, 3),
    Put::Number(103, 65, 0x0062_0001),
    Put::Same(104, 0, 1_024, 0),
    Put::Rising(104, 0, 8, 117),
    Put::Number(125, 16, 2),
    Put::Number(125, 17, 103),
    Put::Number(125, 18, 512),
    Put::Number(125, 32, 257),
    Put::Number(125, 33, 114),
    Put::Number(125, 34, 32_768),
    Put::Number(125, 48, 257),
    Put::Number(125, 49, 104),
    Put::Number(125, 50, 32_768),
    Put::Number(126, 0, 125),
];

#[test]
fn a_point_with_nothing_pending_writes_the_root_alone(rt: HostRuntime) -> Result<(), Fail> {
    assert_eq!(rt;
        comes_out(rt.alloc(), BLOCKS, &[FRESH], NOTHING, &[FRESH, NEXT_ROOT])?,
        Outcome::Good(1, 1_943)
    );
    Ok(())
}

#[test]
fn two_points_use_the_slots_in_turn(rt: HostRuntime) -> Result<(), Fail> {
    assert_eq!(rt;
        comes_out(
            rt.alloc(),
            BLOCKS,
            &[FRESH],
            NOTHING_TWICE,
            &[FRESH, NEXT_ROOT, ROOT_AFTER]
        )?,
        Outcome::Good(1, 1_943)
    );
    Ok(())
}

#[test]
fn a_file_of_eight_blocks_is_written(rt: HostRuntime) -> Result<(), Fail> {
    assert_eq!(rt;
        comes_out(rt.alloc(), BLOCKS, &[FRESH], FIRST_ACTS, &[FRESH, FIRST])?,
        Outcome::Good(2, 1_933)
    );
    Ok(())
}

#[test]
fn a_second_file_is_written_beside_it(rt: HostRuntime) -> Result<(), Fail> {
    assert_eq!(rt;
        comes_out(
            rt.alloc(),
            BLOCKS,
            &[FRESH],
            SECOND_ACTS,
            &[FRESH, FIRST, SECOND]
        )?,
        Outcome::Good(3, 1_924)
    );
    Ok(())
}
