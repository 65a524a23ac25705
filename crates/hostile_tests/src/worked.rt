//! A volume of 2,048 blocks after some commands. It has two count blocks, so its log begins at block 7 and its area at 103.
use check_rows::{Put, Row, Want, first_wrong};
use image_model::Finding;
use std::test::Fail;

/// The number of blocks.
const BLOCKS: u32 = 2_048;

/// The volume as a format leaves it, by the 48 bytes that its root begins with: the inodes are in block 103, the inode index is block 104.
const FRESH: &[Put] = &[
    Put::Number(1, 0, 0x4445_4449),
    Put::Number(1, 1, 0x5346_5055),
    Put::Number(1, 2, 1),
    Put::Number(1, 3, 2_048),
    Put::Number(1, 4, 64),
    Put::Number(1, 8, 104),
    Put::Number(3, 103, 1),
    Put::Number(3, 104, 1),
    Put::Number(104, 0, 103),
    Put::Number(103, 16, 2),
];

const FRESH_ROWS: &[Row] = &[
    (&[], Want::Good(1, 0, 1_943)),
    // The record of `create /a`, and its kind changed.
    (
        &[
            Put::Same(1, 9, 2, 1),
            Put::Number(7, 0, 2),
            Put::Number(7, 1, 2),
            Put::Number(7, 6, 0x612f),
        ],
        Want::Good(1, 1, 1_943),
    ),
    (
        &[
            Put::Same(1, 9, 2, 1),
            Put::Number(7, 0, 7),
            Put::Number(7, 1, 2),
            Put::Number(7, 6, 0x612f),
        ],
        Want::Bad(Finding::BadLog(0)),
    ),
];

/// After `create /a` and `write /a 0 32768` of `A`, without a point: the records take ten blocks.
const TWO_RECORDS: &[Row] = &[(
    &[
        Put::Number(1, 9, 2),
        Put::Number(1, 10, 10),
        Put::Number(7, 0, 2),
        Put::Number(7, 1, 2),
        Put::Number(7, 6, 0x612f),
        Put::Number(8, 0, 3),
        Put::Number(8, 1, 2),
        Put::Number(8, 4, 32_768),
        Put::Number(8, 6, 0x4141_612f),
        Put::Same(8, 7, 1_017, 0x4141_4141),
        Put::Same(9, 0, 1_024, 0x4141_4141),
        Put::Same(10, 0, 1_024, 0x4141_4141),
        Put::Same(11, 0, 1_024, 0x4141_4141),
        Put::Same(12, 0, 1_024, 0x4141_4141),
        Put::Same(13, 0, 1_024, 0x4141_4141),
        Put::Same(14, 0, 1_024, 0x4141_4141),
        Put::Same(15, 0, 1_024, 0x4141_4141),
        Put::Same(16, 0, 6, 0x4141_4141),
        Put::Number(16, 6, 0x4141),
    ],
    Want::Good(1, 2, 1_943),
)];

/// After `create /a`, `write /a 0 32768` and a point: the data are in the blocks from 105 on, one letter a block, the directory's block is 113, the leaf
/// 114, the inode block 115, the inode index 116, and the counts are in block 4. The other slot is the current one.
const FIRST: &[Put] = &[
    Put::Number(0, 0, 1),
    Put::Number(2, 0, 0x4445_4449),
    Put::Number(2, 1, 0x5346_5055),
    Put::Number(2, 2, 1),
    Put::Number(2, 3, 2_048),
    Put::Number(2, 4, 64),
    Put::Number(2, 6, 1),
    Put::Number(2, 8, 116),
    Put::Number(2, 12, 1),
    Put::Same(4, 105, 12, 1),
    Put::Same(105, 0, 1_024, 0x4141_4141),
    Put::Same(106, 0, 1_024, 0x4242_4242),
    Put::Same(107, 0, 1_024, 0x4343_4343),
    Put::Same(108, 0, 1_024, 0x4444_4444),
    Put::Same(109, 0, 1_024, 0x4545_4545),
    Put::Same(110, 0, 1_024, 0x4646_4646),
    Put::Same(111, 0, 1_024, 0x4747_4747),
    Put::Same(112, 0, 1_024, 0x4848_4848),
    Put::Number(113, 0, 2),
    Put::Number(113, 1, 0x0061_0001),
    Put::Rising(114, 0, 8, 105),
    Put::Number(115, 16, 2),
    Put::Number(115, 17, 113),
    Put::Number(115, 18, 256),
    Put::Number(115, 32, 257),
    Put::Number(115, 33, 114),
    Put::Number(115, 34, 32_768),
    Put::Number(116, 0, 115),
];

const FIRST_ROWS: &[Row] = &[
    (&[], Want::Good(2, 0, 1_933)),
    (&[Put::Number(4, 105, 2)], Want::Wrong(105, 2, 1)),
];

/// After `create /b`, the same data, and a point, which shares the eight blocks: the directory's block is 103, the leaf of `/b` 104, the inode block 117,
/// and the inode index 118. The counts are in block 3, and the root is in block 1.
const SECOND: &[Put] = &[
    Put::Number(0, 0, 0),
    Put::Number(1, 6, 2),
    Put::Number(1, 8, 118),
    Put::Same(3, 103, 2, 1),
    Put::Same(3, 105, 8, 2),
    Put::Number(3, 114, 1),
    Put::Same(3, 117, 2, 1),
    Put::Same(103, 0, 1_024, 0),
    Put::Number(103, 0, 2),
    Put::Number(103, 1, 0x0061_0001),
    Put::Number(103, 64, 3),
    Put::Number(103, 65, 0x0062_0001),
    Put::Rising(104, 0, 8, 105),
    Put::Number(117, 16, 2),
    Put::Number(117, 17, 103),
    Put::Number(117, 18, 512),
    Put::Number(117, 32, 257),
    Put::Number(117, 33, 114),
    Put::Number(117, 34, 32_768),
    Put::Number(117, 48, 257),
    Put::Number(117, 49, 104),
    Put::Number(117, 50, 32_768),
    Put::Number(118, 0, 117),
];

const SECOND_ROWS: &[Row] = &[
    (&[], Want::Good(3, 0, 1_932)),
    // The first byte of the root, the number of log blocks, the inode index.
    (
        &[Put::Number(1, 0, 0x4445_4400)],
        Want::Bad(Finding::NoRoot),
    ),
    (&[Put::Number(1, 4, 63)], Want::Bad(Finding::BadGeometry)),
    (&[Put::Number(1, 8, 0)], Want::Bad(Finding::BadPointer(0))),
    // The kind of number 2, the first pointer of the leaf of number 3, the size of number 2.
    (
        &[Put::Number(117, 32, 259)],
        Want::Bad(Finding::BadInode(2)),
    ),
    (
        &[Put::Number(104, 0, 103)],
        Want::Bad(Finding::MixedBlock(103)),
    ),
    (
        &[Put::Number(117, 34, 32_767)],
        Want::Bad(Finding::BadTail(2)),
    ),
    // The name and the number of the second slot.
    (
        &[Put::Number(103, 65, 0x0061_0001)],
        Want::Bad(Finding::BadDirectory(1)),
    ),
    (&[Put::Number(103, 64, 2)], Want::Bad(Finding::NotATree(2))),
];

/// A volume of 165 blocks with a file of 32 blocks: 103 to 118 and 123 to 138. The directory's block is 139, the leaf 140, the inode block 141, the inode
/// index 142. 28 blocks are free.
const NEARLY_FULL: &[Put] = &[
    Put::Number(1, 0, 0x4445_4449),
    Put::Number(1, 1, 0x5346_5055),
    Put::Number(1, 2, 1),
    Put::Number(1, 3, 165),
    Put::Number(1, 4, 64),
    Put::Number(1, 6, 2),
    Put::Number(1, 8, 142),
    Put::Same(3, 103, 16, 1),
    Put::Same(3, 123, 20, 1),
    Put::Number(139, 0, 2),
    Put::Number(139, 1, 0x0066_0001),
    Put::Rising(140, 0, 16, 103),
    Put::Rising(140, 16, 16, 123),
    Put::Number(141, 16, 2),
    Put::Number(141, 17, 139),
    Put::Number(141, 18, 256),
    Put::Number(141, 32, 257),
    Put::Number(141, 33, 140),
    Put::Number(141, 34, 131_072),
    Put::Number(142, 0, 141),
];

const NEARLY_FULL_ROWS: &[Row] = &[
    (&[], Want::Good(2, 0, 28)),
    // The file has 13 blocks more.
    (
        &[
            Put::Number(141, 34, 184_320),
            Put::Rising(140, 32, 13, 143),
            Put::Same(3, 143, 13, 1),
        ],
        Want::Bad(Finding::NoReserve(15)),
    ),
];

#[test]
fn fresh_volumes_are_good(rt: HostRuntime) -> Result<(), Fail> {
    assert_eq!(rt;
        first_wrong(rt.alloc(), BLOCKS, &[FRESH], FRESH_ROWS)?,
        None
    );
    Ok(())
}

#[test]
fn a_log_of_two_records_is_good(rt: HostRuntime) -> Result<(), Fail> {
    assert_eq!(rt;
        first_wrong(rt.alloc(), BLOCKS, &[FRESH], TWO_RECORDS)?,
        None
    );
    Ok(())
}

#[test]
fn what_a_point_leaves_is_good(rt: HostRuntime) -> Result<(), Fail> {
    assert_eq!(rt;
        first_wrong(rt.alloc(), BLOCKS, &[FRESH, FIRST], FIRST_ROWS)?,
        None
    );
    Ok(())
}

#[test]
fn damages_of_a_shared_file_are_found(rt: HostRuntime) -> Result<(), Fail> {
    assert_eq!(rt;
        first_wrong(rt.alloc(), BLOCKS, &[FRESH, FIRST, SECOND], SECOND_ROWS)?,
        None
    );
    Ok(())
}

#[test]
fn a_nearly_full_volume_has_no_reserve(rt: HostRuntime) -> Result<(), Fail> {
    assert_eq!(rt;
        first_wrong(rt.alloc(), 165, &[NEARLY_FULL], NEARLY_FULL_ROWS)?,
        None
    );
    Ok(())
}
