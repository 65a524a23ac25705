//! What is wrong with counts, the reserve and the log, in changes of the sample.
use check_rows::{BLOCKS, Put, Row, SAMPLE, Want, first_wrong};
use image_model::Finding;
use std::test::Fail;

const COUNTS: &[Row] = &[
    // Of a block that is shared, of one that isn't, and of free ones.
    (&[Put::Number(3, 105, 1)], Want::Wrong(105, 1, 2)),
    (&[Put::Number(3, 105, 3)], Want::Wrong(105, 3, 2)),
    (&[Put::Number(3, 101, 0)], Want::Wrong(101, 0, 1)),
    (
        &[Put::Number(3, 110, 0xffff_ffff)],
        Want::Wrong(110, 0xffff_ffff, 1),
    ),
    (&[Put::Number(3, 111, 1)], Want::Wrong(111, 1, 0)),
    (
        &[Put::Number(3, 164, 0x8000_0000)],
        Want::Wrong(164, 0x8000_0000, 0),
    ),
    // Of blocks below the area, and of numbers behind the last block.
    (&[Put::Number(3, 0, 1)], Want::Wrong(0, 1, 0)),
    (&[Put::Number(3, 100, 1)], Want::Wrong(100, 1, 0)),
    (&[Put::Number(3, 165, 1)], Want::Wrong(165, 1, 0)),
    (&[Put::Number(3, 1_023, 1)], Want::Wrong(1_023, 1, 0)),
    // The root names the other home, in which there is nothing, or something else.
    (&[Put::Number(1, 12, 1)], Want::Wrong(101, 0, 1)),
    (
        &[Put::Number(1, 12, 1), Put::Same(4, 101, 10, 1)],
        Want::Wrong(105, 1, 2),
    ),
    // A pointer more, and one less.
    (&[Put::Number(104, 1, 105)], Want::Wrong(105, 2, 3)),
    (&[Put::Number(104, 1, 0)], Want::Wrong(106, 1, 0)),
    // Of three the lowest.
    (
        &[
            Put::Number(3, 1_023, 1),
            Put::Number(3, 108, 5),
            Put::Number(3, 107, 0),
        ],
        Want::Wrong(107, 0, 1),
    ),
];

/// The file number 2 has more blocks, from block 111 on. 54 are free before.
const RESERVES: &[Row] = &[
    (
        &[
            Put::Number(102, 34, 167_936),
            Put::Rising(104, 2, 39, 111),
            Put::Same(3, 111, 39, 1),
        ],
        Want::Bad(Finding::NoReserve(15)),
    ),
    (
        &[
            Put::Number(102, 34, 192_512),
            Put::Rising(104, 2, 45, 111),
            Put::Same(3, 111, 45, 1),
        ],
        Want::Bad(Finding::NoReserve(9)),
    ),
    (
        &[
            Put::Number(102, 34, 229_376),
            Put::Rising(104, 2, 54, 111),
            Put::Same(3, 111, 54, 1),
        ],
        Want::Bad(Finding::NoReserve(0)),
    ),
    // 16 are enough.
    (
        &[
            Put::Number(102, 34, 163_840),
            Put::Rising(104, 2, 38, 111),
            Put::Same(3, 111, 38, 1),
        ],
        Want::Good(6, 0, 16),
    ),
];

/// The root says that there are so many records in so many blocks.
const ONE_IN_ONE: &[Put] = &[Put::Number(1, 9, 1), Put::Number(1, 10, 1)];

/// A record in block 5 begins with its kind, the length of its path, two numbers for an offset or a size, and the length of what comes behind the
/// path. The path begins with the seventh number: `/f` is the bytes 47 and 102.
const RECORDS: &[Row] = &[
    // `create /f`.
    (
        &[
            Put::Number(5, 0, 2),
            Put::Number(5, 1, 2),
            Put::Number(5, 6, 0x662f),
        ],
        Want::Good(6, 1, 54),
    ),
    // Nothing but zeros, kinds that there aren't, and a byte behind the kind.
    (&[], Want::Bad(Finding::BadLog(0))),
    (
        &[
            Put::Number(5, 0, 7),
            Put::Number(5, 1, 2),
            Put::Number(5, 6, 0x662f),
        ],
        Want::Bad(Finding::BadLog(0)),
    ),
    (
        &[
            Put::Number(5, 0, 0),
            Put::Number(5, 1, 2),
            Put::Number(5, 6, 0x662f),
        ],
        Want::Bad(Finding::BadLog(0)),
    ),
    (
        &[
            Put::Number(5, 0, 258),
            Put::Number(5, 1, 2),
            Put::Number(5, 6, 0x662f),
        ],
        Want::Bad(Finding::BadLog(0)),
    ),
    // No path, the root's path, none that begins with a slash, `/.`, and `/f/`.
    (&[Put::Number(5, 0, 2)], Want::Bad(Finding::BadLog(0))),
    (
        &[
            Put::Number(5, 0, 2),
            Put::Number(5, 1, 1),
            Put::Number(5, 6, 0x2f),
        ],
        Want::Bad(Finding::BadLog(0)),
    ),
    (
        &[
            Put::Number(5, 0, 2),
            Put::Number(5, 1, 2),
            Put::Number(5, 6, 0x6666),
        ],
        Want::Bad(Finding::BadLog(0)),
    ),
    (
        &[
            Put::Number(5, 0, 2),
            Put::Number(5, 1, 2),
            Put::Number(5, 6, 0x2e2f),
        ],
        Want::Bad(Finding::BadLog(0)),
    ),
    (
        &[
            Put::Number(5, 0, 2),
            Put::Number(5, 1, 3),
            Put::Number(5, 6, 0x002f_662f),
        ],
        Want::Bad(Finding::BadLog(0)),
    ),
    // A path as long as numbers go.
    (
        &[
            Put::Number(5, 0, 2),
            Put::Number(5, 1, 0xffff_ffff),
            Put::Number(5, 6, 0x662f),
        ],
        Want::Bad(Finding::BadLog(0)),
    ),
    // A `create` with a size, with data, with a byte where a zero has to be, and with one behind the path.
    (
        &[
            Put::Number(5, 0, 2),
            Put::Number(5, 1, 2),
            Put::Number(5, 2, 1),
            Put::Number(5, 6, 0x662f),
        ],
        Want::Bad(Finding::BadLog(0)),
    ),
    (
        &[
            Put::Number(5, 0, 2),
            Put::Number(5, 1, 2),
            Put::Number(5, 4, 1),
            Put::Number(5, 6, 0x662f),
        ],
        Want::Bad(Finding::BadLog(0)),
    ),
    (
        &[
            Put::Number(5, 0, 2),
            Put::Number(5, 1, 2),
            Put::Number(5, 5, 1),
            Put::Number(5, 6, 0x662f),
        ],
        Want::Bad(Finding::BadLog(0)),
    ),
    (
        &[
            Put::Number(5, 0, 2),
            Put::Number(5, 1, 2),
            Put::Number(5, 6, 0x662f),
            Put::Number(5, 1_023, 1),
        ],
        Want::Bad(Finding::BadLog(0)),
    ),
    // What the tree refuses: `create /a`, `create /x/y`, `remove /d`, `remove /`, `truncate /a 4294967297`.
    (
        &[
            Put::Number(5, 0, 2),
            Put::Number(5, 1, 2),
            Put::Number(5, 6, 0x612f),
        ],
        Want::Bad(Finding::BadLog(0)),
    ),
    (
        &[
            Put::Number(5, 0, 2),
            Put::Number(5, 1, 4),
            Put::Number(5, 6, 0x792f_782f),
        ],
        Want::Bad(Finding::BadLog(0)),
    ),
    (
        &[
            Put::Number(5, 0, 5),
            Put::Number(5, 1, 2),
            Put::Number(5, 6, 0x642f),
        ],
        Want::Bad(Finding::BadLog(0)),
    ),
    (
        &[
            Put::Number(5, 0, 5),
            Put::Number(5, 1, 1),
            Put::Number(5, 6, 0x2f),
        ],
        Want::Bad(Finding::BadLog(0)),
    ),
    (
        &[
            Put::Number(5, 0, 4),
            Put::Number(5, 1, 2),
            Put::Same(5, 2, 2, 1),
            Put::Number(5, 6, 0x612f),
        ],
        Want::Bad(Finding::BadLog(0)),
    ),
    // `truncate /a 4294967296`, and `rename /a /g`.
    (
        &[
            Put::Number(5, 0, 4),
            Put::Number(5, 1, 2),
            Put::Number(5, 3, 1),
            Put::Number(5, 6, 0x612f),
        ],
        Want::Good(6, 1, 54),
    ),
    (
        &[
            Put::Number(5, 0, 6),
            Put::Number(5, 1, 2),
            Put::Number(5, 4, 2),
            Put::Number(5, 6, 0x672f_612f),
        ],
        Want::Good(6, 1, 54),
    ),
    // `write /a` at 0 of no bytes, of 4,096 bytes, which take a second block, and of 65,537 bytes.
    (
        &[
            Put::Number(5, 0, 3),
            Put::Number(5, 1, 2),
            Put::Number(5, 6, 0x612f),
        ],
        Want::Bad(Finding::BadLog(0)),
    ),
    (
        &[
            Put::Number(5, 0, 3),
            Put::Number(5, 1, 2),
            Put::Number(5, 4, 4_096),
            Put::Number(5, 6, 0x612f),
        ],
        Want::Bad(Finding::BadLog(0)),
    ),
    (
        &[
            Put::Number(5, 0, 3),
            Put::Number(5, 1, 2),
            Put::Number(5, 4, 65_537),
            Put::Number(5, 6, 0x612f),
        ],
        Want::Bad(Finding::BadLog(0)),
    ),
];

/// One record in one block: `create /f`.
const CREATED: &[Put] = &[
    Put::Number(1, 9, 1),
    Put::Number(1, 10, 1),
    Put::Number(5, 0, 2),
    Put::Number(5, 1, 2),
    Put::Number(5, 6, 0x662f),
];

/// Behind `create /f`.
const LATER: &[Row] = &[
    // `create /g` in block 6.
    (
        &[
            Put::Same(1, 9, 2, 2),
            Put::Number(6, 0, 2),
            Put::Number(6, 1, 2),
            Put::Number(6, 6, 0x672f),
        ],
        Want::Good(6, 2, 54),
    ),
    // `create /f` again, `remove /g`, and a record of kind 8.
    (
        &[
            Put::Same(1, 9, 2, 2),
            Put::Number(6, 0, 2),
            Put::Number(6, 1, 2),
            Put::Number(6, 6, 0x662f),
        ],
        Want::Bad(Finding::BadLog(1)),
    ),
    (
        &[
            Put::Same(1, 9, 2, 2),
            Put::Number(6, 0, 5),
            Put::Number(6, 1, 2),
            Put::Number(6, 6, 0x672f),
        ],
        Want::Bad(Finding::BadLog(1)),
    ),
    (
        &[
            Put::Same(1, 9, 2, 2),
            Put::Number(6, 0, 8),
            Put::Number(6, 1, 2),
            Put::Number(6, 6, 0x672f),
        ],
        Want::Bad(Finding::BadLog(1)),
    ),
    // `write /f 0 4096` goes over into block 7, which the root doesn't count, and then does.
    (
        &[
            Put::Same(1, 9, 2, 2),
            Put::Number(6, 0, 3),
            Put::Number(6, 1, 2),
            Put::Number(6, 4, 4_096),
            Put::Number(6, 6, 0x662f),
        ],
        Want::Bad(Finding::BadLog(1)),
    ),
    (
        &[
            Put::Number(1, 9, 2),
            Put::Number(1, 10, 3),
            Put::Number(6, 0, 3),
            Put::Number(6, 1, 2),
            Put::Number(6, 4, 4_096),
            Put::Number(6, 6, 0x662f),
        ],
        Want::Good(6, 2, 54),
    ),
    // One record in two blocks, and none in one or in all 64.
    (&[Put::Number(1, 10, 2)], Want::Bad(Finding::BadLog(1))),
    (&[Put::Number(1, 9, 0)], Want::Bad(Finding::BadLog(0))),
    (
        &[Put::Number(1, 9, 0), Put::Number(1, 10, 64)],
        Want::Bad(Finding::BadLog(0)),
    ),
    // Two records that are said to be in two blocks, and the second isn't there.
    (&[Put::Same(1, 9, 2, 2)], Want::Bad(Finding::BadLog(1))),
];

/// What is free beside `create /f`, which is charged 12 and has a reserve of 16.
const CHARGES: &[Row] = &[
    // 28 and 27 are free.
    (
        &[
            Put::Number(102, 34, 114_688),
            Put::Rising(104, 2, 26, 111),
            Put::Same(3, 111, 26, 1),
        ],
        Want::Good(6, 1, 28),
    ),
    (
        &[
            Put::Number(102, 34, 118_784),
            Put::Rising(104, 2, 27, 111),
            Put::Same(3, 111, 27, 1),
        ],
        Want::Bad(Finding::BadLog(0)),
    ),
    // Then `create /g` in block 6, where 40 and 39 are free.
    (
        &[
            Put::Number(102, 34, 65_536),
            Put::Rising(104, 2, 14, 111),
            Put::Same(3, 111, 14, 1),
            Put::Same(1, 9, 2, 2),
            Put::Number(6, 0, 2),
            Put::Number(6, 1, 2),
            Put::Number(6, 6, 0x672f),
        ],
        Want::Good(6, 2, 40),
    ),
    (
        &[
            Put::Number(102, 34, 69_632),
            Put::Rising(104, 2, 15, 111),
            Put::Same(3, 111, 15, 1),
            Put::Same(1, 9, 2, 2),
            Put::Number(6, 0, 2),
            Put::Number(6, 1, 2),
            Put::Number(6, 6, 0x672f),
        ],
        Want::Bad(Finding::BadLog(1)),
    ),
    // `remove /a` in its place, which is charged 12 and has no reserve, where 16 are free.
    (
        &[
            Put::Number(102, 34, 163_840),
            Put::Rising(104, 2, 38, 111),
            Put::Same(3, 111, 38, 1),
            Put::Number(5, 0, 5),
            Put::Number(5, 6, 0x612f),
        ],
        Want::Good(6, 1, 16),
    ),
];

#[test]
fn counts_are_compared(rt: HostRuntime) -> Result<(), Fail> {
    assert_eq!(rt; first_wrong(rt.alloc(), BLOCKS, &[SAMPLE], COUNTS)?, None);
    Ok(())
}

#[test]
fn sixteen_blocks_are_enough(rt: HostRuntime) -> Result<(), Fail> {
    assert_eq!(rt; first_wrong(rt.alloc(), BLOCKS, &[SAMPLE], RESERVES)?, None);
    Ok(())
}

#[test]
fn first_records_are_looked_at(rt: HostRuntime) -> Result<(), Fail> {
    assert_eq!(rt;
        first_wrong(rt.alloc(), BLOCKS, &[SAMPLE, ONE_IN_ONE], RECORDS)?,
        None
    );
    Ok(())
}

#[test]
fn later_records_are_looked_at(rt: HostRuntime) -> Result<(), Fail> {
    assert_eq!(rt;
        first_wrong(rt.alloc(), BLOCKS, &[SAMPLE, CREATED], LATER)?,
        None
    );
    Ok(())
}

#[test]
fn charges_are_held_against_what_is_free(rt: HostRuntime) -> Result<(), Fail> {
    assert_eq!(rt;
        first_wrong(rt.alloc(), BLOCKS, &[SAMPLE, CREATED], CHARGES)?,
        None
    );
    Ok(())
}
