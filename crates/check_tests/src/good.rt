//! Images that stand for something, with their numbers.
use check_rows::{BLOCKS, Put, Row, SAMPLE, Want, first_wrong};
use std::test::Fail;

/// Other spellings of the sample, and changes of it that are good.
const SAMPLES: &[Row] = &[
    (&[], Want::Good(6, 0, 54)),
    // The selector is even, and may hold other bytes.
    (
        &[Put::Number(0, 0, 0xffff_fffe), Put::Same(0, 1, 1_023, 7)],
        Want::Good(6, 0, 54),
    ),
    // It is odd, and the root is in the other slot.
    (
        &[
            Put::Number(0, 0, 7),
            Put::Number(1, 0, 0),
            Put::Number(2, 0, 0x4445_4449),
            Put::Number(2, 1, 0x5346_5055),
            Put::Number(2, 2, 1),
            Put::Number(2, 3, 165),
            Put::Number(2, 4, 64),
            Put::Number(2, 8, 101),
        ],
        Want::Good(6, 0, 54),
    ),
    // The greatest number of a point.
    (&[Put::Same(1, 6, 2, 0xffff_ffff)], Want::Good(6, 0, 54)),
    // The counts are in the other home, and something else in the first one.
    (
        &[
            Put::Number(1, 12, 1),
            Put::Same(3, 0, 1_024, 9),
            Put::Same(4, 101, 10, 1),
            Put::Number(4, 105, 2),
        ],
        Want::Good(6, 0, 54),
    ),
    // What isn't used may hold anything: the other slot, the other home, the log, spare blocks, free blocks.
    (
        &[
            Put::Same(2, 0, 1_024, 7),
            Put::Same(4, 0, 1_024, 7),
            Put::Same(5, 0, 1_024, 7),
            Put::Same(68, 0, 1_024, 7),
            Put::Same(69, 0, 1_024, 7),
            Put::Same(100, 0, 1_024, 7),
            Put::Same(111, 0, 1_024, 7),
            Put::Same(164, 0, 1_024, 7),
        ],
        Want::Good(6, 0, 54),
    ),
    // Number 6 is a directory without slots, and the longest file, which is one hole.
    (&[Put::Number(102, 96, 2)], Want::Good(6, 0, 54)),
    (
        &[Put::Number(102, 96, 513), Put::Number(102, 99, 1)],
        Want::Good(6, 0, 54),
    ),
    // Number 3 is a hole, so block 105 has one pointer.
    (
        &[Put::Number(102, 49, 0), Put::Number(3, 105, 1)],
        Want::Good(6, 0, 54),
    ),
    // Number 2 has 1,024 places in block 105, whose bytes are zeros.
    (
        &[
            Put::Number(102, 34, 4_194_304),
            Put::Same(104, 0, 1_024, 105),
            Put::Number(3, 105, 1_025),
            Put::Number(3, 106, 0),
        ],
        Want::Good(6, 0, 55),
    ),
    // Number 65,535 is a file of no bytes, in the last place of block 111, and is `/x`.
    (
        &[
            Put::Number(101, 1_023, 111),
            Put::Number(111, 1_008, 1),
            Put::Number(3, 111, 1),
            Put::Number(103, 128, 65_535),
            Put::Number(103, 129, 0x0078_0001),
        ],
        Want::Good(7, 0, 53),
    ),
    // A directory and its entry have one name of 250 bytes.
    (
        &[
            Put::Number(103, 193, 0x7878_00fa),
            Put::Same(103, 194, 62, 0x7878_7878),
            Put::Number(107, 1, 0x7878_00fa),
            Put::Same(107, 2, 62, 0x7878_7878),
        ],
        Want::Good(6, 0, 54),
    ),
];

/// Three records in four blocks, the first of which is `mkdir /m`.
const LOGGED: &[Put] = &[
    Put::Number(1, 9, 3),
    Put::Number(1, 10, 4),
    Put::Number(5, 0, 1),
    Put::Number(5, 1, 2),
    Put::Number(5, 6, 0x6d2f),
    // `create /m/w`.
    Put::Number(6, 0, 2),
    Put::Number(6, 1, 4),
    Put::Number(6, 6, 0x772f_6d2f),
    // `write /m/w` of 4,069 bytes at 0, one of which is in block 8.
    Put::Number(7, 0, 3),
    Put::Number(7, 1, 4),
    Put::Number(7, 4, 4_069),
    Put::Number(7, 6, 0x772f_6d2f),
    Put::Same(7, 7, 1_017, 0x7878_7878),
    Put::Number(8, 0, 0x78),
];

const LOGS: &[Row] = &[
    (&[], Want::Good(6, 3, 54)),
    // The data are zeros.
    (
        &[Put::Same(7, 7, 1_017, 0), Put::Number(8, 0, 0)],
        Want::Good(6, 3, 54),
    ),
];

#[test]
fn good_samples_have_their_numbers(rt: HostRuntime) -> Result<(), Fail> {
    assert_eq!(rt; first_wrong(rt.alloc(), BLOCKS, &[SAMPLE], SAMPLES)?, None);
    Ok(())
}

#[test]
fn good_logs_have_their_numbers(rt: HostRuntime) -> Result<(), Fail> {
    assert_eq!(rt;
        first_wrong(rt.alloc(), BLOCKS, &[SAMPLE, LOGGED], LOGS)?,
        None
    );
    Ok(())
}
