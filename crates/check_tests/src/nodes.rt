//! What is wrong with blocks of two uses, tails, directories and the tree of entries, in changes of the sample.
use check_rows::{BLOCKS, Put, Row, SAMPLE, Want, first_wrong};
use image_model::Finding;
use std::test::Fail;

const MIXED: &[Row] = &[
    // A file's block is a directory's, the inode index, the block of inodes, the file's own leaf, another's leaf, another's top index.
    (
        &[Put::Number(104, 1, 103)],
        Want::Bad(Finding::MixedBlock(103)),
    ),
    (
        &[Put::Number(104, 1, 101)],
        Want::Bad(Finding::MixedBlock(101)),
    ),
    (
        &[Put::Number(102, 49, 102)],
        Want::Bad(Finding::MixedBlock(102)),
    ),
    (
        &[Put::Number(104, 0, 104)],
        Want::Bad(Finding::MixedBlock(104)),
    ),
    (
        &[Put::Number(104, 0, 109)],
        Want::Bad(Finding::MixedBlock(109)),
    ),
    (
        &[Put::Number(109, 76, 108)],
        Want::Bad(Finding::MixedBlock(108)),
    ),
    // Of two the lower.
    (
        &[Put::Number(104, 0, 107), Put::Number(109, 76, 104)],
        Want::Bad(Finding::MixedBlock(104)),
    ),
];

const TAILS: &[Row] = &[
    // The first and the last byte behind the 100 of number 3.
    (&[Put::Number(105, 25, 1)], Want::Bad(Finding::BadTail(3))),
    (
        &[Put::Number(105, 1_023, 0x0100_0000)],
        Want::Bad(Finding::BadTail(3)),
    ),
    // The last byte of the second block of number 2, which is one byte shorter now.
    (
        &[
            Put::Number(102, 34, 8_191),
            Put::Number(106, 1_023, 0x0100_0000),
        ],
        Want::Bad(Finding::BadTail(2)),
    ),
    // The last place of number 5, in whose block 2,880 bytes are its.
    (
        &[
            Put::Number(109, 76, 0),
            Put::Number(109, 196, 110),
            Put::Number(110, 720, 0x0000_0100),
        ],
        Want::Bad(Finding::BadTail(5)),
    ),
    // Of two the lower.
    (
        &[
            Put::Number(102, 34, 8_000),
            Put::Number(106, 1_000, 7),
            Put::Number(105, 500, 7),
        ],
        Want::Bad(Finding::BadTail(2)),
    ),
    // Bytes within the size, and in a block that isn't the last one.
    (&[Put::Number(105, 24, 0xffff_ffff)], Want::Good(6, 0, 54)),
    (
        &[
            Put::Same(106, 0, 1_024, 0xffff_ffff),
            Put::Same(110, 0, 1_024, 7),
        ],
        Want::Good(6, 0, 54),
    ),
];

const DIRECTORIES: &[Row] = &[
    // A hole.
    (
        &[Put::Number(102, 65, 0)],
        Want::Bad(Finding::BadDirectory(4)),
    ),
    // A length of 0 and one of 251, a byte behind the length, names that are none, and bytes behind a name.
    (
        &[Put::Number(107, 1, 0x0073_0000)],
        Want::Bad(Finding::BadDirectory(4)),
    ),
    (
        &[Put::Number(107, 1, 0x0073_00fb)],
        Want::Bad(Finding::BadDirectory(4)),
    ),
    (
        &[Put::Number(107, 1, 0x0073_0101)],
        Want::Bad(Finding::BadDirectory(4)),
    ),
    (
        &[Put::Number(107, 1, 0x002f_0001)],
        Want::Bad(Finding::BadDirectory(4)),
    ),
    (
        &[Put::Number(107, 1, 0x0000_0001)],
        Want::Bad(Finding::BadDirectory(4)),
    ),
    (
        &[Put::Number(107, 1, 0x002e_0001)],
        Want::Bad(Finding::BadDirectory(4)),
    ),
    (
        &[Put::Number(107, 1, 0x2e2e_0002)],
        Want::Bad(Finding::BadDirectory(4)),
    ),
    (
        &[Put::Number(107, 2, 1)],
        Want::Bad(Finding::BadDirectory(4)),
    ),
    (
        &[Put::Number(107, 63, 0x0100_0000)],
        Want::Bad(Finding::BadDirectory(4)),
    ),
    // Numbers that are none.
    (
        &[Put::Number(107, 0, 0)],
        Want::Bad(Finding::BadDirectory(4)),
    ),
    (
        &[Put::Number(107, 0, 65_536)],
        Want::Bad(Finding::BadDirectory(4)),
    ),
    // An entry behind the width, in the first slot there and in the last one.
    (
        &[Put::Number(107, 128, 6), Put::Number(107, 129, 0x0074_0001)],
        Want::Bad(Finding::BadDirectory(4)),
    ),
    (
        &[Put::Number(107, 960, 6), Put::Number(107, 961, 0x0074_0001)],
        Want::Bad(Finding::BadDirectory(4)),
    ),
    // Two equal names, and the lower of two directories.
    (
        &[Put::Number(107, 65, 0x0073_0001)],
        Want::Bad(Finding::BadDirectory(4)),
    ),
    (
        &[Put::Number(103, 193, 0x0061_0001)],
        Want::Bad(Finding::BadDirectory(1)),
    ),
    (
        &[Put::Number(107, 0, 65_536), Put::Number(103, 2, 1)],
        Want::Bad(Finding::BadDirectory(1)),
    ),
    // A name of three dots is one.
    (
        &[Put::Number(107, 1, 0x2e2e_0003), Put::Number(107, 2, 0x2e)],
        Want::Good(6, 0, 54),
    ),
];

const TREES: &[Row] = &[
    // The root is named.
    (
        &[Put::Number(103, 128, 1), Put::Number(103, 129, 0x0078_0001)],
        Want::Bad(Finding::NotATree(1)),
    ),
    // Unused numbers are named.
    (
        &[Put::Number(103, 128, 7), Put::Number(103, 129, 0x0078_0001)],
        Want::Bad(Finding::NotATree(7)),
    ),
    (
        &[
            Put::Number(103, 128, 65_535),
            Put::Number(103, 129, 0x0078_0001),
        ],
        Want::Bad(Finding::NotATree(65_535)),
    ),
    // A file isn't named, and then a directory isn't.
    (&[Put::Same(107, 64, 2, 0)], Want::Bad(Finding::NotATree(6))),
    (
        &[Put::Same(103, 192, 2, 0)],
        Want::Bad(Finding::NotATree(4)),
    ),
    // A file is named twice, by one directory and by two, and a directory is.
    (
        &[Put::Number(103, 128, 3), Put::Number(103, 129, 0x0078_0001)],
        Want::Bad(Finding::NotATree(3)),
    ),
    (&[Put::Number(107, 0, 3)], Want::Bad(Finding::NotATree(3))),
    (
        &[Put::Number(103, 128, 4), Put::Number(103, 129, 0x0078_0001)],
        Want::Bad(Finding::NotATree(4)),
    ),
    // Number 4 is named by itself alone. Number 6 isn't named then, and 5 isn't reached.
    (
        &[Put::Same(103, 192, 2, 0), Put::Number(107, 64, 4)],
        Want::Bad(Finding::NotATree(4)),
    ),
    // Two directories name each other: number 4, and number 6 with one slot in block 111.
    (
        &[
            Put::Same(103, 192, 2, 0),
            Put::Number(102, 96, 2),
            Put::Number(102, 97, 111),
            Put::Number(102, 98, 256),
            Put::Number(111, 0, 4),
            Put::Number(111, 1, 0x0078_0001),
        ],
        Want::Bad(Finding::NotATree(4)),
    ),
];

#[test]
fn blocks_of_two_uses_are_found(rt: HostRuntime) -> Result<(), Fail> {
    assert_eq!(rt; first_wrong(rt.alloc(), BLOCKS, &[SAMPLE], MIXED)?, None);
    Ok(())
}

#[test]
fn tails_are_looked_at(rt: HostRuntime) -> Result<(), Fail> {
    assert_eq!(rt; first_wrong(rt.alloc(), BLOCKS, &[SAMPLE], TAILS)?, None);
    Ok(())
}

#[test]
fn directories_are_looked_at(rt: HostRuntime) -> Result<(), Fail> {
    assert_eq!(rt;
        first_wrong(rt.alloc(), BLOCKS, &[SAMPLE], DIRECTORIES)?,
        None
    );
    Ok(())
}

#[test]
fn entries_make_a_tree(rt: HostRuntime) -> Result<(), Fail> {
    assert_eq!(rt; first_wrong(rt.alloc(), BLOCKS, &[SAMPLE], TREES)?, None);
    Ok(())
}
