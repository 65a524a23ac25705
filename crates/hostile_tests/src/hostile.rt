//! Images that are made to cost much: their checks end.
use check_rows::{BLOCKS, Put, Row, SAMPLE, Want, answer, draw, first_wrong, set};
use disk_model::Disk;
use fs_check::check;
use image_model::Finding;
use mem_disk::MemDisk;
use std::alloc::Global;
use std::test::Fail;

/// Every pointer of a block leads to the same block.
const ALIKE: &[Row] = &[
    (
        &[Put::Same(101, 0, 1_024, 101)],
        Want::Bad(Finding::BadPointer(101)),
    ),
    (
        &[Put::Same(101, 0, 1_024, 102)],
        Want::Bad(Finding::BadPointer(102)),
    ),
    (
        &[Put::Same(101, 1, 1_023, 111)],
        Want::Bad(Finding::BadPointer(111)),
    ),
    // A file of 4,294,967,296 bytes, with the same leaf 1,024 times.
    (
        &[
            Put::Number(102, 82, 0),
            Put::Number(102, 83, 1),
            Put::Same(108, 0, 1_024, 109),
        ],
        Want::Bad(Finding::BadPointer(109)),
    ),
    // Its leaves are the top index itself.
    (
        &[
            Put::Number(102, 82, 0),
            Put::Number(102, 83, 1),
            Put::Same(108, 0, 1_024, 108),
        ],
        Want::Bad(Finding::BadPointer(108)),
    ),
    // All of a file's blocks are its leaf.
    (
        &[
            Put::Number(102, 34, 4_194_304),
            Put::Same(104, 0, 1_024, 104),
        ],
        Want::Bad(Finding::MixedBlock(104)),
    ),
];

#[test]
fn pointers_to_one_block_are_few(rt: HostRuntime) -> Result<(), Fail> {
    assert_eq!(rt; first_wrong(rt.alloc(), BLOCKS, &[SAMPLE], ALIKE)?, None);
    Ok(())
}

/// A volume of 1,300 blocks, whose area begins at 103, and its longest file: number 2 has a top index with 1,024 leaves, which are the blocks from 108 on.
const LONGEST: &[Put] = &[
    Put::Number(1, 0, 0x4445_4449),
    Put::Number(1, 1, 0x5346_5055),
    Put::Number(1, 2, 1),
    Put::Number(1, 3, 1_300),
    Put::Number(1, 4, 64),
    Put::Number(1, 8, 103),
    Put::Number(103, 0, 104),
    Put::Number(104, 16, 2),
    Put::Number(104, 17, 105),
    Put::Number(104, 18, 256),
    Put::Number(105, 0, 2),
    Put::Number(105, 1, 0x0061_0001),
    Put::Number(104, 32, 513),
    Put::Number(104, 33, 106),
    Put::Number(104, 35, 1),
    Put::Rising(106, 0, 1_024, 108),
    Put::Same(3, 103, 921, 1),
    Put::Number(3, 107, 1_048_576),
    Put::Same(5, 0, 108, 1),
];

/// Puts the leaves of the file, all of whose 1,048,576 places are block 107.
fn draw_leaves<D: Disk>(disk: &mut D) -> bool {
    for leaf in 108..1_132 {
        if !set(disk, &Put::Same(leaf, 0, 1_024, 107)) {
            return false;
        }
    }
    true
}

/// Whether a check answers what the row wants.
fn longest_comes_out(alloc: Global, row: &Row) -> Result<bool, Fail> {
    let mut disk = MemDisk::new(alloc, 1_300)?;
    if !draw(&mut disk, LONGEST) || !draw_leaves(&mut disk) || !draw(&mut disk, row.0) {
        return Ok(false);
    }
    Ok(check(alloc, &mut disk) == answer(row.1))
}

const LONGEST_ROWS: &[Row] = &[
    (&[], Want::Good(2, 0, 168)),
    (&[Put::Number(107, 0, 1)], Want::Good(2, 0, 168)),
    (
        &[Put::Number(1_131, 1_023, 102)],
        Want::Bad(Finding::BadPointer(102)),
    ),
    (
        &[Put::Number(1_131, 1_023, 103)],
        Want::Bad(Finding::MixedBlock(103)),
    ),
    (
        &[Put::Number(3, 107, 1_048_575)],
        Want::Wrong(107, 1_048_575, 1_048_576),
    ),
];

/// The first of these rows that comes out otherwise.
fn first_wrong_longest(alloc: Global) -> Result<Option<usize>, Fail> {
    for (k, row) in LONGEST_ROWS.iter().enumerate() {
        if !longest_comes_out(alloc, row)? {
            return Ok(Some(k));
        }
    }
    Ok(None)
}

#[test]
fn the_longest_file_is_walked(rt: HostRuntime) -> Result<(), Fail> {
    assert_eq!(rt; first_wrong_longest(rt.alloc())?, None);
    Ok(())
}

/// Directories in a row: number 2 and those behind it up to 41 have a block each from 104 on, with one entry that names the next one. The last one names the
/// given number.
fn row_of_directories<D: Disk>(disk: &mut D, named_by_the_last: u32) -> bool {
    for number in 2..42 {
        let next = if number == 41 {
            named_by_the_last
        } else {
            number + 1
        };
        let parts = [
            Put::Number(102, 16 * number, 2),
            Put::Number(102, 16 * number + 1, 102 + number),
            Put::Number(102, 16 * number + 2, 256),
            Put::Number(102 + number, 0, next),
            Put::Number(102 + number, 1, 0x0078_0001),
        ];
        if !draw(disk, &parts) {
            return false;
        }
    }
    true
}

/// The root directory has one slot in block 103, and number 42 is a file of no bytes.
const AROUND: &[Put] = &[
    Put::Number(1, 0, 0x4445_4449),
    Put::Number(1, 1, 0x5346_5055),
    Put::Number(1, 2, 1),
    Put::Number(1, 3, 165),
    Put::Number(1, 4, 64),
    Put::Number(1, 8, 101),
    Put::Number(101, 0, 102),
    Put::Number(102, 16, 2),
    Put::Number(102, 17, 103),
    Put::Number(102, 18, 256),
    Put::Number(102, 672, 1),
    Put::Same(3, 101, 43, 1),
];

/// What the root's entry names, what the last directory of the row names, and what a check answers.
type Ends = (u32, u32, Want);

const ENDS: &[Ends] = &[
    // A path of 41 names.
    (2, 42, Want::Good(42, 0, 21)),
    // A ring beside the root, one that the root leads into, and one through the root.
    (42, 2, Want::Bad(Finding::NotATree(2))),
    (2, 2, Want::Bad(Finding::NotATree(2))),
    (2, 1, Want::Bad(Finding::NotATree(1))),
    // Only the last directory is named twice.
    (2, 41, Want::Bad(Finding::NotATree(41))),
];

fn ends_come_out(alloc: Global, row: &Ends) -> Result<bool, Fail> {
    let mut disk = MemDisk::new(alloc, BLOCKS)?;
    let entry = [Put::Number(103, 0, row.0), Put::Number(103, 1, 0x0078_0001)];
    if !draw(&mut disk, AROUND)
        || !row_of_directories(&mut disk, row.1)
        || !draw(&mut disk, &entry)
    {
        return Ok(false);
    }
    Ok(check(alloc, &mut disk) == answer(row.2))
}

/// The first of these rows that comes out otherwise.
fn first_wrong_ends(alloc: Global) -> Result<Option<usize>, Fail> {
    for (k, row) in ENDS.iter().enumerate() {
        if !ends_come_out(alloc, row)? {
            return Ok(Some(k));
        }
    }
    Ok(None)
}

#[test]
fn rings_of_directories_are_found(rt: HostRuntime) -> Result<(), Fail> {
    assert_eq!(rt; first_wrong_ends(rt.alloc())?, None);
    Ok(())
}
