//! What is wrong with the root, and what the walk finds, in changes of the sample.
use check_rows::{BLOCKS, Put, Row, SAMPLE, Want, first_wrong};
use fs_check::{CheckFault, check};
use image_model::Finding;
use mem_disk::MemDisk;
use std::alloc::Global;
use std::test::Fail;

const ROOTS: &[Row] = &[
    // Another first letter, version 2, and bytes where zeros have to be.
    (
        &[Put::Number(1, 0, 0x4445_4400)],
        Want::Bad(Finding::NoRoot),
    ),
    (&[Put::Number(1, 2, 2)], Want::Bad(Finding::NoRoot)),
    (&[Put::Number(1, 5, 1)], Want::Bad(Finding::NoRoot)),
    (
        &[Put::Number(1, 11, 0x0100_0000)],
        Want::Bad(Finding::NoRoot),
    ),
    (&[Put::Number(1, 44, 1)], Want::Bad(Finding::NoRoot)),
    (
        &[Put::Number(1, 1_023, 0x0100_0000)],
        Want::Bad(Finding::NoRoot),
    ),
    // The selector is odd, and there is nothing in the other slot.
    (&[Put::Number(0, 0, 1)], Want::Bad(Finding::NoRoot)),
    (
        &[Put::Number(0, 0, 0xffff_ffff)],
        Want::Bad(Finding::NoRoot),
    ),
    // The number of blocks, and that of log blocks. With 65 of these the area has only 63.
    (&[Put::Number(1, 3, 164)], Want::Bad(Finding::BadGeometry)),
    (&[Put::Number(1, 3, 166)], Want::Bad(Finding::BadGeometry)),
    (
        &[Put::Number(1, 3, 65_537)],
        Want::Bad(Finding::BadGeometry),
    ),
    (&[Put::Number(1, 4, 63)], Want::Bad(Finding::BadGeometry)),
    (&[Put::Number(1, 4, 65)], Want::Bad(Finding::BadGeometry)),
    // More records than log blocks, and more log blocks than there are.
    (&[Put::Number(1, 9, 1)], Want::Bad(Finding::BadGeometry)),
    (&[Put::Number(1, 10, 65)], Want::Bad(Finding::BadGeometry)),
    // The home of a count block that there isn't: the second one, and the last one.
    (&[Put::Number(1, 12, 2)], Want::Bad(Finding::BadGeometry)),
    (
        &[Put::Number(1, 43, 0x8000_0000)],
        Want::Bad(Finding::BadGeometry),
    ),
];

const POINTERS: &[Row] = &[
    // The inode index.
    (&[Put::Number(1, 8, 0)], Want::Bad(Finding::BadPointer(0))),
    (
        &[Put::Number(1, 8, 100)],
        Want::Bad(Finding::BadPointer(100)),
    ),
    (
        &[Put::Number(1, 8, 165)],
        Want::Bad(Finding::BadPointer(165)),
    ),
    (
        &[Put::Number(1, 8, 0xffff_ffff)],
        Want::Bad(Finding::BadPointer(0xffff_ffff)),
    ),
    // Its entries: out of the area, and to what was reached.
    (
        &[Put::Number(101, 5, 165)],
        Want::Bad(Finding::BadPointer(165)),
    ),
    (
        &[Put::Number(101, 1_023, 3)],
        Want::Bad(Finding::BadPointer(3)),
    ),
    (
        &[Put::Number(101, 1, 101)],
        Want::Bad(Finding::BadPointer(101)),
    ),
    (
        &[Put::Number(101, 1, 102)],
        Want::Bad(Finding::BadPointer(102)),
    ),
    // Pointers of inodes. Number 6 has no bytes.
    (
        &[Put::Number(102, 17, 4)],
        Want::Bad(Finding::BadPointer(4)),
    ),
    (
        &[Put::Number(102, 17, 102)],
        Want::Bad(Finding::BadPointer(102)),
    ),
    (
        &[Put::Number(102, 65, 103)],
        Want::Bad(Finding::BadPointer(103)),
    ),
    (
        &[Put::Number(102, 49, 165)],
        Want::Bad(Finding::BadPointer(165)),
    ),
    (
        &[Put::Number(102, 97, 165)],
        Want::Bad(Finding::BadPointer(165)),
    ),
    (
        &[Put::Number(102, 33, 108)],
        Want::Bad(Finding::BadPointer(108)),
    ),
    // A leaf and a top index of nothing but zeros.
    (
        &[Put::Number(102, 33, 111)],
        Want::Bad(Finding::BadPointer(111)),
    ),
    (
        &[Put::Number(102, 81, 111)],
        Want::Bad(Finding::BadPointer(111)),
    ),
    (
        &[Put::Number(109, 76, 0)],
        Want::Bad(Finding::BadPointer(109)),
    ),
    // Pointers in a leaf: out of the area, and of the first and the last place that the file hasn't.
    (
        &[Put::Number(104, 0, 100)],
        Want::Bad(Finding::BadPointer(100)),
    ),
    (
        &[Put::Number(104, 2, 106)],
        Want::Bad(Finding::BadPointer(106)),
    ),
    (
        &[Put::Number(104, 1_023, 105)],
        Want::Bad(Finding::BadPointer(105)),
    ),
    (
        &[Put::Number(109, 197, 110)],
        Want::Bad(Finding::BadPointer(110)),
    ),
    // Entries of a top index: the same leaf twice, a leaf of places that the file hasn't, and out of the area.
    (
        &[Put::Number(108, 0, 109)],
        Want::Bad(Finding::BadPointer(109)),
    ),
    (
        &[Put::Number(108, 2, 111)],
        Want::Bad(Finding::BadPointer(111)),
    ),
    (&[Put::Number(108, 0, 1)], Want::Bad(Finding::BadPointer(1))),
];

const INODES: &[Row] = &[
    // A kind that there isn't, another height, and bytes where zeros have to be.
    (&[Put::Number(102, 48, 3)], Want::Bad(Finding::BadInode(3))),
    (&[Put::Number(102, 32, 1)], Want::Bad(Finding::BadInode(2))),
    (
        &[Put::Number(102, 32, 513)],
        Want::Bad(Finding::BadInode(2)),
    ),
    (
        &[Put::Number(102, 32, 0x0001_0101)],
        Want::Bad(Finding::BadInode(2)),
    ),
    (&[Put::Number(102, 36, 1)], Want::Bad(Finding::BadInode(2))),
    (
        &[Put::Number(102, 47, 0x0100_0000)],
        Want::Bad(Finding::BadInode(2)),
    ),
    // A file of more bytes than may be.
    (&[Put::Number(102, 51, 1)], Want::Bad(Finding::BadInode(3))),
    // A directory of a size that no width has, and one that is too wide.
    (
        &[Put::Number(102, 18, 1_023)],
        Want::Bad(Finding::BadInode(1)),
    ),
    (
        &[Put::Number(102, 64, 514), Put::Number(102, 66, 16_776_960)],
        Want::Bad(Finding::BadInode(4)),
    ),
    // Number 0 is used, and an unused number has bytes.
    (&[Put::Number(102, 0, 1)], Want::Bad(Finding::BadInode(0))),
    (&[Put::Number(102, 117, 1)], Want::Bad(Finding::BadInode(7))),
    (
        &[Put::Number(102, 1_023, 0x0100_0000)],
        Want::Bad(Finding::BadInode(63)),
    ),
    // Number 1 is a file, is unused, and has no block.
    (&[Put::Number(102, 16, 1)], Want::Bad(Finding::BadInode(1))),
    (&[Put::Same(102, 16, 3, 0)], Want::Bad(Finding::BadInode(1))),
    (&[Put::Number(101, 0, 0)], Want::Bad(Finding::BadInode(1))),
    // Blocks in which no inode is used.
    (
        &[Put::Number(101, 2, 111)],
        Want::Bad(Finding::BadInode(128)),
    ),
    (
        &[Put::Number(101, 1_023, 111)],
        Want::Bad(Finding::BadInode(65_472)),
    ),
    // A file of no bytes with a block, and a directory of no slots with one.
    (
        &[Put::Number(102, 97, 111)],
        Want::Bad(Finding::BadInode(6)),
    ),
    (&[Put::Number(102, 66, 0)], Want::Bad(Finding::BadInode(4))),
];

#[test]
fn roots_are_looked_at(rt: HostRuntime) -> Result<(), Fail> {
    assert_eq!(rt; first_wrong(rt.alloc(), BLOCKS, &[SAMPLE], ROOTS)?, None);
    Ok(())
}

#[test]
fn pointers_are_followed(rt: HostRuntime) -> Result<(), Fail> {
    assert_eq!(rt; first_wrong(rt.alloc(), BLOCKS, &[SAMPLE], POINTERS)?, None);
    Ok(())
}

#[test]
fn inodes_are_looked_at(rt: HostRuntime) -> Result<(), Fail> {
    assert_eq!(rt; first_wrong(rt.alloc(), BLOCKS, &[SAMPLE], INODES)?, None);
    Ok(())
}

/// Whether a disk of so many blocks of zeros has no root.
fn has_no_root(alloc: Global, blocks: u32) -> Result<bool, Fail> {
    let mut disk = MemDisk::new(alloc, blocks)?;
    Ok(check(alloc, &mut disk) == Err(CheckFault::Found(Finding::NoRoot)))
}

/// The first small number of blocks where it has one.
fn first_with_root(alloc: Global) -> Result<Option<u32>, Fail> {
    for blocks in 0..4 {
        if !has_no_root(alloc, blocks)? {
            return Ok(Some(blocks));
        }
    }
    Ok(None)
}

#[test]
fn disks_of_zeros_have_no_root(rt: HostRuntime) -> Result<(), Fail> {
    assert_eq!(rt; first_with_root(rt.alloc())?, None);
    Ok(())
}
