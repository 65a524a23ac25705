//! The image as it was drawn.
use crate::image::{BLOCKS, INDEX, draw, walked};
use block_format::Inode;
use disk_model::Disk;
use image_walk::{Mark, NodeBlock, Walked};
use mem_disk::MemDisk;
use std::alloc::Global;
use std::test::Fail;
use vol_numbers::{BlockNo, InoNo};

const NODES: &[(InoNo, Inode)] = &[
    (
        1,
        Inode::Directory {
            width: 1,
            height: 0,
            ptr: 103,
        },
    ),
    (
        2,
        Inode::File {
            size: 8_192,
            height: 1,
            ptr: 104,
        },
    ),
    (
        3,
        Inode::File {
            size: 100,
            height: 0,
            ptr: 105,
        },
    ),
];

const PAGES: &[NodeBlock] = &[NodeBlock {
    number: 1,
    place: 0,
    block: 103,
}];

/// The last place of number 2 is 1, that of number 3 is 0.
const LASTS: &[NodeBlock] = &[
    NodeBlock {
        number: 2,
        place: 1,
        block: 106,
    },
    NodeBlock {
        number: 3,
        place: 0,
        block: 105,
    },
];

/// Whether a block is metadata, whether it is a file's, and how many pointers lead to it.
const MARKS: &[(BlockNo, bool, bool, u32)] = &[
    (100, false, false, 0),
    (101, true, false, 1),
    (102, true, false, 1),
    (103, true, false, 1),
    (104, true, false, 1),
    (105, false, true, 2),
    (106, false, true, 1),
    (107, false, false, 0),
    (4_000_000_000, false, false, 0),
];

fn are_marked(walked: &Walked) -> bool {
    for row in MARKS {
        let mark = Mark {
            is_metadata: row.1,
            is_content: row.2,
            pointers: row.3,
        };
        if walked.marks.get(row.0) != mark {
            return false;
        }
    }
    true
}

/// Whether all is reached, and nothing else.
fn is_all(walked: &Walked) -> bool {
    if walked.nodes.as_slice() != NODES {
        return false;
    }
    if walked.pages.as_slice() != PAGES {
        return false;
    }
    walked.lasts.as_slice() == LASTS && are_marked(walked)
}

/// Whether all of the image is reached on a disk of zeros that it is drawn on.
fn is_reached_on<D: Disk>(alloc: Global, disk: &mut D) -> bool {
    if !draw(disk) {
        return false;
    }
    match walked(alloc, disk, INDEX) {
        Some(Ok(walked)) => is_all(&walked),
        Some(Err(_)) | None => false,
    }
}

fn is_reached(alloc: Global) -> Result<bool, Fail> {
    let mut disk = MemDisk::new(alloc, BLOCKS)?;
    Ok(is_reached_on(alloc, &mut disk))
}

#[test]
fn all_is_reached(rt: HostRuntime) -> Result<(), Fail> {
    assert!(rt; is_reached(rt.alloc())?);
    Ok(())
}
