//! Two faults in one image of the sample: that of the earlier phase is found.
use check_rows::{BLOCKS, Put, Row, SAMPLE, Want, first_wrong};
use image_model::Finding;
use std::test::Fail;

/// Neighbours in the order of the phases, two images each.
const NEIGHBOURS: &[Row] = &[
    // The shape of the root, and its geometry.
    (
        &[Put::Number(1, 2, 2), Put::Number(1, 4, 63)],
        Want::Bad(Finding::NoRoot),
    ),
    (
        &[Put::Number(1, 5, 1), Put::Number(1, 9, 1)],
        Want::Bad(Finding::NoRoot),
    ),
    // The geometry, and the walk.
    (
        &[Put::Number(1, 4, 63), Put::Number(1, 8, 0)],
        Want::Bad(Finding::BadGeometry),
    ),
    (
        &[Put::Number(1, 3, 164), Put::Number(102, 48, 3)],
        Want::Bad(Finding::BadGeometry),
    ),
    // The walk, and a block of two uses.
    (
        &[Put::Number(104, 0, 100), Put::Number(104, 1, 103)],
        Want::Bad(Finding::BadPointer(100)),
    ),
    (
        &[Put::Number(102, 97, 111), Put::Number(104, 1, 103)],
        Want::Bad(Finding::BadInode(6)),
    ),
    // A block of two uses, and a tail.
    (
        &[Put::Number(104, 0, 103), Put::Number(105, 25, 1)],
        Want::Bad(Finding::MixedBlock(103)),
    ),
    (
        &[Put::Number(109, 76, 109), Put::Number(105, 1_023, 1)],
        Want::Bad(Finding::MixedBlock(109)),
    ),
    // A tail, and a directory.
    (
        &[Put::Number(105, 25, 1), Put::Number(103, 2, 1)],
        Want::Bad(Finding::BadTail(3)),
    ),
    (
        &[Put::Number(105, 1_000, 1), Put::Number(102, 65, 0)],
        Want::Bad(Finding::BadTail(3)),
    ),
    // A directory, and the tree.
    (
        &[Put::Number(107, 65, 0x0073_0001), Put::Number(107, 0, 1)],
        Want::Bad(Finding::BadDirectory(4)),
    ),
    (
        &[Put::Number(102, 65, 0), Put::Number(103, 64, 2)],
        Want::Bad(Finding::BadDirectory(4)),
    ),
    // The tree, and a count.
    (
        &[Put::Number(107, 0, 1), Put::Number(3, 0, 1)],
        Want::Bad(Finding::NotATree(1)),
    ),
    (
        &[Put::Same(107, 64, 2, 0), Put::Number(3, 101, 0)],
        Want::Bad(Finding::NotATree(6)),
    ),
    // A count, and the reserve.
    (
        &[
            Put::Number(102, 34, 167_936),
            Put::Rising(104, 2, 39, 111),
            Put::Same(3, 111, 39, 1),
            Put::Number(3, 149, 7),
        ],
        Want::Wrong(149, 7, 1),
    ),
    (&[Put::Same(3, 111, 54, 1)], Want::Wrong(111, 1, 0)),
    // The reserve, and the log.
    (
        &[
            Put::Number(102, 34, 167_936),
            Put::Rising(104, 2, 39, 111),
            Put::Same(3, 111, 39, 1),
            Put::Number(1, 10, 1),
        ],
        Want::Bad(Finding::NoReserve(15)),
    ),
    (
        &[
            Put::Number(102, 34, 229_376),
            Put::Rising(104, 2, 54, 111),
            Put::Same(3, 111, 54, 1),
            Put::Same(1, 9, 2, 1),
        ],
        Want::Bad(Finding::NoReserve(0)),
    ),
];

/// Within the walk: the entries of the inode index come before inodes, these before pointers of nodes, and nodes by number. A node of no bytes whose
/// pointer leads out of the area comes behind all inodes, in its place among the nodes.
const WITHIN_THE_WALK: &[Row] = &[
    (
        &[Put::Number(101, 1_023, 7), Put::Number(102, 48, 3)],
        Want::Bad(Finding::BadPointer(7)),
    ),
    (
        &[Put::Number(101, 9, 7), Put::Number(101, 8, 9)],
        Want::Bad(Finding::BadPointer(9)),
    ),
    (
        &[Put::Number(102, 17, 7), Put::Number(102, 97, 111)],
        Want::Bad(Finding::BadInode(6)),
    ),
    (
        &[Put::Number(102, 17, 7), Put::Number(102, 80, 1)],
        Want::Bad(Finding::BadInode(5)),
    ),
    (
        &[Put::Number(102, 17, 7), Put::Number(101, 2, 111)],
        Want::Bad(Finding::BadInode(128)),
    ),
    // Number 1 is looked at behind all inodes.
    (
        &[Put::Number(102, 16, 1), Put::Number(101, 2, 111)],
        Want::Bad(Finding::BadInode(128)),
    ),
    (
        &[Put::Number(102, 33, 9), Put::Number(102, 17, 7)],
        Want::Bad(Finding::BadPointer(7)),
    ),
    (
        &[Put::Number(102, 97, 165), Put::Number(108, 0, 9)],
        Want::Bad(Finding::BadPointer(9)),
    ),
    (
        &[Put::Number(102, 97, 165), Put::Number(102, 32, 0)],
        Want::Bad(Finding::BadInode(2)),
    ),
    // The top index, then its leaves: entry 2 of the top index comes before a pointer of the leaf behind entry 1.
    (
        &[Put::Number(109, 0, 9), Put::Number(108, 2, 8)],
        Want::Bad(Finding::BadPointer(8)),
    ),
    // The pointers of a leaf by position, and a leaf that is empty.
    (
        &[Put::Number(104, 9, 9), Put::Number(104, 8, 8)],
        Want::Bad(Finding::BadPointer(8)),
    ),
    (
        &[Put::Same(104, 0, 2, 0), Put::Number(102, 49, 9)],
        Want::Bad(Finding::BadPointer(104)),
    ),
];

/// A fault of each phase but the first ones.
const ALL: &[Row] = &[(
    &[
        Put::Number(1, 10, 1),
        Put::Number(3, 0, 1),
        Put::Number(103, 128, 7),
        Put::Number(103, 129, 0x0078_0001),
        Put::Number(107, 2, 1),
        Put::Number(105, 1_023, 1),
        Put::Number(104, 1, 107),
        Put::Number(102, 97, 3),
    ],
    Want::Bad(Finding::BadPointer(3)),
)];

#[test]
fn the_first_phase_tells(rt: HostRuntime) -> Result<(), Fail> {
    assert_eq!(rt;
        first_wrong(rt.alloc(), BLOCKS, &[SAMPLE], NEIGHBOURS)?,
        None
    );
    Ok(())
}

#[test]
fn the_walk_tells_before_all_others(rt: HostRuntime) -> Result<(), Fail> {
    assert_eq!(rt; first_wrong(rt.alloc(), BLOCKS, &[SAMPLE], ALL)?, None);
    Ok(())
}

#[test]
fn the_walk_has_an_order(rt: HostRuntime) -> Result<(), Fail> {
    assert_eq!(rt;
        first_wrong(rt.alloc(), BLOCKS, &[SAMPLE], WITHIN_THE_WALK)?,
        None
    );
    Ok(())
}
