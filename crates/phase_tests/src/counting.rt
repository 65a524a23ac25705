//! Counts that are right, counts that are wrong, and the reserve.
ghost use Rattle.std.specs.Prelude.{◌≡◌, ◌*◌, length};
ghost use Rattle.vol_numbers.specs.Geometry.{layout_of};
ghost use Rattle.vol_numbers.specs.Layout.{count_blocks};

use crate::volume::{INDEX, Word, geometry, image, next_call, no_call, root};
use block_format::HomeBits;
use count_check::{CountCheckFault, Counted, counts, reserve};
use disk_model::Disk;
use image_model::Finding;
use image_walk::{Marks, walk};
use mem_disk::MemDisk;
use std::alloc::Global;
use std::test::Fail;
use vol_numbers::{BlockNo, CallList, Geometry};

/// What a comparison of counts comes to.
#[derive(Clone, Copy, PartialEq, Eq)]
enum Outcome {
    /// The counts are those of `COUNTS`, or aren't, and so many blocks are free.
    Counts(bool, u32),
    Fault(CountCheckFault),
    /// The test itself is wrong.
    NoTest,
}

/// How many pointers lead to some blocks.
const COUNTS: &[(BlockNo, u32)] = &[
    (0, 0),
    (100, 0),
    (101, 1),
    (104, 1),
    (105, 2),
    (106, 1),
    (107, 0),
    (1_023, 0),
];

fn are_counts(counted: &Counted, g: &Geometry) -> bool
    requires { length counted.now.counts.counts ≡ 1024 * count_blocks (layout_of g.now) }
{
    for row in COUNTS {
        if row.0 >= 1_024 * g.count_blocks() || counted.counts.get(row.0) != row.1 {
            return false;
        }
    }
    true
}

/// The counts behind a walk, where these calls of the disk fail.
fn compared(alloc: Global, disk: &mut MemDisk, homes: HomeBits, fails: CallList) -> Outcome {
    let Some(g) = geometry() else {
        return Outcome::NoTest;
    };
    if disk.blocks() != g.blocks() {
        return Outcome::NoTest;
    }
    match walk(alloc, disk, &g, INDEX) {
        Ok(walked) => {
            disk.plan(fails, None, 7);
            compared_with(alloc, disk, g, homes, &walked.marks)
        }
        Err(_) => Outcome::NoTest,
    }
}

/// The same with what the walk has marked.
fn compared_with<D: Disk>(
    alloc: Global,
    disk: &mut D,
    g: Geometry,
    homes: HomeBits,
    marks: &Marks,
) -> Outcome
    requires { (layout_of g).blocks ≡ (D.fixed disk.old).size }
{
    match counts(alloc, disk, &root(g, 0, 0, homes), marks) {
        Ok(counted) => Outcome::Counts(are_counts(&counted, &g), counted.free),
        Err(fault) => Outcome::Fault(fault),
    }
}

/// What is wanted: the counts, or the block, the kept count and the number of pointers of the first wrong one.
#[derive(Clone, Copy)]
enum Want {
    Counts,
    Wrong(BlockNo, u32, u32),
}

/// Six of the 64 blocks of the area are used.
fn wanted(want: Want) -> Outcome {
    match want {
        Want::Counts => Outcome::Counts(true, 58),
        Want::Wrong(block, kept, counted) => {
            Outcome::Fault(CountCheckFault::Found(Finding::WrongCount {
                block,
                kept,
                counted,
            }))
        }
    }
}

/// A word that is changed, the first byte of the home bits, and what comes of it.
type Row = (BlockNo, u32, u32, u8, Want);

/// The count block is block 3, and block 4 where its bit is set.
const ROWS: &[Row] = &[
    (3, 105, 2, 0, Want::Counts),
    (3, 105, 1, 0, Want::Wrong(105, 1, 2)),
    (3, 0, 1, 0, Want::Wrong(0, 1, 0)),
    (3, 107, 4_294_967_295, 0, Want::Wrong(107, 4_294_967_295, 0)),
    // The volume has no block 165, and none of the last number that has a count.
    (3, 165, 1, 0, Want::Wrong(165, 1, 0)),
    (3, 1_023, 1, 0, Want::Wrong(1_023, 1, 0)),
    // Nothing is in the other home.
    (3, 105, 2, 1, Want::Wrong(101, 0, 1)),
    (4, 101, 7, 1, Want::Wrong(101, 7, 1)),
];

fn comes_out(alloc: Global, row: &Row) -> Result<bool, Fail> {
    let mut homes = HomeBits::zero();
    homes.bytes[0] = row.3;
    let word = Word {
        block: row.0,
        at: row.1,
        value: row.2,
    };
    let Some(mut disk) = image(alloc, &[word])? else {
        return Ok(false);
    };
    Ok(compared(alloc, &mut disk, homes, no_call(alloc)) == wanted(row.4))
}

fn all_come_out(alloc: Global) -> Result<bool, Fail> {
    for row in ROWS {
        if !comes_out(alloc, row)? {
            return Ok(false);
        }
    }
    Ok(true)
}

#[test]
fn counts_are_compared(rt: HostRuntime) -> Result<(), Fail> {
    assert!(rt; all_come_out(rt.alloc())?);
    Ok(())
}

fn fails(alloc: Global) -> Result<bool, Fail> {
    let calls = next_call(alloc)?;
    let Some(mut disk) = image(alloc, &[])? else {
        return Ok(false);
    };
    Ok(
        compared(alloc, &mut disk, HomeBits::zero(), calls)
            == Outcome::Fault(CountCheckFault::Device),
    )
}

#[test]
fn a_failing_read_is_told(rt: HostRuntime) -> Result<(), Fail> {
    assert!(rt; fails(rt.alloc())?);
    Ok(())
}

/// 16 free blocks are enough.
fn reserves() -> bool {
    reserve(15) == Some(Finding::NoReserve(15))
        && reserve(16).is_none()
        && reserve(0) == Some(Finding::NoReserve(0))
}

#[test]
fn sixteen_blocks_are_enough(rt: HostRuntime) {
    assert!(rt; reserves());
}
