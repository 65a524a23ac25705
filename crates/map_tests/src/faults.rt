//! A rewriting that reads a top index and three leaves, over a disk that fails at each call in turn.
use crate::steps::{Step, steps_done};
use block_tree::TreeRoot;
use mem_disk::MemDisk;
use std::alloc::{AllocError, Global};
use std::test::Fail;
use vol_numbers::{CallList, Geometry};

/// The first step does no call. The second writes three pages: calls 0 to 2. The third reads the top index and writes two pages: calls 3 to 5.
/// The last one reads four blocks: calls 6 to 9.
const STEPS: &[Step] = &[
    // One block has no index.
    Step {
        cut_to: 0,
        changes: &[(0, 1_100)],
        blocks: 1,
        lowest: 1_190,
        root: TreeRoot {
            height: 0,
            ptr: 1_100,
        },
        pages: &[],
        added: &[1_100],
        dropped: &[],
        found: [1_100, 0, 0, 0],
    },
    // Two leaves and a top index.
    Step {
        cut_to: 1_025,
        changes: &[(1_024, 1_102)],
        blocks: 1_025,
        lowest: 1_210,
        root: TreeRoot {
            height: 2,
            ptr: 1_212,
        },
        pages: &[1_210, 1_211, 1_212],
        added: &[1_210, 1_211, 1_102, 1_212],
        dropped: &[],
        found: [1_100, 0, 1_102, 0],
    },
    // The last place of the greatest file. Both leaves keep their blocks, and the top index changes.
    Step {
        cut_to: 1_048_576,
        changes: &[(1_048_575, 1_103)],
        blocks: 1_048_576,
        lowest: 1_220,
        root: TreeRoot {
            height: 2,
            ptr: 1_221,
        },
        pages: &[1_220, 1_221],
        added: &[1_220, 1_103, 1_221],
        dropped: &[1_212],
        found: [1_100, 0, 1_102, 1_103],
    },
    // The cut goes through all leaves: the top index and three leaves are read.
    Step {
        cut_to: 1,
        changes: &[],
        blocks: 1,
        lowest: 1_265,
        root: TreeRoot {
            height: 0,
            ptr: 1_100,
        },
        pages: &[],
        added: &[],
        dropped: &[1_210, 1_211, 1_102, 1_220, 1_103, 1_221],
        found: [1_100, 0, 0, 0],
    },
];

/// The call that fails, and how many steps are done before it.
const FAILING: &[(u64, usize)] = &[
    (0, 1),
    (2, 1),
    (3, 2),
    (4, 2),
    (5, 2),
    (6, 3),
    (7, 3),
    (8, 3),
    (9, 3),
    (10, 4),
];

/// A list of one call.
fn one_call(alloc: Global, number: u64) -> Result<CallList, AllocError> {
    let mut calls = Vec::new(alloc);
    calls.push(number)?;
    Ok(CallList::from_vec(calls))
}

/// How many steps are done over a disk of which one call fails.
fn done_failing(alloc: Global, number: u64) -> Result<usize, Fail> {
    let fails = one_call(alloc, number)?;
    let mut disk = MemDisk::new(alloc, 2_048)?;
    disk.plan(fails, None, 7);
    match Geometry::new(2_048, 64) {
        Ok(g) => Ok(steps_done(alloc, &mut disk, &g, STEPS, false)),
        Err(_) => Ok(0),
    }
}

fn all_fail_so(alloc: Global) -> Result<bool, Fail> {
    for row in FAILING {
        if done_failing(alloc, row.0)? != row.1 {
            return Ok(false);
        }
    }
    Ok(true)
}

#[test]
fn failing_reads_are_told(rt: HostRuntime) -> Result<(), Fail> {
    assert!(rt; all_fail_so(rt.alloc())?);
    Ok(())
}
