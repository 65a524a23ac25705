//! Disks that fail at a call of a point and at each call behind it. Whatever a power cut leaves then, the check finds the volume of before or the one
//! after the point.
ghost use Rattle.point_plan.specs.State.{IsOfSize};

use crate::Quiet;
use crate::acts::{Act, Kind};
use crate::small::{BLOCKS, FRESH};
use crate::volume::{Volume, all_done};
use consistency_point::take;
use disk_model::{Disk, Pick};
use fs_check::check;
use mem_disk::MemDisk;
use std::alloc::{AllocError, Global};
use std::test::Fail;
use vol_numbers::{Block, CallList};

const PENDING: &[Act] = &[
    Act::Made(2, Kind::File(0), &[(1, 0, 2, b'a')]),
    Act::Wrote(2, 8_192, &[(0, 2, b'A')]),
];

/// More calls than a point of it makes: it writes two blocks of data, the directory's, the leaf, the inodes, the inode index, the counts, the root and the
/// selector, and syncs three times.
const CALLS: u64 = 64;

/// What is left after a failing call.
#[derive(Clone, Copy)]
struct Left {
    /// The point was taken.
    taken: bool,
    /// How many nodes the check tells, none where it finds something.
    nodes: Option<u32>,
}

fn one_call(alloc: Global, call: u64) -> Result<CallList, AllocError> {
    let mut calls = Vec::new(alloc);
    calls.push(call)?;
    Ok(CallList::from_vec(calls))
}

/// The blocks that a power cut tears: all that are unsynced, or none.
fn torn_blocks(alloc: Global, disk: &MemDisk, torn: bool) -> Result<Vec<Pick>, AllocError> {
    let mut picks = Vec::new(alloc);
    for at in 0..BLOCKS {
        if torn && disk.is_open(at) {
            picks.push(Pick {
                at,
                block: Block::filled(255),
            })?;
        }
    }
    Ok(picks)
}

fn is_cut(alloc: Global, disk: &mut MemDisk, torn: bool) -> bool {
    match torn_blocks(alloc, disk, torn) {
        Ok(picks) => disk.cut(&picks).is_ok(),
        Err(_) => false,
    }
}

fn nodes_of(alloc: Global, disk: &mut MemDisk, torn: bool) -> Option<u32> {
    if !is_cut(alloc, disk, torn) {
        return None;
    }
    match check(alloc, disk) {
        Ok(summary) => Some(summary.nodes),
        Err(_) => None,
    }
}

fn left_of(alloc: Global, volume: Volume, calls: CallList, from: u64, torn: bool) -> Left
    requires { IsOfSize (⟦<Quiet as Disk>⟧.fixed volume.disk).size volume.state }
{
    let Volume {
        mut disk,
        mut state,
    } = volume;
    disk.disk.plan(calls, Some(from), 255);
    let taken = take(alloc, &mut disk, &mut state).is_ok();
    Left {
        taken,
        nodes: nodes_of(alloc, &mut disk.disk, torn),
    }
}

fn left_at(alloc: Global, call: u64, torn: bool) -> Result<Option<Left>, Fail> {
    let Some(volume) = all_done(alloc, BLOCKS, &[FRESH], PENDING)? else {
        return Ok(None);
    };
    match one_call(alloc, call) {
        Ok(calls) => Ok(Some(left_of(alloc, volume, calls, call, torn))),
        Err(_) => Ok(None),
    }
}

/// What a row of failing calls comes to.
#[derive(Clone, Copy, Debug, PartialEq, Eq)]
struct Seen {
    /// The first call at which it is neither the volume of before nor that of after. None where the point was taken at last.
    bad: Option<u64>,
    /// Some failure left the volume of before, and some that of after.
    before: bool,
    after: bool,
}

fn through_all(alloc: Global, torn: bool) -> Result<Seen, Fail> {
    let mut before = false;
    let mut after = false;
    for call in 0..CALLS {
        match left_at(alloc, call, torn)? {
            Some(
                Left {
                    taken: false,
                    nodes: Some(1),
                },
            ) => before = true,
            Some(
                Left {
                    taken: false,
                    nodes: Some(2),
                },
            ) => after = true,
            Some(
                Left {
                    taken: true,
                    nodes: Some(2),
                },
            ) => {
                return Ok(Seen {
                    bad: None,
                    before,
                    after,
                });
            }
            _ => return Ok(Seen {
                bad: Some(call),
                before,
                after,
            }),
        }
    }
    Ok(Seen {
        bad: Some(CALLS),
        before,
        after,
    })
}

/// Where what was written stands, the last sync fails with the new root current.
#[test]
fn each_failure_leaves_one_of_the_two(rt: HostRuntime) -> Result<(), Fail> {
    let want = Seen {
        bad: None,
        before: true,
        after: true,
    };
    assert_eq!(rt; through_all(rt.alloc(), false)?, want);
    Ok(())
}

/// A torn selector of bytes 255 names the other slot, which was synced before.
#[test]
fn so_does_each_torn_write(rt: HostRuntime) -> Result<(), Fail> {
    let want = Seen {
        bad: None,
        before: true,
        after: true,
    };
    assert_eq!(rt; through_all(rt.alloc(), true)?, want);
    Ok(())
}
