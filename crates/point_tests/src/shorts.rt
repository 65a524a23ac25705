//! A point that is short. A file of 43 blocks with its leaf, the directory's block, the inodes and the inode index takes 47 of the 62 free blocks, and a
//! point has to leave 16. A file of 42 blocks takes 46.
ghost use Rattle.std.specs.Prelude.{IfOk, IfSome};
ghost use Rattle.point_plan.specs.State.{IsOfSize};

use crate::Quiet;
use crate::acts::{Act, Kind};
use crate::picture::image;
use crate::small::{BLOCKS, FRESH};
use crate::volume::{Outcome, Volume, all_done, checked, done, first_other};
use consistency_point::{PointFault, take};
use disk_model::Disk;
use std::alloc::Global;
use std::test::Fail;

const TOO_MANY: &[Act] = &[
    Act::Made(2, Kind::File(0), &[(1, 0, 2, b'a')]),
    Act::Wrote(2, 176_128, &[(0, 43, b'A')]),
];

const CUT: Act = Act::Resized(2, 172_032, 42);

const FITS: Act = Act::Point((1, 42, 18, &[(2, 0, 42, 103)]));

/// The volume as it was, where the point is short and tells so many free blocks.
fn short(alloc: Global, volume: Volume, free: u32) -> Option<Volume>
    requires { IsOfSize (⟦<Quiet as Disk>⟧.fixed volume.disk).size volume.state }
    ensures { IfSome result (λ v. IsOfSize (⟦<Quiet as Disk>⟧.fixed v.disk).size v.state) }
{
    let Volume {
        mut disk,
        mut state,
    } = volume;
    match take(alloc, &mut disk, &mut state) {
        Err(PointFault::Short { free: told }) if told == free => Some(Volume { disk, state }),
        _ => None,
    }
}

/// The volume after the short point.
fn after_short(alloc: Global) -> Result<Option<Volume>, Fail>
    ensures { IfOk result (λ o. IfSome o (λ v. IsOfSize (⟦<Quiet as Disk>⟧.fixed v.disk).size v.state)) }
{
    match all_done(alloc, BLOCKS, &[FRESH], TOO_MANY)? {
        Some(volume) => Ok(short(alloc, volume, 62)),
        None => Ok(None),
    }
}

/// Whether a short point leaves the disk as it was.
fn leaves_the_disk(alloc: Global) -> Result<bool, Fail> {
    match after_short(alloc)? {
        Some(volume) => is_fresh(alloc, volume),
        None => Ok(false),
    }
}

fn is_fresh(alloc: Global, volume: Volume) -> Result<bool, Fail> {
    let Volume { mut disk, .. } = volume;
    match image(alloc, BLOCKS, &[FRESH])? {
        Some(mut drawn) => Ok(first_other(&mut disk.disk, &mut drawn, BLOCKS).is_none()),
        None => Ok(false),
    }
}

/// The volume where the file is cut by a block after the short point, and a point is taken.
fn after_cut(alloc: Global, volume: Volume) -> Option<Volume>
    requires { IsOfSize (⟦<Quiet as Disk>⟧.fixed volume.disk).size volume.state }
{
    let cut = done(alloc, volume, &CUT)?;
    done(alloc, cut, &FITS)
}

fn takes_the_next(alloc: Global) -> Result<Outcome, Fail> {
    let Some(volume) = after_short(alloc)? else {
        return Ok(Outcome::NotDone);
    };
    match after_cut(alloc, volume) {
        Some(volume) => Ok(checked(alloc, volume)),
        None => Ok(Outcome::NotDone),
    }
}

#[test]
fn a_short_point_leaves_the_disk(rt: HostRuntime) -> Result<(), Fail> {
    assert!(rt; leaves_the_disk(rt.alloc())?);
    Ok(())
}

#[test]
fn a_short_point_leaves_what_is_staged(rt: HostRuntime) -> Result<(), Fail> {
    assert_eq!(rt; takes_the_next(rt.alloc())?, Outcome::Good(2, 18));
    Ok(())
}
