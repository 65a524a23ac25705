//! That disks and media in memory go on to tell their moments where memory is ample, also after calls that fail.
use crate::disks::{call, reads, writes};
use disk_model::{Disk, Media};
use mem_disk::{MemDisk, SureDisk};
use mem_media::MemMedia;
use std::alloc::{AllocError, Global};
use vol_numbers::CallList;

/// Writes, syncs and reads. It counts the calls that succeed.
fn used<D: Disk>(disk: &mut D) -> u32 {
    let mut done: u32 = 0;
    for byte in 1..10 {
        let wrote = writes(disk, 1, byte);
        let synced = disk.sync().is_ok();
        let read = reads(disk, 1, byte);
        done = done.saturating_add(u32::from(wrote) + u32::from(synced) + u32::from(read));
    }
    done
}

fn sure_disk_tells(alloc: Global) -> Result<bool, AllocError> {
    let mut disk = SureDisk::new(alloc, 2)?;
    let done = used(&mut disk);
    Ok(done == 27 && disk.tells_moments())
}

/// With the write of the second round planned to fail, its read finds another byte.
fn disk_tells(alloc: Global) -> Result<bool, AllocError> {
    let fails = call(alloc, 3)?;
    let mut disk = MemDisk::new(alloc, 2)?;
    disk.plan(fails, None, 7);
    let done = used(&mut disk);
    Ok(done == 25 && disk.tells_moments())
}

/// Whether a medium tells its moments through openings, and through calls of which all but the first fail.
fn medium_tells(media: &mut MemMedia) -> bool {
    if media.open("a", Some(2)).is_err() || used(media) != 27 {
        return false;
    }
    if media.open("b", Some(3)).is_err() || used(media) != 27 {
        return false;
    }
    media.open("a", None).is_ok() && media.open("c", None).is_err() && media.tells_moments()
}

fn medium_tells_of_faults(alloc: Global, media: &mut MemMedia) -> bool {
    if let Some(disk) = media.disk("a") {
        disk.plan(CallList::new(alloc), Some(1), 7);
    }
    used(media) == 1 && media.tells_moments()
}

fn media_tell(alloc: Global) -> bool {
    let mut media = MemMedia::new(alloc);
    medium_tells(&mut media) && medium_tells_of_faults(alloc, &mut media)
}

#[test]
fn moments_are_told_where_memory_is_ample(rt: HostRuntime) {
    let sure = matches!(sure_disk_tells(rt.alloc()), Ok(true));
    let planned = matches!(disk_tells(rt.alloc()), Ok(true));
    assert!(rt; sure && planned && media_tell(rt.alloc()));
}
