//! A medium in memory: that its images are opened again, each with its own plan.
use crate::disks::{call, reads, writes};
use disk_model::{Disk, Media, OpenFault};
use mem_disk::MemDisk;
use mem_media::MemMedia;
use std::alloc::{AllocError, Global};
use vol_numbers::CallList;

/// A medium with an image of four blocks.
fn with_image(alloc: Global) -> Result<MemMedia, AllocError> {
    let disk = MemDisk::new(alloc, 4)?;
    let mut media = MemMedia::new(alloc);
    media.add("a", disk)?;
    Ok(media)
}

/// Whether the image is open and has so many blocks.
fn opens(media: &mut MemMedia, name: &str, fresh: Option<u32>, blocks: u32) -> bool {
    media.open(name, fresh) == Ok(()) && media.blocks() == blocks
}

/// Plans a failure of an image, where there is one of the name.
fn plan(media: &mut MemMedia, name: &str, fails: CallList) -> bool {
    match media.disk(name) {
        Some(disk) => {
            disk.plan(fails, None, 7);
            true
        }
        None => false,
    }
}

/// Writes the image, and opens another.
fn is_left(media: &mut MemMedia) -> bool {
    opens(media, "a", None, 4) && writes(media, 3, 5) && opens(media, "b", Some(2), 2)
}

/// Whether the image has kept its blocks, and the plan that its second call fails; and is replaced.
fn is_back(media: &mut MemMedia) -> bool {
    opens(media, "a", None, 4)
        && reads(media, 3, 5)
        && !reads(media, 3, 5)
        && opens(media, "a", Some(1), 1)
}

/// Whether an image keeps its blocks and its plan while another is open.
fn opens_again(media: &mut MemMedia, fails: CallList) -> bool {
    is_left(media) && plan(media, "a", fails) && is_back(media)
}

fn keeps_images(alloc: Global) -> Result<bool, AllocError> {
    let fails = call(alloc, 1)?;
    let mut media = with_image(alloc)?;
    Ok(opens_again(&mut media, fails))
}

fn refuses_absent(alloc: Global) -> bool {
    MemMedia::new(alloc).open("a", None) == Err(OpenFault::Failed)
}

#[test]
fn images_are_opened_again(rt: HostRuntime) {
    let absent = refuses_absent(rt.alloc());
    assert!(rt; absent && matches!(keeps_images(rt.alloc()), Ok(true)));
}
