//! Checks over disks that fail at each call in turn.
use crate::runs::{check_over, fresh, roomy, serve_over};
use command_server::Status;
use mem_media::MemMedia;
use std::alloc::Global;
use std::test::Fail;
use vol_numbers::CallList;

/// More calls than any check here has.
const MANY: u64 = 100;

/// What a check tells of a fresh volume with one command in its log. The area has 1,945 blocks, of which a format takes two.
const GOOD: &[u8] = b"good nodes=1 records=1 free=1943\n";

/// Media with a volume of 2,048 blocks that has one command in its log.
fn with_one_command(alloc: Global) -> Result<MemMedia, Fail> {
    let mut media = fresh(alloc)?;
    let mut sink = roomy(alloc)?;
    serve_over(alloc, &mut media, b"create /a\n", &mut sink)?;
    Ok(media)
}

/// How a check ends over a disk whose call of this number fails, and whether it told what is right then: all, or nothing where the disk failed.
fn check_failing(alloc: Global, media: &mut MemMedia, call: u64) -> Result<(Status, bool), Fail> {
    let mut calls = Vec::new(alloc);
    calls.push(call)?;
    let disk = media.disk("v").ok_or("no image")?;
    disk.plan(CallList::from_vec(calls), None, 7);
    let mut sink = roomy(alloc)?;
    let status = check_over(alloc, media, &mut sink)?;
    let is_right = match status {
        Status::Done => sink.bytes() == GOOD,
        Status::Device => sink.bytes().is_empty(),
        _ => false,
    };
    Ok((status, is_right))
}

/// The first call of a check behind its last, where what it told before was right each time.
fn calls_of_check(alloc: Global) -> Result<Option<u64>, Fail> {
    let mut media = with_one_command(alloc)?;
    for call in 0..MANY {
        let (status, is_right) = check_failing(alloc, &mut media, call)?;
        if !is_right {
            return Ok(None);
        }
        if status == Status::Done {
            return Ok(Some(call));
        }
    }
    Ok(None)
}

#[test]
fn a_check_stops_where_the_disk_fails(rt: HostRuntime) -> Result<(), Fail> {
    // The selector, the root, the inode index, the inode block, two count blocks and a block of the log are read once each.
    assert!(rt; calls_of_check(rt.alloc())? == Some(7));
    Ok(())
}
