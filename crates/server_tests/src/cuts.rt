//! Sessions over disks that fail at each call in turn, and what a power cut leaves of them.
use crate::runs::{fresh, roomy, serve_over};
use command_server::Status;
use disk_model::Pick;
use mem_disk::MemDisk;
use mem_media::MemMedia;
use std::alloc::{AllocError, Global};
use std::test::Fail;
use vol_numbers::{Block, BlockNo, CallList};

/// The blocks that a session of few commands writes: the selector, the root slots and the first blocks of the log.
const WRITTEN: &[BlockNo] = &[0, 1, 2, 7, 8, 9, 10, 11, 12];

/// More calls than any session here has.
const MANY: u64 = 100;

/// Each command that changes the tree.
const CHANGES: &[u8] = b"mkdir /d
create /d/a
write /d/a 2 3
xyz
truncate /d/a 4
rename /d /e
remove /e/a
";

/// How many commands these are, and what is answered to all of them.
const ALL: usize = 6;

const ALL_ANSWERS: &[u8] = b"ok\nok\nok\nok\nok\nok\n";

const QUESTIONS: &[u8] = b"stat /d\nstat /d/a\nstat /e\nstat /e/a\n";

/// What is answered to the questions behind none of the commands, behind the first one, and so on.
const STANDS: &[&[u8]] = &[
    b"refused 3 NotFound\nrefused 3 NotFound\nrefused 3 NotFound\nrefused 3 NotFound\n",
    b"stat d 2 0\nrefused 3 NotFound\nrefused 3 NotFound\nrefused 3 NotFound\n",
    b"stat d 2 1\nstat f 3 0\nrefused 3 NotFound\nrefused 3 NotFound\n",
    b"stat d 2 1\nstat f 3 5\nrefused 3 NotFound\nrefused 3 NotFound\n",
    b"stat d 2 1\nstat f 3 4\nrefused 3 NotFound\nrefused 3 NotFound\n",
    b"refused 3 NotFound\nrefused 3 NotFound\nstat d 2 1\nstat f 3 4\n",
    b"refused 3 NotFound\nrefused 3 NotFound\nstat d 2 0\nrefused 3 NotFound\n",
];

/// What stands in the open blocks behind a cut: what was written last, or this byte. An odd one in the selector names slot 1.
const FILLS: &[Option<u8>] = &[None, Some(255), Some(4)];

/// Which calls of a device fail: one, or all from one on.
#[derive(Clone, Copy)]
enum Failing {
    Alone(u64),
    From(u64),
}

/// Plans the calls of the image `v`. A write that fails leaves bytes of 7.
fn plan(alloc: Global, media: &mut MemMedia, failing: Failing) -> Result<(), Fail> {
    let mut calls = Vec::new(alloc);
    let mut from = None;
    match failing {
        Failing::Alone(call) => calls.push(call)?,
        Failing::From(call) => from = Some(call),
    }
    let disk = media.disk("v").ok_or("no image")?;
    disk.plan(CallList::from_vec(calls), from, 7);
    Ok(())
}

/// Cuts the power of the image `v`.
fn cut(alloc: Global, media: &mut MemMedia, fill: Option<u8>) -> Result<(), Fail> {
    let disk = media.disk("v").ok_or("no image")?;
    let mut picks = Vec::new(alloc);
    if let Some(byte) = fill {
        fill_open(&mut picks, disk, byte)?;
    }
    disk.cut(&picks)?;
    Ok(())
}

fn fill_open(picks: &mut Vec<Pick>, disk: &MemDisk, byte: u8) -> Result<(), AllocError> {
    let block = Block::filled(byte);
    for at in WRITTEN {
        if disk.is_open(*at) {
            picks.push(Pick { at: *at, block })?;
        }
    }
    Ok(())
}

/// How many commands were answered with `ok`, where that is all that was answered.
fn oks(text: &[u8]) -> Option<usize> {
    if ALL_ANSWERS.starts_with(text) && text.len() % 3 == 0 {
        return Some(text.len() / 3);
    }
    None
}

/// How a session with the commands ends, and how many are answered.
fn change(alloc: Global, media: &mut MemMedia) -> Result<(Status, Option<usize>), AllocError> {
    let mut sink = roomy(alloc)?;
    let status = serve_over(alloc, media, CHANGES, &mut sink)?;
    Ok((status, oks(sink.bytes())))
}

/// Behind how many of the commands the tree stands.
fn ask(alloc: Global, media: &mut MemMedia) -> Result<Option<usize>, AllocError> {
    let mut sink = roomy(alloc)?;
    let status = serve_over(alloc, media, QUESTIONS, &mut sink)?;
    if status != Status::Done {
        return Ok(None);
    }
    Ok(STANDS.iter().position(|text| *text == sink.bytes()))
}

/// A session over a disk that fails, and what stands there behind a power cut.
#[derive(Clone, Copy, Debug, PartialEq, Eq)]
struct Outcome {
    status: Status,
    answered: Option<usize>,
    there: Option<usize>,
}

impl Outcome {
    /// All that was answered is there, and at most the command behind it. A session that failed didn't answer all.
    fn is_lawful(&self) -> bool {
        let (Some(answered), Some(there)) = (self.answered, self.there) else {
            return false;
        };
        let is_kept = answered <= there && there <= answered.saturating_add(1);
        match self.status {
            Status::Done => answered == ALL && there == ALL,
            Status::Device => answered < ALL && is_kept,
            _ => false,
        }
    }
}

fn change_and_cut(
    alloc: Global,
    media: &mut MemMedia,
    failing: Failing,
    fill: Option<u8>,
) -> Result<Outcome, Fail> {
    plan(alloc, media, failing)?;
    let (status, answered) = change(alloc, media)?;
    cut(alloc, media, fill)?;
    let there = ask(alloc, media)?;
    Ok(Outcome {
        status,
        answered,
        there,
    })
}

fn outcome_of(alloc: Global, failing: Failing, fill: Option<u8>) -> Result<Outcome, Fail> {
    let mut media = fresh(alloc)?;
    change_and_cut(alloc, &mut media, failing, fill)
}

/// What came up over all calls from which on a device failed, or which failed alone.
#[derive(Clone, Copy, Debug, PartialEq, Eq)]
struct Seen {
    /// The last call, by which nothing failed.
    done: Option<u64>,
    /// A call with an outcome outside the law, or another one where it fails alone.
    wrong: Option<u64>,
    /// A command without an answer was done.
    kept: bool,
    /// It was not.
    lost: bool,
}

fn watch(alloc: Global, fill: Option<u8>) -> Result<Seen, Fail> {
    let mut seen = Seen {
        done: None,
        wrong: None,
        kept: false,
        lost: false,
    };
    for call in 0..MANY {
        let all = outcome_of(alloc, Failing::From(call), fill)?;
        // The session stops at the first call that fails, so that it doesn't matter what fails behind it.
        let alone = outcome_of(alloc, Failing::Alone(call), fill)?;
        if alone != all || !all.is_lawful() {
            seen.wrong = Some(call);
        }
        if all.status == Status::Done {
            seen.done = Some(call);
            return Ok(seen);
        }
        seen.kept |= all.there != all.answered;
        seen.lost |= all.there == all.answered;
    }
    Ok(seen)
}

/// What is acknowledged is there behind a power cut, and both outcomes of the next command come up.
fn keeps_what_it_answered(alloc: Global) -> Result<bool, Fail> {
    for fill in FILLS {
        let seen = watch(alloc, *fill)?;
        // A mount has 7 calls, and each command 5.
        if seen.wrong.is_some() || seen.done != Some(37) || !seen.kept || !seen.lost {
            return Ok(false);
        }
    }
    Ok(true)
}

#[test]
fn what_is_answered_is_there(rt: HostRuntime) -> Result<(), Fail> {
    assert!(rt; keeps_what_it_answered(rt.alloc())?);
    Ok(())
}
