//! The text of each answer, by the format's rules.
use reply_text::write_reply;
use std::alloc::Global;
use std::test::Fail;
use tree_model::{
    Answer, Entry, EntryList, Kind, Line, LineKind, LineList, Piece, PieceList, Refusal, Reply,
    Report,
};
use vol_numbers::{ByteList, CallList, Name};
use wire_ends::MemSink;

/// Whether an answer has this text.
fn says(alloc: Global, answer: &Answer, want: &[u8]) -> Result<bool, Fail> {
    let mut sink = MemSink::new(alloc, 1_000, CallList::new(alloc))?;
    write_reply(alloc, &mut sink, answer)?;
    Ok(sink.bytes() == want)
}

fn reply_says(alloc: Global, reply: Reply, want: &[u8]) -> Result<bool, Fail> {
    let answer = Answer {
        report: None,
        reply,
    };
    says(alloc, &answer, want)
}

/// Data, and their text.
const DATA: &[(&[u8], &[u8])] = &[(b"\0\nxyz", b"data 5\n\0\nxyz\n"), (b"", b"data 0\n\n")];

fn data_say(alloc: Global) -> Result<bool, Fail> {
    for row in DATA {
        let data = ByteList::from_vec(row.0.to_vec(alloc)?);
        if !reply_says(alloc, Reply::Data(data), row.1)? {
            return Ok(false);
        }
    }
    Ok(true)
}

const ENTRIES: &[(Kind, u32, &[u8])] = &[
    (Kind::Directory, 2, b"e"),
    (Kind::File, 65_535, b" %\xffz"),
];

fn push_entry(entries: &mut Vec<Entry>, row: (Kind, u32, &[u8])) -> Result<(), Fail> {
    let (kind, number, name) = row;
    let name = Name::new(name)?;
    entries.push(Entry { kind, number, name })?;
    Ok(())
}

/// Two entries, one with a name that is escaped.
pub fn listed(alloc: Global) -> Result<Reply, Fail> {
    let mut entries = Vec::new(alloc);
    for row in ENTRIES {
        push_entry(&mut entries, *row)?;
    }
    Ok(Reply::Entries(EntryList::from_vec(entries)))
}

/// A piece that has a place, and one that is dirty.
pub fn laid_out(alloc: Global) -> Result<Reply, Fail> {
    let placed = Piece::Placed {
        place: 0,
        length: 2,
        block: 117,
    };
    let dirty = Piece::Dirty {
        place: 7,
        length: 1,
    };
    let pieces = [placed, dirty].to_vec(alloc)?;
    Ok(Reply::Layout(PieceList::from_vec(pieces)))
}

fn line_of(kind: LineKind) -> Line {
    Line {
        kind,
        number: 3,
        place: 0,
        length: 4,
        block: 117,
    }
}

/// Done, behind a report of two lines.
pub fn reported(alloc: Global) -> Result<Answer, Fail> {
    let lines = [line_of(LineKind::Fresh), line_of(LineKind::Share)].to_vec(alloc)?;
    let report = Report {
        number: 18_446_744_073_709_551_615,
        fresh: 4,
        shared: 40,
        free: 0,
        lines: LineList::from_vec(lines),
    };
    Ok(Answer {
        report: Some(report),
        reply: Reply::Done,
    })
}

fn report_says(alloc: Global) -> Result<bool, Fail> {
    let answer = reported(alloc)?;
    says(
        alloc,
        &answer,
        b"point 18446744073709551615 fresh=4 shared=40 free=0\nfresh 3 0 4 117\nshare 3 0 4 117\nok\n",
    )
}

fn lists_say(alloc: Global) -> Result<bool, Fail> {
    let list = b"list 2\nd 2 e\nf 65535 %20%25%FFz\n";
    let layout = b"layout 2\nrun 0 2 117\ndirty 7 1\n";
    Ok(reply_says(alloc, listed(alloc)?, list)? && reply_says(alloc, laid_out(alloc)?, layout)?)
}

fn lines_say(alloc: Global) -> Result<bool, Fail> {
    Ok(
        reply_says(alloc, Reply::Done, b"ok\n")?
            && reply_says(
                alloc,
                Reply::Stat {
                    kind: Kind::File,
                    number: 3,
                    size: 4_294_967_296,
                },
                b"stat f 3 4294967296\n",
            )?
            && reply_says(
                alloc,
                Reply::Space {
                    free: 5,
                    pending: 0,
                    log: 12,
                },
                b"space free=5 pending=0 log=12\n",
            )?,
    )
}

const REFUSALS: &[(Refusal, &[u8])] = &[
    (Refusal::BadCommand, b"refused 1 BadCommand\n"),
    (Refusal::BadName, b"refused 2 BadName\n"),
    (Refusal::NotFound, b"refused 3 NotFound\n"),
    (Refusal::NotADirectory, b"refused 4 NotADirectory\n"),
    (Refusal::IsADirectory, b"refused 5 IsADirectory\n"),
    (Refusal::Exists, b"refused 6 Exists\n"),
    (Refusal::RootFixed, b"refused 7 RootFixed\n"),
    (Refusal::Inside, b"refused 8 Inside\n"),
    (Refusal::NotEmpty, b"refused 9 NotEmpty\n"),
    (Refusal::TooBig, b"refused 10 TooBig\n"),
    (Refusal::NoNumbers, b"refused 11 NoNumbers\n"),
    (
        Refusal::NoSpace { free: 5, need: 17 },
        b"refused 12 NoSpace 5 17\n",
    ),
    (Refusal::DeviceFault, b"refused 13 DeviceFault\n"),
    (Refusal::Damaged(9), b"refused 14 Damaged 9\n"),
    (Refusal::OutOfMemory, b"refused 15 OutOfMemory\n"),
];

fn refusals_say(alloc: Global) -> Result<bool, Fail> {
    for row in REFUSALS {
        if !reply_says(alloc, Reply::Refused(row.0), row.1)? {
            return Ok(false);
        }
    }
    Ok(true)
}

#[test]
fn answers_have_their_text(rt: HostRuntime) -> Result<(), Fail> {
    let alloc = rt.alloc();
    let are = data_say(alloc)?
        && lines_say(alloc)?
        && lists_say(alloc)?
        && report_says(alloc)?
        && refusals_say(alloc)?;
    assert!(rt; are);
    Ok(())
}
