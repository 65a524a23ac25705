//! In how many writes an answer goes out.
use crate::answers::{laid_out, listed, reported};
use reply_text::write_reply;
use std::alloc::Global;
use std::io;
use std::io::Write;
use std::test::Fail;
use tree_model::{Answer, Entry, EntryList, Kind, Piece, PieceList, Refusal, Reply};
use vol_numbers::{ByteList, Name};
use wire_ends::StdSink;

/// Takes all of each write, and counts them and their bytes, and those of fewer than 65,536 bytes.
#[derive(Drop)]
struct Counts {
    writes: usize,
    bytes: usize,
    short: usize,
}

impl Write for Counts {
    fn write(&mut self, buf: &[u8]) -> io::Result<usize> {
        self.writes = self.writes.saturating_add(1);
        self.bytes = self.bytes.saturating_add(buf.len());
        if buf.len() < 65_536 {
            self.short = self.short.saturating_add(1);
        }
        Ok(buf.len())
    }

    fn flush(&mut self) -> io::Result<()> {
        Ok(())
    }
}

/// How many writes an answer is, how many bytes they have, and how many of them have fewer than 65,536.
fn writes_of(alloc: Global, answer: &Answer) -> Result<(usize, usize, usize), Fail> {
    let mut sink = StdSink::new(Counts {
        writes: 0,
        bytes: 0,
        short: 0,
    });
    write_reply(alloc, &mut sink, answer)?;
    let counts = sink.writer();
    Ok((counts.writes, counts.bytes, counts.short))
}

/// Whether an answer is one write of so many bytes.
fn is_one_write(alloc: Global, answer: &Answer, count: usize) -> Result<bool, Fail> {
    let (writes, bytes, _) = writes_of(alloc, answer)?;
    Ok(writes == 1 && bytes == count)
}

/// Whether a reply is one write of so many bytes.
fn is_one(alloc: Global, reply: Reply, count: usize) -> Result<bool, Fail> {
    let answer = Answer {
        report: None,
        reply,
    };
    is_one_write(alloc, &answer, count)
}

/// How many bytes are read, and how many their answer has.
const DATA: &[(usize, usize)] = &[
    (0, 8),
    (1, 9),
    (5, 13),
    (160, 170),
    (161, 171),
    (4_095, 4_106),
    (4_096, 4_107),
    (4_097, 4_108),
    (65_536, 65_548),
];

fn data_are_one(alloc: Global) -> Result<bool, Fail> {
    for row in DATA {
        let data = ByteList::from_vec(vec![in alloc; b'x'; row.0]?);
        if !is_one(alloc, Reply::Data(data), row.1)? {
            return Ok(false);
        }
    }
    Ok(true)
}

/// So many entries with names of 200 bytes.
fn long_list(alloc: Global, count: usize) -> Result<Reply, Fail> {
    let name = Name::new(&[b'n'; 200])?;
    let entry = Entry {
        kind: Kind::File,
        number: 9,
        name,
    };
    let entries = vec![in alloc; entry; count]?;
    Ok(Reply::Entries(EntryList::from_vec(entries)))
}

/// So many pieces with lines of 10 bytes.
fn long_layout(alloc: Global, count: usize) -> Result<Reply, Fail> {
    let piece = Piece::Dirty {
        place: 5,
        length: 7,
    };
    let pieces = vec![in alloc; piece; count]?;
    Ok(Reply::Layout(PieceList::from_vec(pieces)))
}

fn short_are_one(alloc: Global) -> Result<bool, Fail> {
    Ok(
        is_one(alloc, Reply::Done, 3)?
            && is_one(alloc, Reply::Refused(Refusal::BadName), 18)?
            && is_one(alloc, listed(alloc)?, 32)?
            && is_one(alloc, laid_out(alloc)?, 31)?,
    )
}

fn long_are_one(alloc: Global) -> Result<bool, Fail> {
    Ok(
        is_one(alloc, long_list(alloc, 1_000)?, 205_010)?
            && is_one(alloc, long_layout(alloc, 7_000)?, 70_012)?,
    )
}

fn report_is_one(alloc: Global) -> Result<bool, Fail> {
    let answer = reported(alloc)?;
    is_one_write(alloc, &answer, 87)
}

#[test]
fn answers_are_one_write(rt: HostRuntime) -> Result<(), Fail> {
    let alloc = rt.alloc();
    let are = short_are_one(alloc)?
        && report_is_one(alloc)?
        && data_are_one(alloc)?
        && long_are_one(alloc)?;
    assert!(rt; are);
    Ok(())
}

/// The writes of a layout of so many pieces.
fn writes_of_layout(alloc: Global, pieces: usize) -> Result<(usize, usize, usize), Fail> {
    let answer = Answer {
        report: None,
        reply: long_layout(alloc, pieces)?,
    };
    writes_of(alloc, &answer)
}

#[test]
fn long_layouts_are_long_writes(rt: HostRuntime) -> Result<(), Fail> {
    let (writes, bytes, short) = writes_of_layout(rt.alloc(), 20_000)?;
    assert!(rt; writes == 3 && bytes == 200_013 && short == 1);
    Ok(())
}
