//! The ends over std, with readers and writers that fail.
use std::alloc::Global;
use std::io;
use std::io::{Read, Write};
use vol_numbers::FaultCount;
use wire_ends::{Sink, Source, SourceFault, StdSink, StdSource};

/// Takes as often as there are answers, into so much room. Whether these are the answers, and what was taken these bytes.
pub fn takes<R: Source>(
    source: &mut R,
    room: usize,
    answers: &[Result<usize, SourceFault>],
    bytes: &[u8],
) -> bool {
    let mut rest = bytes;
    for want in answers {
        let mut piece = [0; 8];
        let answer = source.take(&mut piece[..room.min(8)]);
        if answer != *want {
            return false;
        }
        let taken = piece.get(..answer.unwrap_or(0)).unwrap_or(b"");
        match rest.strip_prefix(taken) {
            Some(behind) => rest = behind,
            None => return false,
        }
    }
    rest.is_empty()
}

/// The count after so many faults.
fn so_many(faults: u32) -> FaultCount {
    let mut count = FaultCount::new();
    for _ in 0..faults {
        count.raise();
    }
    count
}

/// The kind of an error, if there is one.
fn kind_of(error: Option<io::Error>) -> Option<io::ErrorKind> {
    match error {
        Some(error) => Some(error.kind()),
        None => None,
    }
}

fn is_slice_taken() -> bool {
    let mut source = StdSource::new(b"abcde".as_slice());
    takes(&mut source, 3, &[Ok(3), Ok(2), Ok(0)], b"abcde")
        && source.faults() == so_many(0)
        && source.error().is_none()
}

/// Its second call fails.
#[derive(Drop)]
struct OnceBroken {
    calls: u32,
}

impl Read for OnceBroken {
    fn read(&mut self, buf: &mut [u8]) -> io::Result<usize> {
        self.calls = self.calls.saturating_add(1);
        if self.calls == 2 {
            return Err(io::ErrorKind::BrokenPipe.into());
        }
        match buf.first_mut() {
            Some(byte) => {
                *byte = b'x';
                Ok(1)
            }
            None => Ok(0),
        }
    }
}

fn is_failed_read_counted() -> bool {
    let mut source = StdSource::new(OnceBroken { calls: 0 });
    let answers = [Ok(1), Err(SourceFault), Ok(1)];
    takes(&mut source, 3, &answers, b"xx")
        && source.faults() == so_many(1)
        && kind_of(source.error()) == Some(io::ErrorKind::BrokenPipe)
}

#[test]
fn readers_are_taken_in_pieces(rt: HostRuntime) {
    assert!(rt; is_slice_taken() && is_failed_read_counted());
}

/// Takes at most so many bytes a call, fails where `room` would be passed, and counts its flushes, which fail where they are `stuck`.
#[derive(Drop)]
struct Narrow {
    got: Vec<u8>,
    most: usize,
    room: usize,
    flushes: u32,
    stuck: bool,
}

impl Write for Narrow {
    fn write(&mut self, buf: &[u8]) -> io::Result<usize> {
        let count = buf.len().min(self.most);
        if self.room < count {
            return Err(io::ErrorKind::BrokenPipe.into());
        }
        self.got.extend_from_slice(&buf[..count])?;
        self.room -= count;
        Ok(count)
    }

    fn flush(&mut self) -> io::Result<()> {
        self.flushes = self.flushes.saturating_add(1);
        if self.stuck {
            return Err(io::ErrorKind::StorageFull.into());
        }
        Ok(())
    }
}

fn vector_takes_all(alloc: Global) -> bool {
    let mut sink = StdSink::new(Vec::new(alloc));
    let done = sink.put(b"abc").is_ok() && sink.put(b"").is_ok() && sink.put(b"de").is_ok();
    done && sink.writer().as_slice() == b"abcde".as_slice()
        && sink.faults() == so_many(0)
        && sink.error().is_none()
}

/// How many bytes a call takes, room, whether a flush fails; what was written, how many flushes came, and the kind of the error.
const WRITERS: &[(usize, usize, bool, &[u8], u32, Option<io::ErrorKind>)] = &[
    (3, 100, false, b"abcdefgh", 1, None),
    (8, 8, false, b"abcdefgh", 1, None),
    (3, 7, false, b"abcdef", 0, Some(io::ErrorKind::BrokenPipe)),
    (0, 100, false, b"", 0, Some(io::ErrorKind::WriteZero)),
    (
        8,
        100,
        true,
        b"abcdefgh",
        1,
        Some(io::ErrorKind::StorageFull),
    ),
];

/// A sink over a writer that takes so many bytes a call, has so much room, and fails to flush where it is stuck.
fn made_narrow(alloc: Global, most: usize, room: usize, stuck: bool) -> StdSink<Narrow> {
    StdSink::new(Narrow {
        got: Vec::new(alloc),
        most,
        room,
        flushes: 0,
        stuck,
    })
}

/// Puts eight bytes. Whether so much was written, with so many flushes, and this error.
fn puts(
    sink: &mut StdSink<Narrow>,
    written: &[u8],
    flushes: u32,
    kind: Option<io::ErrorKind>,
) -> bool {
    let done = sink.put(b"abcdefgh").is_ok();
    done == kind.is_none()
        && sink.writer().got.as_slice() == written
        && sink.writer().flushes == flushes
        && sink.faults() == so_many(u32::from(!done))
        && kind_of(sink.error()) == kind
}

fn pieces_are_written(alloc: Global) -> bool {
    for row in WRITERS {
        let mut sink = made_narrow(alloc, row.0, row.1, row.2);
        if !puts(&mut sink, row.3, row.4, row.5) {
            return false;
        }
    }
    true
}

#[test]
fn writers_take_all_in_pieces(rt: HostRuntime) {
    assert!(rt; vector_takes_all(rt.alloc()) && pieces_are_written(rt.alloc()));
}
