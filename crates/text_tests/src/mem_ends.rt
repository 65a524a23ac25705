//! The ends in memory, and the buffer in front of a sink.
use crate::std_ends::takes;
use std::alloc::Global;
use std::test::Fail;
use vol_numbers::{ByteList, CallList};
use wire_ends::{MemSink, MemSource, PutBuffer, Sink, SourceFault};

fn call_list(alloc: Global, calls: &[u64]) -> Result<CallList, Fail> {
    Ok(CallList::from_vec(calls.to_vec(alloc)?))
}

/// What a call of a source answers.
type Taken = Result<usize, SourceFault>;

const FAULT: Taken = Err(SourceFault);

/// Bytes, how many of them a call gives at most, the calls that fail, the room at each call, and the answers.
const SOURCES: &[(&[u8], usize, &[u64], usize, &[Taken])] = &[
    (b"abcde", 9, &[], 8, &[Ok(5), Ok(0), Ok(0)]),
    (b"abcde", 9, &[], 3, &[Ok(3), Ok(2), Ok(0)]),
    (b"abcd", 1, &[], 8, &[Ok(1), Ok(1), Ok(1), Ok(1), Ok(0)]),
    (
        b"abcde",
        2,
        &[1, 4],
        8,
        &[Ok(2), FAULT, Ok(2), Ok(1), FAULT, Ok(0)],
    ),
    (b"abc", 9, &[0], 8, &[FAULT, Ok(3)]),
    (b"", 1, &[1], 8, &[Ok(0), FAULT, Ok(0)]),
    (b"", 9, &[], 0, &[Ok(0)]),
];

/// A source of these bytes that gives at most so many a call, and fails at these calls.
pub fn source_of(
    alloc: Global,
    bytes: &[u8],
    piece: usize,
    fails: &[u64],
) -> Result<MemSource, Fail> {
    let fails = call_list(alloc, fails)?;
    let bytes = ByteList::from_vec(bytes.to_vec(alloc)?);
    Ok(MemSource::new(bytes, piece.max(1), fails))
}

fn are_taken(alloc: Global) -> Result<bool, Fail> {
    for row in SOURCES {
        let mut source = source_of(alloc, row.0, row.1, row.2)?;
        if !takes(&mut source, row.3, row.4, row.0) {
            return Ok(false);
        }
    }
    Ok(true)
}

/// What is put, one behind the other.
const PUTS: &[&[u8]] = &[b"abc", b"de", b"", b"f"];

/// The room, the calls that fail, which puts are done, and what is in memory at last.
const SINKS: &[(usize, &[u64], &[bool], &[u8])] = &[
    (6, &[], &[true, true, true, true], b"abcdef"),
    (5, &[], &[true, true, true, false], b"abcde"),
    (4, &[], &[true, false, true, true], b"abcf"),
    (0, &[], &[false, false, true, false], b""),
    (6, &[0, 2], &[false, true, false, true], b"def"),
    (6, &[3, 4], &[true, true, true, false], b"abcde"),
];

fn are_put(sink: &mut MemSink, done: &[bool]) -> bool {
    for (bytes, want) in PUTS.iter().zip(done.iter()) {
        if sink.put(bytes).is_ok() != *want {
            return false;
        }
    }
    true
}

fn have_exact_room(alloc: Global) -> Result<bool, Fail> {
    for row in SINKS {
        let fails = call_list(alloc, row.1)?;
        let mut sink = MemSink::new(alloc, row.0, fails)?;
        if !are_put(&mut sink, row.2) || sink.bytes() != row.3 {
            return Ok(false);
        }
    }
    Ok(true)
}

/// The pieces that go through a buffer of four bytes, the puts of the sink that fail; how many calls failed, and what the sink got.
const BUFFERED: &[(&[&[u8]], &[u64], usize, &[u8])] = &[
    (&[], &[0], 0, b""),
    (&[b""], &[0], 0, b""),
    (&[b"a", b"bc", b"d"], &[1], 0, b"abcd"),
    (&[b"a", b"bc", b"d"], &[0], 1, b""),
    (&[b"abcd"], &[1], 0, b"abcd"),
    (&[b"abc", b"de"], &[2], 0, b"abcde"),
    (&[b"abc", b"de"], &[0], 1, b""),
    (&[b"abc", b"de"], &[1], 1, b"abc"),
    (&[b"abc", b"de", b"f"], &[0], 1, b"f"),
    (&[b"abcde"], &[1], 0, b"abcde"),
    (&[b"abcde"], &[0], 1, b""),
    (&[b"abcde", b"f"], &[2], 0, b"abcdef"),
    (&[b"ab", b"cdefg"], &[2], 0, b"abcdefg"),
    (&[b"ab", b"cdefg"], &[1], 1, b"ab"),
    (&[b"ab", b"cdefg", b"h"], &[1], 1, b"abh"),
    (&[b"ab", b"cdefg"], &[0], 1, b""),
];

/// Puts pieces by way of a buffer of four bytes, and lets out what it holds at last. How many of these calls fail.
fn put_through(sink: &mut MemSink, pieces: &[&[u8]]) -> usize {
    let mut buffer = PutBuffer::<4>::new();
    let mut failed = 0usize;
    for piece in pieces {
        if buffer.put(sink, piece).is_err() {
            failed = failed.saturating_add(1);
        }
    }
    if buffer.flush(sink).is_err() {
        failed = failed.saturating_add(1);
    }
    failed
}

fn is_buffered(
    alloc: Global,
    pieces: &[&[u8]],
    fails: &[u64],
    failed: usize,
    got: &[u8],
) -> Result<bool, Fail> {
    let fails = call_list(alloc, fails)?;
    let mut sink = MemSink::new(alloc, 100, fails)?;
    let count = put_through(&mut sink, pieces);
    Ok(count == failed && sink.bytes() == got)
}

fn are_buffered(alloc: Global) -> Result<bool, Fail> {
    for row in BUFFERED {
        if !is_buffered(alloc, row.0, row.1, row.2, row.3)? {
            return Ok(false);
        }
    }
    Ok(true)
}

#[test]
fn memory_gives_and_takes_by_its_plan(rt: HostRuntime) -> Result<(), Fail> {
    let alloc = rt.alloc();
    let does = are_taken(alloc)? && have_exact_room(alloc)? && are_buffered(alloc)?;
    assert!(rt; does);
    Ok(())
}
