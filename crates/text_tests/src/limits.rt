//! Sessions at their limits: the budget, the longest line, the most data, and a source that fails.
use crate::mem_ends::source_of;
use command_text::{CommandReader, Item, TextFault, print_command};
use reply_text::write_reply;
use std::alloc::Global;
use std::test::Fail;
use tree_model::{Answer, Refusal, Reply};
use vol_numbers::CallList;
use wire_ends::{MemSink, MemSource, Sink};

/// How a session stopped.
fn stop_of(read: &Result<Item, TextFault>) -> &'static [u8] {
    match read {
        Ok(_) => b"ended",
        Err(TextFault::Source) => b"source",
        Err(TextFault::BadStream) => b"bad stream",
        Err(TextFault::Budget) => b"budget",
        Err(TextFault::OutOfMemory) => b"memory",
    }
}

fn show_refusal(alloc: Global, sink: &mut MemSink, refusal: Refusal) -> Result<bool, Fail> {
    let answer = Answer {
        report: None,
        reply: Reply::Refused(refusal),
    };
    write_reply(alloc, sink, &answer)?;
    Ok(true)
}

/// Appends what was read, a command by its spelling and a refusal by its reply. Whether there was one.
fn show(alloc: Global, sink: &mut MemSink, read: &Result<Item, TextFault>) -> Result<bool, Fail> {
    match read {
        Ok(Item::Command(command)) => {
            print_command(alloc, sink, command)?;
            Ok(true)
        }
        Ok(Item::Refused(refusal)) => show_refusal(alloc, sink, *refusal),
        _ => {
            sink.put(stop_of(read))?;
            Ok(false)
        }
    }
}

/// Appends what comes next, or how the session stopped. Whether there was an item.
fn show_next(
    alloc: Global,
    reader: &mut CommandReader,
    source: &mut MemSource,
    sink: &mut MemSink,
) -> Result<bool, Fail> {
    let read = reader.read_command(source);
    let shown = show(alloc, sink, &read);
    drop(read);
    shown
}

/// Reads at most 20 items, and says twice how the session stopped.
fn show_all(
    alloc: Global,
    reader: &mut CommandReader,
    source: &mut MemSource,
    sink: &mut MemSink,
) -> Result<bool, Fail> {
    for _ in 0..20 {
        if !show_next(alloc, reader, source, sink)? {
            return show_next(alloc, reader, source, sink);
        }
    }
    Ok(true)
}

/// A text, how many bytes a call of the source gives, which calls fail, and the budget.
type Given<'a> = (&'a [u8], usize, &'a [u64], u64);

fn show_text(alloc: Global, given: Given, sink: &mut MemSink) -> Result<bool, Fail> {
    let (text, piece, fails, budget) = given;
    let mut source = source_of(alloc, text, piece, fails)?;
    let mut reader = CommandReader::new(alloc, budget)?;
    show_all(alloc, &mut reader, &mut source, sink)
}

/// Whether bytes are these parts in a row.
fn are_parts(bytes: &[u8], parts: &[&[u8]]) -> bool {
    let mut rest = bytes;
    for part in parts {
        match rest.strip_prefix(*part) {
            Some(behind) => rest = behind,
            None => return false,
        }
    }
    rest.is_empty()
}

/// Whether a session reads these items, and stops so at every later call.
pub fn is_session(alloc: Global, given: Given, items: &[u8], stop: &[u8]) -> Result<bool, Fail> {
    let mut sink = MemSink::new(alloc, 70_000, CallList::new(alloc))?;
    show_text(alloc, given, &mut sink)?;
    Ok(are_parts(sink.bytes(), &[items, stop, stop]))
}

/// What is read of `write /%41 1 2` and its data, which are 18 bytes, under a budget.
fn ends_by_budget(alloc: Global, budget: u64) -> Result<bool, Fail> {
    let spelling: &[u8] = b"write /A 1 2\nab\n";
    let (items, stop): (&[u8], &[u8]) = match budget {
        0..18 => (b"", b"budget"),
        18 => (spelling, b"budget"),
        _ => (spelling, b"ended"),
    };
    let text = b"write /%41 1 2\nab\n";
    is_session(alloc, (text, 5, &[], budget), items, stop)
}

fn budgets_end_sessions(alloc: Global) -> Result<bool, Fail> {
    for budget in 0..20 {
        if !ends_by_budget(alloc, budget)? {
            return Ok(false);
        }
    }
    Ok(true)
}

/// The front of a text, how many bytes `x` follow, its back; what is read, and how the session stops.
const LONG_TEXTS: &[(&[u8], usize, &[u8], &[u8], &[u8])] = &[
    (b"", 8_192, b"\n", b"refused 1 BadCommand\n", b"ended"),
    (b"", 8_193, b"\n", b"", b"bad stream"),
    (b"", 8_192, b"", b"", b"bad stream"),
    (b"", 8_193, b"", b"", b"bad stream"),
    (b"stat /", 251, b"\n", b"refused 2 BadName\n", b"ended"),
    (
        b"write a 0 65536\n",
        65_536,
        b"\n",
        b"refused 2 BadName\n",
        b"ended",
    ),
    (b"write a 0 65536\n", 65_535, b"\n", b"", b"bad stream"),
    (b"write a 0 65536\n", 65_537, b"\n", b"", b"bad stream"),
];

/// A text of these parts: a front, so many times a byte, and a back.
fn long_text(alloc: Global, front: &[u8], count: usize, back: &[u8]) -> Result<Vec<u8>, Fail> {
    let mut text = front.to_vec(alloc)?;
    text.resize(front.len().saturating_add(count), b'x')?;
    text.extend_from_slice(back)?;
    Ok(text)
}

fn are_limits(alloc: Global) -> Result<bool, Fail> {
    for row in LONG_TEXTS {
        let text = long_text(alloc, row.0, row.1, row.2)?;
        if !is_session(alloc, (&text, 4_096, &[], 1_000_000), row.3, row.4)? {
            return Ok(false);
        }
    }
    Ok(true)
}

fn is_longest_write(alloc: Global) -> Result<bool, Fail> {
    let text = long_text(alloc, b"write /a 0 65536\n", 65_536, b"\n")?;
    is_session(alloc, (&text, 1_000, &[], 1_000_000), &text, b"ended")
}

fn is_stopped_by_its_source(alloc: Global) -> Result<bool, Fail> {
    is_session(
        alloc,
        (b"space\nspace\n", 6, &[1], 100),
        b"space\n",
        b"source",
    )
}

#[test]
fn sessions_stop_at_their_limits(rt: HostRuntime) -> Result<(), Fail> {
    let alloc = rt.alloc();
    let stop = budgets_end_sessions(alloc)?
        && are_limits(alloc)?
        && is_longest_write(alloc)?
        && is_stopped_by_its_source(alloc)?;
    assert!(rt; stop);
    Ok(())
}
