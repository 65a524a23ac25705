//! Answers become one text.
ghost use Rattle.std.specs.Prelude.{◌≡◌, ◌++◌, [], length, codes, IfOk, IsErr, IsErrOf};
ghost use Rattle.std.specs.List.{flat_map};
ghost use Rattle.vol_numbers.specs.Cause.{HasCause};
ghost use Rattle.wire_ends.specs.Buffer.{PutsThrough};
ghost use Rattle.reply_text.specs.Putting.{PutsText, PutsAnswer, HasPutCause};
ghost use Rattle.reply_text.specs.Replies.{piece_text, line_text, counted_text, report_text, reply_text, refusal_text, answer_text, IsListText, HasEntries};
ghost use Rattle.std.specs.String.{string_bytes};
ghost use Rattle.reply_text.specs.declared.fault.PutFault.TheVariants.{OutOfMemory};
ghost use Rattle.tree_model.specs.declared.reply.Reply.TheVariants.{Space, Stat};

use crate::PutFault;
use crate::entries::entries_text;
use crate::reply::{
    change_line, count_line, piece_line, point_line, refusal_line, space_line, stat_line,
};
use crate::text_line::{LINE_ROOM, TextLine};
use std::alloc::{AllocError, Global};
use tree_model::{Answer, Kind, Line, MOST_BYTES, Piece, Refusal, Reply, Report};
use wire_ends::{PutBuffer, Sink, SinkFault};

/// Room for a line, and for the bytes of a block.
const BLOCK_ROOM: usize = LINE_ROOM + 4_096;

/// Room for a line or two.
const SHORT_ROOM: usize = 2 * LINE_ROOM;

/// Room for the longest line of a session, 8,192 bytes, and for as many bytes as a read or a write has at most.
const TEXT_ROOM: usize = 8_192 + MOST_BYTES;

fn put_line<W: Sink, const ROOM: usize>(
    buffer: &mut PutBuffer<ROOM>,
    sink: &mut W,
    line: &TextLine,
) -> Result<(), SinkFault>
    ensures text { PutsThrough (W.seen sink.old) (W.seen sink.new) buffer.old buffer.new line.now result }
    ensures cause { HasCause (W.seen sink.old).faults (W.seen sink.new).faults result }
{
    buffer.put(sink, line.as_bytes())
}

fn put_pieces<W: Sink, const ROOM: usize>(
    buffer: &mut PutBuffer<ROOM>,
    sink: &mut W,
    pieces: &[Piece],
) -> Result<(), SinkFault>
    ensures text { PutsThrough (W.seen sink.old) (W.seen sink.new) buffer.old buffer.new (flat_map piece_text pieces.now) result }
    ensures cause { HasCause (W.seen sink.old).faults (W.seen sink.new).faults result }
{
    for piece in pieces {
        if let Err(SinkFault) = put_line(buffer, sink, &piece_line(piece)) {
            return Err(SinkFault);
        }
    }
    Ok(())
}

fn put_lines<W: Sink, const ROOM: usize>(
    buffer: &mut PutBuffer<ROOM>,
    sink: &mut W,
    lines: &[Line],
) -> Result<(), SinkFault>
    ensures text { PutsThrough (W.seen sink.old) (W.seen sink.new) buffer.old buffer.new (flat_map line_text lines.now) result }
    ensures cause { HasCause (W.seen sink.old).faults (W.seen sink.new).faults result }
{
    for line in lines {
        if let Err(SinkFault) = put_line(buffer, sink, &change_line(line)) {
            return Err(SinkFault);
        }
    }
    Ok(())
}

fn put_report<W: Sink, const ROOM: usize>(
    buffer: &mut PutBuffer<ROOM>,
    sink: &mut W,
    report: &Option<Report>,
) -> Result<(), SinkFault>
    ensures text { PutsThrough (W.seen sink.old) (W.seen sink.new) buffer.old buffer.new (report_text report.now) result }
    ensures cause { HasCause (W.seen sink.old).faults (W.seen sink.new).faults result }
{
    let Some(report) = report else {
        return Ok(());
    };
    match put_line(buffer, sink, &point_line(report)) {
        Ok(()) => put_lines(buffer, sink, report.lines.as_slice()),
        Err(SinkFault) => Err(SinkFault),
    }
}

fn put_layout<W: Sink, const ROOM: usize>(
    buffer: &mut PutBuffer<ROOM>,
    sink: &mut W,
    pieces: &[Piece],
) -> Result<(), SinkFault>
    ensures text { PutsThrough (W.seen sink.old) (W.seen sink.new) buffer.old buffer.new (counted_text (codes "layout ") (length pieces.now) ++ flat_map piece_text pieces.now) result }
    ensures cause { HasCause (W.seen sink.old).faults (W.seen sink.new).faults result }
{
    match put_line(buffer, sink, &count_line("layout ", pieces.len())) {
        Ok(()) => put_pieces(buffer, sink, pieces),
        Err(SinkFault) => Err(SinkFault),
    }
}

fn put_data<W: Sink, const ROOM: usize>(
    buffer: &mut PutBuffer<ROOM>,
    sink: &mut W,
    bytes: &[u8],
) -> Result<(), SinkFault>
    ensures text { PutsThrough (W.seen sink.old) (W.seen sink.new) buffer.old buffer.new (counted_text (codes "data ") (length bytes.now) ++ (bytes.now ++ codes "\n")) result }
    ensures cause { HasCause (W.seen sink.old).faults (W.seen sink.new).faults result }
{
    put_with_data(
        buffer,
        sink,
        count_line("data ", bytes.len()).as_bytes(),
        bytes,
    )
}

/// Puts a line by way of a buffer, and behind it bytes and a newline.
fn put_with_data<W: Sink, const ROOM: usize>(
    buffer: &mut PutBuffer<ROOM>,
    sink: &mut W,
    line: &[u8],
    bytes: &[u8],
) -> Result<(), SinkFault>
    ensures text { PutsThrough (W.seen sink.old) (W.seen sink.new) buffer.old buffer.new (line.now ++ (bytes.now ++ codes "\n")) result }
    ensures cause { HasCause (W.seen sink.old).faults (W.seen sink.new).faults result }
{
    match buffer.put(sink, line) {
        Ok(()) => put_ended(buffer, sink, bytes),
        Err(SinkFault) => Err(SinkFault),
    }
}

/// Puts bytes and a newline.
fn put_ended<W: Sink, const ROOM: usize>(
    buffer: &mut PutBuffer<ROOM>,
    sink: &mut W,
    bytes: &[u8],
) -> Result<(), SinkFault>
    ensures text { PutsThrough (W.seen sink.old) (W.seen sink.new) buffer.old buffer.new (bytes.now ++ codes "\n") result }
    ensures cause { HasCause (W.seen sink.old).faults (W.seen sink.new).faults result }
{
    match buffer.put(sink, bytes) {
        Ok(()) => buffer.put(sink, b"\n"),
        Err(SinkFault) => Err(SinkFault),
    }
}

fn put_refusal<W: Sink, const ROOM: usize>(
    buffer: &mut PutBuffer<ROOM>,
    sink: &mut W,
    refusal: Refusal,
) -> Result<(), SinkFault>
    ensures text { PutsThrough (W.seen sink.old) (W.seen sink.new) buffer.old buffer.new (refusal_text refusal) result }
    ensures cause { HasCause (W.seen sink.old).faults (W.seen sink.new).faults result }
{
    put_line(buffer, sink, &refusal_line(refusal))
}

fn put_space<W: Sink, const ROOM: usize>(
    buffer: &mut PutBuffer<ROOM>,
    sink: &mut W,
    free: u32,
    pending: u32,
    log: u32,
) -> Result<(), SinkFault>
    ensures text { PutsThrough (W.seen sink.old) (W.seen sink.new) buffer.old buffer.new (reply_text (Space free pending log)) result }
    ensures cause { HasCause (W.seen sink.old).faults (W.seen sink.new).faults result }
{
    put_line(buffer, sink, &space_line(free, pending, log))
}

fn put_stat<W: Sink, const ROOM: usize>(
    buffer: &mut PutBuffer<ROOM>,
    sink: &mut W,
    kind: Kind,
    number: u32,
    size: u64,
) -> Result<(), SinkFault>
    ensures text { PutsThrough (W.seen sink.old) (W.seen sink.new) buffer.old buffer.new (reply_text (Stat kind number size)) result }
    ensures cause { HasCause (W.seen sink.old).faults (W.seen sink.new).faults result }
{
    put_line(buffer, sink, &stat_line(kind, number, size))
}

/// Puts a reply. The text of a list is given.
fn put_reply<W: Sink, const ROOM: usize>(
    buffer: &mut PutBuffer<ROOM>,
    sink: &mut W,
    reply: &Reply,
    list: &str,
) -> Result<(), SinkFault>
    requires { IsListText reply.now list.now }
    ensures text { PutsThrough (W.seen sink.old) (W.seen sink.new) buffer.old buffer.new (reply_text reply.now) result }
    ensures cause { HasCause (W.seen sink.old).faults (W.seen sink.new).faults result }
{
    match reply {
        Reply::Done => buffer.put(sink, b"ok\n"),
        Reply::Data(bytes) => put_data(buffer, sink, bytes.as_slice()),
        Reply::Entries(_) => buffer.put(sink, list.as_bytes()),
        Reply::Stat { kind, number, size } => put_stat(buffer, sink, *kind, *number, *size),
        Reply::Layout(pieces) => put_layout(buffer, sink, pieces.as_slice()),
        Reply::Space { free, pending, log } => put_space(buffer, sink, *free, *pending, *log),
        Reply::Refused(refusal) => put_refusal(buffer, sink, *refusal),
    }
}

/// Puts an answer by way of a buffer. The text of a list is given.
fn put_parts<W: Sink, const ROOM: usize>(
    buffer: &mut PutBuffer<ROOM>,
    sink: &mut W,
    answer: &Answer,
    list: &str,
) -> Result<(), SinkFault>
    requires { IsListText answer.now.reply list.now }
    ensures text { PutsThrough (W.seen sink.old) (W.seen sink.new) buffer.old buffer.new (answer_text answer.now) result }
    ensures cause { HasCause (W.seen sink.old).faults (W.seen sink.new).faults result }
{
    match put_report(buffer, sink, &answer.report) {
        Ok(()) => put_reply(buffer, sink, &answer.reply, list),
        Err(SinkFault) => Err(SinkFault),
    }
}

/// Puts an answer by way of an empty buffer, so that an answer that has room there is one put.
fn put_answer<W: Sink, const ROOM: usize>(
    buffer: &mut PutBuffer<ROOM>,
    sink: &mut W,
    answer: &Answer,
    list: &str,
) -> Result<(), SinkFault>
    requires empty { buffer.old ≡ [] }
    requires list { IsListText answer.now.reply list.now }
    ensures text { PutsText (W.seen sink.old) (W.seen sink.new) (answer_text answer.now) result }
    ensures cause { HasCause (W.seen sink.old).faults (W.seen sink.new).faults result }
{
    match put_parts(buffer, sink, answer, list) {
        Ok(()) => buffer.flush(sink),
        Err(SinkFault) => Err(SinkFault),
    }
}

/// Puts an answer of a few bytes, or the text of a list.
fn put_short<W: Sink>(sink: &mut W, answer: &Answer, list: &str) -> Result<(), SinkFault>
    requires { IsListText answer.now.reply list.now }
    ensures text { PutsText (W.seen sink.old) (W.seen sink.new) (answer_text answer.now) result }
    ensures cause { HasCause (W.seen sink.old).faults (W.seen sink.new).faults result }
{
    let mut buffer = PutBuffer::<SHORT_ROOM>::new();
    put_answer(&mut buffer, sink, answer, list)
}

/// Puts an answer that has no more bytes than a line and a block.
fn put_middling<W: Sink>(sink: &mut W, answer: &Answer, list: &str) -> Result<(), SinkFault>
    requires { IsListText answer.now.reply list.now }
    ensures text { PutsText (W.seen sink.old) (W.seen sink.new) (answer_text answer.now) result }
    ensures cause { HasCause (W.seen sink.old).faults (W.seen sink.new).faults result }
{
    let mut buffer = PutBuffer::<BLOCK_ROOM>::new();
    put_answer(&mut buffer, sink, answer, list)
}

/// Puts an answer of any length.
fn put_long<W: Sink>(sink: &mut W, answer: &Answer, list: &str) -> Result<(), SinkFault>
    requires { IsListText answer.now.reply list.now }
    ensures text { PutsText (W.seen sink.old) (W.seen sink.new) (answer_text answer.now) result }
    ensures cause { HasCause (W.seen sink.old).faults (W.seen sink.new).faults result }
{
    let mut buffer = PutBuffer::<TEXT_ROOM>::new();
    put_answer(&mut buffer, sink, answer, list)
}

/// Puts an answer by way of the smallest buffer that has room for it, or of the largest. A list by itself needs none: it is put as it is.
fn put_sized<W: Sink>(sink: &mut W, answer: &Answer, list: &str) -> Result<(), SinkFault>
    requires { IsListText answer.now.reply list.now }
    ensures text { PutsText (W.seen sink.old) (W.seen sink.new) (answer_text answer.now) result }
    ensures cause { HasCause (W.seen sink.old).faults (W.seen sink.new).faults result }
{
    let most = most_bytes(answer, list);
    if most <= SHORT_ROOM {
        put_short(sink, answer, list)
    } else if most <= BLOCK_ROOM {
        put_middling(sink, answer, list)
    } else {
        put_long(sink, answer, list)
    }
}

/// At most how many bytes an answer has. The text of a list counts only behind a report.
fn most_bytes(answer: &Answer, list: &str) -> usize {
    let (lines, list) = match &answer.report {
        Some(report) => (report.lines.as_slice().len().saturating_add(2), list.len()),
        None => (1, 0),
    };
    let rest = match &answer.reply {
        Reply::Data(bytes) => bytes.as_slice().len(),
        Reply::Layout(pieces) => pieces.as_slice().len().saturating_mul(LINE_ROOM),
        _ => list,
    };
    lines.saturating_mul(LINE_ROOM).saturating_add(rest)
}

/// Appends a line, and behind it bytes and a newline, in one put where they have at most 73,728 bytes. After a fault of the sink a prefix of
/// them was appended.
pub fn put_written<W: Sink>(sink: &mut W, line: &str, bytes: &[u8]) -> Result<(), SinkFault>
    ensures text { PutsText (W.seen sink.old) (W.seen sink.new) (line.now ++ (bytes.now ++ codes "\n")) result }
    ensures cause { HasCause (W.seen sink.old).faults (W.seen sink.new).faults result }
{
    let mut buffer = PutBuffer::<TEXT_ROOM>::new();
    match put_with_data(&mut buffer, sink, line.as_bytes(), bytes) {
        Ok(()) => buffer.flush(sink),
        Err(SinkFault) => Err(SinkFault),
    }
}

/// The text of the list in a reply, which is empty where it has none.
fn list_text(alloc: Global, reply: &Reply) -> Result<String, AllocError>
    ensures text { IfOk result (λ text. IsListText reply.now (string_bytes text)) }
    ensures only_lists { IsErr result → HasEntries reply.now }
{
    match reply {
        Reply::Entries(entries) => entries_text(alloc, entries.as_slice()),
        _ => Ok(String::new(alloc)),
    }
}

/// Appends the text of an answer to the sink, in one put where it has at most 73,728 bytes or is a list without a report.
///
/// # Errors
///
/// - `Sink`: a call of the sink failed. A prefix of the text was appended.
/// - `OutOfMemory`: memory was wanting for the names of a list. Nothing was appended.
pub fn write_reply<W: Sink>(alloc: Global, sink: &mut W, answer: &Answer) -> Result<(), PutFault>
    ensures text { PutsAnswer (W.seen sink.old) (W.seen sink.new) (answer_text answer.now) result }
    ensures memory { IsErrOf result OutOfMemory → HasEntries answer.now.reply }
    ensures cause { HasPutCause (W.seen sink.old).faults (W.seen sink.new).faults result }
{
    let Ok(list) = list_text(alloc, &answer.reply) else {
        return Err(PutFault::OutOfMemory);
    };
    match put_sized(sink, answer, list.as_str()) {
        Ok(()) => Ok(()),
        Err(SinkFault) => Err(PutFault::Sink),
    }
}
