//! The lines that are written.
ghost use Rattle.std.specs.Prelude.{codes};
ghost use Rattle.vol_numbers.specs.Cause.{HasCause};
ghost use Rattle.reply_text.specs.Putting.{PutsText, PutsAnswer, HasPutCause};
ghost use Rattle.reply_text.specs.Replies.{reply_text};
ghost use Rattle.command_server.specs.Texts.{usage_text, formatted_text, finding_text, bad_log_text, answered_text};

use arrayvec::ArrayString;
use itoa::Buffer;
use log_volume::{Answer, Finding};
use reply_text::{PutFault, write_reply};
use std::alloc::Global;
use tree_model::Reply;
use wire_ends::{Sink, SinkFault};

/// Says how the program is called.
pub(crate) fn put_usage<W: Sink>(sink: &mut W) -> Result<(), SinkFault>
    ensures text { PutsText (W.seen sink.old) (W.seen sink.new) usage_text result }
    ensures cause { HasCause (W.seen sink.old).faults (W.seen sink.new).faults result }
{
    sink.put(b"usage: idedup ACTION IMAGE [options]\n")
}

/// Says how many blocks are free after a format.
pub(crate) fn put_formatted<W: Sink>(sink: &mut W, free: u32) -> Result<(), SinkFault>
    ensures text { PutsText (W.seen sink.old) (W.seen sink.new) (formatted_text free) result }
    ensures cause { HasCause (W.seen sink.old).faults (W.seen sink.new).faults result }
{
    let mut line = ArrayString::<32>::new();
    let mut digits = Buffer::new();
    line.push_str("formatted free=");
    line.push_str(digits.format(free));
    line.push_str("\n");
    sink.put(line.as_str().as_bytes())
}

/// Says why an image stands for nothing.
pub(crate) fn put_finding<W: Sink>(sink: &mut W, finding: Finding) -> Result<(), SinkFault>
    ensures text { PutsText (W.seen sink.old) (W.seen sink.new) (finding_text finding) result }
    ensures cause { HasCause (W.seen sink.old).faults (W.seen sink.new).faults result }
{
    match finding {
        Finding::NoRoot => sink.put(b"bad NoRoot\n"),
        Finding::BadGeometry => sink.put(b"bad BadGeometry\n"),
        Finding::Unbuilt => sink.put(b"bad Unbuilt\n"),
        Finding::BadLog(index) => put_bad_log(sink, index),
    }
}

fn put_bad_log<W: Sink>(sink: &mut W, index: u32) -> Result<(), SinkFault>
    ensures text { PutsText (W.seen sink.old) (W.seen sink.new) (bad_log_text index) result }
    ensures cause { HasCause (W.seen sink.old).faults (W.seen sink.new).faults result }
{
    let mut line = ArrayString::<32>::new();
    let mut digits = Buffer::new();
    line.push_str("bad BadLog ");
    line.push_str(digits.format(index));
    line.push_str("\n");
    sink.put(line.as_str().as_bytes())
}

/// Puts an answer.
///
/// # Errors
///
/// The sink failed, and a part of the text was put; or memory was wanting for the names of a list, and nothing was.
pub(crate) fn put_answer<W: Sink>(
    alloc: Global,
    sink: &mut W,
    answer: Answer,
) -> Result<(), PutFault>
    ensures text { PutsAnswer (W.seen sink.old) (W.seen sink.new) (answered_text answer) result }
    ensures cause { HasPutCause (W.seen sink.old).faults (W.seen sink.new).faults result }
{
    match answer {
        Answer::Reply(reply) => put_reply(alloc, sink, reply),
        Answer::LogFull => put_log_full(sink),
    }
}

fn put_reply<W: Sink>(alloc: Global, sink: &mut W, reply: Reply) -> Result<(), PutFault>
    ensures text { PutsAnswer (W.seen sink.old) (W.seen sink.new) (reply_text reply) result }
    ensures cause { HasPutCause (W.seen sink.old).faults (W.seen sink.new).faults result }
{
    let answer = tree_model::Answer {
        report: None,
        reply,
    };
    write_reply(alloc, sink, &answer)
}

fn put_log_full<W: Sink>(sink: &mut W) -> Result<(), PutFault>
    ensures text { PutsAnswer (W.seen sink.old) (W.seen sink.new) (codes "refused 16 LogFull\n") result }
    ensures cause { HasPutCause (W.seen sink.old).faults (W.seen sink.new).faults result }
{
    match sink.put(b"refused 16 LogFull\n") {
        Ok(()) => Ok(()),
        Err(SinkFault) => Err(PutFault::Sink),
    }
}
