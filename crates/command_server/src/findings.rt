//! The lines that a check writes.
ghost use Rattle.std.specs.Prelude.{◌≡◌, ◌+◌, ◌≤◌, ◌<◌, ◌++◌, length, codes, decimal};
ghost use Rattle.vol_numbers.specs.Cause.{HasCause};
ghost use Rattle.arrayvec.specs.ArrayString.{array_string_len};
ghost use Rattle.reply_text.specs.Putting.{PutsText};
ghost use Rattle.command_server.specs.Findings.{good_text, bad_text, numbered_text, wrong_count_text};

use arrayvec::ArrayString;
use fs_check::Summary;
use image_model::Finding;
use itoa::Buffer;
use wire_ends::{Sink, SinkFault};

/// Says how much there is in a good image.
pub(crate) fn put_good<W: Sink>(sink: &mut W, sum: Summary) -> Result<(), SinkFault>
    ensures text { PutsText (W.seen sink.old) (W.seen sink.new) (good_text sum) result }
    ensures cause { HasCause (W.seen sink.old).faults (W.seen sink.new).faults result }
{
    let mut line = ArrayString::<64>::new();
    push_number(&mut line, "good nodes=", sum.nodes);
    push_number(&mut line, " records=", sum.records);
    push_number(&mut line, " free=", sum.free);
    put_line(sink, line)
}

/// Says what is wrong with an image.
pub(crate) fn put_bad<W: Sink>(sink: &mut W, finding: Finding) -> Result<(), SinkFault>
    ensures text { PutsText (W.seen sink.old) (W.seen sink.new) (bad_text finding) result }
    ensures cause { HasCause (W.seen sink.old).faults (W.seen sink.new).faults result }
{
    put_line(sink, bad_line(finding))
}

/// The line of a finding, without its newline.
fn bad_line(finding: Finding) -> ArrayString<64>
    ensures text { result.bytes ++ codes "\n" ≡ bad_text finding }
    ensures room { array_string_len result < 64 }
{
    match finding {
        Finding::NoRoot => plain_line("bad NoRoot"),
        Finding::BadGeometry => plain_line("bad BadGeometry"),
        Finding::BadPointer(block) => numbered_line("bad BadPointer ", block),
        Finding::BadInode(number) => numbered_line("bad BadInode ", number),
        Finding::MixedBlock(block) => numbered_line("bad MixedBlock ", block),
        Finding::BadTail(number) => numbered_line("bad BadTail ", number),
        Finding::BadDirectory(number) => numbered_line("bad BadDirectory ", number),
        Finding::NotATree(number) => numbered_line("bad NotATree ", number),
        Finding::WrongCount {
            block,
            kept,
            counted,
        } => wrong_count_line(block, kept, counted),
        Finding::NoReserve(free) => numbered_line("bad NoReserve ", free),
        Finding::BadLog(index) => numbered_line("bad BadLog ", index),
    }
}

/// A line without a number.
fn plain_line(text: &str) -> ArrayString<64>
    requires { length text.now ≤ 32 }
    ensures text { result.bytes ≡ text.now }
    ensures room { array_string_len result < 64 }
{
    let mut line = ArrayString::<64>::new();
    line.push_str(text);
    line
}

/// A line that begins so and ends with a number.
fn numbered_line(begin: &str, number: u32) -> ArrayString<64>
    requires { length begin.now ≤ 32 }
    ensures text { result.bytes ++ codes "\n" ≡ numbered_text begin.now number }
    ensures room { array_string_len result < 64 }
{
    let mut line = ArrayString::<64>::new();
    push_number(&mut line, begin, number);
    line
}

/// Which count is wrong, what is kept of it, and how many pointers there are.
fn wrong_count_line(block: u32, kept: u32, counted: u32) -> ArrayString<64>
    ensures text { result.bytes ++ codes "\n" ≡ wrong_count_text block kept counted }
    ensures room { array_string_len result < 64 }
{
    let mut line = ArrayString::<64>::new();
    push_number(&mut line, "bad WrongCount ", block);
    push_number(&mut line, " ", kept);
    push_number(&mut line, " ", counted);
    line
}

/// Adds a text, and a number behind it.
fn push_number(line: &mut ArrayString<64>, name: &str, number: u32)
    requires { array_string_len line.old + length name.now + 10 ≤ 64 }
    ensures bytes { line.new.bytes ≡ line.old.bytes ++ name.now ++ decimal number }
    ensures len { array_string_len line.new ≤ array_string_len line.old + length name.now + 10 }
{
    let mut digits = Buffer::new();
    line.push_str(name);
    line.push_str(digits.format(number));
}

/// Puts a line, with its newline.
fn put_line<W: Sink>(sink: &mut W, line: ArrayString<64>) -> Result<(), SinkFault>
    requires { array_string_len line < 64 }
    ensures text { PutsText (W.seen sink.old) (W.seen sink.new) (line.bytes ++ codes "\n") result }
    ensures cause { HasCause (W.seen sink.old).faults (W.seen sink.new).faults result }
{
    let mut line = line;
    line.push_str("\n");
    sink.put(line.as_str().as_bytes())
}
