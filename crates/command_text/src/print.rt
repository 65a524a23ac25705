//! The one spelling of a command.
ghost use Rattle.std.specs.Prelude.{◌≡◌, ◌≤◌, ◌++◌, codes, length, IfOk, OnOk, All};
ghost use Rattle.std.specs.String.{string_bytes};
ghost use Rattle.reply_text.specs.Putting.{PutsText, PutsAnswer, HasPutCause};
ghost use Rattle.command_text.specs.ReadBack.{IsCommandPath, IsCommand, ReadsBack};
ghost use Rattle.reply_text.specs.Telling.{IsByte};
ghost use Rattle.vol_numbers.specs.Name.{IsName};
ghost use Rattle.command_text.specs.Spelling.{name_spelling, path_spelling, spelling, number_spelling, line_spelling, data_spelling};
ghost use Rattle.vol_numbers.specs.Cause.{HasCause};

use itoa::Buffer;
use reply_text::{PutFault, push_escaped, put_written};
use std::alloc::{AllocError, Global};
use tree_model::{Command, Path, Payload, ReadLength};
use vol_numbers::Name;
use wire_ends::{Sink, SinkFault};

/// Appends a name with a slash before it.
fn push_name(text: &mut String, name: &Name) -> Result<(), AllocError>
    ensures text { OnOk result (string_bytes text.new ≡ string_bytes text.old ++ name_spelling name.now) }
    ensures name { OnOk result (IsName name.now) }
    ensures bytes { OnOk result (All IsByte name.now) }
{
    text.push_str("/")?;
    push_escaped(text, name.as_bytes())
}

fn push_path(text: &mut String, path: &Path) -> Result<(), AllocError>
    ensures text { OnOk result (string_bytes text.new ≡ string_bytes text.old ++ path_spelling path.now) }
    ensures path { OnOk result (IsCommandPath path.now) }
{
    let names = path.names();
    if names.is_empty() {
        return text.push_str("/");
    }
    for name in names {
        push_name(text, name)?;
    }
    Ok(())
}

fn push_number(text: &mut String, number: u64) -> Result<(), AllocError>
    ensures { OnOk result (string_bytes text.new ≡ string_bytes text.old ++ number_spelling number) }
{
    let mut digits = Buffer::new();
    text.push_str(" ")?;
    text.push_str(digits.format(number))
}

fn push_on_path(text: &mut String, verb: &str, path: &Path) -> Result<(), AllocError>
    ensures path { OnOk result (IsCommandPath path.now) }
    ensures text { OnOk result (string_bytes text.new ≡ string_bytes text.old ++ (verb.now ++ path_spelling path.now)) }
{
    text.push_str(verb)?;
    push_path(text, path)
}

fn push_sized(text: &mut String, verb: &str, path: &Path, size: u64) -> Result<(), AllocError>
    ensures path { OnOk result (IsCommandPath path.now) }
    ensures text { OnOk result (string_bytes text.new ≡ string_bytes text.old ++ (verb.now ++ path_spelling path.now ++ number_spelling size)) }
{
    push_on_path(text, verb, path)?;
    push_number(text, size)
}

/// Appends a verb, a path, and a part of its file: so many bytes from an offset on.
fn push_part(
    text: &mut String,
    verb: &str,
    path: &Path,
    offset: u64,
    count: u64,
) -> Result<(), AllocError>
    ensures path { OnOk result (IsCommandPath path.now) }
    ensures text { OnOk result (string_bytes text.new ≡ string_bytes text.old ++ (verb.now ++ path_spelling path.now ++ number_spelling offset ++ number_spelling count)) }
{
    push_sized(text, verb, path, offset)?;
    push_number(text, count)
}

fn push_read(
    text: &mut String,
    path: &Path,
    offset: u64,
    count: ReadLength,
) -> Result<(), AllocError>
    ensures path { OnOk result (IsCommandPath path.now) }
    ensures text { OnOk result (string_bytes text.new ≡ string_bytes text.old ++ (codes "read " ++ path_spelling path.now ++ number_spelling offset ++ number_spelling count)) }
    ensures at_most { count ≤ 65536 }
{
    push_part(text, "read ", path, offset, count.get() as u64)
}

/// Appends a write of so many bytes, without them.
fn push_write(
    text: &mut String,
    path: &Path,
    offset: u64,
    bytes: &Payload,
) -> Result<(), AllocError>
    ensures path { OnOk result (IsCommandPath path.now) }
    ensures text { OnOk result (string_bytes text.new ≡ string_bytes text.old ++ (codes "write " ++ path_spelling path.now ++ number_spelling offset ++ number_spelling (length bytes.now))) }
    ensures at_most { length bytes.now ≤ 65536 }
{
    let count = bytes.as_slice().len();
    push_part(text, "write ", path, offset, count as u64)
}

fn push_both(text: &mut String, from: &Path, to: &Path) -> Result<(), AllocError>
    ensures from { OnOk result (IsCommandPath from.now) }
    ensures to { OnOk result (IsCommandPath to.now) }
    ensures text { OnOk result (string_bytes text.new ≡ string_bytes text.old ++ (codes "rename " ++ path_spelling from.now ++ codes " " ++ path_spelling to.now)) }
{
    push_on_path(text, "rename ", from)?;
    push_on_path(text, " ", to)
}

/// Appends the line of a command without its newline.
fn push_line(text: &mut String, command: &Command) -> Result<(), AllocError>
    ensures command { OnOk result (IsCommand command.now) }
    ensures text { OnOk result (string_bytes text.new ≡ string_bytes text.old ++ line_spelling command.now) }
{
    match command {
        Command::Mkdir { path } => push_on_path(text, "mkdir ", path),
        Command::Create { path } => push_on_path(text, "create ", path),
        Command::Write {
            path,
            offset,
            bytes,
        } => push_write(text, path, *offset, bytes),
        Command::Truncate { path, size } => push_sized(text, "truncate ", path, *size),
        Command::Remove { path } => push_on_path(text, "remove ", path),
        Command::Rename { from, to } => push_both(text, from, to),
        Command::Read {
            path,
            offset,
            length,
        } => push_read(text, path, *offset, *length),
        Command::List { path } => push_on_path(text, "list ", path),
        Command::Stat { path } => push_on_path(text, "stat ", path),
        Command::Layout { path } => push_on_path(text, "layout ", path),
        Command::Space => text.push_str("space"),
        Command::Checkpoint => text.push_str("checkpoint"),
        Command::End => text.push_str("end"),
    }
}

/// The line of a command with its newline.
fn line_of(alloc: Global, command: &Command) -> Result<String, AllocError>
    ensures command { IfOk result (λ line. IsCommand command.now) }
    ensures text { IfOk result (λ line. string_bytes line ≡ line_spelling command.now ++ codes "\n") }
{
    let mut line = String::new(alloc);
    push_line(&mut line, command)?;
    line.push_str("\n")?;
    Ok(line)
}

/// Puts the line of a command, which is given, and what follows it.
fn put_spelling<W: Sink>(sink: &mut W, line: &str, command: &Command) -> Result<(), SinkFault>
    requires { line.now ≡ line_spelling command.now ++ codes "\n" }
    ensures text { PutsText (W.seen sink.old) (W.seen sink.new) (spelling command.now) result }
    ensures cause { HasCause (W.seen sink.old).faults (W.seen sink.new).faults result }
{
    match command {
        Command::Write { bytes, .. } => put_written(sink, line, bytes.as_slice()),
        _ => sink.put(line.as_bytes()),
    }
}

/// Appends the one spelling of a command to the sink: names are escaped as in replies.
///
/// # Errors
///
/// - `Sink`: a call of the sink failed. A prefix of the spelling was appended.
/// - `OutOfMemory`: memory was wanting. Nothing was appended.
pub fn print_command<W: Sink>(
    alloc: Global,
    sink: &mut W,
    command: &Command,
) -> Result<(), PutFault>
    ensures text { PutsAnswer (W.seen sink.old) (W.seen sink.new) (spelling command.now) result }
    ensures reads_back { OnOk result (ReadsBack command.now) }
    ensures cause { HasPutCause (W.seen sink.old).faults (W.seen sink.new).faults result }
{
    let Ok(line) = line_of(alloc, command) else {
        return Err(PutFault::OutOfMemory);
    };
    match put_spelling(sink, line.as_str(), command) {
        Ok(()) => Ok(()),
        Err(SinkFault) => Err(PutFault::Sink),
    }
}
