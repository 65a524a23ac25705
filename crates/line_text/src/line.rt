//! What a line says.
ghost use Rattle.std.specs.Prelude.{◌≡◌, ◌==◌, ◌∷◌, [], length, IfOk, ◌<◌};
ghost use Rattle.std.specs.List.{slice_split};
ghost use Rattle.line_text.specs.Lines.{line_in, line_of_parts, bad_command, bad_name, bare_line, path_verb, path_line, two_line, truncate_line, rename_line, three_line, read_line, write_line};
ghost use Rattle.line_text.specs.Paths.{path_in};

use crate::cut::cut;
use crate::number::{length, read_number};
use crate::path::path;
use crate::verb::PathVerb;
use std::alloc::{AllocError, Global};
use tree_model::{Command, Path, ReadLength, Refusal};

/// What a line says.
#[derive(Drop)]
pub enum Said {
    /// A command by itself.
    Command(Command),
    /// It is no command, or names no path.
    Refused(Refusal),
    /// To write so many bytes, which follow the line. They are dropped where the path is none.
    Write {
        path: Option<Path>,
        offset: u64,
        count: ReadLength,
    },
}

/// What a line says, without its newline.
pub fn line_in(alloc: Global, line: &[u8]) -> Result<Said, AllocError>
    ensures { IfOk result (λ said. said ≡ line_in line.now) }
{
    let (verb, rest) = cut(line, b' ');
    match rest {
        Some(rest) => line_with_path(alloc, verb, rest),
        None => Ok(bare_line(verb)),
    }
}

fn line_with_path(alloc: Global, verb: &[u8], rest: &[u8]) -> Result<Said, AllocError>
    ensures { IfOk result (λ said. said ≡ line_of_parts (verb.now ∷ slice_split (λ b. b == 32) rest.now)) }
{
    let (path, rest) = cut(rest, b' ');
    if path.is_empty() {
        return Ok(bad_command());
    }
    match rest {
        Some(rest) => line_with_field(alloc, verb, path, rest),
        None => path_line(alloc, verb, path),
    }
}

fn line_with_field(alloc: Global, verb: &[u8], path: &[u8], rest: &[u8]) -> Result<Said, AllocError>
    requires { 0 < length path.now }
    ensures { IfOk result (λ said. said ≡ line_of_parts (verb.now ∷ path.now ∷ slice_split (λ b. b == 32) rest.now)) }
{
    let (field, rest) = cut(rest, b' ');
    if field.is_empty() {
        return Ok(bad_command());
    }
    match rest {
        Some(rest) => line_with_count(alloc, verb, path, field, rest),
        None => two_line(alloc, verb, path, field),
    }
}

fn line_with_count(
    alloc: Global,
    verb: &[u8],
    path: &[u8],
    offset: &[u8],
    rest: &[u8],
) -> Result<Said, AllocError>
    requires path { 0 < length path.now }
    requires offset { 0 < length offset.now }
    ensures { IfOk result (λ said. said ≡ line_of_parts (verb.now ∷ path.now ∷ offset.now ∷ slice_split (λ b. b == 32) rest.now)) }
{
    let (count, rest) = cut(rest, b' ');
    match rest {
        Some(_) => Ok(bad_command()),
        None => three_line(alloc, verb, path, offset, count),
    }
}

/// It is no line of a command.
fn bad_command() -> Said
    ensures { result ≡ bad_command }
{
    Said::Refused(Refusal::BadCommand)
}

fn bare_line(verb: &[u8]) -> Said
    ensures { result ≡ bare_line verb.now }
{
    match verb {
        b"space" => Said::Command(Command::Space),
        b"checkpoint" => Said::Command(Command::Checkpoint),
        b"end" => Said::Command(Command::End),
        _ => bad_command(),
    }
}

fn path_line(alloc: Global, verb: &[u8], field: &[u8]) -> Result<Said, AllocError>
    ensures { IfOk result (λ said. said ≡ path_line (path_verb verb.now) field.now) }
{
    match PathVerb::from_field(verb) {
        Some(verb) => match path(alloc, field)? {
            Some(path) => Ok(Said::Command(verb.command(path))),
            None => Ok(bad_name()),
        },
        None => Ok(bad_command()),
    }
}

/// The path is none.
fn bad_name() -> Said
    ensures { result ≡ bad_name }
{
    Said::Refused(Refusal::BadName)
}

fn two_line(alloc: Global, verb: &[u8], path: &[u8], field: &[u8]) -> Result<Said, AllocError>
    ensures { IfOk result (λ said. said ≡ two_line verb.now path.now field.now) }
{
    if verb == b"truncate".as_slice() {
        return truncate_line(alloc, path, read_number(field));
    }
    if verb == b"rename".as_slice() {
        return rename_line(alloc, path, field);
    }
    Ok(bad_command())
}

fn truncate_line(alloc: Global, field: &[u8], size: Option<u64>) -> Result<Said, AllocError>
    ensures { IfOk result (λ said. said ≡ truncate_line field.now size) }
{
    let Some(size) = size else {
        return Ok(bad_command());
    };
    match path(alloc, field)? {
        Some(path) => Ok(Said::Command(Command::Truncate { path, size })),
        None => Ok(bad_name()),
    }
}

fn rename_line(alloc: Global, from: &[u8], to: &[u8]) -> Result<Said, AllocError>
    ensures { IfOk result (λ said. said ≡ rename_line (path_in from.now) (path_in to.now)) }
{
    let Some(from) = path(alloc, from)? else {
        return Ok(bad_name());
    };
    match path(alloc, to)? {
        Some(to) => Ok(Said::Command(Command::Rename { from, to })),
        None => Ok(bad_name()),
    }
}

fn three_line(
    alloc: Global,
    verb: &[u8],
    path: &[u8],
    offset: &[u8],
    count: &[u8],
) -> Result<Said, AllocError>
    ensures { IfOk result (λ said. said ≡ three_line verb.now path.now offset.now count.now) }
{
    if verb == b"read".as_slice() {
        return read_line(alloc, path, read_number(offset), length(count));
    }
    if verb == b"write".as_slice() {
        return write_line(alloc, path, read_number(offset), length(count));
    }
    Ok(bad_command())
}

fn read_line(
    alloc: Global,
    field: &[u8],
    offset: Option<u64>,
    count: Option<ReadLength>,
) -> Result<Said, AllocError>
    ensures { IfOk result (λ said. said ≡ read_line field.now offset count) }
{
    let (Some(offset), Some(count)) = (offset, count) else {
        return Ok(bad_command());
    };
    match path(alloc, field)? {
        Some(path) => Ok(Said::Command(Command::Read {
            path,
            offset,
            length: count,
        })),
        None => Ok(bad_name()),
    }
}

fn write_line(
    alloc: Global,
    field: &[u8],
    offset: Option<u64>,
    count: Option<ReadLength>,
) -> Result<Said, AllocError>
    ensures { IfOk result (λ said. said ≡ write_line field.now offset count) }
{
    match (offset, count) {
        (Some(offset), Some(count)) => Ok(Said::Write {
            path: path(alloc, field)?,
            offset,
            count,
        }),
        _ => Ok(bad_command()),
    }
}
