//! The lines of answers.
ghost use Rattle.std.specs.Prelude.{◌≡◌, ◌≤◌, length};
ghost use Rattle.reply_text.specs.Replies.{kind_text, piece_text, refusal_text, counted_text, reply_text, line_kind_text, line_text, point_text};
ghost use Rattle.tree_model.specs.declared.reply.Reply.TheVariants.{Stat, Space};
ghost use Rattle.tree_model.specs.declared.refusal.Refusal.TheVariants.{NoSpace, Damaged};

use crate::text_line::TextLine;
use tree_model::{Kind, Line, LineKind, Piece, Refusal, Report};

/// How a kind is written.
pub(crate) fn kind_text(kind: Kind) -> &'static str
    ensures text { result.now ≡ kind_text kind }
    ensures short { length result.now ≡ 1 }
{
    match kind {
        Kind::File => "f",
        Kind::Directory => "d",
    }
}

pub(crate) fn stat_line(kind: Kind, number: u32, size: u64) -> TextLine
    ensures { result ≡ reply_text (Stat kind number size) }
{
    let mut line = TextLine::new();
    line.text("stat ");
    line.text(kind_text(kind));
    line.field(" ", number as u64);
    line.field(" ", size);
    line.text("\n");
    line
}

pub(crate) fn space_line(free: u32, pending: u32, log: u32) -> TextLine
    ensures { result ≡ reply_text (Space free pending log) }
{
    let mut line = TextLine::new();
    line.field("space free=", free as u64);
    line.field(" pending=", pending as u64);
    line.field(" log=", log as u64);
    line.text("\n");
    line
}

/// A line that tells how much follows it.
pub(crate) fn count_line(word: &str, count: usize) -> TextLine
    requires { length word.now ≤ 20 }
    ensures { result ≡ counted_text word.now count }
{
    let mut line = TextLine::new();
    line.field(word, count as u64);
    line.text("\n");
    line
}

pub(crate) fn piece_line(piece: &Piece) -> TextLine
    ensures { result ≡ piece_text piece.now }
{
    let mut line = TextLine::new();
    match piece {
        Piece::Placed {
            place,
            length,
            block,
        } => {
            line.field("run ", *place as u64);
            line.field(" ", *length as u64);
            line.field(" ", *block as u64);
        }
        Piece::Dirty { place, length } => {
            line.field("dirty ", *place as u64);
            line.field(" ", *length as u64);
        }
    }
    line.text("\n");
    line
}

fn line_kind_text(kind: LineKind) -> &'static str
    ensures text { result.now ≡ line_kind_text kind }
    ensures short { length result.now ≡ 6 }
{
    match kind {
        LineKind::Fresh => "fresh ",
        LineKind::Share => "share ",
    }
}

pub(crate) fn change_line(line: &Line) -> TextLine
    ensures { result ≡ line_text line.now }
{
    let mut text = TextLine::new();
    text.field(line_kind_text(line.kind), line.number as u64);
    text.field(" ", line.place as u64);
    text.field(" ", line.length as u64);
    text.field(" ", line.block as u64);
    text.text("\n");
    text
}

pub(crate) fn point_line(report: &Report) -> TextLine
    ensures { result ≡ point_text report.now }
{
    let mut line = TextLine::new();
    line.field("point ", report.number);
    line.field(" fresh=", report.fresh as u64);
    line.field(" shared=", report.shared as u64);
    line.field(" free=", report.free as u64);
    line.text("\n");
    line
}

/// A refusal by its number and its name.
pub(crate) fn refusal_line(refusal: Refusal) -> TextLine
    ensures { result ≡ refusal_text refusal }
{
    match refusal {
        Refusal::BadCommand => TextLine::of("refused 1 BadCommand\n"),
        Refusal::BadName => TextLine::of("refused 2 BadName\n"),
        Refusal::NotFound => TextLine::of("refused 3 NotFound\n"),
        Refusal::NotADirectory => TextLine::of("refused 4 NotADirectory\n"),
        Refusal::IsADirectory => TextLine::of("refused 5 IsADirectory\n"),
        Refusal::Exists => TextLine::of("refused 6 Exists\n"),
        Refusal::RootFixed => TextLine::of("refused 7 RootFixed\n"),
        Refusal::Inside => TextLine::of("refused 8 Inside\n"),
        Refusal::NotEmpty => TextLine::of("refused 9 NotEmpty\n"),
        Refusal::TooBig => TextLine::of("refused 10 TooBig\n"),
        Refusal::NoNumbers => TextLine::of("refused 11 NoNumbers\n"),
        Refusal::NoSpace { free, need } => no_space_line(free, need),
        Refusal::DeviceFault => TextLine::of("refused 13 DeviceFault\n"),
        Refusal::Damaged(block) => damaged_line(block),
        Refusal::OutOfMemory => TextLine::of("refused 15 OutOfMemory\n"),
    }
}

fn no_space_line(free: u32, need: u32) -> TextLine
    ensures { result ≡ refusal_text (NoSpace free need) }
{
    let mut line = TextLine::new();
    line.field("refused 12 NoSpace ", free as u64);
    line.field(" ", need as u64);
    line.text("\n");
    line
}

fn damaged_line(block: u32) -> TextLine
    ensures { result ≡ refusal_text (Damaged block) }
{
    let mut line = TextLine::new();
    line.field("refused 14 Damaged ", block as u64);
    line.text("\n");
    line
}
