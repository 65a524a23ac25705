//! Lines and changes that grow, place by place.
ghost use Rattle.std.specs.Prelude.{◌≡◌, ◌≤◌, ◌+◌, ◌++◌, ◌∷◌, [], ℕ, List, OnOk, true, take};
ghost use Rattle.run_allocator.specs.Runs.{numbers_from};
ghost use Rattle.volume_model.specs.Laws.{continues};
ghost use Rattle.volume_model.specs.Lines.{is_fresh, line_places, lines_places};
ghost use Rattle.fresh_runs.specs.Fresh.{as_changes};
ghost use Rattle.fresh_runs.specs.Inside.{Adds, AreStretches, goes_on, lengthened, spots_from};

use std::alloc::AllocError;
use tree_model::{Line, LineKind};
use vol_numbers::{BlockNo, Change, Fbn, InoNo, Run};

/// Gives adjacent blocks to as many places of a file.
pub(crate) fn add_piece(
    number: InoNo,
    place: Fbn,
    blocks: Run,
    lines: &mut Vec<Line>,
    changes: &mut Vec<Change>,
) -> Result<(), AllocError>
    requires some { 1 ≤ blocks.length }
    requires places { place + blocks.length ≤ 1048576 }
    requires blocks { blocks.first + blocks.length ≤ 65536 }
    ensures { OnOk result (Adds (spots_from number place blocks.length) (numbers_from blocks.first blocks.length) lines.old.items lines.new.items changes.old.items changes.new.items) }
{
    let line = Line {
        kind: LineKind::Fresh,
        number,
        place,
        length: blocks.length,
        block: blocks.first,
    };
    add_line(lines, line)?;
    add_changes(changes, line)
}

/// Adds a line behind all others: to the last one, where it goes on there, and else as a line of its own.
fn add_line(lines: &mut Vec<Line>, line: Line) -> Result<(), AllocError>
    requires fresh { is_fresh line ≡ true }
    requires some { 1 ≤ line.length }
    requires within { line.place + line.length ≤ 1048576 }
    ensures places { OnOk result (lines_places lines.new.items ≡ lines_places lines.old.items ++ line_places line) }
    ensures stretches { OnOk result (AreStretches lines.old.items → AreStretches lines.new.items) }
{
    if goes_on(lines, line) {
        lengthen_last(lines, line);
        return Ok(());
    }
    lines.push(line)?;
    Ok(())
}

/// Whether a line goes on where the last one ends: at the next place of the same file, and at the next block.
fn goes_on(lines: &[Line], line: Line) -> bool
    ensures { result ≡ goes_on lines.now line }
{
    match lines.last() {
        Some(last) => continues(*last, line),
        None => false,
    }
}

/// Whether a line goes on where another ends.
fn continues(last: Line, line: Line) -> bool
    ensures { result ≡ continues last line }
{
    last.number == line.number
        && u64::from(last.place) + u64::from(last.length) == u64::from(line.place)
        && u64::from(last.block) + u64::from(last.length) == u64::from(line.block)
}

/// Makes the last line longer by one that goes on there.
fn lengthen_last(lines: &mut Vec<Line>, line: Line)
    requires on { goes_on lines.old.items line ≡ true }
    requires within { line.place + line.length ≤ 1048576 }
    ensures { lines.new.items ≡ lengthened line.length lines.old.items }
{
    if let Some(last) = lines.last_mut() {
        last.length += line.length;
    }
}

/// Adds the places of a line with their blocks.
fn add_changes(changes: &mut Vec<Change>, line: Line) -> Result<(), AllocError>
    requires places { line.place + line.length ≤ 1048576 }
    requires blocks { line.block + line.length ≤ 65536 }
    ensures { OnOk result (changes.new.items ≡ changes.old.items ++ as_changes (line_places line)) }
{
    for k in 0..line.length {
        changes.push(Change {
            place: line.place + k,
            block: line.block + k,
        })?;
    }
    Ok(())
}
