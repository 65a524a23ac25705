//! What is done to a volume, by rows of numbers: effects that are staged, and points.
ghost use Rattle.std.specs.Prelude.{◌≤◌, ◌<◌, All, IfOk, OnOk};
ghost use Rattle.std.specs.Option.{ForSome};
ghost use Rattle.dirty_store.specs.Overlay.{IsEffect};

use block_format::{Inode, Slot};
use dirty_store::{Effect, SlotChange, SlotChangeList, Touched, TouchedList};
use std::alloc::{AllocError, Global};
use vol_numbers::{Block, BlockNo, Fbn, InoNo, Name};

/// What a number is after an effect.
#[derive(Clone, Copy)]
pub(crate) enum Kind {
    None,
    /// A file of so many bytes.
    File(u64),
    /// A directory that is told no width: its slots say how wide it is.
    Directory,
}

/// A place, how many from it on, and the byte that fills the first of their blocks. Each later block has a byte greater by one.
pub(crate) type Bytes = (Fbn, u32, u8);

/// A directory, a slot, and the number and the one letter that it has then. Number 0 is no entry.
pub(crate) type SlotRow = (InoNo, u32, InoNo, u8);

const NO_BYTES: &[Bytes] = &[];

const NO_SLOTS: &[SlotRow] = &[];

/// What a command does.
#[derive(Clone, Copy)]
pub(crate) struct Row {
    pub number: InoNo,
    pub kind: Kind,
    pub cut_to: Option<Fbn>,
    pub touched: &'static [Bytes],
    pub slots: &'static [SlotRow],
}

/// A line of a report: number, place, length, block.
pub(crate) type Fresh = (InoNo, Fbn, u32, BlockNo);

/// What a point reports: its number, how many blocks are fresh and how many are free, and its lines.
pub(crate) type Told = (u64, u32, u32, &'static [Fresh]);

/// An effect that is staged, or a point.
#[derive(Clone, Copy)]
pub(crate) enum Act {
    /// A node is made under a number, in a slot of a directory. It keeps nothing of an earlier node of its number.
    Made(InoNo, Kind, &'static [SlotRow]),
    /// A node is removed, from a slot that is told with number 0.
    Removed(InoNo, &'static [SlotRow]),
    /// Places of a file are written, which has this size then.
    Wrote(InoNo, u64, &'static [Bytes]),
    /// A file is cut to this size or grown to it, which is of so many whole blocks.
    Resized(InoNo, u64, Fbn),
    /// A point is taken, and reports this. Nothing is shared.
    Point(Told),
}

/// The effect of an act as a row. A point has none.
pub(crate) fn row_of(act: &Act) -> Option<Row> {
    let (number, kind, cut_to, touched, slots) = match *act {
        Act::Made(number, kind, slots) => (number, kind, Some(0), NO_BYTES, slots),
        Act::Removed(number, slots) => (number, Kind::None, Some(0), NO_BYTES, slots),
        Act::Wrote(number, size, touched) => (number, Kind::File(size), None, touched, NO_SLOTS),
        Act::Resized(number, size, blocks) => {
            (number, Kind::File(size), Some(blocks), NO_BYTES, NO_SLOTS)
        }
        Act::Point(_) => return None,
    };
    Some(Row {
        number,
        kind,
        cut_to,
        touched,
        slots,
    })
}

/// The effect that a row tells of.
pub(crate) fn effect_of(alloc: Global, row: &Row) -> Result<Effect, AllocError>
    ensures { IfOk result IsEffect }
{
    let touched = touched_of(alloc, row.touched)?;
    let slots = slots_of(alloc, row.slots)?;
    Ok(Effect {
        number: row.number,
        inode: inode_of(row.kind),
        cut_to: cut_of(row.cut_to),
        touched,
        slots,
    })
}

fn inode_of(kind: Kind) -> Inode {
    match kind {
        Kind::None => Inode::Unused,
        Kind::File(size) => Inode::File {
            size,
            height: 0,
            ptr: 0,
        },
        Kind::Directory => Inode::Directory {
            width: 0,
            height: 0,
            ptr: 0,
        },
    }
}

fn cut_of(cut_to: Option<Fbn>) -> Option<Fbn>
    ensures { ForSome result (λ blocks. blocks ≤ 1048576) }
{
    match cut_to {
        Some(blocks) => Some(blocks.min(1_048_576)),
        None => None,
    }
}

fn touched_of(alloc: Global, rows: &[Bytes]) -> Result<TouchedList, AllocError>
    ensures { IfOk result (λ list. All (λ t. t.place < 1048576) list) }
{
    let mut list = Vec::new(alloc);
    for row in rows {
        push_touched(&mut list, row)?;
    }
    Ok(TouchedList::from_vec(list))
}

fn push_touched(list: &mut Vec<Touched>, row: &Bytes) -> Result<(), AllocError>
    requires { All (λ t. t.place < 1048576) list.old.items }
    ensures { OnOk result (All (λ t. t.place < 1048576) list.new.items) }
{
    for k in 0..row.1 {
        let place = row.0.wrapping_add(k);
        let byte = row.2.wrapping_add((k % 256) as u8);
        list.push(touched(place, byte))?;
    }
    Ok(())
}

fn touched(place: Fbn, byte: u8) -> Touched
    ensures { result.place < 1048576 }
{
    Touched {
        place: place % 1_048_576,
        block: Block::filled(byte),
    }
}

fn slots_of(alloc: Global, rows: &[SlotRow]) -> Result<SlotChangeList, AllocError>
    ensures { IfOk result (λ list. All (λ c. c.slot < 65534) list) }
{
    let mut list = Vec::new(alloc);
    for row in rows {
        list.push(SlotChange {
            directory: row.0,
            slot: row.1 % 65_534,
            content: slot_of(row.2, row.3),
        })?;
    }
    Ok(SlotChangeList::from_vec(list))
}

/// An entry of this number, with a name of this one letter. Number 0 is no entry.
fn slot_of(number: InoNo, letter: u8) -> Slot {
    match Name::new(&[letter]) {
        Ok(name) if number > 0 => Slot::Entry { number, name },
        _ => Slot::Unused,
    }
}
