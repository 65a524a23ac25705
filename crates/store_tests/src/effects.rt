//! Effects by rows of numbers.
ghost use Rattle.std.specs.Prelude.{◌≤◌, ◌<◌, All, IfOk};
ghost use Rattle.std.specs.Option.{ForSome};
ghost use Rattle.dirty_store.specs.Overlay.{IsEffect};

use block_format::{Inode, Slot};
use dirty_store::{Effect, SlotChange, SlotChangeList, Touched, TouchedList};
use std::alloc::{AllocError, Global};
use vol_numbers::{Block, Name};

/// What a command does.
#[derive(Clone, Copy)]
pub struct Row {
    pub number: u32,
    /// The new size of a file, none where the node is removed.
    pub size: Option<u64>,
    pub cut_to: Option<u32>,
    /// Places, each with the byte that fills its block.
    pub touched: &'static [(u32, u8)],
    /// Directories and slots, each with the number that it holds, 0 where it is unused.
    pub slots: &'static [(u32, u32, u32)],
}

/// The effect that a row tells of.
pub fn effect_of(alloc: Global, row: &Row) -> Result<Effect, AllocError>
    ensures { IfOk result IsEffect }
{
    let touched = touched_of(alloc, row.touched)?;
    let slots = slots_of(alloc, row.slots)?;
    Ok(Effect {
        number: row.number,
        inode: inode_of(row.size),
        cut_to: cut_of(row.cut_to),
        touched,
        slots,
    })
}

fn inode_of(size: Option<u64>) -> Inode {
    match size {
        Some(size) => Inode::File {
            size,
            height: 0,
            ptr: 0,
        },
        None => Inode::Unused,
    }
}

fn cut_of(cut_to: Option<u32>) -> Option<u32>
    ensures { ForSome result (λ blocks. blocks ≤ 1048576) }
{
    match cut_to {
        Some(blocks) => Some(blocks.min(1_048_576)),
        None => None,
    }
}

fn touched_of(alloc: Global, rows: &[(u32, u8)]) -> Result<TouchedList, AllocError>
    ensures { IfOk result (λ list. All (λ t. t.place < 1048576) list) }
{
    let mut list = Vec::new(alloc);
    for row in rows {
        list.push(Touched {
            place: row.0 % 1_048_576,
            block: Block::filled(row.1),
        })?;
    }
    Ok(TouchedList::from_vec(list))
}

fn slots_of(alloc: Global, rows: &[(u32, u32, u32)]) -> Result<SlotChangeList, AllocError>
    ensures { IfOk result (λ list. All (λ c. c.slot < 65534) list) }
{
    let mut list = Vec::new(alloc);
    for row in rows {
        list.push(SlotChange {
            directory: row.0,
            slot: row.1 % 65_534,
            content: slot_of(row.2),
        })?;
    }
    Ok(SlotChangeList::from_vec(list))
}

/// An entry of this number, which has the name `a`. Number 0 is no entry.
fn slot_of(number: u32) -> Slot {
    match Name::new(b"a") {
        Ok(name) if number > 0 => Slot::Entry { number, name },
        _ => Slot::Unused,
    }
}
