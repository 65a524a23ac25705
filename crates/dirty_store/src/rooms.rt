//! Room for all that a staging puts and replaces, so that nothing can fail afterwards.
ghost use Rattle.std.specs.Prelude.{◌≡◌, ◌≤◌, ◌+◌, [], length, vec_len, vec_capacity, IfOk, OnOk};
ghost use Rattle.std.specs.Option.{ForSome};
ghost use Rattle.dirty_store.specs.Entries.{AreKept, cut_at, cut_away};
ghost use Rattle.dirty_store.specs.Overlay.{whole};

use crate::boxes::{Boxed, BoxedLists};
use crate::cuts::Was;
use crate::staging::room_for;
use block_format::Slot;
use std::alloc::{AllocError, Global};
use vol_numbers::{Block, Fbn, InoNo};

/// Room for what is replaced, empty yet.
#[derive(Drop)]
pub(crate) struct Rooms {
    pub blocks: Vec<Was<Box<Block>>>,
    pub slots: Vec<Was<Box<Slot>>>,
}

/// Only a cut to no block forgets the slots of a directory.
pub(crate) fn whole(cut_to: Option<Fbn>) -> Option<Fbn>
    ensures { result ≡ whole cut_to }
{
    match cut_to {
        Some(0) => cut_to,
        _ => None,
    }
}

/// Makes room for new blocks and slots, and for what they and a cut replace.
pub(crate) fn rooms_for(
    alloc: Global,
    blocks: &mut Vec<Boxed<Block>>,
    slots: &mut Vec<Boxed<Slot>>,
    number: InoNo,
    cut_to: Option<Fbn>,
    new: &BoxedLists,
) -> Result<Rooms, AllocError>
    requires kept_blocks { AreKept blocks.old.items }
    requires kept_slots { AreKept slots.old.items }
    requires limit { ForSome cut_to (λ from. from ≤ 1048576) }
    ensures same { (blocks.new.items ≡ blocks.old.items) × (slots.new.items ≡ slots.old.items) }
    ensures capacity { (vec_capacity blocks.old ≤ vec_capacity blocks.new) × (vec_capacity slots.old ≤ vec_capacity slots.new) }
    ensures block_room { OnOk result (vec_len blocks.new + length new.now.blocks.items ≤ vec_capacity blocks.new) }
    ensures slot_room { OnOk result (vec_len slots.new + length new.now.slots.items ≤ vec_capacity slots.new) }
    ensures empty { IfOk result (λ were. (were.blocks.items ≡ []) × (were.slots.items ≡ [])) }
    ensures blocks_were { IfOk result (λ were. length (cut_away (cut_at number cut_to) blocks.old.items) + length new.now.blocks.items ≤ vec_capacity were.blocks) }
    ensures slots_were { IfOk result (λ were. length (cut_away (cut_at number (whole cut_to)) slots.old.items) + length new.now.slots.items ≤ vec_capacity were.slots) }
{
    let blocks = room_for(alloc, blocks, number, cut_to, new.blocks.len())?;
    let slots = room_for(alloc, slots, number, whole(cut_to), new.slots.len())?;
    Ok(Rooms { blocks, slots })
}
