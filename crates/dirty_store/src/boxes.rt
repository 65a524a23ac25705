//! Staged blocks and slots in boxes, so that an entry is small and a block is moved once.
ghost use Rattle.std.specs.Prelude.{◌≡◌, ◌<◌, ◌++◌, ◌∷◌, [], All, IfOk, OnOk};
ghost use Rattle.dirty_store.specs.Entries.{AreWithin};
ghost use Rattle.dirty_store.specs.Inside.{unboxed};
ghost use Rattle.dirty_store.specs.Overlay.{touched_entries, slot_entries};

use crate::effect::{SlotChange, SlotChangeList, Touched, TouchedList};
use crate::entries::Spot;
use block_format::Slot;
use std::alloc::{AllocError, Global};
use vol_numbers::{Block, InoNo};

/// An item in a box, at a spot.
pub(crate) type Boxed<T> = (Spot, Box<T>);

/// The blocks and the slots of an effect, in boxes.
#[derive(Drop)]
pub(crate) struct BoxedLists {
    pub blocks: Vec<Boxed<Block>>,
    pub slots: Vec<Boxed<Slot>>,
}

/// The touched places of a node and the changed slots, in boxes.
pub(crate) fn boxed_lists(
    alloc: Global,
    number: InoNo,
    touched: TouchedList,
    changes: SlotChangeList,
) -> Result<BoxedLists, AllocError>
    requires places { All (λ t. t.place < 1048576) touched }
    requires slots { All (λ c. c.slot < 65534) changes }
    ensures blocks { IfOk result (λ lists. unboxed lists.blocks.items ≡ touched_entries number touched) }
    ensures slots { IfOk result (λ lists. unboxed lists.slots.items ≡ slot_entries changes) }
    ensures within { IfOk result (λ lists. AreWithin lists.blocks.items × AreWithin lists.slots.items) }
{
    let blocks = boxed_blocks(alloc, number, touched)?;
    let slots = boxed_slots(alloc, changes)?;
    Ok(BoxedLists { blocks, slots })
}

/// The touched places of a node, with their blocks in boxes.
fn boxed_blocks(
    alloc: Global,
    number: InoNo,
    touched: TouchedList,
) -> Result<Vec<Boxed<Block>>, AllocError>
    requires { All (λ t. t.place < 1048576) touched }
    ensures boxed { IfOk result (λ entries. unboxed entries.items ≡ touched_entries number touched) }
    ensures within { IfOk result (λ entries. AreWithin entries.items) }
{
    let mut entries = Vec::with_capacity(alloc, touched.len())?;
    for Touched { place, block } in touched.into_vec() {
        push_boxed(alloc, &mut entries, (number, place), block)?;
    }
    Ok(entries)
}

/// The changed slots, with their contents in boxes.
fn boxed_slots(alloc: Global, changes: SlotChangeList) -> Result<Vec<Boxed<Slot>>, AllocError>
    requires { All (λ c. c.slot < 65534) changes }
    ensures boxed { IfOk result (λ entries. unboxed entries.items ≡ slot_entries changes) }
    ensures within { IfOk result (λ entries. AreWithin entries.items) }
{
    let mut entries = Vec::with_capacity(alloc, changes.len())?;
    for SlotChange {
        directory,
        slot,
        content,
    } in changes.into_vec() {
        push_boxed(alloc, &mut entries, (directory, slot), content)?;
    }
    Ok(entries)
}

/// Boxes an item, and pushes it.
fn push_boxed<T: Drop>(
    alloc: Global,
    entries: &mut Vec<Boxed<T>>,
    spot: Spot,
    item: T,
) -> Result<(), AllocError>
    requires spot { spot.1 < 1048576 }
    requires within { AreWithin entries.old.items }
    ensures pushed { OnOk result (unboxed entries.new.items ≡ unboxed entries.old.items ++ (spot, item) ∷ []) }
    ensures within { OnOk result (AreWithin entries.new.items) }
{
    let item = Box::new(alloc, item)?;
    entries.push((spot, item))?;
    Ok(())
}
