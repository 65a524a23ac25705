//! Slots, read from the blocks of a directory.
ghost use Rattle.std.specs.Prelude.{◌≡◌, ◌<◌, ◌≤◌, ◌*◌, ◌/◌, ◌%◌, List, [], ◌∷◌, ◌++◌, IfOk, OnOk, IfSome, IfNone, IsErrOf, length};
ghost use Rattle.block_format.specs.Slot.{SpellsSlot, slot_part};
ghost use Rattle.block_format.specs.declared.slot.Slot.{Slot};
ghost use Rattle.dir_slots.specs.Pages.{SpellsDirectory, bytes_at, pages_for};
ghost use Rattle.dir_slots.specs.Reading.{AreRead};
ghost use Rattle.dir_slots.specs.declared.fault.DirFault.TheVariants.{BadSlots};

use crate::DirFault;
use crate::slots::is_used;
use block_format::{Slot, read_slot};
use std::alloc::{AllocError, Global};
use vol_numbers::Page;

/// How many slots a block has.
const SLOTS: usize = 16;

/// The slots below the width. Those behind it have to be unused.
pub(crate) fn read_slots(alloc: Global, pages: &[Page], width: u32) -> Result<Vec<Slot>, DirFault>
    requires width { width ≤ 65534 }
    requires pages { length pages.now ≡ pages_for width }
    ensures read { IfOk result (λ slots. AreRead pages.now width slots.items) }
    ensures bad { IsErrOf result BadSlots → (slots : List Slot) → length slots ≡ width → SpellsDirectory pages.now slots → ⊥ }
{
    let mut slots = Vec::with_capacity(alloc, width as usize)?;
    for i in 0..SLOTS * pages.len() {
        let slot = match read_one(pages, i) {
            Some(slot) => slot,
            None => return Err(DirFault::BadSlots),
        };
        if i < width as usize {
            push(&mut slots, slot)?;
        } else if is_used(&slot) {
            return Err(DirFault::BadSlots);
        }
    }
    Ok(slots)
}

/// The slot i of some blocks. None exactly where it is outside the grammar.
fn read_one(pages: &[Page], i: usize) -> Option<Slot>
    requires { i < 16 * length pages.now }
    ensures found { IfSome result (λ slot. SpellsSlot slot (slot_part (i % 16) (bytes_at pages.now (i / 16)))) }
    ensures none { IfNone result ((slot : Slot) → SpellsSlot slot (slot_part (i % 16) (bytes_at pages.now (i / 16))) → ⊥) }
{
    let page = &pages[i / SLOTS];
    read_slot(&page.block, (i % SLOTS) as u32)
}

/// Puts a slot behind the others.
fn push(slots: &mut Vec<Slot>, slot: Slot) -> Result<(), AllocError>
    ensures { OnOk result (slots.new.items ≡ slots.old.items ++ slot ∷ []) }
{
    slots.push(slot)?;
    Ok(())
}
