//! A directory in memory.
ghost use Rattle.std.specs.Prelude.{◌≡◌, ◌<◌, ◌≤◌, List, None, filter, length, IfOk, IfSome, IfNone, OnErr, IsErrOf};
ghost use Rattle.block_format.specs.declared.slot.Slot.{Slot};
ghost use Rattle.block_format.specs.declared.slot.Slot.TheVariants.{Entry};
ghost use Rattle.dir_slots.specs.Slots.{IsDirectory, number_in, slot_of, first_unused, with_slot, without_slot, is_used, ReplacesName};
ghost use Rattle.dir_slots.specs.Pages.{SpellsDirectory, IsPage, pages_for};
ghost use Rattle.dir_slots.specs.declared.fault.DirFault.TheVariants.{BadSlots};

use crate::DirFault;
use crate::copies::copy_of;
use crate::holes::{count_above, holes_of, put_hole};
use crate::order::{gap_for, look_up, order_of, put_again};
use crate::reading::read_slots;
use crate::slots::{clear_slot, is_used, put_slot, slot_at};
use block_format::{Slot, write_slot};
use std::alloc::{AllocError, Global};
use std::marker::Model;
use vol_numbers::{Block, InoNo, ItemList, Name, PageList};

/// Slots, in their order.
pub type SlotList = ItemList<Slot>;

/// The slots of a directory, each with what it holds.
///
/// A name is found by halving, so at most a logarithm of the entries is compared. Each name is kept once, in its slot.
#[derive(Drop)]
pub struct Directory {
    slots: Vec<Slot>,
    /// The slots that hold entries, by the bytes of the names.
    order: Vec<u32>,
    /// The other slots, from the last down. There is room for all slots and one.
    holes: Vec<u32>,
}

impl Model for Directory {
    ghost use Rattle.std.specs.Prelude.{◌<◌, List, length, vec_capacity};
    ghost use Rattle.block_format.specs.declared.slot.Slot.{Slot};
    ghost use Rattle.dir_slots.specs.Index.{IsKept};

    ghost Value = { List Slot };

    ghost view = { λ d. d.slots.items };

    ghost invariant = { λ d. IsKept d.slots.items d.order.items d.holes.items × (length d.slots.items < vec_capacity d.holes) };
}

impl Clone for Directory {
    ghost is_clone = { λ old new. new ≡ old };

    /// The same directory again.
    fn clone(&self) -> Result<Directory, AllocError> {
        let alloc = *self.slots.allocator();
        let slots = copy_of(alloc, &self.slots, 0)?;
        let order = copy_of(alloc, &self.order, 0)?;
        let holes = copy_of(alloc, &self.holes, self.slots.len() + 1)?;
        Ok(Directory {
            slots,
            order,
            holes,
        })
    }
}

impl Directory {
    /// The directory of this width that its blocks, by place, spell.
    pub fn read(alloc: Global, pages: &PageList, width: u32) -> Result<Directory, DirFault>
        requires width { width ≤ 65534 }
        requires pages { length pages.now ≡ pages_for width }
        ensures spelled { IfOk result (λ slots. SpellsDirectory pages.now slots) }
        ensures width { IfOk result (λ slots. length slots ≡ width) }

        // Some slot is outside the grammar, holds an entry from the width on, or has the name of another.
        ensures bad { IsErrOf result BadSlots → (slots : List Slot) → length slots ≡ width → SpellsDirectory pages.now slots → ⊥ }
    {
        let slots = read_slots(alloc, pages.as_slice(), width)?;
        let order = order_of(alloc, &slots)?;
        let holes = holes_of(alloc, &slots)?;
        Ok(Directory {
            slots,
            order,
            holes,
        })
    }

    /// How many slots there are.
    pub fn width(&self) -> u32
        ensures is { result ≡ length self.now }
        ensures directory { IsDirectory self.now }
    {
        self.slots.len() as u32
    }

    /// The number of the node of this name.
    pub fn find(&self, name: &Name) -> Option<InoNo>
        ensures { result ≡ number_in self.now name.now }
    {
        match look_up(&self.slots, &self.order, name) {
            Some(found) => Some(found.number),
            None => None,
        }
    }

    /// The slot of this name.
    pub fn slot_of(&self, name: &Name) -> Option<u32>
        ensures { result ≡ slot_of self.now name.now }
    {
        match look_up(&self.slots, &self.order, name) {
            Some(found) => Some(found.slot),
            None => None,
        }
    }

    /// The least unused slot, which is the width where each slot is used.
    pub fn first_unused(&self) -> u32
        ensures is { result ≡ first_unused self.now }
        ensures within { result ≤ length self.now }
    {
        match self.holes.last() {
            Some(slot) => *slot,
            None => self.slots.len() as u32,
        }
    }

    /// Puts an entry into the least unused slot, and says which that is.
    pub fn add(&mut self, name: &Name, number: InoNo) -> Result<u32, AllocError>
        requires absent { slot_of self.old name.now ≡ None }
        requires number { 1 ≤ number }
        requires at_most { number ≤ 65535 }
        requires room { first_unused self.old < 65534 }
        ensures slot { IfOk result (λ slot. slot ≡ first_unused self.old) }
        ensures added { IfOk result (λ slot. self.new ≡ with_slot self.old slot (Entry number name.now)) }
        ensures wide { length self.old ≤ length self.new }
        ensures unchanged { OnErr result (self.new ≡ self.old) }
    {
        let slot = self.first_unused();
        let place = gap_for(&self.slots, &self.order, name);
        self.slots.reserve(1)?;
        let room = (self.slots.len() + 2).saturating_sub(self.holes.len());
        self.holes.reserve(room)?;
        self.order.insert(place, slot)?;
        self.holes.pop();
        let name = *name;
        put_slot(&mut self.slots, slot, Slot::Entry { number, name });
        Ok(slot)
    }

    /// Makes the slot of this name unused, and gives the number that it had.
    pub fn remove(&mut self, name: &Name) -> Option<InoNo>
        ensures number { result ≡ number_in self.old name.now }
        ensures removed { self.new ≡ without_slot self.old (slot_of self.old name.now) }
        ensures wide { length self.new ≡ length self.old }
    {
        let found = look_up(&self.slots, &self.order, name)?;
        self.order.remove(found.place);
        clear_slot(&mut self.slots, found.slot);
        let place = count_above(&self.holes, found.slot);
        put_hole(&mut self.holes, place, found.slot);
        Some(found.number)
    }

    /// Gives the entry of one name another name, in the slot that it has, and says which that is. Takes no memory.
    pub fn replace(&mut self, from: &Name, to: &Name) -> Option<u32>
        requires { slot_of self.old to.now ≡ None }
        ensures slot { result ≡ slot_of self.old from.now }
        ensures none { IfNone result (self.new ≡ self.old) }
        ensures replaced { IfSome result (λ slot. ReplacesName self.old slot from.now to.now self.new) }
        ensures wide { length self.new ≡ length self.old }
    {
        let found = look_up(&self.slots, &self.order, from)?;
        self.order.remove(found.place);
        self.slots[found.slot as usize] = Slot::Unused;
        let place = gap_for(&self.slots, &self.order, to);
        put_again(&mut self.order, place, found.slot);
        let (number, name) = (found.number, *to);
        self.slots[found.slot as usize] = Slot::Entry { number, name };
        Some(found.slot)
    }

    /// The slots that hold entries, in their order.
    pub fn entries(&self, alloc: Global) -> Result<SlotList, AllocError>
        ensures { IfOk result (λ entries. entries ≡ filter is_used self.now) }
    {
        let mut entries = Vec::with_capacity(alloc, self.order.len())?;
        for slot in &self.slots {
            if is_used(slot) {
                entries.push(*slot)?;
            }
        }
        Ok(SlotList::from_vec(entries))
    }

    /// Spells the block of this place. All its bytes are written.
    pub fn page(&self, place: u32, into: &mut Block)
        ensures { IsPage self.now place into.new.bytes }
    {
        for j in 0..16 {
            let slot = slot_at(&self.slots, 16 * place as usize + j as usize);
            write_slot(&slot, j, into);
        }
    }
}
