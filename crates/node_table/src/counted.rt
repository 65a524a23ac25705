//! A directory with how many entries it has.
ghost use Rattle.std.specs.Prelude.{◌≡◌, ◌<◌, ◌≤◌, Some, None, [], IfOk, OnErr, filter, length};
ghost use Rattle.block_format.specs.declared.slot.Slot.TheVariants.{Entry};
ghost use Rattle.dir_slots.specs.Slots.{IsDirectory, number_in, slot_of, first_unused, with_slot, without_slot, is_used};
ghost use Rattle.node_table.specs.Counts.{count};
ghost use Rattle.node_table.specs.Moves.{MovesName};

use dir_slots::{DirFault, Directory, SlotList};
use std::alloc::{AllocError, Global};
use std::marker::Model;
use vol_numbers::{InoNo, Name, PageList};

/// The slot that an entry left, and the one that it came into.
#[derive(Clone, Copy)]
pub(crate) struct MovedSlots {
    pub left: u32,
    pub came: u32,
}

/// A directory whose entries are counted.
#[derive(Drop)]
pub(crate) struct CountedDirectory {
    directory: Directory,
    entries: u32,
}

impl Model for CountedDirectory {
    ghost use Rattle.std.specs.Prelude.{◌≡◌, List};
    ghost use Rattle.block_format.specs.declared.slot.Slot.{Slot};
    ghost use Rattle.node_table.specs.Counts.{count};

    ghost Value = { List Slot };

    ghost view = { λ d. d.directory };

    ghost invariant = { λ d. d.entries ≡ count d.directory };
}

impl CountedDirectory {
    /// Counts the entries.
    pub(crate) fn new(alloc: Global, directory: Directory) -> Result<CountedDirectory, AllocError>
        ensures { IfOk result (λ counted. counted ≡ directory) }
    {
        let _width = directory.width();
        let entries = directory.entries(alloc)?.len() as u32;
        Ok(CountedDirectory { directory, entries })
    }

    pub(crate) fn count(&self) -> u32
        ensures is { result ≡ count self.now }
        ensures directory { IsDirectory self.now }
    {
        let _width = self.directory.width();
        self.entries
    }
}

impl CountedDirectory {
    /// How many slots there are.
    pub(crate) fn width(&self) -> u32
        ensures is { result ≡ length self.now }
        ensures directory { IsDirectory self.now }
    {
        self.directory.width()
    }

    /// The slots that hold entries, in their order.
    pub(crate) fn entries(&self, alloc: Global) -> Result<SlotList, AllocError>
        ensures { IfOk result (λ entries. entries ≡ filter is_used self.now) }
    {
        self.directory.entries(alloc)
    }

    /// The number of the node of this name.
    pub(crate) fn find(&self, name: &Name) -> Option<InoNo>
        ensures { result ≡ number_in self.now name.now }
    {
        self.directory.find(name)
    }
}

impl CountedDirectory {
    /// Puts an entry into the first unused slot, and says which that is.
    #[tactic(auto, using(crate::proofs::SlotCounts::count_with, crate::proofs::SlotCounts::count_within))]
    pub(crate) fn add(&mut self, name: &Name, number: InoNo) -> Result<u32, AllocError>
        requires absent { slot_of self.old name.now ≡ None }
        requires number { 1 ≤ number }
        requires at_most { number ≤ 65535 }
        requires room { first_unused self.old < 65534 }
        ensures slot { IfOk result (λ slot. slot ≡ first_unused self.old) }
        ensures added { IfOk result (λ slot. self.new ≡ with_slot self.old slot (Entry number name.now)) }
        ensures directory { IsDirectory self.new }
        ensures unchanged { OnErr result (self.new ≡ self.old) }
    {
        let _width = self.directory.width();
        let slot = self.directory.add(name, number)?;
        self.entries += 1;
        let _width = self.directory.width();
        Ok(slot)
    }

    /// The slot of the entry of a name.
    pub(crate) fn slot_of(&self, name: &Name) -> Option<u32>
        ensures { result ≡ slot_of self.now name.now }
    {
        self.directory.slot_of(name)
    }

    /// The least unused slot, which is the width where each slot is used.
    pub(crate) fn first_unused(&self) -> u32
        ensures { result ≡ first_unused self.now }
    {
        self.directory.first_unused()
    }

    /// Makes the slot of a name unused, and says which that was.
    #[tactic(auto, using(crate::proofs::SlotCounts::count_without))]
    pub(crate) fn remove(&mut self, name: &Name) -> Option<u32>
        ensures slot { result ≡ slot_of self.old name.now }
        ensures removed { self.new ≡ without_slot self.old (slot_of self.old name.now) }
        ensures directory { IsDirectory self.new }
    {
        let _width = self.directory.width();
        let slot = self.directory.slot_of(name)?;
        self.directory.remove(name);
        self.entries -= 1;
        let _width = self.directory.width();
        Some(slot)
    }

    /// Gives the entry of one name another name. Its slot is free before the new entry takes the first unused one.
    pub(crate) fn rename(
        &mut self,
        from: &Name,
        to: &Name,
        number: InoNo,
    ) -> Result<MovedSlots, AllocError>
        requires there { number_in self.old from.now ≡ Some number }
        requires absent { slot_of self.old to.now ≡ None }
        requires number { 1 ≤ number }
        requires at_most { number ≤ 65535 }
        ensures moved { IfOk result (λ moved. MovesName self.old from.now number to.now moved self.new) }
        ensures directory { IsDirectory self.new }
        ensures unchanged { OnErr result (self.new ≡ self.old) }
    {
        let _width = self.directory.width();
        let Some(left) = self.directory.slot_of(from) else {
            unreachable!();
        };
        let came = self.directory.first_unused();
        if came < left {
            self.directory.add(to, number)?;
            self.directory.remove(from);
            let _width = self.directory.width();
            return Ok(MovedSlots { left, came });
        }
        self.directory.replace(from, to);
        let _width = self.directory.width();
        Ok(MovedSlots { left, came: left })
    }
}

/// The directory with no slot.
pub(crate) fn empty_directory(alloc: Global) -> Result<CountedDirectory, AllocError>
    ensures { IfOk result (λ directory. directory ≡ []) }
{
    let pages = PageList::new(alloc);
    match Directory::read(alloc, &pages, 0) {
        Ok(directory) => CountedDirectory::new(alloc, directory),
        Err(DirFault::OutOfMemory) => Err(AllocError),
        Err(DirFault::BadSlots) => unreachable!(),
    }
}
