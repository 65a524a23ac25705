//! One node put, taken away or changed.
ghost use Rattle.std.specs.Prelude.{◌≡◌, ◌≢◌, ◌≤◌, ◌<◌, Some, None, OnErr, IfOk, OnOk, IsSome};
ghost use Rattle.dir_slots.specs.Slots.{IsDirectory, slot_of, number_in, first_unused, without_slot};
ghost use Rattle.node_table.specs.Changes.{IsSet, HoldsSlots, GetsEntry, MovesEntry};
ghost use Rattle.node_table.specs.Held.{held, slots_of};
ghost use Rattle.node_table.specs.Kept.{Fits};
ghost use Rattle.node_table.specs.Moves.{MovesWithin};
ghost use Rattle.node_table.specs.declared.held.HeldNode.TheVariants.{Directory};

use crate::counted::MovedSlots;
use crate::held::HeldNode;
use crate::table::NodeTable;
use std::alloc::AllocError;
use vol_numbers::{InoNo, Name};

impl NodeTable {
    /// Puts a node in the place of a number.
    pub(crate) fn put(&mut self, number: InoNo, node: HeldNode)
        requires at_least { 1 ≤ number }
        requires at_most { number ≤ 65535 }
        requires fits { Fits node }
        ensures { IsSet self.old number (Some node) self.new }
    {
        self.nodes[number as usize] = Some(node);
        self.used.put(number);
    }

    /// Takes the node of a number away.
    pub(crate) fn take_away(&mut self, number: InoNo)
        requires at_least { 1 ≤ number }
        requires at_most { number ≤ 65535 }
        ensures { IsSet self.old number None self.new }
    {
        self.nodes[number as usize] = None;
        self.used.take_away(number);
    }

    /// Puts an entry into the first unused slot of a directory.
    pub(crate) fn add_entry(
        &mut self,
        parent: InoNo,
        name: &Name,
        number: InoNo,
    ) -> Result<u32, AllocError>
        requires directory { HoldsSlots self.old parent }
        requires absent { slot_of (slots_of (held self.old parent)) name.now ≡ None }
        requires number { 1 ≤ number }
        requires at_most { number ≤ 65535 }
        requires room { first_unused (slots_of (held self.old parent)) < 65534 }
        ensures added { IfOk result (λ slot. GetsEntry self.old parent slot number name.now self.new) }
        ensures unchanged { OnErr result (self.new ≡ self.old) }
    {
        match &mut self.nodes[parent as usize] {
            Some(HeldNode::Directory(directory)) => directory.add(name, number),
            _ => unreachable!(),
        }
    }

    /// Takes the entry of a name out of a directory, and says in which slot it was.
    pub(crate) fn remove_entry(&mut self, parent: InoNo, name: &Name) -> u32
        requires directory { HoldsSlots self.old parent }
        requires there { IsSome (slot_of (slots_of (held self.old parent)) name.now) }
        ensures slot { slot_of (slots_of (held self.old parent)) name.now ≡ Some result }
        ensures removed { IsSet self.old parent (Some (Directory (without_slot (slots_of (held self.old parent)) (Some result)))) self.new }
    {
        match &mut self.nodes[parent as usize] {
            Some(HeldNode::Directory(directory)) => match directory.remove(name) {
                Some(slot) => slot,
                None => unreachable!(),
            },
            _ => unreachable!(),
        }
    }

    /// Gives the entry of one name in a directory another name.
    fn rename_entry(
        &mut self,
        parent: InoNo,
        from: &Name,
        to: &Name,
        number: InoNo,
    ) -> Result<MovedSlots, AllocError>
        requires directory { HoldsSlots self.old parent }
        requires there { number_in (slots_of (held self.old parent)) from.now ≡ Some number }
        requires absent { slot_of (slots_of (held self.old parent)) to.now ≡ None }
        requires number { 1 ≤ number }
        requires at_most { number ≤ 65535 }
        ensures moved { IfOk result (λ moved. MovesWithin self.old parent from.now number to.now moved self.new) }
        ensures unchanged { OnErr result (self.new ≡ self.old) }
    {
        match &mut self.nodes[parent as usize] {
            Some(HeldNode::Directory(directory)) => directory.rename(from, to, number),
            _ => unreachable!(),
        }
    }

    /// Moves an entry to another directory, or to another name in the same.
    pub(crate) fn move_entry(
        &mut self,
        parent: InoNo,
        from: &Name,
        into: InoNo,
        to: &Name,
        number: InoNo,
    ) -> Result<MovedSlots, AllocError>
        requires directory { HoldsSlots self.old parent }
        requires into { HoldsSlots self.old into }
        requires there { number_in (slots_of (held self.old parent)) from.now ≡ Some number }
        requires absent { slot_of (slots_of (held self.old into)) to.now ≡ None }
        requires number { 1 ≤ number }
        requires at_most { number ≤ 65535 }
        requires room { parent ≢ into → first_unused (slots_of (held self.old into)) < 65534 }
        ensures moved { IfOk result (λ moved. MovesEntry self.old parent moved.left into moved.came number from.now to.now self.new) }
        ensures unchanged { OnErr result (self.new ≡ self.old) }
    {
        if parent == into {
            return self.rename_entry(parent, from, to, number);
        }
        // The new entry comes first, since it alone may want memory.
        let came = self.add_entry(into, to, number)?;
        let left = self.remove_entry(parent, from);
        Ok(MovedSlots { left, came })
    }
}
