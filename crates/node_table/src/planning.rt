//! What a change is going to be.
ghost use Rattle.std.specs.Prelude.{◌≡◌, ℕ, ◌+◌, max, Some, IsSome, IsTrue, length};
ghost use Rattle.dir_slots.specs.Slots.{first_unused, slot_of};
ghost use Rattle.tree_model.specs.Step.{is_change};
ghost use Rattle.tree_model.specs.declared.command.Command.TheVariants.{Create, Write, Truncate, Remove, Rename};
ghost use Rattle.node_table.specs.Accepted.{IsAccepted};
ghost use Rattle.node_table.specs.Changes.{Does, HoldsSlots, IsChangeWithin, IsMade, IsSized, IsRemoved, IsRenamed};
ghost use Rattle.node_table.specs.Held.{Nodes, held, slots_of};
ghost use Rattle.node_table.specs.declared.change.Change.{Change};
ghost use Rattle.node_table.specs.declared.held.HeldNode.{HeldNode};

use crate::change::Change;
use crate::changes::last_name;
use crate::held::HeldNode;
use crate::table::NodeTable;
use tree_model::path_names::parent_names;
use tree_model::{Command, Path};
use vol_numbers::{InoNo, Name};

impl NodeTable {
    /// What a change that isn't refused is going to say that it was. It does nothing, and takes no memory.
    pub fn plan(&self, command: &Command) -> Change
        requires change { IsTrue (is_change command.now) }
        requires accepted { IsAccepted self.now command.now }
        ensures said { (change : Change) (new : Nodes) → Does command.now change self.now new → change ≡ result }
        // Some table comes of it.
        ensures done { (new : Nodes) × Does command.now result self.now new }
        ensures within { IsChangeWithin result }
    {
        match command {
            Command::Mkdir { path } => self.plan_make(path),
            Command::Create { path } => self.plan_make(path),
            Command::Write {
                path,
                offset,
                bytes,
            } => self.plan_write(path, *offset, bytes.as_slice()),
            Command::Truncate { path, size } => self.plan_truncate(path, *size),
            Command::Remove { path } => self.plan_remove(path),
            Command::Rename { from, to } => self.plan_rename(from, to),
            _ => unreachable!(),
        }
    }

    fn plan_make(&self, path: &Path) -> Change
        requires { IsAccepted self.now (Create path.now) }
        ensures said { (fresh : HeldNode) (change : Change) (new : Nodes) → IsMade path.now fresh change self.now new → change ≡ result }
        ensures done { (fresh : HeldNode) → (new : Nodes) × IsMade path.now fresh result self.now new }
        ensures within { IsChangeWithin result }
    {
        let _ = &self.nodes;
        let Ok(parent) = self.may_make(path) else {
            unreachable!();
        };
        let Some(number) = self.next_number() else {
            unreachable!();
        };
        let _name = last_name(path);
        let slot = self.free_slot(parent);
        Change::Made {
            parent,
            slot,
            number,
        }
    }

    fn plan_write(&self, path: &Path, offset: u64, bytes: &[u8]) -> Change
        requires { IsAccepted self.now (Write path.now offset bytes.now) }
        ensures said { (change : Change) (new : Nodes) → IsSized path.now (λ before. max before (offset + length bytes.now)) change self.now new → change ≡ result }
        ensures done { (new : Nodes) × IsSized path.now (λ before. max before (offset + length bytes.now)) result self.now new }
        ensures within { IsChangeWithin result }
    {
        let Ok(number) = self.may_write(path, offset, bytes) else {
            unreachable!();
        };
        let size = self.file_size(number).max(offset + bytes.len() as u64);
        Change::Sized { number, size }
    }

    fn plan_truncate(&self, path: &Path, size: u64) -> Change
        requires { IsAccepted self.now (Truncate path.now size) }
        ensures said { (change : Change) (new : Nodes) → IsSized path.now (λ _. size) change self.now new → change ≡ result }
        ensures done { (new : Nodes) × IsSized path.now (λ _. size) result self.now new }
        ensures within { IsChangeWithin result }
    {
        let Ok(number) = self.may_size(path, size) else {
            unreachable!();
        };
        Change::Sized { number, size }
    }

    fn plan_remove(&self, path: &Path) -> Change
        requires { IsAccepted self.now (Remove path.now) }
        ensures said { (change : Change) (new : Nodes) → IsRemoved path.now change self.now new → change ≡ result }
        ensures done { (new : Nodes) × IsRemoved path.now result self.now new }
        ensures within { IsChangeWithin result }
    {
        let _ = &self.nodes;
        let Ok(number) = self.may_remove(path) else {
            unreachable!();
        };
        let Ok(above) = self.look(parent_names(path.names())) else {
            unreachable!();
        };
        let parent = above.number;
        let slot = self.slot_in(parent, last_name(path));
        Change::Removed {
            parent,
            slot,
            number,
        }
    }

    fn plan_rename(&self, from: &Path, to: &Path) -> Change
        requires { IsAccepted self.now (Rename from.now to.now) }
        ensures said { (change : Change) (new : Nodes) → IsRenamed from.now to.now change self.now new → change ≡ result }
        ensures done { (new : Nodes) × IsRenamed from.now to.now result self.now new }
        ensures within { IsChangeWithin result }
    {
        let _ = &self.nodes;
        let Ok(plan) = self.may_rename(from, to) else {
            unreachable!();
        };
        let Ok(above) = self.look(parent_names(from.names())) else {
            unreachable!();
        };
        let parent = above.number;
        let name = last_name(from);
        let _into_name = last_name(to);
        let from_slot = self.slot_in(parent, name);
        let first = self.free_slot(plan.to);
        let to_slot = if parent == plan.to {
            first.min(from_slot)
        } else {
            first
        };
        Change::Renamed {
            number: plan.number,
            from: parent,
            from_slot,
            to: plan.to,
            to_slot,
        }
    }

    /// The slot that a new entry of a directory would take.
    fn free_slot(&self, parent: InoNo) -> u32
        requires { HoldsSlots self.now parent }
        ensures { result ≡ first_unused (slots_of (held self.now parent)) }
    {
        match self.held(parent) {
            Some(HeldNode::Directory(directory)) => directory.first_unused(),
            _ => unreachable!(),
        }
    }

    /// The slot that the entry of a name has.
    fn slot_in(&self, parent: InoNo, name: &Name) -> u32
        requires directory { HoldsSlots self.now parent }
        requires there { IsSome (slot_of (slots_of (held self.now parent)) name.now) }
        ensures { slot_of (slots_of (held self.now parent)) name.now ≡ Some result }
    {
        match self.held(parent) {
            Some(HeldNode::Directory(directory)) => match directory.slot_of(name) {
                Some(slot) => slot,
                None => unreachable!(),
            },
            _ => unreachable!(),
        }
    }
}
