//! What each accepted change does to the nodes.
ghost use Rattle.std.specs.Prelude.{◌≡◌, ℕ, Some, ◌++◌, ◌∷◌, [], ◌+◌, false, None, max, IfOk, OnErr, IsTrue, length};
ghost use Rattle.tree_model.specs.Path.{is_root, parent_of};
ghost use Rattle.tree_model.specs.Shape.{IsTree};
ghost use Rattle.tree_model.specs.Step.{step, refusal_of, is_change};
ghost use Rattle.tree_model.specs.Tree.{Tree};
ghost use Rattle.tree_model.specs.declared.command.Command.TheVariants.{Create, Write, Truncate, Remove, Rename};
ghost use Rattle.node_table.specs.Accepted.{IsAccepted};
ghost use Rattle.node_table.specs.Changes.{Does, IsMade, IsSized, IsRemoved, IsRenamed};
ghost use Rattle.node_table.specs.Held.{AreDirectories, HoldsNodes, held};
ghost use Rattle.node_table.specs.Kept.{Fits};
ghost use Rattle.node_table.specs.declared.held.HeldNode.TheVariants.{File};

use crate::change::Change;
use crate::counted::empty_directory;
use crate::held::HeldNode;
use crate::table::NodeTable;
use std::alloc::AllocError;
use tree_model::path_names::parent_names;
use tree_model::{Command, Path};
use vol_numbers::{InoNo, Name};

impl NodeTable {
    /// Does a change that isn't refused, and says what it was. Want of memory leaves the table as it is.
    pub fn change(&mut self, command: &Command) -> Result<Change, AllocError>
        requires change { IsTrue (is_change command.now) }
        requires accepted { IsAccepted self.old command.now }
        ensures holds { IfOk result (λ _. (tree : Tree) → IsTree tree → HoldsNodes self.old tree → refusal_of tree command.now ≡ None → HoldsNodes self.new (step tree command.now).1) }
        ensures done { IfOk result (λ change. Does command.now change self.old self.new) }
        ensures directories { IfOk result (λ _. AreDirectories self.new) }
        ensures unchanged { OnErr result (self.new ≡ self.old) }
    {
        // What is kept of the nodes holds before and after.
        let _ = &self.nodes;
        let change = self.carry_out(command)?;
        let _ = &self.nodes;
        Ok(change)
    }

    fn carry_out(&mut self, command: &Command) -> Result<Change, AllocError>
        requires change { IsTrue (is_change command.now) }
        requires accepted { IsAccepted self.old command.now }
        ensures done { IfOk result (λ change. Does command.now change self.old self.new) }
        ensures unchanged { OnErr result (self.new ≡ self.old) }
    {
        match command {
            Command::Mkdir { path } => self.make_directory(path),
            Command::Create { path } => self.make(path, HeldNode::File { size: 0 }),
            Command::Write {
                path,
                offset,
                bytes,
            } => Ok(self.write(path, *offset, bytes.as_slice())),
            Command::Truncate { path, size } => Ok(self.truncate(path, *size)),
            Command::Remove { path } => Ok(self.remove(path)),
            Command::Rename { from, to } => self.rename(from, to),
            _ => unreachable!(),
        }
    }

    fn make_directory(&mut self, path: &Path) -> Result<Change, AllocError>
        requires { IsAccepted self.old (Create path.now) }
        ensures made { IfOk result (λ change. IsMade path.now (HeldNode.Directory []) change self.old self.new) }
        ensures unchanged { OnErr result (self.new ≡ self.old) }
    {
        let alloc = *self.nodes.allocator();
        let empty = empty_directory(alloc)?;
        self.make(path, HeldNode::Directory(empty))
    }

    /// Makes a node, which a directory gets as its entry.
    fn make(&mut self, path: &Path, node: HeldNode) -> Result<Change, AllocError>
        requires accepted { IsAccepted self.old (Create path.now) }
        requires fits { Fits node }
        ensures made { IfOk result (λ change. IsMade path.now node change self.old self.new) }
        ensures unchanged { OnErr result (self.new ≡ self.old) }
    {
        let _ = &self.nodes;
        let Ok(parent) = self.may_make(path) else {
            unreachable!();
        };
        let Some(number) = self.next_number() else {
            unreachable!();
        };
        let slot = self.add_entry(parent, last_name(path), number)?;
        self.put(number, node);
        Ok(Change::Made {
            parent,
            slot,
            number,
        })
    }

    fn write(&mut self, path: &Path, offset: u64, bytes: &[u8]) -> Change
        requires { IsAccepted self.old (Write path.now offset bytes.now) }
        ensures { IsSized path.now (λ before. max before (offset + length bytes.now)) result self.old self.new }
    {
        let Ok(number) = self.may_write(path, offset, bytes) else {
            unreachable!();
        };
        let size = self.file_size(number).max(offset + bytes.len() as u64);
        self.put(number, HeldNode::File { size });
        Change::Sized { number, size }
    }

    /// How many bytes a file has.
    pub(crate) fn file_size(&self, number: InoNo) -> u64
        requires { (size : ℕ) × (held self.now number ≡ Some (File size)) }
        ensures { held self.now number ≡ Some (File result) }
    {
        match self.held(number) {
            Some(HeldNode::File { size }) => *size,
            _ => unreachable!(),
        }
    }

    fn truncate(&mut self, path: &Path, size: u64) -> Change
        requires { IsAccepted self.old (Truncate path.now size) }
        ensures { IsSized path.now (λ _. size) result self.old self.new }
    {
        let Ok(number) = self.may_size(path, size) else {
            unreachable!();
        };
        self.put(number, HeldNode::File { size });
        Change::Sized { number, size }
    }

    fn remove(&mut self, path: &Path) -> Change
        requires { IsAccepted self.old (Remove path.now) }
        ensures { IsRemoved path.now result self.old self.new }
    {
        let _ = &self.nodes;
        let Ok(number) = self.may_remove(path) else {
            unreachable!();
        };
        let Ok(above) = self.look(parent_names(path.names())) else {
            unreachable!();
        };
        let parent = above.number;
        let slot = self.remove_entry(parent, last_name(path));
        self.take_away(number);
        Change::Removed {
            parent,
            slot,
            number,
        }
    }

    fn rename(&mut self, from: &Path, to: &Path) -> Result<Change, AllocError>
        requires { IsAccepted self.old (Rename from.now to.now) }
        ensures renamed { IfOk result (λ change. IsRenamed from.now to.now change self.old self.new) }
        ensures unchanged { OnErr result (self.new ≡ self.old) }
    {
        let _ = &self.nodes;
        let Ok(plan) = self.may_rename(from, to) else {
            unreachable!();
        };
        let Ok(above) = self.look(parent_names(from.names())) else {
            unreachable!();
        };
        let parent = above.number;
        let moved = self.move_entry(parent, last_name(from), plan.to, last_name(to), plan.number)?;
        Ok(Change::Renamed {
            number: plan.number,
            from: parent,
            from_slot: moved.left,
            to: plan.to,
            to_slot: moved.came,
        })
    }
}

/// The last name of a path that isn't the root's.
pub fn last_name(path: &Path) -> &Name
    requires { is_root path.now ≡ false }
    ensures { path.now ≡ parent_of path.now ++ result.now ∷ [] }
{
    let names = path.names();
    &names[names.len() - 1]
}
