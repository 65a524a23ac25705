//! What is told of the node at a path.
ghost use Rattle.std.specs.Prelude.{◌≡◌, Ok, Err, IfOk, OnOk, MatchResult, filter};
ghost use Rattle.std.specs.List.Sorted.{IsPermutation, IsSortedBy};
ghost use Rattle.dir_slots.specs.Slots.{is_used};
ghost use Rattle.tree_model.specs.Shape.{IsTree};
ghost use Rattle.tree_model.specs.Step.{stat};
ghost use Rattle.tree_model.specs.Tree.{Tree, entries_of};
ghost use Rattle.node_table.specs.Held.{HoldsNodes, held, slots_of};
ghost use Rattle.node_table.specs.Listing.{kind_in, size_in, kind_at, entry_in, listed, is_before, AreEntries};

use crate::counted::CountedDirectory;
use crate::held::{FoundNode, HeldNode, NodeInfo};
use crate::table::NodeTable;
use block_format::Slot;
use std::alloc::{AllocError, Global};
use tree_model::{Entry, EntryList, Kind, Path, Refusal, Reply};
use vol_numbers::InoNo;

impl NodeInfo {
    fn kind(&self) -> Kind
        ensures { result ≡ kind_in self.now }
    {
        match self {
            NodeInfo::File { .. } => Kind::File,
            NodeInfo::Directory { .. } => Kind::Directory,
        }
    }
}

impl NodeTable {
    /// The kind, the number and the size of the node at a path: of a file its bytes, of a directory its entries.
    pub fn stat(&self, path: &Path) -> Result<Reply, Refusal>
        ensures { (tree : Tree) → IsTree tree → HoldsNodes self.now tree →
            MatchResult result (λ reply. stat tree path.now ≡ Ok (reply, tree)) (λ refusal. stat tree path.now ≡ Err refusal) }
    {
        // What is kept of the nodes holds.
        let _ = &self.nodes;
        match self.look(path.names()) {
            Err(refusal) => Err(refusal),
            Ok(found) => Ok(Reply::Stat {
                kind: found.info.kind(),
                number: found.number,
                size: self.size_in(&found),
            }),
        }
    }

    fn size_in(&self, found: &FoundNode) -> u64
        ensures { result ≡ size_in self.now found.now.number found.now.info }
    {
        match found.info {
            NodeInfo::File { size } => size,
            NodeInfo::Directory { .. } => match self.held(found.number) {
                Some(HeldNode::Directory(directory)) => directory.count() as u64,
                _ => 0,
            },
        }
    }
}

impl NodeTable {
    /// The entries of the directory at a path, by the bytes of their names. None where there is no directory.
    pub fn entries(&self, alloc: Global, path: &Path) -> Result<EntryList, AllocError>
        ensures { IfOk result (λ entries. (tree : Tree) → IsTree tree → HoldsNodes self.now tree → entries ≡ entries_of tree path.now) }
    {
        // What is kept of the nodes holds.
        let _ = &self.nodes;
        match self.look(path.names()) {
            Err(_) => Ok(EntryList::new(alloc)),
            Ok(found) => self.entries_in(alloc, found.number),
        }
    }

    /// The entries of the directory of a number.
    fn entries_in(&self, alloc: Global, number: InoNo) -> Result<EntryList, AllocError>
        ensures { IfOk result (λ entries. AreEntries self.now (slots_of (held self.now number)) entries) }
    {
        match self.held(number) {
            Some(HeldNode::Directory(directory)) => self.in_order(alloc, directory),
            Some(HeldNode::File { .. }) => Ok(EntryList::new(alloc)),
            None => Ok(EntryList::new(alloc)),
        }
    }

    fn in_order(&self, alloc: Global, directory: &CountedDirectory) -> Result<EntryList, AllocError>
        ensures { IfOk result (λ entries. AreEntries self.now directory.now entries) }
    {
        let mut entries = self.listed(alloc, directory)?;
        sort_by_name(&mut entries)?;
        Ok(EntryList::from_vec(entries))
    }

    /// The entries in the order of their slots.
    fn listed(&self, alloc: Global, directory: &CountedDirectory) -> Result<Vec<Entry>, AllocError>
        ensures { IfOk result (λ entries. entries.items ≡ listed self.now (filter is_used directory.now)) }
    {
        let slots = directory.entries(alloc)?;
        let mut entries = Vec::new(alloc);
        for slot in slots.as_slice() {
            if let Some(entry) = self.entry_in(slot) {
                entries.push(entry)?;
            }
        }
        Ok(entries)
    }

    /// The entry in a slot.
    fn entry_in(&self, slot: &Slot) -> Option<Entry>
        ensures { result ≡ entry_in self.now slot.now }
    {
        match slot {
            Slot::Unused => None,
            Slot::Entry { number, name } => Some(Entry {
                kind: self.kind_at(*number),
                number: *number,
                name: *name,
            }),
        }
    }

    fn kind_at(&self, number: InoNo) -> Kind
        ensures { result ≡ kind_at (held self.now number) }
    {
        match self.held(number) {
            Some(node) => node.info().kind(),
            None => Kind::File,
        }
    }
}

fn sort_by_name(entries: &mut Vec<Entry>) -> Result<(), AllocError>
    ensures same { IsPermutation entries.old.items entries.new.items }
    ensures rising { OnOk result (IsSortedBy is_before entries.new.items) }
{
    entries.sort_by(|a, b| a.name.as_bytes().cmp(b.name.as_bytes()))?;
    Ok(())
}
