//! Why a command is refused, and else the numbers that its change needs.
ghost use Rattle.std.specs.Prelude.{◌≡◌, ◌+◌, length, MatchOption};
ghost use Rattle.std.specs.Result.{result_err};
ghost use Rattle.tree_model.specs.Shape.{IsTree};
ghost use Rattle.tree_model.specs.Step.{refusal_of, make};
ghost use Rattle.tree_model.specs.Tree.{Tree};
ghost use Rattle.tree_model.specs.declared.node.Content.{Content};
ghost use Rattle.node_table.specs.Held.{HoldsNodes};
ghost use Rattle.node_table.specs.Checks.{is_there, new_place, may_make, file_at, may_size, is_full, may_remove, may_rename, may_list};
ghost use Rattle.node_table.specs.Numbers.{IsNext, AllUsed};

use crate::held::{FoundNode, HeldNode};
use crate::table::NodeTable;
use tree_model::path_names::{parent_names, strip};
use tree_model::{Command, Path, Refusal};
use vol_numbers::{InoNo, Name};

/// How many bytes a file may have.
const MOST_BYTES: u64 = 4_294_967_296;

/// A rename that isn't refused: the node, and the directory that it comes into.
#[derive(Clone, Copy)]
pub(crate) struct RenamePlan {
    pub number: InoNo,
    pub to: InoNo,
}

impl NodeTable {
    /// Why the command would be refused, if it would be. Takes no memory.
    ///
    /// What it costs grows with the names of the paths, and with the logarithm of the entries on the way.
    pub fn refusal(&self, command: &Command) -> Option<Refusal>
        ensures { (tree : Tree) → IsTree tree → HoldsNodes self.now tree → result ≡ refusal_of tree command.now }
    {
        // What is kept of the nodes holds.
        let _ = &self.nodes;
        match command {
            Command::Mkdir { path } | Command::Create { path } => self.make_refusal(path),
            Command::Write {
                path,
                offset,
                bytes,
            } => self.may_write(path, *offset, bytes.as_slice()).err(),
            Command::Truncate { path, size } => self.may_size(path, *size).err(),
            Command::Remove { path } => self.may_remove(path).err(),
            Command::Rename { from, to } => self.may_rename(from, to).err(),
            Command::Read { path, .. } => self.file_at(path).err(),
            Command::Layout { path } => self.file_at(path).err(),
            Command::List { path } => self.may_list(path).err(),
            Command::Stat { path } => self.look(path.names()).err(),
            Command::Space | Command::Checkpoint | Command::End => None,
        }
    }

    /// Why no new node may stand at a path.
    fn make_refusal(&self, path: &Path) -> Option<Refusal>
        ensures { (tree : Tree) → IsTree tree → HoldsNodes self.now tree → (content : Content) → result ≡ result_err (make tree path.now content) }
    {
        if let Err(refusal) = self.may_make(path) {
            return Some(refusal);
        }
        match self.next_number() {
            None => Some(Refusal::NoNumbers),
            Some(_) => None,
        }
    }

    /// The number for a new node.
    pub(crate) fn next_number(&self) -> Option<InoNo>
        ensures { MatchOption result (AllUsed self.now) (λ number. IsNext self.now number) }
    {
        self.used.least_absent()
    }

    /// The directory that a new node at a path comes into.
    pub(crate) fn may_make(&self, path: &Path) -> Result<InoNo, Refusal>
        ensures { result ≡ may_make self.now path.now }
    {
        if path.names().is_empty() {
            return Err(Refusal::Exists);
        }
        self.new_place(path.names())
    }

    fn new_place(&self, path: &[Name]) -> Result<InoNo, Refusal>
        ensures { result ≡ new_place self.now path.now }
    {
        let parent = self.look(parent_names(path))?;
        if !parent.info.is_directory() {
            return Err(Refusal::NotADirectory);
        }
        if self.is_there(path) {
            return Err(Refusal::Exists);
        }
        Ok(parent.number)
    }

    fn is_there(&self, path: &[Name]) -> bool
        ensures { result ≡ is_there self.now path.now }
    {
        self.look(path).is_ok()
    }

    fn file_at(&self, path: &Path) -> Result<InoNo, Refusal>
        ensures { result ≡ file_at self.now path.now }
    {
        let found = self.look(path.names())?;
        if found.info.is_directory() {
            return Err(Refusal::IsADirectory);
        }
        Ok(found.number)
    }

    pub(crate) fn may_write(&self, path: &Path, offset: u64, bytes: &[u8]) -> Result<InoNo, Refusal>
        ensures { result ≡ may_size self.now path.now (offset + length bytes.now) }
    {
        let number = self.file_at(path)?;
        if offset.saturating_add(bytes.len() as u64) > MOST_BYTES {
            return Err(Refusal::TooBig);
        }
        Ok(number)
    }

    /// The file that may get this size.
    pub(crate) fn may_size(&self, path: &Path, size: u64) -> Result<InoNo, Refusal>
        ensures { result ≡ may_size self.now path.now size }
    {
        let number = self.file_at(path)?;
        if size > MOST_BYTES {
            return Err(Refusal::TooBig);
        }
        Ok(number)
    }

    /// The node that may be taken away.
    pub(crate) fn may_remove(&self, path: &Path) -> Result<InoNo, Refusal>
        ensures { result ≡ may_remove self.now path.now }
    {
        let found = self.look(path.names())?;
        if path.names().is_empty() {
            return Err(Refusal::RootFixed);
        }
        if self.is_full(&found) {
            return Err(Refusal::NotEmpty);
        }
        Ok(found.number)
    }

    /// Whether a node is a directory with entries.
    fn is_full(&self, found: &FoundNode) -> bool
        ensures { result ≡ is_full self.now found.now }
    {
        if !found.info.is_directory() {
            return false;
        }
        match self.held(found.number) {
            Some(HeldNode::Directory(directory)) => directory.count() != 0,
            _ => false,
        }
    }

    /// Whether one path may become the other, and the numbers for that.
    pub(crate) fn may_rename(&self, from: &Path, to: &Path) -> Result<RenamePlan, Refusal>
        ensures { result ≡ may_rename self.now from.now to.now }
    {
        let found = self.look(from.names())?;
        if to.names().is_empty() {
            return Err(Refusal::Exists);
        }
        let into = self.new_place(to.names())?;
        if from.names().is_empty() {
            return Err(Refusal::RootFixed);
        }
        if strip(from.names(), to.names()).is_some() {
            return Err(Refusal::Inside);
        }
        Ok(RenamePlan {
            number: found.number,
            to: into,
        })
    }

    /// The directory that may be listed.
    pub(crate) fn may_list(&self, path: &Path) -> Result<InoNo, Refusal>
        ensures { result ≡ may_list self.now path.now }
    {
        let found = self.look(path.names())?;
        if !found.info.is_directory() {
            return Err(Refusal::NotADirectory);
        }
        Ok(found.number)
    }
}
