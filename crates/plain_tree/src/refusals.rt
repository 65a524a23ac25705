//! Why a command on a plain list of nodes is refused, and else what its change needs. Nothing is copied or changed here.
ghost use Rattle.std.specs.Prelude.{◌≡◌, ◌+◌, ◌≤◌, ◌&&◌, length, take, drop, ℕ, OnOk, IsTrue};
ghost use Rattle.plain_tree.specs.Attempts.{Permits};
ghost use Rattle.tree_model.specs.Path.{parent_of};
ghost use Rattle.tree_model.specs.Tree.{is_directory, with_node, without, widened, moved, resized, entries_of};
ghost use Rattle.tree_model.specs.Step.{make, write, truncate, read, remove, rename, list, written_tree, has_entries, refusal_of, is_plain};
ghost use Rattle.tree_model.specs.declared.node.Content.{Content};
ghost use Rattle.tree_model.specs.declared.node.Content.TheVariants.{File};
ghost use Rattle.tree_model.specs.declared.reply.Reply.TheVariants.{Done, Data, Entries};

use crate::node_list::{entry_count, find_node, is_directory, least_unused, walk};
use tree_model::path_names::{parent_names, strip};
use tree_model::{Command, Content, NameList, Node, Path, Refusal};
use vol_numbers::{InoNo, Name};

/// A file as a command finds it.
#[derive(Clone, Copy)]
pub struct OldFile<'a> {
    pub number: InoNo,
    pub bytes: &'a [u8],
}

/// The number for a new node at a path.
pub fn may_make(nodes: &[(NameList, Node)], path: &Path) -> Result<InoNo, Refusal>
    ensures { (content : Content) → Permits result (make nodes.now path.now content) (λ number.
        (Done, widened (with_node nodes.now path.now (record { number = number; content = content })) (parent_of path.now))) }
{
    if path.names().is_empty() {
        return Err(Refusal::Exists);
    }
    let above = walk(nodes, parent_names(path.names()))?;
    if !is_directory(above) {
        return Err(Refusal::NotADirectory);
    }
    if find_node(nodes, path.names()).is_some() {
        return Err(Refusal::Exists);
    }
    least_unused(nodes).ok_or(Refusal::NoNumbers)
}

/// The file that bytes may be written into.
pub fn may_write<'a>(
    nodes: &'a [(NameList, Node)],
    path: &Path,
    offset: u64,
    bytes: &[u8],
) -> Result<OldFile<'a>, Refusal>
    ensures file { Permits result (write nodes.now path.now offset bytes.now) (λ file.
        (Done, written_tree nodes.now path.now file.number file.bytes.now offset bytes.now)) }
    ensures within { OnOk result (offset + length bytes.now ≤ 4294967296) }
{
    let node = walk(nodes, path.names())?;
    let Content::File(old) = &node.content else {
        return Err(Refusal::IsADirectory);
    };
    if offset.saturating_add(bytes.len() as u64) > 4_294_967_296 {
        return Err(Refusal::TooBig);
    }
    Ok(OldFile {
        number: node.number,
        bytes: old.as_slice(),
    })
}

/// The file that may get this size.
pub fn may_truncate<'a>(
    nodes: &'a [(NameList, Node)],
    path: &Path,
    size: u64,
) -> Result<OldFile<'a>, Refusal>
    ensures { Permits result (truncate nodes.now path.now size) (λ file.
        (Done, with_node nodes.now path.now (record { number = file.number; content = File (resized file.bytes.now size) }))) }
{
    let node = walk(nodes, path.names())?;
    let Content::File(old) = &node.content else {
        return Err(Refusal::IsADirectory);
    };
    if size > 4_294_967_296 {
        return Err(Refusal::TooBig);
    }
    Ok(OldFile {
        number: node.number,
        bytes: old.as_slice(),
    })
}

// Whether a node is a directory with entries.
fn is_full(nodes: &[(NameList, Node)], path: &[Name], node: &Node) -> bool
    ensures { result ≡ (is_directory node.now && has_entries nodes.now path.now) }
{
    if !is_directory(node) {
        return false;
    }
    entry_count(nodes, path) != 0
}

/// Whether the node at a path may be taken away.
pub fn may_remove(nodes: &[(NameList, Node)], path: &Path) -> Result<(), Refusal>
    ensures { Permits result (remove nodes.now path.now) (λ _. (Done, without nodes.now path.now)) }
{
    let names = path.names();
    let node = walk(nodes, names)?;
    if names.is_empty() {
        return Err(Refusal::RootFixed);
    }
    if is_full(nodes, names, node) {
        return Err(Refusal::NotEmpty);
    }
    Ok(())
}

/// Whether one path may become the other.
pub fn may_rename(nodes: &[(NameList, Node)], from: &Path, to: &Path) -> Result<(), Refusal>
    ensures { Permits result (rename nodes.now from.now to.now) (λ _.
        (Done, widened (moved from.now to.now nodes.now) (parent_of to.now))) }
{
    walk(nodes, from.names())?;
    if to.names().is_empty() {
        return Err(Refusal::Exists);
    }
    let above = walk(nodes, parent_names(to.names()))?;
    if !is_directory(above) {
        return Err(Refusal::NotADirectory);
    }
    if find_node(nodes, to.names()).is_some() {
        return Err(Refusal::Exists);
    }
    if from.names().is_empty() {
        return Err(Refusal::RootFixed);
    }
    if strip(from.names(), to.names()).is_some() {
        return Err(Refusal::Inside);
    }
    Ok(())
}

/// The bytes of the file at a path.
pub fn may_read<'a>(nodes: &'a [(NameList, Node)], path: &Path) -> Result<&'a [u8], Refusal>
    ensures { (offset len : ℕ) → Permits result (read nodes.now path.now offset len) (λ bytes.
        (Data (take len (drop offset bytes.now)), nodes.now)) }
{
    match &walk(nodes, path.names())?.content {
        Content::Directory { .. } => Err(Refusal::IsADirectory),
        Content::File(bytes) => Ok(bytes.as_slice()),
    }
}

/// Whether there is a directory at a path.
pub fn may_list(nodes: &[(NameList, Node)], path: &Path) -> Result<(), Refusal>
    ensures { Permits result (list nodes.now path.now) (λ _.
        (Entries (entries_of nodes.now path.now), nodes.now)) }
{
    if !is_directory(walk(nodes, path.names())?) {
        return Err(Refusal::NotADirectory);
    }
    Ok(())
}

/// Why a command of the tree would be refused, if it would be.
pub fn refusal(nodes: &[(NameList, Node)], command: &Command) -> Option<Refusal>
    requires { IsTrue (is_plain command.now) }
    ensures { result ≡ refusal_of nodes.now command.now }
{
    match command {
        Command::Mkdir { path } | Command::Create { path } => may_make(nodes, path).err(),
        Command::Write {
            path,
            offset,
            bytes,
        } => may_write(nodes, path, *offset, bytes.as_slice()).err(),
        Command::Truncate { path, size } => may_truncate(nodes, path, *size).err(),
        Command::Remove { path } => may_remove(nodes, path).err(),
        Command::Rename { from, to } => may_rename(nodes, from, to).err(),
        Command::Read { path, .. } => may_read(nodes, path).err(),
        Command::List { path } => may_list(nodes, path).err(),
        Command::Stat { path } => walk(nodes, path.names()).err(),
        Command::Layout { .. } | Command::Space | Command::Checkpoint | Command::End => {
            unreachable!()
        }
    }
}
