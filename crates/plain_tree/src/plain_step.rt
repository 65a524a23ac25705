//! The commands on a plain list of nodes, each as its rule says: its check, and then its change.
ghost use Rattle.std.specs.Prelude.{◌≡◌, ◌<◌, [], IfOk, OnOk, OnErr, IsTrue, map, vec_len, vec_capacity};
ghost use Rattle.plain_tree.specs.Attempts.{Attempts};
ghost use Rattle.tree_model.specs.Path.{parent_of};
ghost use Rattle.tree_model.specs.Tree.{moved, new_path, widened, with_node};
ghost use Rattle.tree_model.specs.Step.{make, write, truncate, read, remove, rename, list, stat, size_of, attempt, is_plain};
ghost use Rattle.plain_tree.specs.declared.plain_step.StepFault.TheVariants.{Memory, Refused};
ghost use Rattle.tree_model.specs.declared.node.Content.TheVariants.{File};

use crate::file_bytes;
use crate::node_list::{entries_of, entry_count, kind_of, put, take_away, walk, widen};
use crate::refusals::{
    OldFile, may_list, may_make, may_read, may_remove, may_rename, may_truncate, may_write,
};
use std::alloc::{AllocError, Global};
use tree_model::path_names::{copied, joined, parent_names, strip};
use tree_model::{Command, Content, EntryList, NameList, Node, Path, Refusal, Reply};
use vol_numbers::{ByteList, InoNo, Name};

/// Why a command was not done.
#[derive(Clone, Copy)]
pub enum StepFault {
    Memory,
    Refused(Refusal),
}

impl From<AllocError> for StepFault {
    ghost from_gives = { λ _ fault. fault ≡ Memory };

    fn from(_: AllocError) -> StepFault {
        StepFault::Memory
    }
}

impl From<Refusal> for StepFault {
    ghost from_gives = { λ refusal fault. fault ≡ Refused refusal };

    fn from(refusal: Refusal) -> StepFault {
        StepFault::Refused(refusal)
    }
}

// Puts a new node at a path, and widens the directory that it comes into.
fn put_new(
    alloc: Global,
    nodes: &mut Vec<(NameList, Node)>,
    path: &[Name],
    node: Node,
) -> Result<(), AllocError>
    ensures ok { OnOk result (nodes.new.items ≡ widened (with_node nodes.old.items path.now node) (parent_of path.now)) }
    ensures err { OnErr result (nodes.new.items ≡ nodes.old.items) }
{
    let at = copied(alloc, path)?;
    let parent = copied(alloc, parent_names(path))?;
    nodes.reserve(2)?;
    put(nodes, at, node);
    widen(nodes, parent);
    Ok(())
}

fn make(
    alloc: Global,
    nodes: &mut Vec<(NameList, Node)>,
    path: &Path,
    content: Content,
) -> Result<Reply, StepFault>
    ensures { Attempts nodes.old.items nodes.new.items result (make nodes.old.items path.now content) }
{
    let number = may_make(nodes, path)?;
    put_new(alloc, nodes, path.names(), Node { number, content })?;
    Ok(Reply::Done)
}

// Puts a file in place of the one at a path.
fn put_file(
    alloc: Global,
    nodes: &mut Vec<(NameList, Node)>,
    path: &[Name],
    number: InoNo,
    bytes: ByteList,
) -> Result<(), AllocError>
    ensures ok { OnOk result (nodes.new.items ≡ with_node nodes.old.items path.now (record { number = number; content = File bytes })) }
    ensures err { OnErr result (nodes.new.items ≡ nodes.old.items) }
{
    let at = copied(alloc, path)?;
    nodes.reserve(1)?;
    let content = Content::File(bytes);
    put(nodes, at, Node { number, content });
    Ok(())
}

fn write(
    alloc: Global,
    nodes: &mut Vec<(NameList, Node)>,
    path: &Path,
    offset: u64,
    bytes: &[u8],
) -> Result<Reply, StepFault>
    ensures { Attempts nodes.old.items nodes.new.items result (write nodes.old.items path.now offset bytes.now) }
{
    let OldFile { number, bytes: old } = may_write(nodes, path, offset, bytes)?;
    if bytes.is_empty() {
        return Ok(Reply::Done);
    }
    let new = file_bytes::written(alloc, old, offset, bytes)?;
    put_file(alloc, nodes, path.names(), number, new)?;
    Ok(Reply::Done)
}

fn truncate(
    alloc: Global,
    nodes: &mut Vec<(NameList, Node)>,
    path: &Path,
    size: u64,
) -> Result<Reply, StepFault>
    ensures { Attempts nodes.old.items nodes.new.items result (truncate nodes.old.items path.now size) }
{
    let OldFile { number, bytes: old } = may_truncate(nodes, path, size)?;
    let new = file_bytes::resized(alloc, old, size)?;
    put_file(alloc, nodes, path.names(), number, new)?;
    Ok(Reply::Done)
}

fn remove(nodes: &mut Vec<(NameList, Node)>, path: &Path) -> Result<Reply, StepFault>
    ensures { Attempts nodes.old.items nodes.new.items result (remove nodes.old.items path.now) }
{
    may_remove(nodes, path)?;
    take_away(nodes, path.names());
    Ok(Reply::Done)
}

fn new_path(
    alloc: Global,
    from: &[Name],
    to: &[Name],
    path: &[Name],
) -> Result<NameList, AllocError>
    ensures { IfOk result (λ new. new ≡ new_path from.now to.now path.now) }
{
    match strip(from, path) {
        None => copied(alloc, path),
        Some(rest) => joined(alloc, to, rest),
    }
}

// The paths after a rename, in the order of the nodes.
fn new_paths(
    alloc: Global,
    nodes: &[(NameList, Node)],
    from: &[Name],
    to: &[Name],
) -> Result<Vec<NameList>, AllocError>
    ensures { IfOk result (λ v. v.items ≡ map (λ e. new_path from.now to.now e.0) nodes.now) }
{
    let mut paths = Vec::new(alloc);
    for (at, _) in nodes {
        paths.push(new_path(alloc, from, to, at.as_slice())?)?;
    }
    Ok(paths)
}

// Each node moves to its new path. No bytes are copied and no memory is taken.
fn move_all(
    nodes: &mut Vec<(NameList, Node)>,
    mut paths: Vec<NameList>,
    new: &mut Vec<(NameList, Node)>,
    from: &[Name],
    to: &[Name],
)
    requires { (paths.items ≡ map (λ e. new_path from.now to.now e.0) nodes.old.items) × (new.old.items ≡ []) × (vec_len nodes.old < vec_capacity new.old) }
    ensures moved { new.new.items ≡ moved from.now to.now nodes.old.items }
    ensures room { vec_len new.new < vec_capacity new.new }
{
    while let Some(path) = paths.pop() {
        let Some((_, node)) = nodes.pop() else {
            return;
        };
        put(new, path, node);
    }
}

fn rename(
    alloc: Global,
    nodes: &mut Vec<(NameList, Node)>,
    from: &Path,
    to: &Path,
) -> Result<Reply, StepFault>
    ensures { Attempts nodes.old.items nodes.new.items result (rename nodes.old.items from.now to.now) }
{
    may_rename(nodes, from, to)?;
    move_below(alloc, nodes, from.names(), to.names())?;
    Ok(Reply::Done)
}

// Moves a node and all below it, and widens the directory that it comes into.
fn move_below(
    alloc: Global,
    nodes: &mut Vec<(NameList, Node)>,
    from: &[Name],
    to: &[Name],
) -> Result<(), AllocError>
    ensures ok { OnOk result (nodes.new.items ≡ widened (moved from.now to.now nodes.old.items) (parent_of to.now)) }
    ensures err { OnErr result (nodes.new.items ≡ nodes.old.items) }
{
    let paths = new_paths(alloc, nodes, from, to)?;
    let parent = copied(alloc, parent_names(to))?;
    let mut new = Vec::new(alloc);
    new.reserve(nodes.len() + 1)?;
    move_all(nodes, paths, &mut new, from, to);
    widen(&mut new, parent);
    *nodes = new;
    Ok(())
}

fn read(
    alloc: Global,
    nodes: &[(NameList, Node)],
    path: &Path,
    offset: u64,
    length: u32,
) -> Result<Reply, StepFault>
    ensures { Attempts nodes.now nodes.now result (read nodes.now path.now offset length) }
{
    let bytes = may_read(nodes, path)?;
    let part = file_bytes::part(alloc, bytes, offset, length)?;
    Ok(Reply::Data(part))
}

fn list(alloc: Global, nodes: &[(NameList, Node)], path: &Path) -> Result<Reply, StepFault>
    ensures { Attempts nodes.now nodes.now result (list nodes.now path.now) }
{
    may_list(nodes, path)?;
    let entries = entries_of(alloc, nodes, path.names())?;
    Ok(Reply::Entries(EntryList::from_vec(entries)))
}

fn size_of(nodes: &[(NameList, Node)], path: &[Name], content: &Content) -> u64
    ensures { result ≡ size_of nodes.now path.now content.now }
{
    match content {
        Content::File(bytes) => bytes.len() as u64,
        Content::Directory { .. } => entry_count(nodes, path) as u64,
    }
}

fn stat(nodes: &[(NameList, Node)], path: &Path) -> Result<Reply, StepFault>
    ensures { Attempts nodes.now nodes.now result (stat nodes.now path.now) }
{
    let node = walk(nodes, path.names())?;
    Ok(Reply::Stat {
        kind: kind_of(&node.content),
        number: node.number,
        size: size_of(nodes, path.names(), &node.content),
    })
}

/// Does a command of the tree, which leaves the nodes as they are where it is refused or wants memory.
pub fn attempt(
    alloc: Global,
    nodes: &mut Vec<(NameList, Node)>,
    command: &Command,
) -> Result<Reply, StepFault>
    requires { IsTrue (is_plain command.now) }
    ensures { Attempts nodes.old.items nodes.new.items result (attempt nodes.old.items command.now) }
{
    match command {
        Command::Mkdir { path } => make(alloc, nodes, path, Content::Directory { width: 0 }),
        Command::Create { path } => {
            let empty = Content::File(ByteList::new(alloc));
            make(alloc, nodes, path, empty)
        }
        Command::Write {
            path,
            offset,
            bytes,
        } => write(alloc, nodes, path, *offset, bytes.as_slice()),
        Command::Truncate { path, size } => truncate(alloc, nodes, path, *size),
        Command::Remove { path } => remove(nodes, path),
        Command::Rename { from, to } => rename(alloc, nodes, from, to),
        Command::Read {
            path,
            offset,
            length,
        } => read(alloc, nodes, path, *offset, length.get()),
        Command::List { path } => list(alloc, nodes, path),
        Command::Stat { path } => stat(nodes, path),
        Command::Layout { .. } | Command::Space | Command::Checkpoint | Command::End => {
            unreachable!()
        }
    }
}
