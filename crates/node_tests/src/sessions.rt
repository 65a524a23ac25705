//! Sessions of commands on a table, with the changes and the refusals that the rules give.
ghost use Rattle.node_tests.specs.Sound.{IsSound};

use crate::acts::{Act, command, letters};
use dir_slots::Directory;
use node_table::{Change, FoundNode, NodeInfo, NodeTable};
use std::alloc::{AllocError, Global};
use std::test::Fail;
use tree_model::{Command, Entry, Kind, Path, Refusal, Reply};
use vol_numbers::{Name, PageList};

/// What a command comes to.
#[derive(Clone, Copy)]
enum Outcome {
    Changed(Change),
    Refused(Refusal),
    /// It changes nothing.
    Asked,
}

/// Does a command on a table that holds some tree, which it still does then.
fn attempt(table: &mut NodeTable, command: &Command) -> Result<Outcome, AllocError>
    requires { IsSound table.old }
    ensures { IsSound table.new }
{
    if let Some(refusal) = table.refusal(command) {
        return Ok(Outcome::Refused(refusal));
    }
    if !command.is_change() {
        return Ok(Outcome::Asked);
    }
    let change = table.change(command)?;
    Ok(Outcome::Changed(change))
}

/// The outcome that is wanted: a change by its numbers and slots, in the order of its fields.
#[derive(Clone, Copy)]
enum Want {
    Made(u32, u32, u32),
    Sized(u32, u64),
    Removed(u32, u32, u32),
    Renamed(u32, u32, u32, u32, u32),
    No(Refusal),
    Asked,
}

fn is_wanted(change: &Change, want: Want) -> bool {
    match (*change, want) {
        (
            Change::Made {
                parent,
                slot,
                number,
            },
            Want::Made(a, b, c),
        ) => parent == a && slot == b && number == c,
        (Change::Sized { number, size }, Want::Sized(a, b)) => number == a && size == b,
        (
            Change::Removed {
                parent,
                slot,
                number,
            },
            Want::Removed(a, b, c),
        ) => parent == a && slot == b && number == c,
        (
            Change::Renamed {
                number,
                from,
                from_slot,
                to,
                to_slot,
            },
            Want::Renamed(a, b, c, d, e),
        ) => number == a && from == b && from_slot == c && to == d && to_slot == e,
        _ => false,
    }
}

fn comes_to(outcome: &Outcome, want: Want) -> bool {
    match outcome {
        Outcome::Changed(change) => is_wanted(change, want),
        Outcome::Refused(refusal) => match want {
            Want::No(other) => *refusal == other,
            _ => false,
        },
        Outcome::Asked => matches!(want, Want::Asked),
    }
}

/// Numbers are the least unused from 2 on, and slots the first unused of their directory.
const ROWS: &[(Act, Want)] = &[
    (Act::Mkdir(b"a"), Want::Made(1, 0, 2)),
    (Act::Create(b"af"), Want::Made(2, 0, 3)),
    (Act::Create(b"b"), Want::Made(1, 1, 4)),
    (Act::Write(b"af", 10), Want::Sized(3, 13)),
    (Act::Write(b"af", 0), Want::Sized(3, 13)),
    (Act::Truncate(b"af", 5), Want::Sized(3, 5)),
    (Act::Truncate(b"a", 5), Want::No(Refusal::IsADirectory)),
    (
        Act::Truncate(b"af", 4_294_967_297),
        Want::No(Refusal::TooBig),
    ),
    (Act::Write(b"af", 4_294_967_294), Want::No(Refusal::TooBig)),
    (Act::Create(b"af"), Want::No(Refusal::Exists)),
    (Act::Mkdir(b""), Want::No(Refusal::Exists)),
    (Act::Create(b"cx"), Want::No(Refusal::NotFound)),
    (Act::Create(b"bx"), Want::No(Refusal::NotADirectory)),
    (Act::Create(b"bxy"), Want::No(Refusal::NotADirectory)),
    (Act::Remove(b"a"), Want::No(Refusal::NotEmpty)),
    (Act::Remove(b""), Want::No(Refusal::RootFixed)),
    (Act::Rename(b"a", b"az"), Want::No(Refusal::Inside)),
    (Act::Rename(b"", b"z"), Want::No(Refusal::RootFixed)),
    (Act::Rename(b"a", b"b"), Want::No(Refusal::Exists)),
    (Act::Read(b"a"), Want::No(Refusal::IsADirectory)),
    (Act::Read(b"af"), Want::Asked),
    (Act::Layout(b"b"), Want::Asked),
    (Act::List(b"b"), Want::No(Refusal::NotADirectory)),
    // The slot that it leaves is free before it takes one.
    (Act::Rename(b"b", b"c"), Want::Renamed(4, 1, 1, 1, 1)),
    (Act::Create(b"d"), Want::Made(1, 2, 5)),
    (Act::Remove(b"c"), Want::Removed(1, 1, 4)),
    (Act::Rename(b"d", b"e"), Want::Renamed(5, 1, 2, 1, 1)),
    (Act::Rename(b"e", b"ae"), Want::Renamed(5, 1, 1, 2, 1)),
    (Act::Remove(b"af"), Want::Removed(2, 0, 3)),
    (Act::Mkdir(b"g"), Want::Made(1, 1, 3)),
    (Act::Create(b"h"), Want::Made(1, 2, 4)),
    (Act::Rename(b"a", b"ga"), Want::Renamed(2, 1, 0, 3, 0)),
    (Act::Rename(b"g", b"z"), Want::Renamed(3, 1, 1, 1, 0)),
];

fn came(outcome: Result<Outcome, AllocError>, want: Want) -> bool {
    match outcome {
        Ok(outcome) => comes_to(&outcome, want),
        Err(_) => false,
    }
}

fn does(table: &mut NodeTable, command: Command, want: Want) -> bool
    requires { IsSound table.old }
    ensures { IsSound table.new }
{
    came(attempt(table, &command), want)
}

fn is_done(alloc: Global, table: &mut NodeTable, act: Act, want: Want) -> Result<bool, Fail>
    requires { IsSound table.old }
    ensures { IsSound table.new }
{
    let command = command(alloc, act)?;
    Ok(does(table, command, want))
}

/// Whether each row comes out so, on the table that the others left.
fn goes_so(alloc: Global, table: &mut NodeTable) -> Result<bool, Fail>
    requires { IsSound table.old }
    ensures { IsSound table.new }
{
    for (act, want) in ROWS {
        if !is_done(alloc, table, *act, *want)? {
            return Ok(false);
        }
    }
    Ok(true)
}

/// The kind, the number and the size of what a path leads to.
fn told(reply: &Reply) -> Option<(Kind, u32, u64)> {
    match reply {
        Reply::Stat { kind, number, size } => Some((*kind, *number, *size)),
        _ => None,
    }
}

fn stat(alloc: Global, table: &NodeTable, path: &[u8]) -> Result<Option<(Kind, u32, u64)>, Fail> {
    let path = letters(alloc, path)?;
    match table.stat(&path) {
        Ok(reply) => Ok(told(&reply)),
        Err(_) => Ok(None),
    }
}

fn find(alloc: Global, table: &NodeTable, path: &[u8]) -> Result<Option<FoundNode>, Fail> {
    let path = letters(alloc, path)?;
    Ok(table.find(&path).ok())
}

/// What stands at some paths in the end.
const LEFT: &[(&[u8], Option<(Kind, u32, u64)>)] = &[
    (b"", Some((Kind::Directory, 1, 2))),
    (b"z", Some((Kind::Directory, 3, 1))),
    (b"za", Some((Kind::Directory, 2, 1))),
    (b"zae", Some((Kind::File, 5, 0))),
    (b"h", Some((Kind::File, 4, 0))),
    (b"a", None),
    (b"haa", None),
];

fn is_left(alloc: Global, table: &NodeTable) -> Result<bool, Fail> {
    for (path, want) in LEFT {
        if stat(alloc, table, path)? != *want {
            return Ok(false);
        }
    }
    Ok(true)
}

/// The root had three entries at once, so it has three slots.
fn is_wide(alloc: Global, table: &NodeTable) -> Result<bool, Fail> {
    let want = FoundNode {
        number: 1,
        info: NodeInfo::Directory { width: 3 },
    };
    Ok(find(alloc, table, b"")? == Some(want))
}

/// The entries of the root: by their names, and not by their slots, which are the third and the first.
const ENTRIES: &[(Kind, u32, &[u8])] = &[(Kind::File, 4, b"h"), (Kind::Directory, 3, b"z")];

fn are_entries(entries: &[Entry]) -> bool {
    if entries.len() != ENTRIES.len() {
        return false;
    }
    for i in 0..entries.len() {
        let (kind, number, name) = ENTRIES[i];
        let entry = &entries[i];
        if entry.kind != kind || entry.number != number || entry.name.as_bytes() != name {
            return false;
        }
    }
    true
}

fn lists_so(alloc: Global, table: &NodeTable) -> bool {
    match table.entries(alloc, &Path::root(alloc)) {
        Ok(entries) => are_entries(entries.as_slice()),
        Err(_) => false,
    }
}

fn all_is_left(alloc: Global, table: &NodeTable) -> Result<bool, Fail> {
    Ok(is_left(alloc, table)? && is_wide(alloc, table)? && lists_so(alloc, table))
}

fn session(alloc: Global) -> Result<bool, Fail> {
    let mut table = NodeTable::new(alloc)?;
    Ok(goes_so(alloc, &mut table)? && all_is_left(alloc, &table)?)
}

fn one_entry(alloc: Global) -> Option<Directory> {
    let name = Name::new(b"f").ok()?;
    let mut directory = Directory::read(alloc, &PageList::new(alloc), 0).ok()?;
    match directory.add(&name, 7) {
        Ok(_) => Some(directory),
        Err(_) => None,
    }
}

fn put_one(alloc: Global, table: &mut NodeTable) -> bool {
    match one_entry(alloc) {
        Some(directory) => table.put_directory(1, directory).is_ok(),
        None => false,
    }
}

/// A table that is built node by node.
fn built(alloc: Global) -> Result<bool, Fail> {
    let mut table = NodeTable::new(alloc)?;
    let put = put_one(alloc, &mut table);
    table.put_file(7, 9);
    Ok(put && stat(alloc, &table, b"f")? == Some((Kind::File, 7, 9)))
}

#[test]
fn commands_in_turn(rt: HostRuntime) -> Result<(), Fail> {
    assert!(rt; session(rt.alloc())?);
    Ok(())
}

#[test]
fn nodes_one_by_one(rt: HostRuntime) -> Result<(), Fail> {
    assert!(rt; built(rt.alloc())?);
    Ok(())
}
