//! Sessions on the plain tree, with the replies that the rules give.
use crate::acts::{Act, command};
use plain_tree::PlainTree;
use std::alloc::Global;
use std::test::Fail;
use tree_model::{Command, Entry, Kind, NameList, Path, Payload, ReadLength, Refusal, Reply};
use vol_numbers::{ByteList, Name};

/// What an act is answered.
#[derive(Clone, Copy)]
enum Want<'a> {
    Done,
    /// A refusal by its number, which is told before the step too.
    No(u32),
    Bytes(&'a [u8]),
    /// The kind, the number and the size.
    Node(Kind, u32, u64),
    /// Files by their numbers and names, in this order.
    Files(&'a [(u32, &'a [u8])]),
    /// So many entries.
    Count(usize),
}

type Row = (Act<'static>, Want<'static>);

// ---- whether a session goes so

fn told(refusal: Option<Refusal>) -> u32 {
    match refusal {
        None => 0,
        Some(refusal) => refusal.number(),
    }
}

fn number_in(want: Want) -> u32 {
    match want {
        Want::No(number) => number,
        _ => 0,
    }
}

fn are_files(entries: &[Entry], want: &[(u32, &[u8])]) -> bool {
    if entries.len() != want.len() {
        return false;
    }
    for i in 0..entries.len() {
        let entry = &entries[i];
        let (number, name) = want[i];
        if entry.kind != Kind::File || entry.number != number || entry.name.as_bytes() != name {
            return false;
        }
    }
    true
}

fn are_entries(entries: &[Entry], want: Want) -> bool {
    match want {
        Want::Files(files) => are_files(entries, files),
        Want::Count(count) => entries.len() == count,
        _ => false,
    }
}

fn is_data(bytes: &[u8], want: Want) -> bool {
    match want {
        Want::Bytes(wanted) => bytes == wanted,
        _ => false,
    }
}

fn is_node(found: (Kind, u32, u64), want: Want) -> bool {
    match want {
        Want::Node(kind, number, size) => found == (kind, number, size),
        _ => false,
    }
}

fn is_wanted(reply: &Reply, want: Want) -> bool {
    match reply {
        Reply::Done => matches!(want, Want::Done),
        Reply::Refused(refusal) => refusal.number() == number_in(want),
        Reply::Data(bytes) => is_data(bytes.as_slice(), want),
        Reply::Stat { kind, number, size } => is_node((*kind, *number, *size), want),
        Reply::Entries(entries) => are_entries(entries.as_slice(), want),
        _ => false,
    }
}

fn steps_as(tree: &mut PlainTree, command: &Command, want: &Want) -> Result<bool, Fail> {
    if !command.is_plain() {
        return Ok(false);
    }
    if told(tree.refusal(command)) != number_in(*want) {
        return Ok(false);
    }
    let reply = tree.step(command)?;
    Ok(is_wanted(&reply, *want))
}

fn goes(alloc: Global, tree: &mut PlainTree, act: Act, want: Want) -> Result<bool, Fail> {
    let command = command(alloc, act)?;
    let stepped = steps_as(tree, &command, &want);
    drop(command);
    stepped
}

fn goes_on(alloc: Global, tree: &mut PlainTree, rows: &[Row]) -> Result<bool, Fail> {
    for (act, want) in rows {
        if !goes(alloc, tree, *act, *want)? {
            return Ok(false);
        }
    }
    Ok(true)
}

fn session(alloc: Global, rows: &[Row]) -> Result<bool, Fail> {
    let mut tree = PlainTree::new(alloc)?;
    goes_on(alloc, &mut tree, rows)
}

// ---- refusals

const REFUSALS: &[Row] = &[
    (Act::Create(b"a"), Want::Done),
    (Act::Create(b"a"), Want::No(6)),
    (Act::Mkdir(b""), Want::No(6)),
    (Act::Write(b"b", 0, b"x"), Want::No(3)),
    (Act::Write(b"", 0, b"x"), Want::No(5)),
    (Act::Create(b"ab"), Want::No(4)),
    (Act::Remove(b""), Want::No(7)),
    (Act::Mkdir(b"d"), Want::Done),
    (Act::Rename(b"d", b"de"), Want::No(8)),
    (Act::Create(b"df"), Want::Done),
    (Act::Remove(b"d"), Want::No(9)),
    (Act::List(b"a"), Want::No(4)),
    // What isn't there, what lies below a file, and a directory in place of a file.
    (Act::Remove(b"q"), Want::No(3)),
    (Act::Remove(b"ab"), Want::No(4)),
    (Act::Truncate(b"q", 0), Want::No(3)),
    (Act::Truncate(b"d", 0), Want::No(5)),
    (Act::Read(b"q", 0, 10), Want::No(3)),
    (Act::Read(b"d", 0, 10), Want::No(5)),
    (Act::List(b"q"), Want::No(3)),
    (Act::Stat(b"q"), Want::No(3)),
    (Act::Stat(b"ab"), Want::No(4)),
    (Act::Mkdir(b"qq"), Want::No(3)),
    (Act::Rename(b"a", b"ab"), Want::No(4)),
    (Act::Rename(b"a", b"qq"), Want::No(3)),
    // Onto an existing name inside itself, and renames of the root and onto it.
    (Act::Rename(b"d", b"df"), Want::No(6)),
    (Act::Rename(b"", b""), Want::No(6)),
    (Act::Rename(b"", b"e"), Want::No(7)),
    (Act::Rename(b"x", b""), Want::No(3)),
];

#[test]
fn refusals_come_in_their_order_and_are_told_before(rt: HostRuntime) -> Result<(), Fail> {
    assert!(rt; session(rt.alloc(), REFUSALS)?);
    Ok(())
}

// ---- bytes

const AT_THE_LIMIT: &[Row] = &[
    (Act::Create(b"z"), Want::Done),
    (Act::Write(b"z", 4_294_967_295, b"xy"), Want::No(10)),
    (
        Act::Write(b"z", 18_446_744_073_709_551_615, b"x"),
        Want::No(10),
    ),
    (Act::Write(b"z", 4_294_967_296, b""), Want::Done),
    (Act::Write(b"z", 4_294_967_297, b""), Want::No(10)),
    (Act::Truncate(b"z", 4_294_967_297), Want::No(10)),
    (Act::Write(b"z", 3, b"abc"), Want::Done),
    (Act::Read(b"z", 0, 65_536), Want::Bytes(b"\0\0\0abc")),
    (Act::Read(b"z", 4, 10), Want::Bytes(b"bc")),
    (Act::Read(b"z", 6, 10), Want::Bytes(b"")),
    (Act::Read(b"z", 4_294_967_295, 10), Want::Bytes(b"")),
];

const CUT_AND_GROWN: &[Row] = &[
    (Act::Create(b"z"), Want::Done),
    (Act::Write(b"z", 0, b"abcdef"), Want::Done),
    (Act::Truncate(b"z", 4), Want::Done),
    (Act::Truncate(b"z", 6), Want::Done),
    (Act::Read(b"z", 0, 10), Want::Bytes(b"abcd\0\0")),
];

#[test]
fn bytes_end_at_the_limit(rt: HostRuntime) -> Result<(), Fail> {
    assert!(rt; session(rt.alloc(), AT_THE_LIMIT)?);
    Ok(())
}

#[test]
fn cut_bytes_come_back_as_zeros(rt: HostRuntime) -> Result<(), Fail> {
    assert!(rt; session(rt.alloc(), CUT_AND_GROWN)?);
    Ok(())
}

// ---- numbers and entries

const REMOVED_AND_MADE: &[Row] = &[
    (Act::Create(b"a"), Want::Done),
    (Act::Mkdir(b"d"), Want::Done),
    (Act::Create(b"df"), Want::Done),
    (Act::Remove(b"a"), Want::Done),
    (Act::Create(b"dg"), Want::Done),
    (Act::Stat(b"dg"), Want::Node(Kind::File, 2, 0)),
    (Act::Stat(b"df"), Want::Node(Kind::File, 4, 0)),
    (Act::Stat(b"d"), Want::Node(Kind::Directory, 3, 2)),
    (Act::Stat(b""), Want::Node(Kind::Directory, 1, 1)),
];

#[test]
fn numbers_are_given_again(rt: HostRuntime) -> Result<(), Fail> {
    assert!(rt; session(rt.alloc(), REMOVED_AND_MADE)?);
    Ok(())
}

const LONG: &[u8] = &[b'b'; 250];

const NAMED: &[Row] = &[
    (Act::CreateNamed(b"b\xff"), Want::Done),
    (Act::CreateNamed(b"\x01"), Want::Done),
    (Act::CreateNamed(LONG), Want::Done),
    (Act::CreateNamed(b"b"), Want::Done),
    (
        Act::List(b""),
        Want::Files(&[(3, b"\x01"), (5, b"b"), (4, LONG), (2, b"b\xff")]),
    ),
];

#[test]
fn entries_are_in_the_order_of_their_bytes(rt: HostRuntime) -> Result<(), Fail> {
    assert!(rt; session(rt.alloc(), NAMED)?);
    Ok(())
}

// ---- a directory that goes deeper than a command's path

// A path of 32 directories, and one of 20 with a file in the last.
const ROW: &[u8] = b"aaaaaaaaaaaaaaaaaaaaaaaaaaaaaaaa";

const BELOW: &[u8] = b"aaaaaaaaaaaaaaaaaaaaa";

const FILE: &[u8] = b"baaaaaaaaaaaaaaaaaaaa";

// Two rows of 20 directories one in another. The second goes below the first, where the file is the 41st name of its path, and comes back.
const DOWN_AND_BACK: &[Row] = &[
    (Act::Mkdir(b"a"), Want::Done),
    (Act::Mkdir(b"b"), Want::Done),
    (Act::Mkdir(b"aa"), Want::Done),
    (Act::Mkdir(b"ba"), Want::Done),
    (Act::Mkdir(b"aaa"), Want::Done),
    (Act::Mkdir(b"baa"), Want::Done),
    (Act::Mkdir(b"aaaa"), Want::Done),
    (Act::Mkdir(b"baaa"), Want::Done),
    (Act::Mkdir(b"aaaaa"), Want::Done),
    (Act::Mkdir(b"baaaa"), Want::Done),
    (Act::Mkdir(b"aaaaaa"), Want::Done),
    (Act::Mkdir(b"baaaaa"), Want::Done),
    (Act::Mkdir(b"aaaaaaa"), Want::Done),
    (Act::Mkdir(b"baaaaaa"), Want::Done),
    (Act::Mkdir(b"aaaaaaaa"), Want::Done),
    (Act::Mkdir(b"baaaaaaa"), Want::Done),
    (Act::Mkdir(b"aaaaaaaaa"), Want::Done),
    (Act::Mkdir(b"baaaaaaaa"), Want::Done),
    (Act::Mkdir(b"aaaaaaaaaa"), Want::Done),
    (Act::Mkdir(b"baaaaaaaaa"), Want::Done),
    (Act::Mkdir(b"aaaaaaaaaaa"), Want::Done),
    (Act::Mkdir(b"baaaaaaaaaa"), Want::Done),
    (Act::Mkdir(b"aaaaaaaaaaaa"), Want::Done),
    (Act::Mkdir(b"baaaaaaaaaaa"), Want::Done),
    (Act::Mkdir(b"aaaaaaaaaaaaa"), Want::Done),
    (Act::Mkdir(b"baaaaaaaaaaaa"), Want::Done),
    (Act::Mkdir(b"aaaaaaaaaaaaaa"), Want::Done),
    (Act::Mkdir(b"baaaaaaaaaaaaa"), Want::Done),
    (Act::Mkdir(b"aaaaaaaaaaaaaaa"), Want::Done),
    (Act::Mkdir(b"baaaaaaaaaaaaaa"), Want::Done),
    (Act::Mkdir(b"aaaaaaaaaaaaaaaa"), Want::Done),
    (Act::Mkdir(b"baaaaaaaaaaaaaaa"), Want::Done),
    (Act::Mkdir(b"aaaaaaaaaaaaaaaaa"), Want::Done),
    (Act::Mkdir(b"baaaaaaaaaaaaaaaa"), Want::Done),
    (Act::Mkdir(b"aaaaaaaaaaaaaaaaaa"), Want::Done),
    (Act::Mkdir(b"baaaaaaaaaaaaaaaaa"), Want::Done),
    (Act::Mkdir(b"aaaaaaaaaaaaaaaaaaa"), Want::Done),
    (Act::Mkdir(b"baaaaaaaaaaaaaaaaaa"), Want::Done),
    (Act::Mkdir(b"aaaaaaaaaaaaaaaaaaaa"), Want::Done),
    (Act::Mkdir(b"baaaaaaaaaaaaaaaaaaa"), Want::Done),
    (Act::Create(FILE), Want::Done),
    (Act::Write(FILE, 0, b"deep"), Want::Done),
    (Act::Rename(b"b", BELOW), Want::Done),
    (Act::List(ROW), Want::Count(1)),
    (Act::Stat(ROW), Want::Node(Kind::Directory, 25, 1)),
    (Act::Rename(BELOW, b"b"), Want::Done),
    (Act::Read(FILE, 0, 10), Want::Bytes(b"deep")),
];

#[test]
fn a_deep_directory_comes_back(rt: HostRuntime) -> Result<(), Fail> {
    assert!(rt; session(rt.alloc(), DOWN_AND_BACK)?);
    Ok(())
}

// ---- limits

// A name of so many bytes, at most 250.
fn push_name(names: &mut Vec<Name>, size: usize) -> Result<(), Fail> {
    let name = Name::new(&[b'n'; 250][..size.min(250)])?;
    names.push(name)?;
    Ok(())
}

// As many names, each of so many bytes.
fn names(alloc: Global, count: usize, size: usize) -> Result<Vec<Name>, Fail> {
    let mut names = Vec::new(alloc);
    for _ in 0..count {
        push_name(&mut names, size)?;
    }
    Ok(names)
}

// The length of the path of these names, and 0 where they make none.
fn length_of(names: NameList) -> usize {
    match Path::new(names) {
        Ok(path) => path.length(),
        Err(_) => 0,
    }
}

// The same of so many names of so many bytes, and one more of so many.
fn long_path(alloc: Global, count: usize, size: usize, last: usize) -> Result<usize, Fail> {
    let mut all = names(alloc, count, size)?;
    push_name(&mut all, last)?;
    Ok(length_of(NameList::from_vec(all)))
}

// 32 names, and 33; 4 names of 250 bytes and one of 19, which have length 1,024, and one of 20.
const PATHS: &[(usize, usize, usize, usize)] = &[
    (31, 1, 1, 64),
    (32, 1, 1, 0),
    (4, 250, 19, 1_024),
    (4, 250, 20, 0),
];

fn paths_are(alloc: Global, rows: &[(usize, usize, usize, usize)]) -> Result<bool, Fail> {
    for (count, size, last, want) in rows {
        if long_path(alloc, *count, *size, *last)? != *want {
            return Ok(false);
        }
    }
    Ok(true)
}

#[test]
fn paths_have_limits(rt: HostRuntime) -> Result<(), Fail> {
    assert!(rt; paths_are(rt.alloc(), PATHS)?);
    Ok(())
}

fn is_payload(alloc: Global, size: usize) -> Result<bool, Fail> {
    let mut bytes = Vec::new(alloc);
    bytes.resize(size, b'x')?;
    Ok(Payload::new(ByteList::from_vec(bytes)).is_ok())
}

fn payloads_end(alloc: Global) -> Result<bool, Fail> {
    Ok(is_payload(alloc, 65_536)? && !is_payload(alloc, 65_537)?)
}

fn limits_hold(alloc: Global) -> Result<bool, Fail> {
    let reads_end = ReadLength::new(65_536).is_ok() && ReadLength::new(65_537).is_err();
    Ok(reads_end && Refusal::OutOfMemory.number() == 15 && payloads_end(alloc)?)
}

#[test]
fn payloads_have_limits(rt: HostRuntime) -> Result<(), Fail> {
    assert!(rt; limits_hold(rt.alloc())?);
    Ok(())
}
