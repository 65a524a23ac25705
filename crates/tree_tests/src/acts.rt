//! Commands whose paths have names of a letter each.
use std::alloc::Global;
use std::test::Fail;
use tree_model::{Command, NameList, Path, Payload, ReadLength};
use vol_numbers::{ByteList, Name};

/// A command whose paths have names of a letter each.
#[derive(Clone, Copy)]
pub(crate) enum Act<'a> {
    Mkdir(&'a [u8]),
    Create(&'a [u8]),
    Write(&'a [u8], u64, &'a [u8]),
    /// Writes one byte so many times.
    Fill(&'a [u8], u64, u8, usize),
    Truncate(&'a [u8], u64),
    Remove(&'a [u8]),
    Rename(&'a [u8], &'a [u8]),
    List(&'a [u8]),
    Stat(&'a [u8]),
    /// Reads at most so many bytes from an offset on.
    Read(&'a [u8], u64, u32),
    /// Makes a file at a path of one name.
    CreateNamed(&'a [u8]),
}

/// A path whose names have a letter each.
fn letters(alloc: Global, text: &[u8]) -> Result<Path, Fail> {
    let mut names = Vec::new(alloc);
    for letter in text {
        names.push(Name::new(&[*letter])?)?;
    }
    Ok(Path::new(NameList::from_vec(names))?)
}

fn written(alloc: Global, path: &[u8], offset: u64, bytes: Vec<u8>) -> Result<Command, Fail> {
    let bytes = Payload::new(ByteList::from_vec(bytes))?;
    write_at(alloc, path, offset, bytes)
}

fn write_at(alloc: Global, path: &[u8], offset: u64, bytes: Payload) -> Result<Command, Fail> {
    let path = letters(alloc, path)?;
    Ok(Command::Write {
        path,
        offset,
        bytes,
    })
}

fn write(alloc: Global, path: &[u8], offset: u64, bytes: &[u8]) -> Result<Command, Fail> {
    let bytes = Vec::from_slice(alloc, bytes)?;
    written(alloc, path, offset, bytes)
}

fn fill(alloc: Global, path: &[u8], offset: u64, byte: u8, count: usize) -> Result<Command, Fail> {
    let mut bytes = Vec::new(alloc);
    bytes.resize(count, byte)?;
    written(alloc, path, offset, bytes)
}

fn rename(alloc: Global, from: &[u8], to: &[u8]) -> Result<Command, Fail> {
    let from = letters(alloc, from)?;
    let to = letters(alloc, to)?;
    Ok(Command::Rename { from, to })
}

fn create_named(alloc: Global, name: &[u8]) -> Result<Command, Fail> {
    let mut names = Vec::new(alloc);
    names.push(Name::new(name)?)?;
    let path = Path::new(NameList::from_vec(names))?;
    Ok(Command::Create { path })
}

fn read_at(alloc: Global, path: &[u8], offset: u64, length: u32) -> Result<Command, Fail> {
    let length = ReadLength::new(length)?;
    let path = letters(alloc, path)?;
    Ok(Command::Read {
        path,
        offset,
        length,
    })
}

fn of_path(act: Act, path: Path) -> Command {
    match act {
        Act::Mkdir(_) => Command::Mkdir { path },
        Act::Create(_) => Command::Create { path },
        Act::Truncate(_, size) => Command::Truncate { path, size },
        Act::Remove(_) => Command::Remove { path },
        Act::List(_) => Command::List { path },
        _ => Command::Stat { path },
    }
}

/// The command of an act.
pub(crate) fn command(alloc: Global, act: Act) -> Result<Command, Fail> {
    match act {
        Act::Write(path, offset, bytes) => write(alloc, path, offset, bytes),
        Act::Fill(path, offset, byte, count) => fill(alloc, path, offset, byte, count),
        Act::Rename(from, to) => rename(alloc, from, to),
        Act::Read(path, offset, length) => read_at(alloc, path, offset, length),
        Act::CreateNamed(name) => create_named(alloc, name),
        Act::Mkdir(path)
        | Act::Create(path)
        | Act::Truncate(path, _)
        | Act::Remove(path)
        | Act::List(path)
        | Act::Stat(path) => Ok(of_path(act, letters(alloc, path)?)),
    }
}
