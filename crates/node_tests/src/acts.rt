//! Commands whose paths have names of a letter each.
use std::alloc::Global;
use std::test::Fail;
use tree_model::{Command, NameList, Path, Payload, ReadLength};
use vol_numbers::{ByteList, Name};

/// A command whose paths have names of a letter each.
#[derive(Clone, Copy)]
pub(crate) enum Act {
    Mkdir(&'static [u8]),
    Create(&'static [u8]),
    /// Writes three bytes.
    Write(&'static [u8], u64),
    Truncate(&'static [u8], u64),
    Remove(&'static [u8]),
    Rename(&'static [u8], &'static [u8]),
    Read(&'static [u8]),
    List(&'static [u8]),
    Layout(&'static [u8]),
}

/// A path whose names have a letter each.
pub(crate) fn letters(alloc: Global, text: &[u8]) -> Result<Path, Fail> {
    let mut names = Vec::new(alloc);
    for letter in text {
        names.push(Name::new(&[*letter])?)?;
    }
    Ok(Path::new(NameList::from_vec(names))?)
}

fn three(alloc: Global) -> Result<Payload, Fail> {
    let bytes = Vec::from_slice(alloc, b"xyz")?;
    Ok(Payload::new(ByteList::from_vec(bytes))?)
}

fn write(alloc: Global, path: &[u8], offset: u64) -> Result<Command, Fail> {
    let bytes = three(alloc)?;
    let path = letters(alloc, path)?;
    Ok(Command::Write {
        path,
        offset,
        bytes,
    })
}

fn rename(alloc: Global, from: &[u8], to: &[u8]) -> Result<Command, Fail> {
    let from = letters(alloc, from)?;
    let to = letters(alloc, to)?;
    Ok(Command::Rename { from, to })
}

fn read(alloc: Global, path: &[u8]) -> Result<Command, Fail> {
    let length = ReadLength::new(1)?;
    let path = letters(alloc, path)?;
    Ok(Command::Read {
        path,
        offset: 0,
        length,
    })
}

fn of_path(act: Act, path: Path) -> Command {
    match act {
        Act::Mkdir(_) => Command::Mkdir { path },
        Act::Create(_) => Command::Create { path },
        Act::Truncate(_, size) => Command::Truncate { path, size },
        Act::Remove(_) => Command::Remove { path },
        Act::List(_) => Command::List { path },
        _ => Command::Layout { path },
    }
}

/// The command of an act.
pub(crate) fn command(alloc: Global, act: Act) -> Result<Command, Fail> {
    match act {
        Act::Write(path, offset) => write(alloc, path, offset),
        Act::Rename(from, to) => rename(alloc, from, to),
        Act::Read(path) => read(alloc, path),
        Act::Mkdir(path)
        | Act::Create(path)
        | Act::Truncate(path, _)
        | Act::Remove(path)
        | Act::List(path)
        | Act::Layout(path) => Ok(of_path(act, letters(alloc, path)?)),
    }
}
