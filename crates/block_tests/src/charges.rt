//! What writes are charged, and when a charge fits.
use space_account::{charge, fits, reserve};
use std::alloc::Global;
use std::test::Fail;
use tree_model::{Command, Path, Payload};
use vol_numbers::ByteList;

/// An offset, how many bytes are written from there on, and the charge: eight, and one for each 4,096 bytes from a multiple of that on which
/// one of them lies.
type Row = (u64, u32, u32);

const WRITES: &[Row] = &[
    (0, 1, 9),
    (4_095, 1, 9),
    (4_095, 2, 10),
    (4_096, 4_096, 9),
    (0, 4_097, 10),
    (1, 4_096, 10),
    (0, 65_536, 24),
    (1, 65_536, 25),
    (4_095, 65_536, 25),
    (u64::MAX - 4_095, 65_536, 24),
    (u64::MAX, 65_536, 25),
];

/// What is free, what is pending, a charge, a reserve, and whether they fit.
const FITS: &[(u32, u32, u32, u32, bool)] = &[
    (64, 24, 24, 16, true),
    (63, 24, 24, 16, false),
    (0, 0, 0, 0, true),
    (u32::MAX, u32::MAX - 40, 24, 16, true),
    (u32::MAX, u32::MAX - 39, 24, 16, false),
    (u32::MAX, u32::MAX, u32::MAX, u32::MAX, false),
];

/// So many bytes.
fn bytes(alloc: Global, len: u32) -> Result<ByteList, Fail> {
    let mut bytes = Vec::new(alloc);
    for _ in 0..len {
        bytes.push(0)?;
    }
    Ok(ByteList::from_vec(bytes))
}

/// A write of so many bytes. Where they are more than a command may have, it is another command.
fn write(alloc: Global, offset: u64, len: u32) -> Result<Command, Fail> {
    match Payload::new(bytes(alloc, len)?) {
        Ok(bytes) => Ok(Command::Write {
            path: Path::root(alloc),
            offset,
            bytes,
        }),
        Err(_) => Ok(Command::End),
    }
}

/// The charge and the reserve of a change, and none of another command.
fn need_of(command: &Command) -> (u32, u32) {
    if command.is_change() {
        (charge(command), reserve(command))
    } else {
        (0, 0)
    }
}

fn is_charged(alloc: Global, row: &Row) -> Result<bool, Fail> {
    let command = write(alloc, row.0, row.1)?;
    let need = need_of(&command);
    drop(command);
    Ok(need == (row.2, 16))
}

fn all_are_charged(alloc: Global) -> Result<bool, Fail> {
    for row in WRITES {
        if !is_charged(alloc, row)? {
            return Ok(false);
        }
    }
    Ok(true)
}

#[test]
fn writes_are_charged_by_their_places(rt: HostRuntime) -> Result<(), Fail> {
    assert!(rt; all_are_charged(rt.alloc())?);
    Ok(())
}

fn all_fit() -> bool {
    for row in FITS {
        if fits(row.0, row.1, row.2, row.3) != row.4 {
            return false;
        }
    }
    true
}

#[test]
fn what_is_free_is_just_enough(rt: HostRuntime) -> Result<(), Fail> {
    assert!(rt; all_fit());
    Ok(())
}
