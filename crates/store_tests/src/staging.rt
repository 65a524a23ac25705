//! Effects that are staged and undone, and what is staged after each.
use crate::effects::{Row, effect_of};
use block_format::{Inode, Slot};
use dirty_store::DirtyStore;
use std::alloc::{AllocError, Global};
use std::test::Fail;
use vol_numbers::{Block, Run};

/// What is done to a store, and what it is answered.
#[derive(Clone, Copy)]
enum Act {
    /// An effect is staged.
    Stage(Row),
    /// An effect is staged and undone.
    Try(Row),
    /// A place has a block of this byte, or is not dirty.
    Dirty(u32, u32, Option<u8>),
    /// A node has these runs of dirty places.
    Runs(u32, &'static [(u32, u32)]),
    /// A node has this size, is removed (none), or is not staged (the outer none).
    Size(u32, Option<Option<u64>>),
    /// The least number of blocks that a cut has named.
    CutTo(u32, u32),
    /// A slot holds this number, 0 where it is unused, or is not staged.
    Slot(u32, u32, Option<u32>),
    /// A directory is so wide.
    Width(u32, u32),
    /// These numbers have something staged.
    Numbers(&'static [u32]),
    /// These pages of a directory have a staged slot.
    Pages(u32, &'static [u32]),
}

const NOTHING: Row = Row {
    number: 0,
    size: None,
    cut_to: None,
    touched: &[],
    slots: &[],
};

/// A file 2 in slot 0 of directory 1, written at four places in two runs.
const CREATE: Row = Row {
    number: 2,
    size: Some(0),
    cut_to: Some(0),
    touched: &[],
    slots: &[(1, 0, 2)],
};

const WRITE: Row = Row {
    number: 2,
    size: Some(24_576),
    cut_to: None,
    touched: &[(5, 15), (0, 10), (2, 12), (1, 11)],
    slots: &[],
};

/// A place is written twice, and the last block stays. Place 4 joins two runs.
const REWRITE: Row = Row {
    number: 2,
    size: Some(24_576),
    cut_to: None,
    touched: &[(1, 20), (1, 21), (4, 14)],
    slots: &[],
};

/// The cut is before what is touched: place 1 is cut off and touched.
const TRUNCATE: Row = Row {
    number: 2,
    size: Some(4_100),
    cut_to: Some(1),
    touched: &[(1, 31)],
    slots: &[],
};

const REMOVE: Row = Row {
    number: 2,
    size: None,
    cut_to: Some(0),
    touched: &[],
    slots: &[(1, 0, 0)],
};

/// File 3 beside it, which was there before.
const OTHER: Row = Row {
    number: 3,
    size: Some(40_960),
    cut_to: Some(7),
    touched: &[(6, 66), (7, 67)],
    slots: &[],
};

/// A directory 4 with two slots, in slot 3 of directory 1, and then removed.
const DIRECTORY: Row = Row {
    number: 4,
    size: Some(0),
    cut_to: Some(0),
    touched: &[],
    slots: &[(1, 3, 4), (4, 9, 5), (4, 2, 6)],
};

const REMOVE_DIRECTORY: Row = Row {
    number: 4,
    size: None,
    cut_to: Some(0),
    touched: &[],
    slots: &[(1, 3, 0)],
};

/// Slots of directory 7 on the pages 2, 2, 0 and 1, by an effect on file 5.
const SPREAD: Row = Row {
    number: 5,
    size: Some(16_384),
    cut_to: None,
    touched: &[(3, 53), (2, 52)],
    slots: &[(7, 40, 5), (7, 33, 6), (7, 15, 9), (7, 16, 8)],
};

const FILES: &[Act] = &[
    Act::Numbers(&[]),
    Act::Runs(2, &[]),
    Act::Dirty(2, 0, None),
    Act::Size(2, None),
    Act::CutTo(2, 1_048_576),
    Act::Stage(CREATE),
    Act::Size(2, Some(Some(0))),
    Act::CutTo(2, 0),
    Act::Stage(WRITE),
    Act::Stage(OTHER),
    Act::Runs(2, &[(0, 3), (5, 1)]),
    Act::Runs(3, &[(6, 2)]),
    Act::CutTo(3, 7),
    // Directory 1 has a slot of file 2.
    Act::Numbers(&[1, 2, 3]),
    Act::Pages(1, &[0]),
    Act::Pages(2, &[]),
    Act::Try(REWRITE),
    Act::Dirty(2, 1, Some(11)),
    Act::Dirty(2, 4, None),
    Act::Runs(2, &[(0, 3), (5, 1)]),
    Act::Stage(REWRITE),
    Act::Dirty(2, 1, Some(21)),
    Act::Runs(2, &[(0, 3), (4, 2)]),
    Act::Try(TRUNCATE),
    Act::Dirty(2, 1, Some(21)),
    Act::Dirty(2, 5, Some(15)),
    Act::Size(2, Some(Some(24_576))),
    Act::Try(REMOVE),
    Act::Runs(2, &[(0, 3), (4, 2)]),
    Act::Dirty(2, 0, Some(10)),
    Act::Stage(TRUNCATE),
    Act::Runs(2, &[(0, 2)]),
    Act::Dirty(2, 1, Some(31)),
    Act::Dirty(2, 2, None),
    Act::Size(2, Some(Some(4_100))),
    Act::CutTo(2, 0),
    Act::Stage(REMOVE),
    Act::Runs(2, &[]),
    Act::Size(2, Some(None)),
    Act::Runs(3, &[(6, 2)]),
    Act::Dirty(3, 7, Some(67)),
];

const SLOTS: &[Act] = &[
    Act::Width(1, 0),
    Act::Slot(1, 0, None),
    Act::Stage(CREATE),
    Act::Width(1, 1),
    Act::Slot(1, 0, Some(2)),
    Act::Try(DIRECTORY),
    Act::Width(1, 1),
    Act::Width(4, 0),
    Act::Size(4, None),
    Act::Stage(DIRECTORY),
    Act::Width(1, 4),
    Act::Width(4, 10),
    Act::Slot(4, 2, Some(6)),
    Act::Try(REMOVE_DIRECTORY),
    Act::Width(4, 10),
    Act::Slot(4, 9, Some(5)),
    Act::Slot(1, 3, Some(4)),
    Act::Stage(REMOVE_DIRECTORY),
    Act::Width(4, 0),
    Act::Slot(4, 9, None),
    Act::Slot(1, 3, Some(0)),
    Act::Width(1, 4),
    Act::Stage(NOTHING),
    Act::Width(1, 4),
    Act::Stage(SPREAD),
    // The number 0 is that of an effect that does nothing, and 4 is a removed directory.
    Act::Numbers(&[0, 1, 2, 4, 5, 7]),
    Act::Pages(7, &[0, 1, 2]),
    Act::Pages(4, &[]),
];

fn stage(alloc: Global, store: &mut DirtyStore, row: &Row) -> Result<bool, AllocError> {
    let effect = effect_of(alloc, row)?;
    store.stage(alloc, effect)?;
    Ok(true)
}

fn stage_and_undo(alloc: Global, store: &mut DirtyStore, row: &Row) -> Result<bool, AllocError> {
    let effect = effect_of(alloc, row)?;
    let staged = store.stage(alloc, effect)?;
    store.undo(staged);
    Ok(true)
}

fn is_filled(block: Option<&Block>, byte: Option<u8>) -> bool {
    match (block, byte) {
        (Some(block), Some(byte)) => *block == Block::filled(byte),
        (None, None) => true,
        _ => false,
    }
}

fn number_in(slot: Option<&Slot>) -> Option<u32> {
    match slot {
        Some(Slot::Entry { number, .. }) => Some(*number),
        Some(Slot::Unused) => Some(0),
        None => None,
    }
}

fn size_of(inode: Option<Inode>) -> Option<Option<u64>> {
    match inode {
        Some(Inode::File { size, .. }) => Some(Some(size)),
        Some(_) => Some(None),
        None => None,
    }
}

fn are_runs(runs: &[Run], want: &[(u32, u32)]) -> bool {
    for (run, row) in runs.iter().zip(want.iter()) {
        if run.first != row.0 || run.length != row.1 {
            return false;
        }
    }
    runs.len() == want.len()
}

fn has_runs(
    alloc: Global,
    store: &DirtyStore,
    number: u32,
    want: &[(u32, u32)],
) -> Result<bool, AllocError> {
    let runs = store.runs_of(alloc, number)?;
    Ok(are_runs(runs.as_slice(), want))
}

fn has_numbers(alloc: Global, store: &DirtyStore, want: &[u32]) -> Result<bool, AllocError> {
    let numbers = store.numbers(alloc)?;
    Ok(numbers.as_slice() == want)
}

fn has_pages(
    alloc: Global,
    store: &DirtyStore,
    directory: u32,
    want: &[u32],
) -> Result<bool, AllocError> {
    let pages = store.pages(alloc, directory)?;
    Ok(pages.as_slice() == want)
}

fn is_done(alloc: Global, store: &mut DirtyStore, act: &Act) -> Result<bool, AllocError> {
    match *act {
        Act::Stage(row) => stage(alloc, store, &row),
        Act::Try(row) => stage_and_undo(alloc, store, &row),
        Act::Dirty(number, place, byte) => Ok(is_filled(store.block(number, place), byte)),
        Act::Runs(number, want) => has_runs(alloc, store, number, want),
        Act::Size(number, size) => Ok(size_of(store.inode(number)) == size),
        Act::CutTo(number, blocks) => Ok(store.cut_to(number) == blocks),
        Act::Slot(directory, k, number) => Ok(number_in(store.slot(directory, k)) == number),
        Act::Width(directory, width) => Ok(store.width(directory) == width),
        Act::Numbers(want) => has_numbers(alloc, store, want),
        Act::Pages(directory, want) => has_pages(alloc, store, directory, want),
    }
}

fn are_done(alloc: Global, acts: &[Act]) -> Result<bool, AllocError> {
    let mut store = DirtyStore::new(alloc);
    for act in acts {
        if !is_done(alloc, &mut store, act)? {
            return Ok(false);
        }
    }
    Ok(true)
}

#[test]
fn files_are_staged_and_undone(rt: HostRuntime) -> Result<(), Fail> {
    assert!(rt; are_done(rt.alloc(), FILES)?);
    Ok(())
}

#[test]
fn slots_are_staged_and_forgotten(rt: HostRuntime) -> Result<(), Fail> {
    assert!(rt; are_done(rt.alloc(), SLOTS)?);
    Ok(())
}
