//! Two files with dirty places, and free blocks in four runs.
ghost use Rattle.std.specs.Prelude.{◌<◌, All, IfOk};
ghost use Rattle.dirty_store.specs.Overlay.{IsEffect};

use block_format::Inode;
use dirty_store::{DirtyStore, Effect, SlotChangeList, Touched, TouchedList};
use fresh_runs::{Placed, place_fresh};
use run_allocator::{FreeMap, TakeFault};
use std::alloc::{AllocError, Global};
use std::test::Fail;
use tree_model::{Line, LineKind};
use vol_numbers::{Block, Change, CountList, Geometry};

/// File 2 has a run of three dirty places and one of one, file 3 a run of four.
const OF_TWO: &[u32] = &[0, 1, 2, 5];

const OF_THREE: &[u32] = &[6, 7, 8, 9];

/// The free blocks of a volume of 230 blocks, whose area begins at 101: runs of two, three, two and one.
const FREE: &[u32] = &[101, 102, 110, 111, 112, 120, 121, 123];

/// One block fewer than places are dirty.
const TOO_FEW: &[u32] = &[101, 102, 110, 111, 112, 120, 121];

/// Number, place, length and block. The run of three places gets the lowest run of three, 110. The single place gets the lowest block, 101.
/// For four places no run is long enough. So the longest is taken whole, 120 and 121, then of two runs of one the lower, 102, and then 123.
const LINES: &[(u32, u32, u32, u32)] = &[
    (2, 0, 3, 110),
    (2, 5, 1, 101),
    (3, 6, 2, 120),
    (3, 8, 1, 102),
    (3, 9, 1, 123),
];

/// The places of each file with their blocks.
const CHANGES_OF_TWO: &[(u32, u32)] = &[(0, 110), (1, 111), (2, 112), (5, 101)];

const CHANGES_OF_THREE: &[(u32, u32)] = &[(6, 120), (7, 121), (8, 102), (9, 123)];

fn touched_of(alloc: Global, places: &[u32]) -> Result<TouchedList, AllocError>
    ensures { IfOk result (λ list. All (λ t. t.place < 1048576) list) }
{
    let mut list = Vec::new(alloc);
    for place in places {
        list.push(Touched {
            place: *place % 1_048_576,
            block: Block::zero(),
        })?;
    }
    Ok(TouchedList::from_vec(list))
}

fn written(alloc: Global, number: u32, places: &[u32]) -> Result<Effect, AllocError>
    ensures { IfOk result IsEffect }
{
    let touched = touched_of(alloc, places)?;
    Ok(Effect {
        number,
        inode: Inode::File {
            size: 40_960,
            height: 0,
            ptr: 0,
        },
        cut_to: None,
        touched,
        slots: SlotChangeList::new(alloc),
    })
}

fn write(
    alloc: Global,
    store: &mut DirtyStore,
    number: u32,
    places: &[u32],
) -> Result<(), AllocError> {
    let effect = written(alloc, number, places)?;
    store.stage(alloc, effect)?;
    Ok(())
}

fn two_files(alloc: Global) -> Result<DirtyStore, AllocError> {
    let mut store = DirtyStore::new(alloc);
    write(alloc, &mut store, 3, OF_THREE)?;
    write(alloc, &mut store, 2, OF_TWO)?;
    Ok(store)
}

fn counts_of(alloc: Global, zeros: &[u32]) -> Result<CountList, Fail> {
    let mut counts = Vec::new(alloc);
    for b in 0..240 {
        counts.push(u32::from(!zeros.contains(&b)))?;
    }
    Ok(CountList::from_vec(counts))
}

fn free_in(alloc: Global, counts: &CountList, g: Geometry) -> Result<Option<FreeMap>, Fail> {
    if counts.len() < g.blocks() as usize {
        return Ok(None);
    }
    Ok(Some(FreeMap::of(alloc, counts, &g)?))
}

fn free_of(alloc: Global, zeros: &[u32]) -> Result<Option<FreeMap>, Fail> {
    let counts = counts_of(alloc, zeros)?;
    match Geometry::new(230, 64) {
        Ok(g) => free_in(alloc, &counts, g),
        Err(_) => Ok(None),
    }
}

fn are_lines(lines: &[Line], want: &[(u32, u32, u32, u32)]) -> bool {
    for (line, row) in lines.iter().zip(want.iter()) {
        if line.kind != LineKind::Fresh
            || (line.number, line.place, line.length, line.block) != *row
        {
            return false;
        }
    }
    lines.len() == want.len()
}

fn are_changes(changes: &[Change], want: &[(u32, u32)]) -> bool {
    for (change, row) in changes.iter().zip(want.iter()) {
        if (change.place, change.block) != *row {
            return false;
        }
    }
    changes.len() == want.len()
}

fn is_as_wanted(placed: &Placed) -> bool {
    if placed.changes.len() != 2 || placed.blocks != 8 || placed.left.free() != 0 {
        return false;
    }
    if !are_lines(placed.lines.as_slice(), LINES) {
        return false;
    }
    are_changes(placed.changes[0].as_slice(), CHANGES_OF_TWO)
        && are_changes(placed.changes[1].as_slice(), CHANGES_OF_THREE)
}

fn place(alloc: Global, store: &DirtyStore, free: &FreeMap) -> Result<Placed, TakeFault> {
    let numbers = store.numbers(alloc)?;
    place_fresh(alloc, store, numbers.as_slice(), free)
}

fn are_placed(alloc: Global) -> Result<bool, Fail> {
    let store = two_files(alloc)?;
    match free_of(alloc, FREE)? {
        Some(free) => Ok(match place(alloc, &store, &free) {
            Ok(placed) => is_as_wanted(&placed),
            Err(_) => false,
        }),
        None => Ok(false),
    }
}

fn is_short(alloc: Global) -> Result<bool, Fail> {
    let store = two_files(alloc)?;
    match free_of(alloc, TOO_FEW)? {
        Some(free) => Ok(match place(alloc, &store, &free) {
            Err(TakeFault::Short { free }) => free == 7,
            _ => false,
        }),
        None => Ok(false),
    }
}

#[test]
fn places_get_the_blocks_of_the_rule(rt: HostRuntime) -> Result<(), Fail> {
    assert!(rt; are_placed(rt.alloc())?);
    Ok(())
}

#[test]
fn too_few_blocks_are_short(rt: HostRuntime) -> Result<(), Fail> {
    assert!(rt; is_short(rt.alloc())?);
    Ok(())
}
