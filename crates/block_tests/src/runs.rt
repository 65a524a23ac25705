//! The free blocks of a list of counts, and the runs that are taken of them, by the rule of runs.
use run_allocator::{FreeMap, TakeFault};
use std::alloc::Global;
use std::test::Fail;
use vol_numbers::{CountList, Geometry, Run};

/// The blocks whose count is 0. The area of 230 blocks begins at 3 + 2 + 64 + 32 = 101, so 50, 100, 230 and 239 are outside it.
const ZEROS: &[u32] = &[50, 100, 200, 201, 210, 211, 212, 220, 221, 222, 230, 239];

/// The same, and the first and the last block of the area.
const WITH_ENDS: &[u32] = &[100, 101, 102, 228, 229, 230];

/// How many are taken, as which runs (first and length), and how many are then free.
type Row = (u32, &'static [(u32, u32)], u32);

const OF_EIGHT: &[Row] = &[
    (1, &[(200, 1)], 7),
    (2, &[(200, 2)], 6),
    (3, &[(210, 3)], 5),
    (4, &[(210, 3), (200, 1)], 4),
    (5, &[(210, 3), (200, 2)], 3),
    (6, &[(210, 3), (220, 3)], 2),
    (7, &[(210, 3), (220, 3), (200, 1)], 1),
    (8, &[(210, 3), (220, 3), (200, 2)], 0),
];

/// One after the other of one set.
const IN_TURN: &[Row] = &[
    (1, &[(200, 1)], 7),
    (2, &[(210, 2)], 5),
    (1, &[(201, 1)], 4),
    (2, &[(220, 2)], 2),
    (2, &[(212, 1), (222, 1)], 0),
];

const OF_ENDS: &[Row] = &[(4, &[(101, 2), (228, 2)], 0)];

/// Forty runs in a volume of 1,000 blocks, whose area begins at 101 too. The run i begins at 110 + 22 i and has 1 + (7 i mod 20) blocks,
/// so each length from 1 to 20 is there twice. As 7 times 3 is 1 more than 20, the runs of L blocks are i = 3 (L - 1) mod 20 and i + 20.
/// There are 2 (1 + 2 + .. + 20) = 420 blocks.
///
/// Of 293 blocks the runs of 20 down to 12 blocks take 2 (20 + 19 + .. + 12) = 288 whole, and 5 are left. The lowest run that
/// has 5 is run 1, of 8 blocks at 132. Then 11 blocks are the lowest of the two runs of 11, run 10 at 330, and 3 are what run 1
/// has left. The other 113 are runs 30 (11 blocks), 7 and 27 (10), 4 and 24 (9), 21 (8), 18 and 38 (7), and on.
const OF_FORTY: &[Row] = &[
    (
        293,
        &[
            (484, 20),
            (924, 20),
            (418, 19),
            (858, 19),
            (352, 18),
            (792, 18),
            (286, 17),
            (726, 17),
            (220, 16),
            (660, 16),
            (154, 15),
            (594, 15),
            (528, 14),
            (968, 14),
            (462, 13),
            (902, 13),
            (396, 12),
            (836, 12),
            (132, 5),
        ],
        127,
    ),
    (11, &[(330, 11)], 116),
    (3, &[(137, 3)], 113),
    (
        113,
        &[
            (770, 11),
            (264, 10),
            (704, 10),
            (198, 9),
            (638, 9),
            (572, 8),
            (506, 7),
            (946, 7),
            (440, 6),
            (880, 6),
            (374, 5),
            (814, 5),
            (308, 4),
            (748, 4),
            (242, 3),
            (682, 3),
            (176, 2),
            (616, 2),
            (110, 1),
            (550, 1),
        ],
        0,
    ),
];

fn count_of(zeros: &[u32], b: u32) -> u32 {
    if zeros.contains(&b) { 0 } else { 1 }
}

/// The counts of 240 blocks.
fn counts_of(alloc: Global, zeros: &[u32]) -> Result<CountList, Fail> {
    let mut counts = Vec::new(alloc);
    for b in 0..240 {
        counts.push(count_of(zeros, b))?;
    }
    Ok(CountList::from_vec(counts))
}

/// The count of a block of the volume of forty runs.
fn count_of_forty(b: u32) -> u32 {
    let beyond = b.saturating_sub(110);
    let run = beyond / 22;
    if b >= 110 && run < 40 && beyond % 22 < 1 + 7 * run % 20 {
        0
    } else {
        1
    }
}

/// The counts of the volume of forty runs.
fn counts_of_forty(alloc: Global) -> Result<CountList, Fail> {
    let mut counts = Vec::new(alloc);
    for b in 0..1000 {
        counts.push(count_of_forty(b))?;
    }
    Ok(CountList::from_vec(counts))
}

/// The free blocks of a volume, where there are enough counts.
fn free_in(alloc: Global, counts: &CountList, g: Geometry) -> Result<Option<FreeMap>, Fail> {
    if counts.len() < g.blocks() as usize {
        return Ok(None);
    }
    Ok(Some(FreeMap::of(alloc, counts, &g)?))
}

/// The free blocks of a volume of 230 blocks.
fn free_of(alloc: Global, zeros: &[u32]) -> Result<Option<FreeMap>, Fail> {
    let counts = counts_of(alloc, zeros)?;
    match Geometry::new(230, 64) {
        Ok(g) => free_in(alloc, &counts, g),
        Err(_) => Ok(None),
    }
}

/// The forty runs.
fn forty_runs(alloc: Global) -> Result<Option<FreeMap>, Fail> {
    let counts = counts_of_forty(alloc)?;
    match Geometry::new(1000, 64) {
        Ok(g) => free_in(alloc, &counts, g),
        Err(_) => Ok(None),
    }
}

fn are_these(runs: &[Run], want: &[(u32, u32)]) -> bool {
    for (run, row) in runs.iter().zip(want.iter()) {
        if run.first != row.0 || run.length != row.1 {
            return false;
        }
    }
    runs.len() == want.len()
}

/// Whether the row's blocks are taken as its runs.
fn takes(free: &mut FreeMap, row: &Row) -> bool {
    if row.0 == 0 {
        return false;
    }
    match free.take_run(row.0) {
        Ok(runs) => are_these(runs.as_slice(), row.1) && free.free() == row.2,
        Err(_) => false,
    }
}

/// Whether the same is taken of a copy.
fn copy_takes(free: &FreeMap, row: &Row) -> bool {
    match free.copy() {
        Ok(mut copy) => takes(&mut copy, row),
        Err(_) => false,
    }
}

/// Whether more than are free are refused as too few, twice in turn.
fn is_short(free: &mut FreeMap, n: u32, want: u32) -> bool {
    if n == 0 {
        return false;
    }
    match free.take_run(n) {
        Ok(_) => false,
        Err(fault) => fault == TakeFault::Short { free: want },
    }
}

/// Whether each row holds of a fresh set, after more than it has were asked for and the row's blocks were taken of a copy.
fn take_fresh(alloc: Global, zeros: &[u32], rows: &[Row], all: u32) -> Result<bool, Fail> {
    for row in rows {
        let holds = match free_of(alloc, zeros)? {
            Some(mut free) => free.free() == all
                && is_short(&mut free, all.saturating_add(1), all)
                && copy_takes(&free, row)
                && takes(&mut free, row),
            None => false,
        };
        if !holds {
            return Ok(false);
        }
    }
    Ok(true)
}

fn take_all(free: &mut FreeMap, rows: &[Row]) -> bool {
    for row in rows {
        if !takes(free, row) {
            return false;
        }
    }
    is_short(free, 1, 0)
}

/// Whether the rows hold one after the other, and then nothing is left.
fn take_in_turn(alloc: Global, zeros: &[u32], rows: &[Row]) -> Result<bool, Fail> {
    match free_of(alloc, zeros)? {
        Some(mut free) => Ok(take_all(&mut free, rows)),
        None => Ok(false),
    }
}

#[test]
fn runs_are_taken_by_the_rule(rt: HostRuntime) -> Result<(), Fail> {
    assert!(rt; take_fresh(rt.alloc(), ZEROS, OF_EIGHT, 8)?);
    Ok(())
}

#[test]
fn runs_are_taken_in_turn(rt: HostRuntime) -> Result<(), Fail> {
    assert!(rt; take_in_turn(rt.alloc(), ZEROS, IN_TURN)?);
    Ok(())
}

/// Whether the rows hold one after the other of the forty runs, and then nothing is left.
fn take_many_in_turn(alloc: Global, rows: &[Row]) -> Result<bool, Fail> {
    match forty_runs(alloc)? {
        Some(mut free) => Ok(free.free() == 420 && take_all(&mut free, rows)),
        None => Ok(false),
    }
}

#[test]
fn runs_are_taken_in_many_pieces(rt: HostRuntime) -> Result<(), Fail> {
    assert!(rt; take_many_in_turn(rt.alloc(), OF_FORTY)?);
    Ok(())
}

#[test]
fn the_ends_of_the_area_are_free(rt: HostRuntime) -> Result<(), Fail> {
    assert!(rt; take_fresh(rt.alloc(), WITH_ENDS, OF_ENDS, 4)?);
    Ok(())
}
