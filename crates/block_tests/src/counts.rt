//! Counts that are written into paired homes and loaded again, also over a disk that fails at each call.
ghost use Rattle.std.specs.Prelude.{◌≡◌, ◌<◌, length, IfSome};
ghost use Rattle.vol_numbers.specs.Geometry.{layout_of};

use block_format::{HomeBits, RootBody};
use count_pairs::CountTable;
use disk_model::{Disk, DiskFault};
use mem_disk::MemDisk;
use std::alloc::{AllocError, Global};
use std::test::Fail;
use vol_numbers::{Block, BlockNo, CallList, Geometry};

/// A volume of 2,100 blocks has three count blocks, with homes 3 and 4, 5 and 6, 7 and 8.
const BLOCKS: u32 = 2_100;

/// What a run over a disk comes to.
#[derive(Clone, Copy, PartialEq, Eq)]
enum Outcome {
    NotLoaded,
    NotWritten,
    /// How often it was tried to write, and the first byte of the home bits that are answered.
    NotLoadedAgain(u32, u8),
    /// The same, and the counts of blocks 105, 1,023, 1,024 and 2,099 that are loaded by these bits.
    Loaded(u32, u8, [u32; 4]),
}

/// The call that fails, and what a run comes to. Calls 0 to 2 load, 3 and 4 write, and the last three load again. A write that fails is
/// tried again as a whole.
const FAILING: &[(u64, Outcome)] = &[
    (0, Outcome::NotLoaded),
    (1, Outcome::NotLoaded),
    (2, Outcome::NotLoaded),
    (3, Outcome::Loaded(2, 5, [1, 1, 0, 1])),
    (4, Outcome::Loaded(2, 5, [1, 1, 0, 1])),
    (5, Outcome::NotLoadedAgain(1, 5)),
    (6, Outcome::NotLoadedAgain(1, 5)),
    (7, Outcome::NotLoadedAgain(1, 5)),
    (8, Outcome::Loaded(1, 5, [1, 1, 0, 1])),
];

/// Blocks with those of their bytes that aren't 0, after the counts were written twice. A count takes four bytes, the lowest first: that of
/// block 105 begins at 420, of 1,023 at 4,092, and of 2,099, which is 51 behind 2,048, at 204.
const TWICE: &[(BlockNo, &[(usize, u8)])] = &[
    (3, &[(420, 2), (4_092, 2)]),
    (4, &[(420, 1), (4_092, 1)]),
    (5, &[]),
    (6, &[]),
    (7, &[(204, 2)]),
    (8, &[(204, 1)]),
];

/// A root whose home bits are all 0.
fn fresh_root() -> Option<RootBody>
    ensures { IfSome result (λ root. layout_of root.geometry ≡ record { blocks = 2100; log_blocks = 64 }) }
{
    let geometry = Geometry::new(BLOCKS, 64).ok()?;
    Some(RootBody {
        geometry,
        point: 0,
        inode_index: 0,
        records: 0,
        log_used: 0,
        homes: HomeBits::zero(),
    })
}

/// One pointer more to a block.
fn point_to(table: &mut CountTable, b: BlockNo)
    requires { b < length table.old.counts }
    ensures counts { length table.new.counts ≡ length table.old.counts }
    ensures touched { length table.new.touched ≡ length table.old.touched }
{
    if table.get(b) < u32::MAX {
        table.add(b);
    }
}

/// One pointer more to blocks of the first and the third count block.
fn point_to_three(table: &mut CountTable)
    requires { length table.old.counts ≡ 3072 }
    ensures counts { length table.new.counts ≡ 3072 }
    ensures touched { length table.new.touched ≡ length table.old.touched }
{
    point_to(table, 105);
    point_to(table, 1_023);
    point_to(table, 2_099);
}

/// The counts of the table, and how often it was tried to write them.
fn load_again<D: Disk>(alloc: Global, disk: &mut D, root: &RootBody, tries: u32) -> Outcome
    requires root { layout_of root.now.geometry ≡ record { blocks = 2100; log_blocks = 64 } }
    requires size { (D.fixed disk.old).size ≡ 2100 }
{
    let bits = root.homes.bytes[0];
    match CountTable::load(alloc, disk, root) {
        Ok(table) => {
            let counts = [
                table.get(105),
                table.get(1_023),
                table.get(1_024),
                table.get(2_099),
            ];
            Outcome::Loaded(tries, bits, counts)
        }
        Err(_) => Outcome::NotLoadedAgain(tries, bits),
    }
}

/// Writes the table, and where that fails writes it once more.
fn write<D: Disk>(disk: &mut D, table: &mut CountTable, homes: &HomeBits) -> Option<(u32, HomeBits)>
    requires three { length table.old.touched ≡ 3 }
    requires size { (D.fixed disk.old).size ≡ 2100 }
    ensures three { length table.new.touched ≡ 3 }
    ensures size { (D.fixed disk.new).size ≡ 2100 }
{
    if let Ok(new) = table.write_changed(disk, homes) {
        return Some((1, new));
    }
    match table.write_changed(disk, homes) {
        Ok(new) => Some((2, new)),
        Err(DiskFault) => None,
    }
}

/// Loads the counts, makes three greater, writes them and loads them again.
fn run<D: Disk>(alloc: Global, disk: &mut D, mut root: RootBody) -> Outcome
    requires root { layout_of root.geometry ≡ record { blocks = 2100; log_blocks = 64 } }
    requires size { (D.fixed disk.old).size ≡ 2100 }
{
    let written = match CountTable::load(alloc, disk, &root) {
        Ok(mut table) => {
            point_to_three(&mut table);
            write(disk, &mut table, &root.homes)
        }
        Err(_) => return Outcome::NotLoaded,
    };
    match written {
        Some((tries, homes)) => {
            root.homes = homes;
            load_again(alloc, disk, &root, tries)
        }
        None => Outcome::NotWritten,
    }
}

/// A list of one call.
fn one_call(alloc: Global, number: u64) -> Result<CallList, AllocError> {
    let mut calls = Vec::new(alloc);
    calls.push(number)?;
    Ok(CallList::from_vec(calls))
}

/// What a run comes to over a disk of which one call fails. A write that fails fills its block with junk.
fn run_failing(alloc: Global, number: u64) -> Result<Option<Outcome>, Fail> {
    let fails = one_call(alloc, number)?;
    let mut disk = MemDisk::new(alloc, BLOCKS)?;
    disk.plan(fails, None, 7);
    match fresh_root() {
        Some(root) => Ok(Some(run(alloc, &mut disk, root))),
        None => Ok(None),
    }
}

fn all_runs_are_so(alloc: Global) -> Result<bool, Fail> {
    for row in FAILING {
        if run_failing(alloc, row.0)? != Some(row.1) {
            return Ok(false);
        }
    }
    Ok(true)
}

#[test]
fn counts_are_written_and_loaded(rt: HostRuntime) -> Result<(), Fail> {
    assert!(rt; all_runs_are_so(rt.alloc())?);
    Ok(())
}

/// The block that has these bytes, and is 0 elsewhere.
fn block_with(bytes: &[(usize, u8)]) -> Block {
    let mut block = Block::zero();
    for byte in bytes {
        if byte.0 < 4_096 {
            block.bytes[byte.0] = byte.1;
        }
    }
    block
}

fn are_these<D: Disk>(disk: &mut D, rows: &[(BlockNo, &[(usize, u8)])]) -> bool {
    let mut block = Block::zero();
    for row in rows {
        if row.0 >= disk.blocks() || disk.read_block(row.0, &mut block).is_err() {
            return false;
        }
        if block != block_with(row.1) {
            return false;
        }
    }
    true
}

/// Makes three counts greater and writes them, twice in turn. The second time each goes into the home of before.
fn write_twice<D: Disk>(disk: &mut D, table: &mut CountTable) -> bool
    requires counts { length table.old.counts ≡ 3072 }
    requires three { length table.old.touched ≡ 3 }
    requires size { (D.fixed disk.old).size ≡ 2100 }
{
    point_to_three(table);
    let homes = match table.write_changed(disk, &HomeBits::zero()) {
        Ok(homes) => homes,
        Err(DiskFault) => return false,
    };
    point_to_three(table);
    table.write_changed(disk, &homes) == Ok(HomeBits::zero()) && are_these(disk, TWICE)
}

fn written_twice(alloc: Global) -> Result<bool, Fail> {
    let mut disk = MemDisk::new(alloc, BLOCKS)?;
    let root = match fresh_root() {
        Some(root) => root,
        None => return Ok(false),
    };
    match CountTable::load(alloc, &mut disk, &root) {
        Ok(mut table) => Ok(write_twice(&mut disk, &mut table)),
        Err(_) => Ok(false),
    }
}

#[test]
fn counts_go_into_the_homes_in_turn(rt: HostRuntime) -> Result<(), Fail> {
    assert!(rt; written_twice(rt.alloc())?);
    Ok(())
}
