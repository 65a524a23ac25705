//! The cache list after uses of blocks, by the rule of the list.
ghost use Rattle.std.specs.Prelude.{◌≡◌, ◌<◌};

use content_model::{ContentCache, Fingerprint, KinList, PlainCache, Steps};
use std::alloc::Global;
use std::marker::Brand;
use std::sync::ledger::{Blank, Ledger};
use std::test::Fail;
use vol_numbers::BlockNo;

/// What a cache of some capacity has after uses: blocks with a byte that tells their fingerprints.
struct Row {
    capacity: u32,
    uses: &'static [(BlockNo, u8)],
    forgotten: &'static [BlockNo],
    /// The blocks of the list, the one used last in front.
    list: &'static [BlockNo],
    /// The blocks of fingerprints, and blocks that aren't there.
    kin: &'static [(u8, &'static [BlockNo])],
    absent: &'static [BlockNo],
}

/// Nine uses of one fingerprint.
const NINE: &[(BlockNo, u8)] = &[
    (200, 7),
    (201, 7),
    (202, 7),
    (203, 7),
    (204, 7),
    (205, 7),
    (206, 7),
    (207, 7),
    (208, 7),
];

/// The same, and two more: 201 goes to the front, and 209 is the ninth, so 202 leaves.
const ELEVEN: &[(BlockNo, u8)] = &[
    (200, 7),
    (201, 7),
    (202, 7),
    (203, 7),
    (204, 7),
    (205, 7),
    (206, 7),
    (207, 7),
    (208, 7),
    (201, 7),
    (209, 7),
];

/// Seventeen uses of blocks with fingerprints of their own.
const SEVENTEEN: &[(BlockNo, u8)] = &[
    (100, 0),
    (101, 1),
    (102, 2),
    (103, 3),
    (104, 4),
    (105, 5),
    (106, 6),
    (107, 7),
    (108, 8),
    (109, 9),
    (110, 10),
    (111, 11),
    (112, 12),
    (113, 13),
    (114, 14),
    (115, 15),
    (116, 16),
];

const ROWS: &[Row] = &[
    // A file of eight blocks was stored.
    Row {
        capacity: 16,
        uses: &[
            (105, b'A'),
            (106, b'B'),
            (107, b'C'),
            (108, b'D'),
            (109, b'E'),
            (110, b'F'),
            (111, b'G'),
            (112, b'H'),
        ],
        forgotten: &[],
        list: &[112, 111, 110, 109, 108, 107, 106, 105],
        kin: &[(b'A', &[105]), (b'H', &[112]), (b'I', &[])],
        absent: &[104, 113],
    },
    // What is behind the capacity leaves.
    Row {
        capacity: 16,
        uses: SEVENTEEN,
        forgotten: &[],
        list: &[
            116, 115, 114, 113, 112, 111, 110, 109, 108, 107, 106, 105, 104, 103, 102, 101,
        ],
        kin: &[(0, &[]), (1, &[101])],
        absent: &[100],
    },
    // The last of nine of a fingerprint leaves.
    Row {
        capacity: 16,
        uses: NINE,
        forgotten: &[],
        list: &[208, 207, 206, 205, 204, 203, 202, 201],
        kin: &[(7, &[201, 202, 203, 204, 205, 206, 207, 208])],
        absent: &[200],
    },
    Row {
        capacity: 16,
        uses: ELEVEN,
        forgotten: &[],
        list: &[209, 201, 208, 207, 206, 205, 204, 203],
        kin: &[(7, &[201, 203, 204, 205, 206, 207, 208, 209])],
        absent: &[200, 202],
    },
    // A block that is used again has its new fingerprint alone.
    Row {
        capacity: 16,
        uses: &[(300, 1), (301, 1), (300, 2)],
        forgotten: &[],
        list: &[300, 301],
        kin: &[(1, &[301]), (2, &[300])],
        absent: &[],
    },
    // Blocks are forgotten, also one that isn't there.
    Row {
        capacity: 16,
        uses: NINE,
        forgotten: &[204, 999],
        list: &[208, 207, 206, 205, 203, 202, 201],
        kin: &[(7, &[201, 202, 203, 205, 206, 207, 208])],
        absent: &[200, 204, 999],
    },
    // A list with no room stays empty.
    Row {
        capacity: 0,
        uses: &[(300, 1)],
        forgotten: &[],
        list: &[],
        kin: &[(1, &[])],
        absent: &[300],
    },
];

/// A fingerprint of 32 times a byte.
fn print_of(byte: u8) -> Fingerprint {
    Fingerprint::new([byte; 32])
}

fn use_all<K: ContentCache>(cache: &mut K, uses: &[(BlockNo, u8)]) {
    for row in uses {
        cache.use_block(&print_of(row.1), row.0);
    }
}

fn forget_all<K: ContentCache>(cache: &mut K, blocks: &[BlockNo]) {
    for at in blocks {
        cache.forget(*at);
    }
}

/// Whether the list has these blocks from front to back.
fn has_list<K: ContentCache, L: Ledger>(cache: &K, want: &[BlockNo], steps: &mut Steps<L>) -> bool {
    let mut at = cache.older(None);
    for block in want {
        if at != Some(*block) {
            return false;
        }
        if !cache.has(*block, steps) {
            return false;
        }
        at = cache.older(Some(*block));
    }
    at.is_none()
}

fn is_kin<K: ContentCache, L: Ledger>(
    cache: &K,
    byte: u8,
    want: &[BlockNo],
    steps: &mut Steps<L>,
) -> bool {
    let mut kin = KinList::new();
    cache.kin(&print_of(byte), &mut kin, steps);
    kin.as_slice() == want
}

fn has_kin<K: ContentCache, L: Ledger>(
    cache: &K,
    want: &[(u8, &[BlockNo])],
    steps: &mut Steps<L>,
) -> bool {
    for row in want {
        if !is_kin(cache, row.0, row.1, steps) {
            return false;
        }
    }
    true
}

fn lacks<K: ContentCache, L: Ledger>(cache: &K, blocks: &[BlockNo], steps: &mut Steps<L>) -> bool {
    for at in blocks {
        if cache.has(*at, steps) {
            return false;
        }
    }
    true
}

/// Whether the cache is as the row says, after its uses.
fn is_as<K: ContentCache, L: Ledger>(cache: &mut K, row: &Row, blank: Blank) -> bool
    requires name { blank.name ≡ L.name }
    requires parts { blank.parts ≡ L.parts }
    requires some { 0 < L.parts }
{
    let mut steps = Steps::<L>::new(blank);
    use_all(cache, row.uses);
    forget_all(cache, row.forgotten);
    cache.capacity() == row.capacity
        && has_list(cache, row.list, &mut steps)
        && has_kin(cache, row.kin, &mut steps)
        && lacks(cache, row.absent, &mut steps)
}

fn holds(alloc: Global, row: &Row) -> Result<bool, Fail> {
    let mut cache = PlainCache::with_capacity(alloc, row.capacity)?;
    Ok(is_as::<PlainCache, Brand>(&mut cache, row, Blank::new(1)))
}

fn all_hold(alloc: Global, rows: &[Row]) -> Result<bool, Fail> {
    for row in rows {
        if !holds(alloc, row)? {
            return Ok(false);
        }
    }
    Ok(true)
}

#[test]
fn the_list_is_as_the_rule_says(rt: HostRuntime) -> Result<(), Fail> {
    assert!(rt; all_hold(rt.alloc(), ROWS)?);
    Ok(())
}
