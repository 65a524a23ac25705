//! Index blocks, counts, inodes and slots by the bytes of the format, and such blocks with one damaged field.
use block_format::{
    Index, Inode, Slot, read_any_inode, read_count, read_index, read_inode, read_slot, write_count,
    write_index, write_inode, write_slot,
};
use vol_numbers::{Block, Geometry, Name};

/// The inode of a file of 32,768 bytes, whose eight blocks hang on the index block 114. Zeros follow.
const FILE: &[u8] = &[1, 1, 0, 0, 0x72, 0, 0, 0, 0, 0x80, 0, 0, 0, 0, 0, 0];

/// That of an empty file.
const EMPTY: &[u8] = &[1];

/// That of a file of 4,294,967,296 bytes, the greatest, on the index block 103, the first of the area.
const LONGEST: &[u8] = &[1, 2, 0, 0, 0x67, 0, 0, 0, 0, 0, 0, 0, 1, 0, 0, 0];

/// That of a directory of one slot, in the block 113.
const DIRECTORY: &[u8] = &[2, 0, 0, 0, 0x71, 0, 0, 0, 0, 1, 0, 0];

/// That of a directory of 65,534 slots, the widest, on the index block 2,047, the last of the area.
const WIDEST: &[u8] = &[2, 2, 0, 0, 0xff, 7, 0, 0, 0, 0xfe, 0xff, 0];

/// The slot of the name `a` with the number 2. Zeros follow.
const ENTRY: &[u8] = &[2, 0, 0, 0, 1, 0, b'a'];

/// A structure, a byte of it, and its new value.
type Damage = (&'static [u8], usize, u8);

/// No inode, wherever the pointer leads.
const NO_INODES: &[Damage] = &[
    (FILE, 0, 0),
    (FILE, 0, 3),
    (FILE, 1, 0),
    (FILE, 1, 2),
    (FILE, 2, 1),
    (FILE, 3, 0x80),
    (FILE, 9, 0),
    (FILE, 9, 0x10),
    (FILE, 10, 0x40),
    (FILE, 12, 1),
    (FILE, 15, 0x80),
    (FILE, 16, 1),
    (FILE, 63, 0x80),
    (EMPTY, 0, 0xff),
    (EMPTY, 1, 1),
    (EMPTY, 4, 0x72),
    (LONGEST, 8, 1),
    (LONGEST, 1, 1),
    (DIRECTORY, 0, 0),
    (DIRECTORY, 8, 1),
    (DIRECTORY, 9, 0),
    (DIRECTORY, 1, 1),
    (DIRECTORY, 3, 1),
    (DIRECTORY, 12, 1),
    (DIRECTORY, 40, 1),
    (WIDEST, 9, 0xff),
    (WIDEST, 11, 1),
];

/// Inodes whose pointer is neither 0 nor in the area, which is the blocks from 103 up to 2,047.
const POINTERS_OUTSIDE: &[Damage] = &[
    (FILE, 4, 0x66),
    (FILE, 4, 1),
    (FILE, 5, 8),
    (FILE, 7, 0x80),
    (LONGEST, 4, 0x66),
    (WIDEST, 5, 8),
];

/// Inodes that are as good as before. The bytes of the file as those of a directory are 128 slots.
const OTHER_INODES: &[Damage] = &[
    (FILE, 0, 2),
    (FILE, 4, 0),
    (FILE, 8, 0xff),
    (DIRECTORY, 9, 16),
    (LONGEST, 4, 0),
    (EMPTY, 0, 2),
    (EMPTY, 0, 0),
];

const NO_SLOTS: &[Damage] = &[
    (ENTRY, 0, 0),
    (ENTRY, 2, 1),
    (ENTRY, 3, 0x80),
    (ENTRY, 4, 0),
    (ENTRY, 4, 2),
    (ENTRY, 4, 0xfb),
    (ENTRY, 4, 0xff),
    (ENTRY, 5, 1),
    (ENTRY, 6, b'/'),
    (ENTRY, 6, b'.'),
    (ENTRY, 6, 0),
    (ENTRY, 7, b'b'),
    (ENTRY, 255, 1),
];

/// The greatest number whose lower byte is 2, and a name that isn't text.
const OTHER_SLOTS: &[Damage] = &[(ENTRY, 1, 0xff), (ENTRY, 6, 0xff)];

/// An index block with the pointers 103 and, at its end, 2,047: a byte of it, its new value, and whether it is then an index block.
const INDEXES: &[(usize, u8, bool)] = &[
    (0, 0x67, true),
    (0, 0x66, false),
    (0, 0, true),
    (3, 1, false),
    (4, 1, false),
    (5, 1, true),
    (4_092, 0xfe, true),
    (4_093, 8, false),
    (4_095, 1, false),
];

/// A block with these bytes from a place on, and zeros elsewhere.
fn block_with(at: usize, bytes: &[u8]) -> Block {
    let mut block = Block::zero();
    if let Some(part) = block.bytes.get_mut(at..) {
        for (to, from) in part.iter_mut().zip(bytes.iter()) {
            *to = *from;
        }
    }
    block
}

/// The same with one byte changed.
fn changed(mut block: Block, at: usize, byte: u8) -> Block {
    if let Some(to) = block.bytes.get_mut(at) {
        *to = byte;
    }
    block
}

/// The inode 2 of a block, damaged.
fn damaged_inode(row: &Damage) -> Block {
    changed(block_with(128, row.0), row.1.saturating_add(128), row.2)
}

/// The slot 3 of a block, damaged.
fn damaged_slot(row: &Damage) -> Block {
    changed(block_with(768, row.0), row.1.saturating_add(768), row.2)
}

/// Whether an inode is written as these bytes, and read from them.
fn is_spelled(g: &Geometry, inode: Inode, bytes: &[u8]) -> bool {
    if !inode.has_shape() {
        return false;
    }
    let mut block = Block::zero();
    write_inode(&inode, 2, &mut block);
    block == block_with(128, bytes) && read_inode(&block, 2, g) == Some(inode)
}

/// Whether a file of this size is written as these bytes, and a directory of this width.
fn are_spelled(g: &Geometry) -> bool {
    let file = Inode::File {
        size: 32_768,
        height: 1,
        ptr: 114,
    };
    let longest = Inode::File {
        size: 4_294_967_296,
        height: 2,
        ptr: 103,
    };
    let directory = Inode::Directory {
        width: 1,
        height: 0,
        ptr: 113,
    };
    let widest = Inode::Directory {
        width: 65_534,
        height: 2,
        ptr: 2_047,
    };
    is_spelled(g, file, FILE)
        && is_spelled(g, longest, LONGEST)
        && is_spelled(g, directory, DIRECTORY)
        && is_spelled(g, widest, WIDEST)
        && is_spelled(g, Inode::Unused, &[])
}

fn is_no_inode(row: &Damage) -> bool {
    read_any_inode(&damaged_inode(row), 2).is_none()
}

fn points_outside(g: &Geometry, row: &Damage) -> bool {
    let block = damaged_inode(row);
    read_inode(&block, 2, g).is_none() && read_any_inode(&block, 2).is_some()
}

fn is_inode(g: &Geometry, row: &Damage) -> bool {
    read_inode(&damaged_inode(row), 2, g).is_some()
}

fn is_no_slot(row: &Damage) -> bool {
    read_slot(&damaged_slot(row), 3).is_none()
}

fn is_slot(row: &Damage) -> bool {
    read_slot(&damaged_slot(row), 3).is_some()
}

/// Whether the entry of a name is written as the slot's bytes, and read from them.
fn is_entry(name: Name) -> bool {
    let slot = Slot::Entry { number: 2, name };
    let _bytes = name.as_bytes();
    let mut block = Block::zero();
    write_slot(&slot, 3, &mut block);
    block == block_with(768, ENTRY) && read_slot(&block, 3) == Some(slot)
}

/// The block of the pointers 103 and, at its end, 2,047.
fn index_block() -> Block {
    changed(block_with(4_092, &[0xff, 7]), 0, 0x67)
}

fn is_index_spelled(g: &Geometry) -> bool {
    let mut ptrs = [0; 1024];
    ptrs[0] = 103;
    ptrs[1023] = 2_047;
    let mut block = Block::filled(0xff);
    write_index(&Index { ptrs }, &mut block);
    block == index_block() && read_index(&block, g) == Some(Index { ptrs })
}

/// Whether the damaged index block is read as the row says.
fn is_index(g: &Geometry, row: &(usize, u8, bool)) -> bool {
    read_index(&changed(index_block(), row.0, row.1), g).is_some() == row.2
}

/// Whether the count 67,305,985 stands in its four bytes, the lowest first.
fn is_count_spelled() -> bool {
    let mut block = Block::zero();
    write_count(67_305_985, 3, &mut block);
    block == block_with(12, &[1, 2, 3, 4]) && read_count(&block, 3) == 67_305_985
}

fn inodes_hold(g: Geometry) -> bool {
    are_spelled(&g)
        && NO_INODES.iter().all(|row| is_no_inode(row))
        && POINTERS_OUTSIDE.iter().all(|row| points_outside(&g, row))
        && OTHER_INODES.iter().all(|row| is_inode(&g, row))
}

fn slots_hold(name: Name) -> bool {
    is_entry(name)
        && NO_SLOTS.iter().all(|row| is_no_slot(row))
        && OTHER_SLOTS.iter().all(|row| is_slot(row))
}

fn indexes_hold(g: Geometry) -> bool {
    is_index_spelled(&g) && INDEXES.iter().all(|row| is_index(&g, row))
}

#[test]
fn inodes_are_those_of_the_format(rt: HostRuntime) {
    assert!(rt; Geometry::new(2_048, 64).is_ok_and(inodes_hold));
}

#[test]
fn slots_are_those_of_the_format(rt: HostRuntime) {
    assert!(rt; Name::new(b"a").is_ok_and(slots_hold));
}

#[test]
fn indexes_are_those_of_the_format(rt: HostRuntime) {
    assert!(rt; Geometry::new(2_048, 64).is_ok_and(indexes_hold));
}

#[test]
fn counts_are_those_of_the_format(rt: HostRuntime) {
    assert!(rt; is_count_spelled());
}
