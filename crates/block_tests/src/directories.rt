//! Directories: names that are put and taken away, their slots by the bytes of the format, and blocks that spell no directory.
ghost use Rattle.std.specs.Prelude.{◌≡◌, IfSome};

use block_format::Slot;
use dir_slots::{DirFault, Directory};
use std::alloc::Global;
use std::test::Fail;
use vol_numbers::{Block, Name, Page, PageList};

/// What is done to a directory, and what it is answered.
#[derive(Clone, Copy)]
enum Act {
    /// A name and a number are put, into this slot.
    Add(&'static [u8], u32, u32),
    /// A name is taken away, and had this number.
    Remove(&'static [u8], Option<u32>),
    /// A name has this slot and this number.
    Has(&'static [u8], Option<(u32, u32)>),
    /// So many slots there are, and this is the least unused one.
    Wide(u32, u32),
}

const ACTS: &[Act] = &[
    Act::Wide(0, 0),
    Act::Has(b"a", None),
    Act::Add(b"a", 2, 0),
    Act::Add(b"b", 3, 1),
    Act::Add(b"c", 4, 2),
    Act::Wide(3, 3),
    Act::Remove(b"b", Some(3)),
    Act::Remove(b"b", None),
    Act::Wide(3, 1),
    Act::Has(b"b", None),
    Act::Add(b"d", 5, 1),
    Act::Wide(3, 3),
    Act::Has(b"a", Some((0, 2))),
    Act::Has(b"c", Some((2, 4))),
    Act::Has(b"d", Some((1, 5))),
    Act::Remove(b"c", Some(4)),
    Act::Remove(b"a", Some(2)),
    Act::Remove(b"d", Some(5)),
    Act::Wide(3, 0),
    Act::Add(b"e", 65_535, 0),
    Act::Add(b"ab", 7, 1),
    Act::Has(b"e", Some((0, 65_535))),
];

/// The slots after these acts: the number and the name of each, and nothing in the third.
const LEFT: &[(usize, &[u8])] = &[
    (0, &[0xff, 0xff, 0, 0, 1, 0, b'e']),
    (256, &[7, 0, 0, 0, 2, 0, b'a', b'b']),
    (512, &[]),
];

fn named(bytes: &[u8]) -> Option<Name> {
    Name::new(bytes).ok()
}

/// No slot where the name is there already, or the number is no node's, or where no slot is left.
fn add(directory: &mut Directory, name: &Name, number: u32) -> Option<u32> {
    if directory.slot_of(name).is_some() || number == 0 || number > 65_535 {
        return None;
    }
    if directory.first_unused() >= 65_534 {
        return None;
    }
    directory.add(name, number).ok()
}

fn has(directory: &Directory, name: &Name, want: Option<(u32, u32)>) -> bool {
    match want {
        Some((slot, number)) => directory.slot_of(name) == Some(slot)
            && directory.find(name) == Some(number),
        None => directory.slot_of(name).is_none() && directory.find(name).is_none(),
    }
}

fn is_done(directory: &mut Directory, act: &Act) -> bool {
    match *act {
        Act::Add(name, number, slot) => match named(name) {
            Some(name) => add(directory, &name, number) == Some(slot),
            None => false,
        },
        Act::Remove(name, number) => match named(name) {
            Some(name) => directory.remove(&name) == number,
            None => false,
        },
        Act::Has(name, want) => match named(name) {
            Some(name) => has(directory, &name, want),
            None => false,
        },
        Act::Wide(width, unused) => directory.width() == width
            && directory.first_unused() == unused,
    }
}

fn are_done(directory: &mut Directory, acts: &[Act]) -> bool {
    for act in acts {
        if !is_done(directory, act) {
            return false;
        }
    }
    true
}

/// The directory of no slot.
fn empty(alloc: Global) -> Result<Directory, DirFault> {
    Directory::read(alloc, &PageList::new(alloc), 0)
}

/// The block that has these bytes, and is 0 elsewhere.
fn block_with(rows: &[(usize, &[u8])]) -> Block {
    let mut block = Block::zero();
    for row in rows {
        put(&mut block, row.0, row.1);
    }
    block
}

fn put(block: &mut Block, at: usize, bytes: &[u8]) {
    if let Some(part) = block.bytes.get_mut(at..) {
        for (to, from) in part.iter_mut().zip(bytes.iter()) {
            *to = *from;
        }
    }
}

/// Whether the directory has these bytes as its first block, and zeros as its second.
fn is_spelled(directory: &Directory, rows: &[(usize, &[u8])]) -> bool {
    let mut block = Block::filled(0xff);
    directory.page(0, &mut block);
    let mut next = Block::filled(0xff);
    directory.page(1, &mut next);
    block == block_with(rows) && next == Block::zero()
}

fn acts_are_done(alloc: Global) -> bool {
    match empty(alloc) {
        Ok(mut directory) => are_done(&mut directory, ACTS) && is_spelled(&directory, LEFT),
        Err(_) => false,
    }
}

#[test]
fn names_get_the_least_slot(rt: HostRuntime) -> Result<(), Fail> {
    assert!(rt; acts_are_done(rt.alloc()));
    Ok(())
}

fn has_numbers(slots: &[Slot], numbers: &[u32]) -> bool {
    for (slot, number) in slots.iter().zip(numbers.iter()) {
        let holds = match slot {
            Slot::Entry { number: other, .. } => *other == *number,
            Slot::Unused => false,
        };
        if !holds {
            return false;
        }
    }
    slots.len() == numbers.len()
}

/// Whether the entries have these numbers.
fn has_entries(alloc: Global, directory: &Directory, numbers: &[u32]) -> bool {
    match directory.entries(alloc) {
        Ok(slots) => has_numbers(slots.as_slice(), numbers),
        Err(_) => false,
    }
}

fn entries_are_left(alloc: Global) -> bool {
    match empty(alloc) {
        Ok(mut directory) => are_done(&mut directory, ACTS)
            && has_entries(alloc, &directory, &[65_535, 7]),
        Err(_) => false,
    }
}

#[test]
fn entries_are_in_the_order_of_slots(rt: HostRuntime) -> Result<(), Fail> {
    assert!(rt; entries_are_left(rt.alloc()));
    Ok(())
}

const A: &[u8] = &[2, 0, 0, 0, 1, 0, b'a'];

const B: &[u8] = &[3, 0, 0, 0, 1, 0, b'b'];

/// The entry of `a` again, with another number.
const A_AGAIN: &[u8] = &[9, 0, 0, 0, 1, 0, b'a'];

/// A length of 0.
const NO_NAME: &[u8] = &[2, 0, 0, 0, 0, 0, b'a'];

/// A width, what stands in the slots of the blocks, and the least unused slot. None where that is no directory.
type Blocks = (u32, &'static [(usize, &'static [u8])], Option<u32>);

const BLOCKS: &[Blocks] = &[
    (1, &[(0, A)], Some(1)),
    (1, &[], Some(0)),
    (2, &[(0, B), (1, A)], Some(2)),
    (2, &[(1, A)], Some(0)),
    (16, &[(0, A), (15, B)], Some(1)),
    (17, &[(0, A), (16, B)], Some(1)),
    (1, &[(0, A), (1, B)], None),
    (1, &[(15, B)], None),
    (17, &[(31, B)], None),
    (2, &[(0, A), (1, A_AGAIN)], None),
    (17, &[(3, A), (16, A_AGAIN)], None),
    (2, &[(0, NO_NAME)], None),
    (1, &[(4, NO_NAME)], None),
];

/// The block of a place, with these slots.
fn block_at(place: usize, slots: &[(usize, &[u8])]) -> Block {
    let mut block = Block::zero();
    for slot in slots {
        if slot.0 / 16 == place {
            put(&mut block, slot.0 % 16 * 256, slot.1);
        }
    }
    block
}

/// The blocks of a directory of at most 32 slots.
fn blocks_of(alloc: Global, width: u32, slots: &[(usize, &[u8])]) -> Result<PageList, Fail> {
    let mut pages = Vec::new(alloc);
    if width > 0 {
        let block = block_at(0, slots);
        pages.push(Page { at: 200, block })?;
    }
    if width > 16 {
        let block = block_at(1, slots);
        pages.push(Page { at: 150, block })?;
    }
    Ok(PageList::from_vec(pages))
}

/// What is read of the blocks of this width.
fn is_read(alloc: Global, pages: &PageList, width: u32, want: Option<u32>) -> bool {
    if width > 65_534 || pages.len() as u64 != (u64::from(width) + 15) / 16 {
        return false;
    }
    match Directory::read(alloc, pages, width) {
        Ok(directory) => directory.width() == width && Some(directory.first_unused()) == want,
        Err(fault) => fault == DirFault::BadSlots && want.is_none(),
    }
}

fn all_are_read(alloc: Global) -> Result<bool, Fail> {
    for row in BLOCKS {
        let pages = blocks_of(alloc, row.0, row.1)?;
        if !is_read(alloc, &pages, row.0, row.2) {
            return Ok(false);
        }
    }
    Ok(true)
}

#[test]
fn blocks_are_read_as_directories(rt: HostRuntime) -> Result<(), Fail> {
    assert!(rt; all_are_read(rt.alloc())?);
    Ok(())
}
