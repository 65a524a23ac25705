//! A volume of as many nodes as there are numbers, all of them in one directory.
ghost use Rattle.std.specs.Prelude.{◌<◌};

use block_format::write_count;
use check_rows::{Put, Want, answer, draw};
use disk_model::Disk;
use fs_check::check;
use image_model::Finding;
use mem_disk::MemDisk;
use std::alloc::Global;
use std::test::Fail;
use vol_numbers::{Block, BlockNo};

/// It has 5,300 blocks, so six count blocks, and its area begins at 111, which is the inode index. The root directory has 65,534 slots in 4,096 blocks
/// from 117 on, behind the top index 112 and the leaves from 113 on. The blocks of inodes are those from 4,213 on. 63 blocks are free.
const BLOCKS: u32 = 5_300;

const VOLUME: &[Put] = &[
    Put::Number(1, 0, 0x4445_4449),
    Put::Number(1, 1, 0x5346_5055),
    Put::Number(1, 2, 1),
    Put::Number(1, 3, 5_300),
    Put::Number(1, 4, 64),
    Put::Number(1, 8, 111),
    Put::Same(3, 111, 913, 1),
    Put::Same(5, 0, 1_024, 1),
    Put::Same(7, 0, 1_024, 1),
    Put::Same(9, 0, 1_024, 1),
    Put::Same(11, 0, 1_024, 1),
    Put::Same(13, 0, 117, 1),
    Put::Rising(111, 0, 1_024, 4_213),
    Put::Rising(112, 0, 4, 113),
    Put::Rising(113, 0, 1_024, 117),
    Put::Rising(114, 0, 1_024, 1_141),
    Put::Rising(115, 0, 1_024, 2_165),
    Put::Rising(116, 0, 1_024, 3_189),
];

/// What the inode of number 1 is, and the unused one of number 0.
const FIRST_INODES: &[Put] = &[
    Put::Number(4_213, 0, 0),
    Put::Number(4_213, 16, 514),
    Put::Number(4_213, 17, 112),
    Put::Number(4_213, 18, 16_776_704),
];

/// What the slots name.
#[derive(Clone, Copy)]
enum Slots {
    /// Each number under a name of its own.
    Each,
    /// All numbers under one name.
    OneName,
    /// Number 2 under all names.
    OneNumber,
}

/// A block of 64 files of no bytes.
fn inodes() -> Block {
    let mut block = Block::zero();
    for k in 0..64 {
        write_count(1, 16 * k, &mut block);
    }
    block
}

/// The letter for the least four bits of a number.
fn letter(number: u32) -> u32
    ensures { result < 113 }
{
    97 + number % 16
}

/// Puts an entry into a slot: the number of the slot in the directory, and below 16 in the block.
fn put_slot(slots: Slots, index: u32, k: u32, block: &mut Block)
    requires { k < 16 }
{
    let (number, name) = match slots {
        Slots::Each => (index % 65_534 + 2, index),
        Slots::OneName => (index % 65_534 + 2, 0),
        Slots::OneNumber => (2, index),
    };
    write_count(number, 64 * k, block);
    let first = letter(name / 4_096) * 65_536 + letter(name / 256) * 16_777_216;
    write_count(first + 4, 64 * k + 1, block);
    let last = letter(name / 16) + letter(name) * 256;
    write_count(last, 64 * k + 2, block);
}

/// The block of a place of the directory. The last one has 14 slots.
fn page(slots: Slots, place: u32) -> Block {
    let mut block = Block::zero();
    for k in 0..16 {
        let index = u64::from(place) * 16 + u64::from(k);
        if index < 65_534 {
            put_slot(slots, index as u32, k, &mut block);
        }
    }
    block
}

/// Writes a block that is there.
fn write<D: Disk>(disk: &mut D, at: BlockNo, block: &Block) -> bool {
    at < disk.blocks() && disk.write_block(at, block).is_ok()
}

/// Puts the volume on a disk of zeros.
fn draw_widest<D: Disk>(disk: &mut D, slots: Slots) -> bool {
    for at in 4_213..5_237 {
        if !write(disk, at, &inodes()) {
            return false;
        }
    }
    for place in 0..4_096 {
        if !write(disk, 117 + place, &page(slots, place)) {
            return false;
        }
    }
    draw(disk, VOLUME) && draw(disk, FIRST_INODES)
}

fn comes_out(alloc: Global, slots: Slots, want: Want) -> Result<bool, Fail> {
    let mut disk = MemDisk::new(alloc, BLOCKS)?;
    if !draw_widest(&mut disk, slots) {
        return Ok(false);
    }
    Ok(check(alloc, &mut disk) == answer(want))
}

#[test]
fn all_numbers_in_one_directory_are_good(rt: HostRuntime) -> Result<(), Fail> {
    assert!(rt; comes_out(rt.alloc(), Slots::Each, Want::Good(65_535, 0, 63))?);
    Ok(())
}

#[test]
fn one_name_for_all_numbers_is_found(rt: HostRuntime) -> Result<(), Fail> {
    assert!(rt;
        comes_out(
            rt.alloc(),
            Slots::OneName,
            Want::Bad(Finding::BadDirectory(1))
        )?
    );
    Ok(())
}

#[test]
fn one_number_under_all_names_is_found(rt: HostRuntime) -> Result<(), Fail> {
    assert!(rt;
        comes_out(
            rt.alloc(),
            Slots::OneNumber,
            Want::Bad(Finding::NotATree(2))
        )?
    );
    Ok(())
}
