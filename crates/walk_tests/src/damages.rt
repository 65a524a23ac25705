//! A word of the image is changed, and the walk finds what is wrong first.
use crate::image::{BLOCKS, INDEX, Word, draw, geometry, put, walked};
use image_model::Finding;
use image_walk::{WalkFault, mixed};
use mem_disk::MemDisk;
use std::alloc::Global;
use std::test::Fail;

/// A word that is changed, and what is found then.
struct Damage {
    word: Word,
    finding: Finding,
}

const DAMAGES: &[Damage] = &[
    // The block below the area.
    Damage {
        word: Word {
            block: INDEX,
            at: 0,
            value: 100,
        },
        finding: Finding::BadPointer(100),
    },
    // An inode block that is reached twice.
    Damage {
        word: Word {
            block: INDEX,
            at: 1,
            value: 102,
        },
        finding: Finding::BadPointer(102),
    },
    // No inode block, so number 1 is no directory.
    Damage {
        word: Word {
            block: INDEX,
            at: 0,
            value: 0,
        },
        finding: Finding::BadInode(1),
    },
    // An inode block without nodes is found by its first number.
    Damage {
        word: Word {
            block: INDEX,
            at: 2,
            value: 110,
        },
        finding: Finding::BadInode(128),
    },
    // Number 2 has a kind that there isn't.
    Damage {
        word: Word {
            block: 102,
            at: 32,
            value: 259,
        },
        finding: Finding::BadInode(2),
    },
    // A directory's block is the inode index.
    Damage {
        word: Word {
            block: 102,
            at: 17,
            value: 101,
        },
        finding: Finding::BadPointer(101),
    },
    // Number 3 has no bytes, and a pointer into the area.
    Damage {
        word: Word {
            block: 102,
            at: 50,
            value: 0,
        },
        finding: Finding::BadInode(3),
    },
    // The leaf of number 2 has no pointer.
    Damage {
        word: Word {
            block: 102,
            at: 33,
            value: 107,
        },
        finding: Finding::BadPointer(107),
    },
    // A pointer for the third of two places.
    Damage {
        word: Word {
            block: 104,
            at: 2,
            value: 105,
        },
        finding: Finding::BadPointer(105),
    },
    // The block behind the volume, in the last place of a leaf.
    Damage {
        word: Word {
            block: 104,
            at: 1,
            value: 165,
        },
        finding: Finding::BadPointer(165),
    },
    // The directory's block is a file's too.
    Damage {
        word: Word {
            block: 104,
            at: 1,
            value: 103,
        },
        finding: Finding::MixedBlock(103),
    },
];

/// What is found on the disk, if anything.
fn found(alloc: Global, disk: &mut MemDisk) -> Option<Finding> {
    let g = geometry()?;
    match walked(alloc, disk, INDEX)? {
        Ok(walked) => mixed(&walked.marks, &g),
        Err(WalkFault::Found(finding)) => Some(finding),
        Err(WalkFault::Device | WalkFault::OutOfMemory) => None,
    }
}

fn is_found(alloc: Global, damage: &Damage) -> Result<bool, Fail> {
    let mut disk = MemDisk::new(alloc, BLOCKS)?;
    if !draw(&mut disk) || !put(&mut disk, &damage.word) {
        return Ok(false);
    }
    Ok(found(alloc, &mut disk) == Some(damage.finding))
}

fn all_are_found(alloc: Global) -> Result<bool, Fail> {
    for damage in DAMAGES {
        if !is_found(alloc, damage)? {
            return Ok(false);
        }
    }
    Ok(true)
}

#[test]
fn damages_are_found(rt: HostRuntime) -> Result<(), Fail> {
    assert!(rt; all_are_found(rt.alloc())?);
    Ok(())
}
