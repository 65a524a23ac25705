//! The least unused number, at the edges of words and of levels.
use crate::volume::{BLOCKS, EMPTY, FIRST_INDEX, geometry, load, set, write_fresh};
use block_format::Inode;
use inode_file::InodeFile;
use mem_disk::SureDisk;
use std::alloc::Global;
use std::test::Fail;
use vol_numbers::InoNo;

/// All numbers up to the first are used but the second, if there is one. The third is the least unused.
const ROWS: &[(InoNo, Option<InoNo>, Option<InoNo>)] = &[
    (1, None, Some(2)),
    (62, None, Some(63)),
    (63, None, Some(64)),
    (63, Some(2), Some(2)),
    (4_094, None, Some(4_095)),
    (4_095, None, Some(4_096)),
    (4_096, Some(63), Some(63)),
    (65_534, None, Some(65_535)),
    (65_535, None, None),
    (65_535, Some(1), None),
    (65_535, Some(64), Some(64)),
    (65_535, Some(65_535), Some(65_535)),
];

/// Makes the numbers up to one used, and the others unused.
fn fill(file: &mut InodeFile, last: InoNo) -> bool {
    for n in 1..65_536 {
        let inode = if n <= last { EMPTY } else { Inode::Unused };
        if !set(file, n, inode) {
            return false;
        }
    }
    true
}

fn is_so(file: &mut InodeFile, row: &(InoNo, Option<InoNo>, Option<InoNo>)) -> bool {
    if !fill(file, row.0) {
        return false;
    }
    if let Some(hole) = row.1
        && !set(file, hole, Inode::Unused)
    {
        return false;
    }
    file.least_unused() == row.2
}

/// Whether all rows hold, each after the one before.
fn all_are_so(file: &mut InodeFile) -> bool {
    for row in ROWS {
        if !is_so(file, row) {
            return false;
        }
    }
    true
}

fn all_rows_hold(alloc: Global) -> Result<bool, Fail> {
    let mut disk = SureDisk::new(alloc, BLOCKS)?;
    match geometry() {
        Some(g) => {
            if !write_fresh(&mut disk) {
                return Ok(false);
            }
            match load(alloc, &mut disk, &g, FIRST_INDEX) {
                Ok(mut file) => Ok(all_are_so(&mut file)),
                Err(_) => Ok(false),
            }
        }
        None => Ok(false),
    }
}

#[test]
fn the_least_number_is_given(rt: HostRuntime) -> Result<(), Fail> {
    assert!(rt; all_rows_hold(rt.alloc())?);
    Ok(())
}
