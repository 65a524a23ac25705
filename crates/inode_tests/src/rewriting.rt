//! Inodes that are changed, rewritten and loaded again, one step after the other on one disk.
use crate::volume::{
    BLOCKS, EMPTY, FIRST_INDEX, ROOT, free_from, geometry, load, set, write, write_fresh,
};
use block_format::Inode;
use block_tree::{Rewritten, TreeRoot};
use disk_model::Disk;
use inode_file::InodeFile;
use mem_disk::SureDisk;
use std::alloc::Global;
use std::test::Fail;
use vol_numbers::{BlockNo, Geometry, InoNo, Page};

/// Some numbers get other inodes, and all is rewritten with the blocks from `lowest` on free.
struct Step {
    sets: &'static [(InoNo, Inode)],
    lowest: BlockNo,
    /// How many inode blocks change.
    changed: u32,
    index: BlockNo,
    /// The blocks of the pages, which are also the pointers that come.
    pages: &'static [BlockNo],
    dropped: &'static [BlockNo],
    /// All nodes then.
    nodes: &'static [(InoNo, Inode)],
    least: Option<InoNo>,
}

const LONGER: Inode = Inode::File {
    size: 5,
    height: 0,
    ptr: 1_500,
};

/// The position of a number is its 64th part: that of 1 to 63 is 0, of 64 is 1, and of 65,535 is 1,023.
const STEPS: &[Step] = &[
    // A new node in the first block, which the format put at 103, under the index at 104.
    Step {
        sets: &[(2, EMPTY)],
        lowest: 105,
        changed: 1,
        index: 106,
        pages: &[105, 106],
        dropped: &[103, 104],
        nodes: &[(1, ROOT), (2, EMPTY)],
        least: Some(3),
    },
    // Two blocks more, by position, and then the index. The first block stays.
    Step {
        sets: &[(65_535, ROOT), (64, EMPTY)],
        lowest: 200,
        changed: 2,
        index: 202,
        pages: &[200, 201, 202],
        dropped: &[106],
        nodes: &[(1, ROOT), (2, EMPTY), (64, EMPTY), (65_535, ROOT)],
        least: Some(3),
    },
    // Nothing changes, also where a number is taken away and given back.
    Step {
        sets: &[(2, Inode::Unused), (2, EMPTY), (3, Inode::Unused)],
        lowest: 300,
        changed: 0,
        index: 202,
        pages: &[],
        dropped: &[],
        nodes: &[(1, ROOT), (2, EMPTY), (64, EMPTY), (65_535, ROOT)],
        least: Some(3),
    },
    // The last block has no node any more.
    Step {
        sets: &[(65_535, Inode::Unused), (2, Inode::Unused)],
        lowest: 300,
        changed: 1,
        index: 301,
        pages: &[300, 301],
        dropped: &[105, 201, 202],
        nodes: &[(1, ROOT), (64, EMPTY)],
        least: Some(2),
    },
    // Another size and pointer.
    Step {
        sets: &[(64, LONGER)],
        lowest: 400,
        changed: 1,
        index: 401,
        pages: &[400, 401],
        dropped: &[200, 301],
        nodes: &[(1, ROOT), (64, LONGER)],
        least: Some(2),
    },
];

/// Makes the changes of a step.
fn change(file: &mut InodeFile, step: &Step) -> bool {
    for row in step.sets {
        if !set(file, row.0, row.1) {
            return false;
        }
    }
    true
}

/// The plan of a step.
fn plan(alloc: Global, file: &mut InodeFile, g: &Geometry, step: &Step) -> Option<Rewritten> {
    if !change(file, step) || file.changed() != step.changed {
        return None;
    }
    let mut free = free_from(alloc, g, step.lowest)?;
    if free.free() < file.changed() + 1 {
        return None;
    }
    file.rewrite(&mut free).ok()
}

/// Writes the pages, and says whether they are for these blocks.
fn are_written<D: Disk>(disk: &mut D, pages: &[Page], want: &[BlockNo]) -> bool {
    if pages.len() != want.len() {
        return false;
    }
    for (i, page) in pages.iter().enumerate() {
        if page.at != want[i] || !write(disk, page.at, &page.block) {
            return false;
        }
    }
    true
}

/// Whether the plan is that of the step. Its pages are written.
fn is_done<D: Disk>(disk: &mut D, made: &Rewritten, step: &Step) -> bool {
    let root = TreeRoot {
        height: 1,
        ptr: step.index,
    };
    if made.root != root || made.added.as_slice() != step.pages {
        return false;
    }
    if made.dropped.as_slice() != step.dropped {
        return false;
    }
    are_written(disk, made.pages.as_slice(), step.pages)
}

/// The inode that a number is to have.
fn wanted(nodes: &[(InoNo, Inode)], n: InoNo) -> Inode {
    for node in nodes {
        if node.0 == n {
            return node.1;
        }
    }
    Inode::Unused
}

/// Whether these are all nodes, and the least unused number is that.
fn has_nodes(file: &InodeFile, step: &Step) -> bool {
    for n in 0..65_536 {
        if file.get(n) != wanted(step.nodes, n) {
            return false;
        }
    }
    file.least_unused() == step.least
}

/// Whether a step is done in memory, and its blocks are loaded as it says.
fn is_step_done<D: Disk>(
    alloc: Global,
    disk: &mut D,
    g: &Geometry,
    file: &mut InodeFile,
    step: &Step,
) -> bool {
    let planned = match plan(alloc, file, g, step) {
        Some(made) => is_done(disk, &made, step),
        None => false,
    };
    if !planned || !has_nodes(file, step) {
        return false;
    }
    match load(alloc, disk, g, step.index) {
        Ok(loaded) => has_nodes(&loaded, step),
        Err(_) => false,
    }
}

/// How many of the steps are done, one after the other.
fn steps_done<D: Disk>(alloc: Global, disk: &mut D, g: &Geometry) -> usize {
    if !write_fresh(disk) {
        return 0;
    }
    match load(alloc, disk, g, FIRST_INDEX) {
        Ok(mut file) => {
            for (i, step) in STEPS.iter().enumerate() {
                if !is_step_done(alloc, disk, g, &mut file, step) {
                    return i;
                }
            }
            STEPS.len()
        }
        Err(_) => 0,
    }
}

fn all_steps_are_done(alloc: Global) -> Result<bool, Fail> {
    let mut disk = SureDisk::new(alloc, BLOCKS)?;
    match geometry() {
        Some(g) => Ok(steps_done(alloc, &mut disk, &g) == 5),
        None => Ok(false),
    }
}

#[test]
fn inodes_are_rewritten_and_loaded(rt: HostRuntime) -> Result<(), Fail> {
    assert!(rt; all_steps_are_done(rt.alloc())?);
    Ok(())
}
