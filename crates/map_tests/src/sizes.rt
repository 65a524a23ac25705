//! Trees of 1 block, of 1,024, of 1,025 and of 1,048,576: from each of them to each other one.
use crate::steps::{Step, steps_done};
use block_tree::TreeRoot;
use mem_disk::SureDisk;
use std::alloc::Global;
use std::test::Fail;
use vol_numbers::Geometry;

/// What is planned follows from the rules: pages take the lowest free blocks, leaf by leaf and then the top index. Of a leaf its own block is noted
/// first, and then those of its places, in order. The top index is noted last.
const STEPS: &[Step] = &[
    // One block has no index.
    Step {
        cut_to: 0,
        changes: &[(0, 1_100)],
        blocks: 1,
        lowest: 1_190,
        root: TreeRoot {
            height: 0,
            ptr: 1_100,
        },
        pages: &[],
        added: &[1_100],
        dropped: &[],
        found: [1_100, 0, 0, 0],
    },
    // The leaf takes the place of the block of place 0, which stays.
    Step {
        cut_to: 1,
        changes: &[(1_023, 1_101)],
        blocks: 1_024,
        lowest: 1_200,
        root: TreeRoot {
            height: 1,
            ptr: 1_200,
        },
        pages: &[1_200],
        added: &[1_200, 1_101],
        dropped: &[],
        found: [1_100, 1_101, 0, 0],
    },
    // The leaf gives way to its first block.
    Step {
        cut_to: 1,
        changes: &[],
        blocks: 1,
        lowest: 1_205,
        root: TreeRoot {
            height: 0,
            ptr: 1_100,
        },
        pages: &[],
        added: &[],
        dropped: &[1_200, 1_101],
        found: [1_100, 0, 0, 0],
    },
    // Two leaves and a top index.
    Step {
        cut_to: 1_025,
        changes: &[(1_024, 1_102)],
        blocks: 1_025,
        lowest: 1_210,
        root: TreeRoot {
            height: 2,
            ptr: 1_212,
        },
        pages: &[1_210, 1_211, 1_212],
        added: &[1_210, 1_211, 1_102, 1_212],
        dropped: &[],
        found: [1_100, 0, 1_102, 0],
    },
    // The last place of the greatest file. Both leaves keep their blocks, and the top index changes.
    Step {
        cut_to: 1_048_576,
        changes: &[(1_048_575, 1_103)],
        blocks: 1_048_576,
        lowest: 1_220,
        root: TreeRoot {
            height: 2,
            ptr: 1_221,
        },
        pages: &[1_220, 1_221],
        added: &[1_220, 1_103, 1_221],
        dropped: &[1_212],
        found: [1_100, 0, 1_102, 1_103],
    },
    // A place gets the block that it has: nothing changes.
    Step {
        cut_to: 1_048_576,
        changes: &[(1_024, 1_102)],
        blocks: 1_048_576,
        lowest: 1_225,
        root: TreeRoot {
            height: 2,
            ptr: 1_221,
        },
        pages: &[],
        added: &[],
        dropped: &[],
        found: [1_100, 0, 1_102, 1_103],
    },
    // The cut is in the second leaf, behind its block: it keeps its own. The last leaf goes.
    Step {
        cut_to: 1_025,
        changes: &[],
        blocks: 1_025,
        lowest: 1_230,
        root: TreeRoot {
            height: 2,
            ptr: 1_230,
        },
        pages: &[1_230],
        added: &[1_230],
        dropped: &[1_220, 1_103, 1_221],
        found: [1_100, 0, 1_102, 0],
    },
    // The second leaf goes, and so does the top index.
    Step {
        cut_to: 1_024,
        changes: &[],
        blocks: 1_024,
        lowest: 1_235,
        root: TreeRoot {
            height: 1,
            ptr: 1_210,
        },
        pages: &[],
        added: &[],
        dropped: &[1_211, 1_102, 1_230],
        found: [1_100, 0, 0, 0],
    },
    // The changes needn't be in order.
    Step {
        cut_to: 1_024,
        changes: &[(1_048_575, 1_104), (0, 1_105)],
        blocks: 1_048_576,
        lowest: 1_240,
        root: TreeRoot {
            height: 2,
            ptr: 1_242,
        },
        pages: &[1_240, 1_241, 1_242],
        added: &[1_240, 1_105, 1_241, 1_104, 1_242],
        dropped: &[1_210, 1_100],
        found: [1_105, 0, 0, 1_104],
    },
    // Back to the first leaf.
    Step {
        cut_to: 1_024,
        changes: &[],
        blocks: 1_024,
        lowest: 1_245,
        root: TreeRoot {
            height: 1,
            ptr: 1_240,
        },
        pages: &[],
        added: &[],
        dropped: &[1_241, 1_104, 1_242],
        found: [1_105, 0, 0, 0],
    },
    // The first leaf stays, and a second one comes.
    Step {
        cut_to: 1_024,
        changes: &[(1_024, 1_106)],
        blocks: 1_025,
        lowest: 1_250,
        root: TreeRoot {
            height: 2,
            ptr: 1_251,
        },
        pages: &[1_250, 1_251],
        added: &[1_250, 1_106, 1_251],
        dropped: &[],
        found: [1_105, 0, 1_106, 0],
    },
    // From two leaves to one block.
    Step {
        cut_to: 1,
        changes: &[],
        blocks: 1,
        lowest: 1_255,
        root: TreeRoot {
            height: 0,
            ptr: 1_105,
        },
        pages: &[],
        added: &[],
        dropped: &[1_240, 1_250, 1_106, 1_251],
        found: [1_105, 0, 0, 0],
    },
    // From one block to the greatest file.
    Step {
        cut_to: 1,
        changes: &[(1_048_575, 1_107)],
        blocks: 1_048_576,
        lowest: 1_260,
        root: TreeRoot {
            height: 2,
            ptr: 1_262,
        },
        pages: &[1_260, 1_261, 1_262],
        added: &[1_260, 1_261, 1_107, 1_262],
        dropped: &[],
        found: [1_105, 0, 0, 1_107],
    },
    // And back.
    Step {
        cut_to: 1,
        changes: &[],
        blocks: 1,
        lowest: 1_265,
        root: TreeRoot {
            height: 0,
            ptr: 1_105,
        },
        pages: &[],
        added: &[],
        dropped: &[1_260, 1_261, 1_107, 1_262],
        found: [1_105, 0, 0, 0],
    },
];

fn all_steps_are_done(alloc: Global) -> Result<bool, Fail> {
    let mut disk = SureDisk::new(alloc, 2_048)?;
    match Geometry::new(2_048, 64) {
        Ok(g) => Ok(steps_done(alloc, &mut disk, &g, STEPS, true) == STEPS.len()),
        Err(_) => Ok(false),
    }
}

#[test]
fn trees_change_their_heights(rt: HostRuntime) -> Result<(), Fail> {
    assert!(rt; all_steps_are_done(rt.alloc())?);
    Ok(())
}
