//! Trees of index blocks that are rewritten, one after the other on one disk: which pages are planned, and which pointers come and go.
ghost use Rattle.std.specs.Prelude.{◌≡◌, ◌<◌, ◌↔◌, true, All, IsTrue};
ghost use Rattle.vol_numbers.specs.Geometry.{layout_of};
ghost use Rattle.vol_numbers.specs.declared.runs.Change.{Change as ChangeOf};
ghost use Rattle.block_tree.specs.Root.{IsRoot};

use block_format::blocks_of;
use block_tree::{LookFault, Rewritten, TreeFault, TreeRoot, look, pointers, rewrite};
use disk_model::Disk;
use mem_disk::{MemDisk, SureDisk};
use run_allocator::FreeMap;
use std::alloc::{AllocError, Global};
use std::test::Fail;
use vol_numbers::{BlockNo, CallList, Change, ChangeList, CountList, Fbn, Geometry, Page};

/// A volume of 2,048 blocks.
const BLOCKS: u32 = 2_048;

/// A rewriting: the places from `cut_to` on are dropped, the changes are made, and the size is this one. Free are the blocks from `lowest` on.
struct Step {
    cut_to: Fbn,
    changes: &'static [(Fbn, BlockNo)],
    size: u64,
    lowest: BlockNo,
    root: TreeRoot,
    pages: &'static [BlockNo],
    added: &'static [BlockNo],
    dropped: &'static [BlockNo],
}

/// The sizes are of 8 blocks, of 2, of 1,048,576, of 1,024, of 1,025, of 1 and of none. A page comes first among what is added, its leaf's blocks behind it.
const STEPS: &[Step] = &[
    // Eight places get a leaf.
    Step {
        cut_to: 0,
        changes: &[
            (0, 105),
            (1, 106),
            (2, 107),
            (3, 108),
            (4, 109),
            (5, 110),
            (6, 111),
            (7, 112),
        ],
        size: 32_768,
        lowest: 114,
        root: TreeRoot {
            height: 1,
            ptr: 114,
        },
        pages: &[114],
        added: &[114, 105, 106, 107, 108, 109, 110, 111, 112],
        dropped: &[],
    },
    // Six places are cut off, and one is changed.
    Step {
        cut_to: 2,
        changes: &[(1, 103)],
        size: 4_098,
        lowest: 104,
        root: TreeRoot {
            height: 1,
            ptr: 104,
        },
        pages: &[104],
        added: &[104, 103],
        dropped: &[114, 106, 107, 108, 109, 110, 111, 112],
    },
    // The last place of the greatest file: its leaf, and a top index. The first leaf stays.
    Step {
        cut_to: 2,
        changes: &[(1_048_575, 1_500)],
        size: 4_294_967_296,
        lowest: 200,
        root: TreeRoot {
            height: 2,
            ptr: 201,
        },
        pages: &[200, 201],
        added: &[200, 1_500, 201],
        dropped: &[],
    },
    // Back to 1,024 blocks: no place is left of the other leaf, and the top index goes.
    Step {
        cut_to: 1_024,
        changes: &[],
        size: 4_194_304,
        lowest: 300,
        root: TreeRoot {
            height: 1,
            ptr: 104,
        },
        pages: &[],
        added: &[],
        dropped: &[200, 1_500, 201],
    },
    // The place 1,024 is the first of a second leaf.
    Step {
        cut_to: 1_024,
        changes: &[(1_024, 1_600)],
        size: 4_198_400,
        lowest: 400,
        root: TreeRoot {
            height: 2,
            ptr: 401,
        },
        pages: &[400, 401],
        added: &[400, 1_600, 401],
        dropped: &[],
    },
    // One block has no index.
    Step {
        cut_to: 1,
        changes: &[],
        size: 4_096,
        lowest: 500,
        root: TreeRoot {
            height: 0,
            ptr: 105,
        },
        pages: &[],
        added: &[],
        dropped: &[104, 103, 400, 1_600, 401],
    },
    // Nothing is left.
    Step {
        cut_to: 0,
        changes: &[],
        size: 0,
        lowest: 500,
        root: TreeRoot { height: 0, ptr: 0 },
        pages: &[],
        added: &[],
        dropped: &[105],
    },
];

/// Counts of a volume's blocks: 0 from one on.
fn counts_from(alloc: Global, blocks: u32, lowest: BlockNo) -> Option<CountList> {
    let mut counts = Vec::new(alloc);
    for b in 0..blocks {
        counts.push(u32::from(b < lowest)).ok()?;
    }
    Some(CountList::from_vec(counts))
}

/// The blocks from one on, free.
fn free_from(alloc: Global, g: &Geometry, lowest: BlockNo) -> Option<FreeMap> {
    let counts = counts_from(alloc, g.blocks(), lowest)?;
    if counts.len() < g.blocks() as usize {
        return None;
    }
    FreeMap::of(alloc, &counts, g).ok()
}

/// The changes of a step.
fn changes_of(alloc: Global, rows: &[(Fbn, BlockNo)]) -> Option<ChangeList> {
    let mut changes = Vec::new(alloc);
    for row in rows {
        let change = Change {
            place: row.0,
            block: row.1,
        };
        changes.push(change).ok()?;
    }
    Some(ChangeList::from_vec(changes))
}

fn is_below(change: &Change, blocks: u64) -> bool
    ensures { IsTrue result ↔ (change.now.place < blocks) }
{
    u64::from(change.place) < blocks
}

/// Whether each change is of a place below so many.
fn are_below(changes: &[Change], blocks: u64) -> bool
    ensures { IsTrue result ↔ All (λ (c : ChangeOf). c.place < blocks) changes.now }
{
    changes.iter().all(|change| is_below(change, blocks))
}

/// Whether a tree of the volume may begin so.
fn may_be_root(root: &TreeRoot, g: &Geometry) -> bool
    ensures { result ≡ true → IsRoot (layout_of g.now) root.now }
{
    if root.height > 2 {
        return false;
    }
    if root.ptr == 0 {
        return true;
    }
    if root.ptr < g.area_start() {
        return false;
    }
    root.ptr < g.blocks()
}

/// What is planned for a step.
fn plan<D: Disk>(
    alloc: Global,
    disk: &mut D,
    g: &Geometry,
    root: &TreeRoot,
    step: &Step,
    changes: &ChangeList,
) -> Option<Rewritten> {
    if disk.blocks() != g.blocks() || !may_be_root(root, g) || step.size > 4_294_967_296 {
        return None;
    }
    let blocks = blocks_of(step.size);
    if u64::from(step.cut_to) > blocks || !are_below(changes.as_slice(), blocks) {
        return None;
    }
    let mut free = free_from(alloc, g, step.lowest)?;
    if (free.free() as usize) < changes.len() + 3 {
        return None;
    }
    let cut_to = step.cut_to;
    rewrite(alloc, disk, g, root, cut_to, changes, step.size, &mut free).ok()
}

/// Writes the pages, and says whether they are for these blocks.
fn are_written<D: Disk>(disk: &mut D, pages: &[Page], want: &[BlockNo]) -> bool {
    if pages.len() != want.len() {
        return false;
    }
    for (i, page) in pages.iter().enumerate() {
        if page.at != want[i] || page.at >= disk.blocks() {
            return false;
        }
        if disk.write_block(page.at, &page.block).is_err() {
            return false;
        }
    }
    true
}

/// Whether the plan is that of the step. Its pages are written.
fn is_done<D: Disk>(disk: &mut D, made: &Rewritten, step: &Step) -> bool {
    if made.root != step.root || made.added.as_slice() != step.added {
        return false;
    }
    if made.dropped.as_slice() != step.dropped {
        return false;
    }
    are_written(disk, made.pages.as_slice(), step.pages)
}

/// The root after a step. None where anything isn't as the step says.
fn done<D: Disk>(
    alloc: Global,
    disk: &mut D,
    g: &Geometry,
    root: &TreeRoot,
    step: &Step,
) -> Option<TreeRoot> {
    let changes = changes_of(alloc, step.changes)?;
    let made = plan(alloc, disk, g, root, step, &changes)?;
    if is_done(disk, &made, step) {
        Some(made.root)
    } else {
        None
    }
}

/// How many of the first steps are done, one after the other, and the root then.
fn steps_done<D: Disk>(
    alloc: Global,
    disk: &mut D,
    g: &Geometry,
    steps: &[Step],
) -> (usize, TreeRoot) {
    let mut root = TreeRoot { height: 0, ptr: 0 };
    for (i, step) in steps.iter().enumerate() {
        match done(alloc, disk, g, &root, step) {
            Some(new) => root = new,
            None => return (i, root),
        }
    }
    (steps.len(), root)
}

fn all_steps_are_done(alloc: Global) -> Result<bool, Fail> {
    let mut disk = SureDisk::new(alloc, BLOCKS)?;
    match Geometry::new(BLOCKS, 64) {
        Ok(g) => Ok(steps_done(alloc, &mut disk, &g, STEPS).0 == 7),
        Err(_) => Ok(false),
    }
}

#[test]
fn trees_grow_and_are_cut(rt: HostRuntime) -> Result<(), Fail> {
    assert!(rt; all_steps_are_done(rt.alloc())?);
    Ok(())
}

/// What three steps, a look and a list of pointers come to.
#[derive(Clone, Copy, PartialEq, Eq)]
enum Outcome {
    /// So many steps are done.
    Steps(usize),
    /// All are done, and a place isn't found.
    NotFound(LookFault),
    /// A place is found, and the pointers aren't listed.
    NotListed(TreeFault),
    /// So many pointers are listed.
    Listed(usize),
}

/// The call that fails, and what the first three steps come to, a look at the last place and a list. The first step reads nothing and writes
/// a leaf. The second reads it and writes another. The third reads that, since it is cut, and writes two. A look reads two blocks, a list three.
const FAILING: &[(u64, Outcome)] = &[
    (0, Outcome::Steps(0)),
    (1, Outcome::Steps(1)),
    (2, Outcome::Steps(1)),
    (3, Outcome::Steps(2)),
    (4, Outcome::Steps(2)),
    (5, Outcome::Steps(2)),
    (6, Outcome::NotFound(LookFault::Device)),
    (7, Outcome::NotFound(LookFault::Device)),
    (8, Outcome::NotListed(TreeFault::Device)),
    (9, Outcome::NotListed(TreeFault::Device)),
    (10, Outcome::NotListed(TreeFault::Device)),
    (11, Outcome::Listed(6)),
];

/// A look at the last place, and a list of the pointers: to the top index, two leaves, and the blocks of three places.
fn read_back<D: Disk>(alloc: Global, disk: &mut D, g: &Geometry, root: &TreeRoot) -> Outcome {
    if disk.blocks() != g.blocks() || root.height != 2 || !may_be_root(root, g) {
        return Outcome::Steps(3);
    }
    match look(disk, g, root, 1_048_575) {
        Ok(1_500) => {}
        Ok(_) => return Outcome::Steps(3),
        Err(fault) => return Outcome::NotFound(fault),
    }
    match pointers(alloc, disk, g, root) {
        Ok(list) => Outcome::Listed(list.len()),
        Err(fault) => Outcome::NotListed(fault),
    }
}

fn run<D: Disk>(alloc: Global, disk: &mut D, g: &Geometry) -> Outcome {
    let (count, root) = steps_done(alloc, disk, g, &STEPS[..3]);
    if count < 3 {
        return Outcome::Steps(count);
    }
    read_back(alloc, disk, g, &root)
}

/// A list of one call.
fn one_call(alloc: Global, number: u64) -> Result<CallList, AllocError> {
    let mut calls = Vec::new(alloc);
    calls.push(number)?;
    Ok(CallList::from_vec(calls))
}

/// What a run comes to over a disk of which one call fails.
fn run_failing(alloc: Global, number: u64) -> Result<Option<Outcome>, Fail> {
    let fails = one_call(alloc, number)?;
    let mut disk = MemDisk::new(alloc, BLOCKS)?;
    disk.plan(fails, None, 7);
    match Geometry::new(BLOCKS, 64) {
        Ok(g) => Ok(Some(run(alloc, &mut disk, &g))),
        Err(_) => Ok(None),
    }
}

fn all_runs_are_so(alloc: Global) -> Result<bool, Fail> {
    for row in FAILING {
        if run_failing(alloc, row.0)? != Some(row.1) {
            return Ok(false);
        }
    }
    Ok(true)
}

#[test]
fn failing_calls_are_told(rt: HostRuntime) -> Result<(), Fail> {
    assert!(rt; all_runs_are_so(rt.alloc())?);
    Ok(())
}
