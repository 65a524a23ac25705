//! Rewritings, one after the other on one disk.
ghost use Rattle.std.specs.Prelude.{◌≡◌, ◌<◌, ◌^◌, ◌↔◌, true, All, IsTrue};
ghost use Rattle.vol_numbers.specs.Geometry.{layout_of};
ghost use Rattle.vol_numbers.specs.declared.runs.Change.{Change as ChangeOf};
ghost use Rattle.block_tree.specs.Root.{IsRoot};

use block_format::blocks_of;
use block_tree::{Rewritten, TreeRoot, look, rewrite};
use disk_model::Disk;
use run_allocator::FreeMap;
use std::alloc::Global;
use vol_numbers::{BlockNo, Change, ChangeList, CountList, Fbn, Geometry, Page};

/// The places that are looked up after each step: the ends of the first two leaves, and the last place of the greatest file.
pub(crate) const PLACES: [Fbn; 4] = [0, 1_023, 1_024, 1_048_575];

/// A rewriting: the places from `cut_to` on are dropped, the changes are made, and there are so many blocks then. Free are the blocks from `lowest` on.
pub(crate) struct Step {
    pub(crate) cut_to: Fbn,
    pub(crate) changes: &'static [(Fbn, BlockNo)],
    pub(crate) blocks: u64,
    pub(crate) lowest: BlockNo,
    pub(crate) root: TreeRoot,
    pub(crate) pages: &'static [BlockNo],
    pub(crate) added: &'static [BlockNo],
    pub(crate) dropped: &'static [BlockNo],
    pub(crate) found: [BlockNo; 4],
}

/// Counts of a volume's blocks: 0 from one on.
fn counts_from(alloc: Global, blocks: u32, lowest: BlockNo) -> Option<CountList> {
    let mut counts = Vec::new(alloc);
    for b in 0..blocks {
        counts.push(u32::from(b < lowest)).ok()?;
    }
    Some(CountList::from_vec(counts))
}

/// The blocks from one on, free.
fn free_from(alloc: Global, g: &Geometry, lowest: BlockNo) -> Option<FreeMap> {
    let counts = counts_from(alloc, g.blocks(), lowest)?;
    if counts.len() < g.blocks() as usize {
        return None;
    }
    FreeMap::of(alloc, &counts, g).ok()
}

/// The changes of a step.
fn changes_of(alloc: Global, rows: &[(Fbn, BlockNo)]) -> Option<ChangeList> {
    let mut changes = Vec::new(alloc);
    for row in rows {
        let change = Change {
            place: row.0,
            block: row.1,
        };
        changes.push(change).ok()?;
    }
    Some(ChangeList::from_vec(changes))
}

fn is_below(change: &Change, blocks: u64) -> bool
    ensures { IsTrue result ↔ (change.now.place < blocks) }
{
    u64::from(change.place) < blocks
}

/// Whether each change is of a place below so many.
fn are_below(changes: &[Change], blocks: u64) -> bool
    ensures { IsTrue result ↔ All (λ (c : ChangeOf). c.place < blocks) changes.now }
{
    changes.iter().all(|change| is_below(change, blocks))
}

/// Whether a tree of the volume may begin so.
fn may_be_root(root: &TreeRoot, g: &Geometry) -> bool
    ensures { result ≡ true → IsRoot (layout_of g.now) root.now }
{
    if root.height > 2 {
        return false;
    }
    if root.ptr == 0 {
        return true;
    }
    if root.ptr < g.area_start() {
        return false;
    }
    root.ptr < g.blocks()
}

/// What is planned for a step.
fn plan<D: Disk>(
    alloc: Global,
    disk: &mut D,
    g: &Geometry,
    root: &TreeRoot,
    step: &Step,
    changes: &ChangeList,
) -> Option<Rewritten> {
    if disk.blocks() != g.blocks() || !may_be_root(root, g) || step.blocks > 1_048_576 {
        return None;
    }
    let size = 4_096 * step.blocks;
    let blocks = blocks_of(size);
    if u64::from(step.cut_to) > blocks || !are_below(changes.as_slice(), blocks) {
        return None;
    }
    let mut free = free_from(alloc, g, step.lowest)?;
    if (free.free() as usize) < changes.len() + 3 {
        return None;
    }
    rewrite(alloc, disk, g, root, step.cut_to, changes, size, &mut free).ok()
}

/// Writes the pages, and says whether they are for these blocks.
fn are_written<D: Disk>(disk: &mut D, pages: &[Page], want: &[BlockNo]) -> bool {
    if pages.len() != want.len() {
        return false;
    }
    for (i, page) in pages.iter().enumerate() {
        if page.at != want[i] || page.at >= disk.blocks() {
            return false;
        }
        if disk.write_block(page.at, &page.block).is_err() {
            return false;
        }
    }
    true
}

/// Whether the plan is that of the step. Its pages are written.
fn is_done<D: Disk>(disk: &mut D, made: &Rewritten, step: &Step) -> bool {
    if made.root != step.root || made.added.as_slice() != step.added {
        return false;
    }
    if made.dropped.as_slice() != step.dropped {
        return false;
    }
    are_written(disk, made.pages.as_slice(), step.pages)
}

/// The root after a step. None where anything isn't as the step says.
fn done<D: Disk>(
    alloc: Global,
    disk: &mut D,
    g: &Geometry,
    root: &TreeRoot,
    step: &Step,
) -> Option<TreeRoot> {
    let changes = changes_of(alloc, step.changes)?;
    let made = plan(alloc, disk, g, root, step, &changes)?;
    if is_done(disk, &made, step) {
        Some(made.root)
    } else {
        None
    }
}

/// How many of the first steps are done, one after the other.
pub(crate) fn steps_done<D: Disk>(
    alloc: Global,
    disk: &mut D,
    g: &Geometry,
    steps: &[Step],
    looks: bool,
) -> usize {
    let mut root = TreeRoot { height: 0, ptr: 0 };
    for (i, step) in steps.iter().enumerate() {
        match done(alloc, disk, g, &root, step) {
            Some(new) => root = new,
            None => return i,
        }
        if looks && !are_found(disk, g, &root, &step.found) {
            return i;
        }
    }
    steps.len()
}

/// Whether a tree of this height has the place.
fn has_place(height: u32, place: Fbn) -> bool
    ensures { result ≡ true → place < 1024 ^ height }
{
    match height {
        0 => place == 0,
        1 => place < 1_024,
        2 => place < 1_048_576,
        _ => false,
    }
}

/// Whether the places have these blocks. One that the height doesn't reach has none.
fn are_found<D: Disk>(disk: &mut D, g: &Geometry, root: &TreeRoot, want: &[BlockNo; 4]) -> bool {
    if disk.blocks() != g.blocks() || !may_be_root(root, g) {
        return false;
    }
    for i in 0..4 {
        if !is_found(disk, g, root, PLACES[i], want[i]) {
            return false;
        }
    }
    true
}

/// Whether a place has this block.
fn is_found<D: Disk>(
    disk: &mut D,
    g: &Geometry,
    root: &TreeRoot,
    place: Fbn,
    want: BlockNo,
) -> bool {
    if disk.blocks() != g.blocks() || !may_be_root(root, g) {
        return false;
    }
    if !has_place(root.height, place) {
        return want == 0;
    }
    look(disk, g, root, place) == Ok(want)
}
