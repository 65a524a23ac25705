//! Which fresh blocks the dirty places get.
ghost use Rattle.std.specs.Prelude.{◌≡◌, ◌≤◌, ◌<◌, ◌+◌, ℕ, List, IfOk, IfErr, OnOk, IsErrOf, [], length, map, sum_by};
ghost use Rattle.vol_numbers.specs.declared.runs.Run.{Run as RunOf};
ghost use Rattle.tree_model.specs.declared.report.Line.{Line as LineOf};
ghost use Rattle.run_allocator.specs.Runs.{Ascends, numbers_of};
ghost use Rattle.run_allocator.specs.Taken.{left_without, taken_runs};
ghost use Rattle.run_allocator.specs.declared.free_map.TakeFault.TheVariants.{Short};
ghost use Rattle.volume_model.specs.Lines.{fresh_lines, lines_places};
ghost use Rattle.volume_model.specs.Places.{spots_of};
ghost use Rattle.dirty_store.specs.Laws.{dirty_spots};
ghost use Rattle.dirty_store.specs.Overlay.{IsOverlay};
ghost use Rattle.fresh_runs.specs.Fresh.{AreNumbersOf, IsPartedInto, blocks_in, changes_of, left_after, lengths_at, run_lengths, spots_at, taken_for};
ghost use Rattle.fresh_runs.specs.Inside.{Adds, ArePlaced, AreRuns, spots_from, spots_in};

use crate::grow::add_piece;
use crate::placed::Placed;
use dirty_store::DirtyStore;
use run_allocator::{FreeMap, TakeFault};
use std::alloc::{AllocError, Global};
use tree_model::{Line, LineList};
use vol_numbers::{Change, ChangeList, InoNo, Run, RunList};

/// Gives a fresh block to each dirty place. Each longest run of adjacent dirty places of a file gets the blocks that the rule takes for a run
/// of its length, by number and place.
///
/// The numbers rise, and have those of all files with dirty places. A number without one gets no block.
///
/// Nothing is changed. `Short` is answered exactly where fewer blocks are free than places are dirty, and before any memory is taken.
pub fn place_fresh(
    alloc: Global,
    store: &DirtyStore,
    numbers: &[InoNo],
    free: &FreeMap,
) -> Result<Placed, TakeFault>
    requires { AreNumbersOf (dirty_spots store.now.overlay) numbers.now }
    ensures places { IfOk result (λ p. spots_of (lines_places p.lines) ≡ dirty_spots store.now.overlay) }
    ensures longest { IfOk result (λ p. p.lines ≡ fresh_lines (lines_places p.lines)) }
    ensures by_rule { IfOk result (λ p. blocks_in p.lines ≡ taken_for free.now (run_lengths (dirty_spots store.now.overlay) numbers.now)) }
    ensures left { IfOk result (λ p. p.left ≡ left_after free.now (run_lengths (dirty_spots store.now.overlay) numbers.now)) }
    ensures parted { IfOk result (λ p. IsPartedInto free.now (blocks_in p.lines) p.left) }
    ensures ascends { Ascends 1 free.now }
    ensures changes { IfOk result (λ p. p.changes.items ≡ map (changes_of (lines_places p.lines)) numbers.now) }
    ensures many { IfOk result (λ p. p.blocks ≡ length (dirty_spots store.now.overlay)) }
    ensures short { (n : ℕ) → IsErrOf result (Short n) → (n ≡ length free.now) × (length free.now < length (dirty_spots store.now.overlay)) }
    ensures too_few { length free.now < length (dirty_spots store.now.overlay) → IsErrOf result (Short (length free.now)) }
{
    let count = free.free();
    let blocks = store.dirty_count();
    if (count as usize) < blocks {
        return Err(TakeFault::Short { free: count });
    }
    let mut left = free.copy()?;
    let mut lines = Vec::new(alloc);
    let changes = place_all(alloc, store, numbers, &mut left, &mut lines)?;
    Ok(Placed {
        lines: LineList::from_vec(lines),
        changes,
        left,
        blocks: blocks as u32,
    })
}

/// Gives blocks to the dirty places of these numbers, and lists the changes of each.
fn place_all(
    alloc: Global,
    store: &DirtyStore,
    numbers: &[InoNo],
    free: &mut FreeMap,
    lines: &mut Vec<Line>,
) -> Result<Vec<ChangeList>, AllocError>
    requires in_order { IsOverlay store.now.overlay }
    requires numbers { AreNumbersOf (dirty_spots store.now.overlay) numbers.now }
    requires none { lines.old.items ≡ [] }
    requires ascends { Ascends 1 free.old }
    requires enough { length (dirty_spots store.now.overlay) ≤ length free.old }
    ensures { IfOk result (λ changes. ArePlaced (dirty_spots store.now.overlay) free.old numbers.now lines.new.items free.new changes.items) }
{
    let mut changes = Vec::new(alloc);
    for number in numbers {
        changes.push(place_number(alloc, store, *number, free, lines)?)?;
    }
    Ok(changes)
}

/// Gives blocks to the dirty places of a number, and lists its changes.
fn place_number(
    alloc: Global,
    store: &DirtyStore,
    number: InoNo,
    free: &mut FreeMap,
    lines: &mut Vec<Line>,
) -> Result<ChangeList, AllocError>
    requires in_order { IsOverlay store.now.overlay }
    requires ascends { Ascends 1 free.old }
    requires enough { length (spots_at (dirty_spots store.now.overlay) number) ≤ length free.old }
    ensures adds { IfOk result (λ changes. Adds (spots_at (dirty_spots store.now.overlay) number) (taken_for free.old (lengths_at (dirty_spots store.now.overlay) number)) lines.old.items lines.new.items [] changes) }
    ensures left { OnOk result (free.new ≡ left_after free.old (lengths_at (dirty_spots store.now.overlay) number)) }
{
    let runs = store.runs_of(alloc, number)?;
    place_runs(alloc, number, runs.as_slice(), free, lines)
}

/// Gives blocks to runs of places of a number, and lists their changes.
fn place_runs(
    alloc: Global,
    number: InoNo,
    runs: &[Run],
    free: &mut FreeMap,
    lines: &mut Vec<Line>,
) -> Result<ChangeList, AllocError>
    requires runs { AreRuns runs.now }
    requires ascends { Ascends 1 free.old }
    requires enough { sum_by (λ (r : RunOf). r.length) runs.now ≤ length free.old }
    ensures adds { IfOk result (λ changes. Adds (spots_in number runs.now) (taken_for free.old (map (λ (r : RunOf). r.length) runs.now)) lines.old.items lines.new.items [] changes) }
    ensures left { OnOk result (free.new ≡ left_after free.old (map (λ (r : RunOf). r.length) runs.now)) }
{
    let mut changes = Vec::new(alloc);
    for run in runs {
        place_run(number, *run, free, lines, &mut changes)?;
    }
    Ok(ChangeList::from_vec(changes))
}

/// Gives the blocks that the rule takes to a run of places.
fn place_run(
    number: InoNo,
    run: Run,
    free: &mut FreeMap,
    lines: &mut Vec<Line>,
    changes: &mut Vec<Change>,
) -> Result<(), AllocError>
    requires some { 1 ≤ run.length }
    requires within { run.first + run.length ≤ 1048576 }
    requires ascends { Ascends 1 free.old }
    requires enough { run.length ≤ length free.old }
    ensures adds { OnOk result (Adds (spots_from number run.first run.length) (numbers_of (taken_runs free.old run.length)) lines.old.items lines.new.items changes.old.items changes.new.items) }
    ensures left { OnOk result (free.new ≡ left_without free.old (taken_runs free.old run.length)) }
{
    let taken = take_enough(free, run.length)?;
    let mut place = run.first;
    for blocks in taken.as_slice() {
        add_piece(number, place, *blocks, lines, changes)?;
        place += blocks.length;
    }
    Ok(())
}

/// Takes n blocks, of which there are enough. So only memory can be wanting.
fn take_enough(free: &mut FreeMap, n: u32) -> Result<RunList, AllocError>
    requires some { 1 ≤ n }
    requires enough { n ≤ length free.old }
    ensures taken { IfOk result (λ runs. runs ≡ taken_runs free.old n) }
    ensures left { OnOk result (free.new ≡ left_without free.old (taken_runs free.old n)) }
{
    free.take_run(n).map_err(|_| AllocError)
}
