//! The order in which runs are taken whole: the longest first, and of equals the lowest.
ghost use Rattle.std.specs.Prelude.{◌≡◌, ◌≤◌, length, IfOk};
ghost use Rattle.std.specs.Ordering.{is_lt};
ghost use Rattle.run_allocator.specs.Runs.{numbers_of};
ghost use Rattle.run_allocator.specs.Order.{IsOrder, AreWhole, goes_before, not_before};

use crate::pieces::{is_enough, listed};
use std::alloc::{AllocError, Global};
use std::cmp::Ordering;
use std::collections::VecDeque;
use vol_numbers::Run;

/// How many runs of an order are taken whole, and how many blocks are then left to take.
#[derive(Clone, Copy, Debug, PartialEq, Eq)]
pub(crate) struct Whole {
    pub runs: usize,
    pub left: u32,
}

/// The runs in the order in which they are taken whole.
pub(crate) fn in_order(alloc: Global, runs: &VecDeque<Run>) -> Result<Vec<Run>, AllocError>
    ensures { IfOk result (λ order. IsOrder runs.now.items order.items) }
{
    let mut order = listed(alloc, runs)?;
    order.sort_unstable_by(|run, other| compared(*run, *other));
    Ok(order)
}

/// How a run stands to another in the order.
fn compared(run: Run, other: Run) -> Ordering
    ensures { is_lt result ≡ goes_before run other }
{
    let by_length = other.length.cmp(&run.length);
    by_length.then(run.first.cmp(&other.first))
}

/// How many runs of an order are taken whole for n blocks: while a run is shorter than what is left.
pub(crate) fn whole_runs(order: &[Run], n: u32) -> Whole
    requires n { 1 ≤ n }
    requires enough { n ≤ length (numbers_of order.now) }
    ensures { AreWhole order.now n result.runs result.left }
{
    let mut runs = 0;
    let mut left = n;
    while !is_enough(order[runs], left) {
        left -= order[runs].length;
        runs += 1;
    }
    Whole { runs, left }
}

/// Drops the runs that go before this one in the order, in one pass.
pub(crate) fn drop_before(runs: &mut VecDeque<Run>, next: Run)
    ensures { runs.new.items ≡ not_before runs.old.items next }
{
    runs.retain(|run| !compared(*run, next).is_lt());
}
