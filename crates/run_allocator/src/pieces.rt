//! Pieces of free runs: which the rule takes, and the taking.
ghost use Rattle.std.specs.Prelude.{◌≡◌, ◌≢◌, ◌<◌, ◌≤◌, ◌+◌, ◌-◌, ◌∷◌, nat_le, length, IfOk, OnErr, IfSome, IfNone, None};
ghost use Rattle.vol_numbers.specs.declared.runs.Run.{Run};
ghost use Rattle.run_allocator.specs.Runs.{AreApart, numbers_of};
ghost use Rattle.run_allocator.specs.Taken.{front, first_fit};
ghost use Rattle.run_allocator.specs.Steps.{IsFront, IsPiece, IsStep, AreSteps, take_at};

use crate::order::{drop_before, in_order, whole_runs};
use std::alloc::{AllocError, Global};
use std::collections::VecDeque;
use vol_numbers::{BlockNo, Run};

/// The lowest blocks of a run: its index among the runs, the run, and how many.
#[derive(Clone, Copy, Debug, PartialEq, Eq)]
pub(crate) struct Piece {
    pub index: usize,
    pub run: Run,
    pub length: u32,
}

impl Piece {
    /// The blocks of the piece.
    fn blocks(self) -> Run
        ensures { result ≡ front self.run self.length }
    {
        Run {
            first: self.run.first,
            length: self.length,
        }
    }
}

/// Takes n blocks. A failure leaves the runs as they were.
pub(crate) fn take_pieces(
    alloc: Global,
    runs: &mut VecDeque<Run>,
    n: u32,
) -> Result<Vec<Run>, AllocError>
    requires apart { AreApart 1 runs.old.items }
    requires n { 1 ≤ n }
    requires enough { n ≤ length (numbers_of runs.old.items) }
    ensures taken { IfOk result (λ taken. AreSteps runs.old.items n taken.items runs.new.items) }
    ensures unchanged { OnErr result (runs.new.items ≡ runs.old.items) }
{
    match find_piece(runs, n) {
        Some(piece) => take_one_piece(alloc, runs, piece),
        None => take_many(alloc, runs, n),
    }
}

/// Takes a piece that is all that is asked for. The memory is taken before.
fn take_one_piece(
    alloc: Global,
    runs: &mut VecDeque<Run>,
    piece: Piece,
) -> Result<Vec<Run>, AllocError>
    requires apart { AreApart 1 runs.old.items }
    requires piece { IsPiece runs.old.items piece.length piece }
    ensures taken { IfOk result (λ taken. AreSteps runs.old.items piece.length taken.items runs.new.items) }
    ensures unchanged { OnErr result (runs.new.items ≡ runs.old.items) }
{
    let mut taken = Vec::new(alloc);
    taken.push(piece.blocks())?;
    cut(runs, piece);
    Ok(taken)
}

/// Takes n blocks as several pieces: runs that are whole, by length, and a last piece by the rule.
///
/// The runs are copied and sorted once, and then no memory is taken.
fn take_many(alloc: Global, runs: &mut VecDeque<Run>, n: u32) -> Result<Vec<Run>, AllocError>
    requires apart { AreApart 1 runs.old.items }
    requires n { 1 ≤ n }
    requires enough { n ≤ length (numbers_of runs.old.items) }
    ensures taken { IfOk result (λ taken. AreSteps runs.old.items n taken.items runs.new.items) }
    ensures unchanged { OnErr result (runs.new.items ≡ runs.old.items) }
{
    let mut order = in_order(alloc, runs)?;
    let whole = whole_runs(&order, n);
    drop_before(runs, order[whole.runs]);
    order[whole.runs] = take_last(runs, whole.left);
    order.truncate(whole.runs + 1);
    Ok(order)
}

/// The same runs, in memory of their own.
pub(crate) fn copied(alloc: Global, runs: &VecDeque<Run>) -> Result<VecDeque<Run>, AllocError>
    ensures { IfOk result (λ copy. copy.items ≡ runs.now.items) }
{
    Ok(VecDeque::from_vec(listed(alloc, runs)?))
}

/// The same runs as a list. Each is copied once.
pub(crate) fn listed(alloc: Global, runs: &VecDeque<Run>) -> Result<Vec<Run>, AllocError>
    ensures { IfOk result (λ list. list.items ≡ runs.now.items) }
{
    let (front, back) = runs.as_slices();
    let mut list = Vec::with_capacity(alloc, runs.len())?;
    list.extend_from_slice(front)?;
    list.extend_from_slice(back)?;
    Ok(list)
}

/// Takes n blocks of the lowest run that is long enough.
fn take_last(runs: &mut VecDeque<Run>, n: u32) -> Run
    requires apart { AreApart 1 runs.old.items }
    requires n { 1 ≤ n }
    requires fits { first_fit n runs.old.items ≢ None }
    ensures step { IsStep runs.old.items n result runs.new.items }
    ensures all { result.length ≡ n }
{
    match find_piece(runs, n) {
        Some(piece) => {
            cut(runs, piece);
            piece.blocks()
        }
        None => unreachable!(),
    }
}

/// Takes the lowest block of all.
pub(crate) fn take_lowest(runs: &mut VecDeque<Run>) -> BlockNo
    requires apart { AreApart 1 runs.old.items }
    requires some { 1 ≤ length (numbers_of runs.old.items) }
    ensures lowest { numbers_of runs.old.items ≡ result ∷ numbers_of runs.new.items }
    ensures positive { 0 < result }
    ensures apart { AreApart 1 runs.new.items }
{
    let run = runs[0];
    let piece = Piece {
        index: 0,
        run,
        length: 1,
    };
    cut(runs, piece);
    run.first
}

/// Takes a piece off its run.
fn cut(runs: &mut VecDeque<Run>, piece: Piece)
    requires { IsFront runs.old.items piece }
    ensures { runs.new.items ≡ take_at runs.old.items piece.index piece.length }
{
    if piece.length == piece.run.length {
        runs.remove(piece.index);
        return;
    }
    runs[piece.index] = behind(piece.run, piece.length);
}

/// A run without its lowest n blocks.
fn behind(run: Run, n: u32) -> Run
    requires within { n ≤ run.length }
    requires end { run.first + run.length ≤ 65536 }
    ensures { result ≡ record { first = run.first + n; length = run.length - n } }
{
    Run {
        first: run.first + n,
        length: run.length - n,
    }
}

/// The lowest n blocks of the lowest run that is long enough.
fn find_piece(runs: &VecDeque<Run>, n: u32) -> Option<Piece>
    requires apart { AreApart 1 runs.now.items }
    requires n { 1 ≤ n }
    ensures found { IfSome result (λ piece. IsPiece runs.now.items n piece) }
    ensures all { IfSome result (λ piece. piece.length ≡ n) }
    ensures none { IfNone result (first_fit n runs.now.items ≡ None) }
{
    for i in 0..runs.len() {
        let run = runs[i];
        if is_enough(run, n) {
            return Some(lowest(i, run, n));
        }
    }
    None
}

/// Whether a run has n blocks.
pub(crate) fn is_enough(run: Run, n: u32) -> bool
    ensures { result ≡ nat_le n run.length }
{
    n <= run.length
}

/// The lowest n blocks of a run.
fn lowest(index: usize, run: Run, n: u32) -> Piece
    ensures { result ≡ record { index = index; run = run; length = n } }
{
    Piece {
        index,
        run,
        length: n,
    }
}
