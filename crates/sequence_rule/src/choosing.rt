//! The best sequence, and then the best of the places that are left.
ghost use Rattle.std.specs.Prelude.{◌≡◌, ◌+◌, ◌<◌, ◌≤◌, ◌^◌, IfOk, length};
ghost use Rattle.std.specs.Vec.{vec_len};
ghost use Rattle.volume_model.specs.Selection.{comes_before, covers};
ghost use Rattle.volume_model.specs.Select.{better, best_of_both, long_enough};
ghost use Rattle.sequence_rule.specs.Choosing.{reach_along, sequence_from, best_to, best_along, rows_without, picks_along};

use crate::matched::PlaceMatches;
use std::alloc::{AllocError, Global};
use vol_numbers::{BlockNo, Fbn};
use volume_model::Sequence;

/// The best sequence of these places, then the best of those that are left, and so on.
pub(crate) fn picks(
    alloc: Global,
    rows: Vec<PlaceMatches>,
    threshold: u32,
) -> Result<Vec<Sequence>, AllocError>
    requires { length rows.items < 2 ^ 32 }
    ensures { IfOk result (λ picked. picked.items ≡ picks_along threshold (length rows.items) rows.items) }
{
    let mut picked = Vec::new(alloc);
    let mut left = rows;
    for _turn in 0..left.len() {
        match best(left.as_slice(), threshold) {
            None => return Ok(picked),
            Some(sequence) => {
                picked.push(sequence)?;
                remove_covered(&mut left, sequence);
            }
        }
    }
    Ok(picked)
}

/// The best of all sequences, if it is long enough.
fn best(rows: &[PlaceMatches], threshold: u32) -> Option<Sequence>
    requires { length rows.now < 2 ^ 32 }
    ensures { result ≡ long_enough threshold (best_along rows.now) }
{
    match best_along(rows) {
        None => None,
        Some(sequence) => {
            if threshold <= sequence.length {
                Some(sequence)
            } else {
                None
            }
        }
    }
}

/// The best of all sequences.
fn best_along(rows: &[PlaceMatches]) -> Option<Sequence>
    requires { length rows.now < 2 ^ 32 }
    ensures { result ≡ best_along rows.now }
{
    let mut best = None;
    for i in 0..rows.len() {
        let k = rows.len() - (i + 1);
        let row = &rows[k];
        best = best_of_both(best_to(row.place, &rows[k..], row.blocks.as_slice()), best);
    }
    best
}

/// The best sequence from a place on to any of these blocks.
fn best_to(place: Fbn, rows: &[PlaceMatches], blocks: &[BlockNo]) -> Option<Sequence>
    requires { length rows.now < 2 ^ 32 }
    ensures { result ≡ best_to place rows.now blocks.now }
{
    let mut best = None;
    for i in 0..blocks.len() {
        let block = blocks[blocks.len() - (i + 1)];
        best = better(sequence_from(place, block, rows), best);
    }
    best
}

fn best_of_both(first: Option<Sequence>, second: Option<Sequence>) -> Option<Sequence>
    ensures { result ≡ best_of_both first second }
{
    match first {
        None => second,
        Some(p) => better(p, second),
    }
}

fn better(p: Sequence, other: Option<Sequence>) -> Option<Sequence>
    ensures { result ≡ better p other }
{
    match other {
        None => Some(p),
        Some(q) => { if comes_before(p, q) { Some(p) } else { Some(q) } }
    }
}

/// Longer, or as long and from an earlier place, or that and to no higher a block.
fn comes_before(p: Sequence, q: Sequence) -> bool
    ensures { result ≡ comes_before p q }
{
    q.length < p.length
        || (p.length == q.length
            && (p.first < q.first || (p.first == q.first && p.block <= q.block)))
}

/// The longest sequence from a place and a block on.
fn sequence_from(place: Fbn, block: BlockNo, rows: &[PlaceMatches]) -> Sequence
    requires { length rows.now < 2 ^ 32 }
    ensures { result ≡ sequence_from place block rows.now }
{
    Sequence {
        first: place,
        length: reach(place, block, rows) as u32,
        block,
    }
}

/// How far a sequence goes from a place and a block on, along these rows.
fn reach(place: Fbn, block: BlockNo, rows: &[PlaceMatches]) -> usize
    ensures reach { result ≡ reach_along place block rows.now }
    ensures within { result ≤ length rows.now }
{
    for (n, row) in rows.iter().enumerate() {
        let next_place = u64::from(place).wrapping_add(n as u64);
        let next_block = u64::from(block).wrapping_add(n as u64);
        if !row.matches(next_place, next_block) {
            return n;
        }
    }
    rows.len()
}

/// Removes the places of a sequence.
fn remove_covered(rows: &mut Vec<PlaceMatches>, sequence: Sequence)
    ensures { rows.new.items ≡ rows_without sequence rows.old.items }
{
    rows.retain(|row| !covers(sequence, row.place));
}

fn covers(sequence: Sequence, place: Fbn) -> bool
    ensures { result ≡ covers sequence place }
{
    sequence.first <= place
        && u64::from(place) < u64::from(sequence.first) + u64::from(sequence.length)
}
