//! The runs of the zeros of a list of counts.
ghost use Rattle.std.specs.Prelude.{◌≡◌, ◌<◌, ◌≤◌, ◌+◌, ◌∷◌, nat_eq, length, drop, IfOk, OnOk};
ghost use Rattle.run_allocator.specs.Runs.{AreApart, numbers_of, zeros_from};
ghost use Rattle.run_allocator.specs.Taken.{with_number};

use std::alloc::{AllocError, Global};
use std::collections::VecDeque;
use vol_numbers::{BlockNo, Run};

/// The runs of the places of zeros, from a place on, and how many places they are.
pub(crate) fn runs_of_zeros(
    alloc: Global,
    counts: &[u32],
    start: u32,
) -> Result<(VecDeque<Run>, u32), AllocError>
    requires some { 1 ≤ start }
    requires start { start ≤ length counts.now }
    requires end { length counts.now ≤ 65536 }
    ensures numbers { IfOk result (λ r. numbers_of r.0.items ≡ zeros_from start (drop start counts.now)) }
    ensures apart { IfOk result (λ r. AreApart 1 r.0.items) }
    ensures free { IfOk result (λ r. r.1 ≡ length (numbers_of r.0.items)) }
{
    let mut runs = VecDeque::new(alloc);
    let mut free = 0;
    for b in (start..counts.len() as u32).rev() {
        if is_free(counts[b as usize]) {
            put_below(&mut runs, b)?;
            free += 1;
        }
    }
    Ok((runs, free))
}

/// Whether a block of this count is free.
fn is_free(count: u32) -> bool
    ensures { result ≡ nat_eq count 0 }
{
    count == 0
}

/// Puts a block below the runs: the lowest is longer by it, or it is a run by itself.
fn put_below(runs: &mut VecDeque<Run>, b: BlockNo) -> Result<(), AllocError>
    requires apart { AreApart (b + 1) runs.old.items }
    requires b { b < 65536 }
    ensures { OnOk result (runs.new.items ≡ with_number b runs.old.items) }
{
    if runs.is_empty() {
        return put_alone(runs, b);
    }
    let lowest = runs[0];
    if b + 1 != lowest.first {
        return put_alone(runs, b);
    }
    runs[0] = Run {
        first: b,
        length: lowest.length + 1,
    };
    Ok(())
}

/// Puts a block below the runs, as a run by itself.
fn put_alone(runs: &mut VecDeque<Run>, b: BlockNo) -> Result<(), AllocError>
    ensures { OnOk result (runs.new.items ≡ record { first = b; length = 1 } ∷ runs.old.items) }
{
    runs.push_front(Run {
        first: b,
        length: 1,
    })?;
    Ok(())
}
