//! Places as runs.
ghost use Rattle.std.specs.Prelude.{◌≡◌, ◌<◌, ◌++◌, ◌∷◌, [], ℕ, List, IfOk, OnOk, map};
ghost use Rattle.dirty_store.specs.Entries.{AreWithin};
ghost use Rattle.dirty_store.specs.Runs.{AreRunsOf};
ghost use Rattle.dirty_store.specs.Inside.{AreRunsSoFar, AreRunsWithin, ends_at, lengthened};

use crate::entries::Spot;
use std::alloc::{AllocError, Global};
use vol_numbers::{Fbn, Run, RunList};

/// The places of these entries, as runs.
pub(crate) fn runs_of<V>(alloc: Global, entries: &[(Spot, V)]) -> Result<RunList, AllocError>
    requires { AreWithin entries.now }
    ensures { IfOk result (AreRunsOf (map (λ e. e.0.1) entries.now)) }
{
    let mut runs = Vec::new(alloc);
    for entry in entries {
        add_place(&mut runs, entry.0.1)?;
    }
    Ok(RunList::from_vec(runs))
}

/// Adds a place behind all others: to the last run, where that ends there, and else as a run of its own.
fn add_place(runs: &mut Vec<Run>, place: Fbn) -> Result<(), AllocError>
    requires place { place < 1048576 }
    requires within { AreRunsWithin runs.old.items }
    ensures { OnOk result ((places : List ℕ) → AreRunsSoFar places runs.old.items → AreRunsSoFar (places ++ place ∷ []) runs.new.items) }
{
    if ends_at(runs, place) {
        lengthen_last(runs);
        return Ok(());
    }
    runs.push(Run {
        first: place,
        length: 1,
    })?;
    Ok(())
}

/// Whether the last run ends at a place.
fn ends_at(runs: &[Run], place: Fbn) -> bool
    requires { AreRunsWithin runs.now }
    ensures { result ≡ ends_at runs.now place }
{
    match runs.last() {
        Some(last) => last.first + last.length == place,
        None => false,
    }
}

/// Makes the last run longer by one.
fn lengthen_last(runs: &mut Vec<Run>)
    requires { AreRunsWithin runs.old.items }
    ensures { runs.new.items ≡ lengthened runs.old.items }
{
    if let Some(last) = runs.last_mut() {
        last.length += 1;
    }
}
