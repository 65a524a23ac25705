//! The entries of one node from a place on, and how they are cut away.
ghost use Rattle.std.specs.Prelude.{◌≡◌, ◌≤◌, ◌<◌, ◌+◌, ◌++◌, ◌∷◌, [], Some, length, vec_len, vec_capacity};
ghost use Rattle.std.specs.Option.{ForSome};
ghost use Rattle.dirty_store.specs.Entries.{AreKept, cut_at, cut_away, uncut};
ghost use Rattle.dirty_store.specs.Inside.{AreBoundsOf, all_there};

use crate::entries::{Spot, count_before};
use std::ops::Range;
use vol_numbers::{Fbn, InoNo};

/// How many places a node has at most.
const PLACES: u32 = 1_048_576;

/// An entry that is not there any more, or none where there was none.
pub(crate) type Was<V> = (Spot, Option<V>);

/// Where the entries of a node from a place on stand.
pub(crate) fn bounds_of<V>(entries: &[(Spot, V)], number: InoNo, from: Fbn) -> Range<usize>
    requires kept { AreKept entries.now }
    requires from { from ≤ 1048576 }
    ensures { AreBoundsOf number from entries.now result.start result.end }
{
    let start = count_before(entries, (number, from));
    let end = count_before(entries, (number, PLACES));
    start..end
}

/// How many entries a cut of a node takes away.
pub(crate) fn cut_len<V>(entries: &[(Spot, V)], number: InoNo, cut_to: Option<Fbn>) -> usize
    requires kept { AreKept entries.now }
    requires limit { ForSome cut_to (λ from. from ≤ 1048576) }
    ensures { result ≡ length (cut_away (cut_at number cut_to) entries.now) }
{
    match cut_to {
        Some(from) => bounds_of(entries, number, from).len(),
        None => 0,
    }
}

/// Cuts a node where there is a cut, and keeps what is cut away as what was there. There is room for it.
pub(crate) fn cut<V: Drop>(
    entries: &mut Vec<(Spot, V)>,
    number: InoNo,
    cut_to: Option<Fbn>,
    was: &mut Vec<Was<V>>,
)
    requires kept { AreKept entries.old.items }
    requires limit { ForSome cut_to (λ from. from ≤ 1048576) }
    requires room { vec_len was.old + length (cut_away (cut_at number cut_to) entries.old.items) ≤ vec_capacity was.old }
    ensures cut { entries.new.items ≡ uncut (cut_at number cut_to) entries.old.items }
    ensures was { was.new.items ≡ was.old.items ++ all_there (cut_away (cut_at number cut_to) entries.old.items) }
    ensures capacity { vec_capacity entries.new ≡ vec_capacity entries.old }
    ensures was_capacity { vec_capacity was.old ≤ vec_capacity was.new }
{
    if let Some(from) = cut_to {
        cut_from(entries, number, from, was);
    }
}

/// Cuts away the entries of a node, from a place on, and keeps them as what was there. There is room for them.
fn cut_from<V: Drop>(entries: &mut Vec<(Spot, V)>, number: InoNo, from: Fbn, was: &mut Vec<Was<V>>)
    requires kept { AreKept entries.old.items }
    requires from { from ≤ 1048576 }
    requires room { vec_len was.old + length (cut_away (cut_at number (Some from)) entries.old.items) ≤ vec_capacity was.old }
    ensures cut { entries.new.items ≡ uncut (cut_at number (Some from)) entries.old.items }
    ensures was { was.new.items ≡ was.old.items ++ all_there (cut_away (cut_at number (Some from)) entries.old.items) }
    ensures capacity { vec_capacity entries.new ≡ vec_capacity entries.old }
    ensures was_capacity { vec_capacity was.old ≤ vec_capacity was.new }
{
    let bounds = bounds_of(entries, number, from);
    for (spot, item) in entries.drain(bounds) {
        keep(was, (spot, Some(item)));
    }
}

/// Pushes an element, for which there is room.
pub(crate) fn keep<T: Drop>(items: &mut Vec<T>, item: T)
    requires { vec_len items.old < vec_capacity items.old }
    ensures kept { items.new.items ≡ items.old.items ++ item ∷ [] }
    ensures len { vec_len items.new ≡ vec_len items.old + 1 }
    ensures capacity { vec_capacity items.old ≤ vec_capacity items.new }
{
    let _ = items.push(item);
}
