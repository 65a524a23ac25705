//! How entries are staged: room first, then a cut and what is put, and what was there is remembered.
ghost use Rattle.std.specs.Prelude.{◌≡◌, ◌≤◌, ◌<◌, ◌+◌, [], ◌∷◌, Some, length, vec_len, vec_capacity, IfOk, OnOk};
ghost use Rattle.std.specs.Option.{ForSome};
ghost use Rattle.dirty_store.specs.Entries.{AreKept, AreWithin, cut_at, cut_away, uncut, all_put, put_back, set_back, there};

use crate::cuts::{Was, cut, cut_len, keep};
use crate::entries::{Spot, put, take};
use std::alloc::{AllocError, Global};
use vol_numbers::{Fbn, InoNo};

/// Makes room for new entries, and for what a cut and they replace.
pub(crate) fn room_for<V>(
    alloc: Global,
    entries: &mut Vec<(Spot, V)>,
    number: InoNo,
    cut_to: Option<Fbn>,
    new: usize,
) -> Result<Vec<Was<V>>, AllocError>
    requires kept { AreKept entries.old.items }
    requires limit { ForSome cut_to (λ from. from ≤ 1048576) }
    ensures same { entries.new.items ≡ entries.old.items }
    ensures capacity { vec_capacity entries.old ≤ vec_capacity entries.new }
    ensures room { OnOk result (vec_len entries.new + new ≤ vec_capacity entries.new) }
    ensures empty { IfOk result (λ was. was.items ≡ []) }
    ensures was_room { IfOk result (λ was. length (cut_away (cut_at number cut_to) entries.old.items) + new ≤ vec_capacity was) }
{
    let cut = cut_len(entries, number, cut_to);
    entries.reserve(new)?;
    let replaced = cut.checked_add(new).ok_or(AllocError)?;
    Vec::with_capacity(alloc, replaced)
}

/// Puts all of these, and keeps what was there. There is room for both.
fn put_all<V: Drop>(entries: &mut Vec<(Spot, V)>, new: Vec<(Spot, V)>, was: &mut Vec<Was<V>>)
    requires kept { AreKept entries.old.items }
    requires within { AreWithin new.items }
    requires was_within { AreWithin was.old.items }
    requires room { vec_len entries.old + length new.items ≤ vec_capacity entries.old }
    requires was_room { vec_len was.old + length new.items ≤ vec_capacity was.old }
    ensures put { entries.new.items ≡ all_put new.items entries.old.items }
    ensures kept { AreKept entries.new.items }
    ensures was_within { AreWithin was.new.items }
    ensures back { put_back was.new.items entries.new.items ≡ put_back was.old.items entries.old.items }
    ensures count { length entries.new.items + there was.new.items ≡ length entries.old.items + there was.old.items + length new.items }
    ensures capacity { vec_capacity entries.new ≡ vec_capacity entries.old }
{
    for (spot, item) in new {
        let old = put(entries, spot, item);
        keep(was, (spot, old));
    }
}

/// Cuts, then puts, and gives what was there. There is room for all.
pub(crate) fn restage<V: Drop>(
    entries: &mut Vec<(Spot, V)>,
    number: InoNo,
    cut_to: Option<Fbn>,
    new: Vec<(Spot, V)>,
    mut was: Vec<Was<V>>,
) -> Vec<Was<V>>
    requires kept { AreKept entries.old.items }
    requires limit { ForSome cut_to (λ from. from ≤ 1048576) }
    requires within { AreWithin new.items }
    requires empty { was.items ≡ [] }
    requires room { vec_len entries.old + length new.items ≤ vec_capacity entries.old }
    requires was_room { length (cut_away (cut_at number cut_to) entries.old.items) + length new.items ≤ vec_capacity was }
    ensures staged { entries.new.items ≡ all_put new.items (uncut (cut_at number cut_to) entries.old.items) }
    ensures kept { AreKept entries.new.items }
    ensures within { AreWithin result.items }
    ensures back { put_back result.items entries.new.items ≡ entries.old.items }
    ensures room { length entries.new.items + there result.items ≤ vec_capacity entries.new }
    ensures capacity { vec_capacity entries.new ≡ vec_capacity entries.old }
{
    cut(entries, number, cut_to, &mut was);
    put_all(entries, new, &mut was);
    was
}

/// Puts back what was there, the last first. There is room for it, so it takes no memory.
pub(crate) fn put_all_back<V: Drop>(entries: &mut Vec<(Spot, V)>, mut was: Vec<Was<V>>)
    requires kept { AreKept entries.old.items }
    requires within { AreWithin was.items }
    requires room { length entries.old.items + there was.items ≤ vec_capacity entries.old }
    ensures back { entries.new.items ≡ put_back was.items entries.old.items }
    ensures kept { AreKept entries.new.items }
    ensures capacity { vec_capacity entries.new ≡ vec_capacity entries.old }
{
    while let Some((spot, item)) = was.pop() {
        set_back(entries, spot, item);
    }
}

/// Puts back what was at a spot, or nothing. There is room for it.
fn set_back<V: Drop>(entries: &mut Vec<(Spot, V)>, spot: Spot, item: Option<V>)
    requires kept { AreKept entries.old.items }
    requires within { spot.1 < 1048576 }
    requires room { length entries.old.items + there ((spot, item) ∷ []) ≤ vec_capacity entries.old }
    ensures back { entries.new.items ≡ set_back spot item entries.old.items }
    ensures kept { AreKept entries.new.items }
    ensures count { length entries.new.items ≤ length entries.old.items + there ((spot, item) ∷ []) }
    ensures capacity { vec_capacity entries.new ≡ vec_capacity entries.old }
{
    match item {
        Some(item) => {
            put(entries, spot, item);
        }
        None => {
            take(entries, spot);
        }
    }
}
