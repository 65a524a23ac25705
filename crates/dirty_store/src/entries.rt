//! What stands at spots, in the order of the spots. A spot is found by halves.
ghost use Rattle.std.specs.Prelude.{◌≡◌, ◌<◌, ◌≤◌, ℕ, IsTrue, IfOk, IfErr, length, vec_len, vec_capacity};
ghost use Rattle.std.specs.Option.{option_copied};
ghost use Rattle.std.specs.List.{insert};
ghost use Rattle.std.specs.FinMap.{find, put, is_sorted};
ghost use Rattle.volume_model.specs.Places.{spot_cmp};
ghost use Rattle.dirty_store.specs.Entries.{without};
ghost use Rattle.dirty_store.specs.Inside.{IsPlaceOf, IsGapFor, count_before};

use std::cmp::Ordering;
use std::mem;
use vol_numbers::InoNo;

/// A node's number, and a place of the node or a slot of the directory.
pub(crate) type Spot = (InoNo, u32);

/// What stands at a spot.
pub(crate) fn get<V>(entries: &[(Spot, V)], spot: Spot) -> Option<&V>
    requires { IsTrue (is_sorted spot_cmp entries.now) }
    ensures { option_copied result ≡ find spot_cmp spot entries.now }
{
    match search(entries, spot) {
        Ok(place) => Some(&entries[place].1),
        Err(_) => None,
    }
}

/// Puts an item at a spot, and gives what stood there. There is room for one more.
pub(crate) fn put<V: Drop>(entries: &mut Vec<(Spot, V)>, spot: Spot, item: V) -> Option<V>
    requires in_order { IsTrue (is_sorted spot_cmp entries.old.items) }
    requires room { vec_len entries.old < vec_capacity entries.old }
    ensures put { entries.new.items ≡ put spot_cmp spot item entries.old.items }
    ensures was { result ≡ find spot_cmp spot entries.old.items }
    ensures capacity { vec_capacity entries.new ≡ vec_capacity entries.old }
{
    match search(entries, spot) {
        Ok(place) => {
            let was = mem::replace(&mut entries[place], (spot, item));
            Some(was.1)
        }
        Err(place) => {
            insert_at(entries, place, (spot, item));
            None
        }
    }
}

/// Takes away what stands at a spot, and gives it.
pub(crate) fn take<V>(entries: &mut Vec<(Spot, V)>, spot: Spot) -> Option<V>
    requires { IsTrue (is_sorted spot_cmp entries.old.items) }
    ensures taken { entries.new.items ≡ without spot entries.old.items }
    ensures was { result ≡ find spot_cmp spot entries.old.items }
    ensures capacity { vec_capacity entries.new ≡ vec_capacity entries.old }
{
    match search(entries, spot) {
        Ok(place) => Some(entries.remove(place).1),
        Err(_) => None,
    }
}

/// Inserts an element, for which there is room.
fn insert_at<T: Drop>(items: &mut Vec<T>, place: usize, item: T)
    requires place { place ≤ length items.old.items }
    requires room { vec_len items.old < vec_capacity items.old }
    ensures inserted { items.new.items ≡ insert items.old.items place item }
    ensures capacity { vec_capacity items.new ≡ vec_capacity items.old }
{
    let _ = items.insert(place, item);
}

/// The place of a spot among the entries, or the one where it would be.
fn search<V>(entries: &[(Spot, V)], spot: Spot) -> Result<usize, usize>
    requires { IsTrue (is_sorted spot_cmp entries.now) }
    ensures found { IfOk result (IsPlaceOf spot entries.now) }
    ensures gap { IfErr result (IsGapFor spot entries.now) }
{
    entries.binary_search_by(|entry| entry.0.cmp(&spot))
}

/// How many entries are before a spot.
pub(crate) fn count_before<V>(entries: &[(Spot, V)], spot: Spot) -> usize
    requires { IsTrue (is_sorted spot_cmp entries.now) }
    ensures { result ≡ count_before spot entries.now }
{
    entries.partition_point(|entry| spot.cmp(&entry.0) == Ordering::Greater)
}
