//! The numbers and the pages that have something staged, each once.
ghost use Rattle.std.specs.Prelude.{◌≡◌, ◌/◌, ◌++◌, map, IfOk, OnOk};
ghost use Rattle.dirty_store.specs.Numbers.{AreOnce, numbers_in};

use crate::entries::Spot;
use crate::node_change::Nodes;
use std::alloc::{AllocError, Global};
use vol_numbers::{Fbn, InoNo, ItemList};

/// Numbers of nodes.
pub type NumberList = ItemList<InoNo>;

/// Places of a node.
pub type PlaceList = ItemList<Fbn>;

/// How many slots a page of a directory has.
const SLOTS: u32 = 16;

/// Adds the number of each entry's node.
pub(crate) fn push_numbers<V>(
    numbers: &mut Vec<InoNo>,
    entries: &[(Spot, V)],
) -> Result<(), AllocError>
    ensures { OnOk result (numbers.new.items ≡ numbers.old.items ++ numbers_in entries.now) }
{
    for entry in entries {
        numbers.push(entry.0.0)?;
    }
    Ok(())
}

/// Adds the number of each staged node.
pub(crate) fn push_nodes(numbers: &mut Vec<InoNo>, nodes: &Nodes) -> Result<(), AllocError>
    ensures { OnOk result (numbers.new.items ≡ numbers.old.items ++ map (λ e. e.0) nodes.now.entries) }
{
    for number in nodes.keys() {
        numbers.push(*number)?;
    }
    Ok(())
}

/// The page of each of these slots, in ascending order and each once.
pub(crate) fn pages_of<V>(alloc: Global, slots: &[(Spot, V)]) -> Result<PlaceList, AllocError>
    ensures { IfOk result (AreOnce (map (λ k. k / 16) (map (λ e. e.0.1) slots.now))) }
{
    let mut pages = Vec::new(alloc);
    for slot in slots {
        pages.push(slot.0.1 / SLOTS)?;
    }
    sort_once(&mut pages);
    Ok(PlaceList::from_vec(pages))
}

/// Puts numbers into ascending order, each once.
pub(crate) fn sort_once(numbers: &mut Vec<u32>)
    ensures { AreOnce numbers.old.items numbers.new.items }
{
    numbers.sort_unstable();
    numbers.dedup();
}
