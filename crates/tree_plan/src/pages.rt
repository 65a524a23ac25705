//! Which pages of a directory are written.
ghost use Rattle.std.specs.Prelude.{◌≡◌, ◌≤◌, ◌+◌, ◌-◌, ◌++◌, ◌&&◌, nat_lt, filter, length, IfOk, OnOk};
ghost use Rattle.std.specs.Option.{option_copied};
ghost use Rattle.place_words.specs.Different.{span};
ghost use Rattle.dir_slots.specs.Pages.{pages_for};
ghost use Rattle.point_model.specs.NodePlan.{is_changed_page};
ghost use Rattle.tree_plan.specs.Pages.{slots_or_none, width_with, written_pages, SlotsFit};

use crate::spelling::is_changed_page;
use dir_slots::Directory;
use dirty_store::DirtyStore;
use std::alloc::{AllocError, Global};
use vol_numbers::{Fbn, InoNo};

/// How many slots a page has.
pub(crate) const SLOTS: u32 = 16;

/// How many slots are left of the last point.
fn width_before(left: Option<&Directory>) -> u32
    ensures is { result ≡ length (slots_or_none (option_copied left.entry)) }
    ensures at_most { result ≤ 65534 }
{
    match left {
        Some(directory) => directory.width(),
        None => 0,
    }
}

/// How wide a directory is now.
pub(crate) fn width_now(left: Option<&Directory>, store: &DirtyStore, number: InoNo) -> u32
    requires { SlotsFit store.now.overlay number }
    ensures is { result ≡ width_with (slots_or_none (option_copied left.entry)) store.now.overlay number }
    ensures at_most { result ≤ 65534 }
    ensures wide { length (slots_or_none (option_copied left.entry)) ≤ result }
{
    width_before(left).max(store.width(number))
}

/// How many pages so many slots take.
pub(crate) fn pages_for(width: u32) -> u32
    requires { width ≤ 65534 }
    ensures { result ≡ pages_for width }
{
    width.div_ceil(SLOTS)
}

/// The places of the pages that are written, in order: those that were there and have a staged slot that differs from what it was, and those that were
/// not there.
///
/// Each page with a staged slot is looked at once, in memory, so the work grows with what is staged.
pub fn written_pages(
    alloc: Global,
    left: Option<&Directory>,
    store: &DirtyStore,
    number: InoNo,
) -> Result<Vec<Fbn>, AllocError>
    requires { SlotsFit store.now.overlay number }
    ensures { IfOk result (λ places. places.items ≡ written_pages (slots_or_none (option_copied left.entry)) store.now.overlay number) }
{
    let before = pages_for(width_before(left));
    let after = pages_for(width_now(left, store, number));
    let staged = store.pages(alloc, number)?;
    let mut places = Vec::new(alloc);
    push_changed(&mut places, left, store, number, staged.as_slice(), before)?;
    push_range(&mut places, before, after)?;
    Ok(places)
}

/// Adds those of these places that are below a limit and whose pages differ from what is left of them.
fn push_changed(
    places: &mut Vec<Fbn>,
    left: Option<&Directory>,
    store: &DirtyStore,
    number: InoNo,
    staged: &[Fbn],
    limit: Fbn,
) -> Result<(), AllocError>
    requires fits { SlotsFit store.now.overlay number }
    requires limit { limit ≤ 4096 }
    ensures { OnOk result (places.new.items ≡ places.old.items ++ filter (λ p. nat_lt p limit && is_changed_page (slots_or_none (option_copied left.entry)) store.now.overlay number p) staged.now) }
{
    for place in staged {
        if *place < limit && is_changed_page(left, store, number, *place) {
            places.push(*place)?;
        }
    }
    Ok(())
}

/// Adds the places from one on and below another.
fn push_range(places: &mut Vec<Fbn>, from: Fbn, to: Fbn) -> Result<(), AllocError>
    requires { from ≤ to }
    ensures { OnOk result (places.new.items ≡ places.old.items ++ span from (to - from)) }
{
    for place in from..to {
        places.push(place)?;
    }
    Ok(())
}
