//! A directory as it is now, in memory.
ghost use Rattle.std.specs.Prelude.{◌≡◌, ◌<◌, ◌≤◌, ℕ, length, IfOk};
ghost use Rattle.std.specs.Option.{option_copied};
ghost use Rattle.dir_slots.specs.Pages.{bytes_at};
ghost use Rattle.dir_slots.specs.Slots.{IsDirectory};
ghost use Rattle.tree_plan.specs.Pages.{slots_or_none, SlotsFit, SpellsPage};
ghost use Rattle.tree_plan.specs.Renewed.{slots_with};

use crate::pages::{pages_for, width_now};
use crate::spelling::spelled_page;
use dir_slots::{DirFault, Directory, one_directory};
use dirty_store::DirtyStore;
use std::alloc::{AllocError, Global};
use vol_numbers::{InoNo, Page, PageList};

/// A directory as it is now, built anew from the slots that are left of the last point and from what is staged of it.
pub fn renewed_directory(
    alloc: Global,
    left: Option<&Directory>,
    store: &DirtyStore,
    number: InoNo,
) -> Result<Directory, AllocError>
    requires { IsDirectory (slots_with (slots_or_none (option_copied left)) store.now.overlay number) }
    ensures { IfOk result (λ slots. slots ≡ slots_with (slots_or_none (option_copied left.entry)) store.now.overlay number) }
{
    let width = width_now(left, store, number);
    let pages = all_pages(alloc, left, store, number, pages_for(width))?;
    // Blocks spell one directory, so what is read is the one that was spelled.
    one_directory();
    match Directory::read(alloc, &pages, width) {
        Ok(slots) => Ok(slots),
        Err(DirFault::BadSlots | DirFault::OutOfMemory) => Err(AllocError),
    }
}

/// All pages of a directory, spelled as they are now.
fn all_pages(
    alloc: Global,
    left: Option<&Directory>,
    store: &DirtyStore,
    number: InoNo,
    count: u32,
) -> Result<PageList, AllocError>
    requires fits { SlotsFit store.now.overlay number }
    requires count { count ≤ 4096 }
    ensures many { IfOk result (λ pages. length pages ≡ count) }
    ensures each { IfOk result (λ pages. (place : ℕ) → place < count → SpellsPage (slots_or_none (option_copied left.entry)) store.now.overlay number place (bytes_at pages place)) }
{
    let mut pages = Vec::new(alloc);
    for place in 0..count {
        let block = spelled_page(left, store, number, place);
        pages.push(Page { at: 0, block })?;
    }
    Ok(PageList::from_vec(pages))
}
