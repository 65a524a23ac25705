//! What is reached from the root directory over entries.
ghost use Rattle.std.specs.Prelude.{◌≡◌, ◌≤◌, ◌<◌, ◌∷◌, [], ℕ, List, false, All, IfOk, OnOk, IfSome, IfNone, length, is_some, slice_index_or};
ghost use Rattle.held_list.specs.Held.{slots_at};
ghost use Rattle.held_list.specs.declared.held.Held.{Held as Directories};
ghost use Rattle.std.specs.FinSet as set;
ghost use Rattle.name_check.specs.Reaching.{IsSearch, Reaches, is_among, named_at, reached_from};

use crate::naming::numbers;
use held_list::HeldList;
use number_set::NumberSet;
use std::alloc::{AllocError, Global};
use vol_numbers::InoNo;

/// The number of the root directory.
pub(crate) const ROOT: InoNo = 1;

/// A search over directories.
#[derive(Drop)]
pub(crate) struct Search {
    /// The numbers that are reached.
    reached: NumberSet,
    /// The directories that are reached, in the order in which they were.
    queue: Vec<InoNo>,
}

/// Whether a number is a directory's.
fn is_directory(directories: &HeldList, number: InoNo) -> bool
    ensures { result ≡ is_some (slots_at directories.now number) }
{
    directories.get(number).is_some()
}

impl Search {
    /// Nothing is reached.
    fn new(alloc: Global) -> Result<Search, AllocError>
        ensures search { IfOk result (λ search. (held : List Directories) → IsSearch held search) }
        ensures none { IfOk result (λ search. (n : ℕ) → set.contains search.reached n ≡ false) }
    {
        let reached = NumberSet::new(alloc)?;
        let queue = Vec::new(alloc);
        Ok(Search { reached, queue })
    }

    /// Reaches a number. A directory that wasn't reached before goes to the end of the queue.
    fn reach(&mut self, directories: &HeldList, number: InoNo) -> Result<(), AllocError>
        requires search { IsSearch directories.now self.old }
        requires number { number ≤ 65535 }
        ensures search { OnOk result (IsSearch directories.now self.new) }
        ensures reaches { OnOk result (Reaches (number ∷ []) self.old self.new) }
    {
        if self.reached.has(number) {
            return Ok(());
        }
        if is_directory(directories, number) {
            self.queue.push(number)?;
        }
        self.reached.put(number);
        Ok(())
    }

    /// Reaches each of these numbers.
    fn reach_all(&mut self, directories: &HeldList, numbers: &[InoNo]) -> Result<(), AllocError>
        requires search { IsSearch directories.now self.old }
        requires numbers { All (λ n. n ≤ 65535) numbers.now }
        ensures search { OnOk result (IsSearch directories.now self.new) }
        ensures reaches { OnOk result (Reaches numbers.now self.old self.new) }
    {
        for number in numbers {
            self.reach(directories, *number)?;
        }
        Ok(())
    }

    /// Reaches what the directory of a number names.
    fn go_through(
        &mut self,
        alloc: Global,
        directories: &HeldList,
        number: InoNo,
    ) -> Result<(), AllocError>
        requires { IsSearch directories.now self.old }
        ensures search { OnOk result (IsSearch directories.now self.new) }
        ensures reaches { OnOk result (Reaches (named_at directories.now number) self.old self.new) }
    {
        match directories.get(number) {
            Some(slots) => {
                let named = numbers(alloc, slots)?;
                self.reach_all(directories, &named)
            }
            None => Ok(()),
        }
    }

    /// The directory at a place of the queue.
    fn queued(&self, place: usize) -> Option<InoNo>
        ensures within { IfSome result (λ number. place < length self.now.queue.items) }
        ensures at { IfSome result (λ number. slice_index_or self.now.queue.items place number ≡ number) }
        ensures none { IfNone result (length self.now.queue.items ≤ place) }
    {
        self.queue.get(place).copied()
    }
}

/// The numbers that are reached from the root directory. Each directory is gone through once at most.
pub(crate) fn reached(alloc: Global, directories: &HeldList) -> Result<NumberSet, AllocError>
    ensures { IfOk result (λ reached. (k n : ℕ) → length directories.now ≤ k → set.contains reached n ≡ is_among (reached_from directories.now k) n) }
{
    let mut search = Search::new(alloc)?;
    search.reach(directories, ROOT)?;
    for i in 0..directories.len() {
        match search.queued(i) {
            Some(number) => search.go_through(alloc, directories, number)?,
            None => return Ok(search.reached),
        }
    }
    Ok(search.reached)
}
