//! Which numbers the entries of directories name.
ghost use Rattle.std.specs.Prelude.{◌≡◌, ◌≤◌, ◌++◌, ◌∷◌, [], ℕ, List, All, IfOk, OnOk};
ghost use Rattle.image_model.specs.Nodes.{number_named};
ghost use Rattle.name_check.specs.Names.{HasNamed, numbers_in, numbers_by};

use block_format::Slot;
use dir_slots::Directory;
use held_list::HeldList;
use number_set::NumberSet;
use std::alloc::{AllocError, Global};
use vol_numbers::InoNo;

/// The numbers that are named, and how often as far as it matters.
#[derive(Drop)]
pub(crate) struct Naming {
    /// Those that are named.
    pub(crate) once: NumberSet,
    /// Those that are named more than once.
    pub(crate) again: NumberSet,
}

impl Naming {
    /// Nothing is named. It takes memory for two sets.
    fn new(alloc: Global) -> Result<Naming, AllocError>
        ensures { IfOk result (λ naming. HasNamed naming []) }
    {
        let once = NumberSet::new(alloc)?;
        let again = NumberSet::new(alloc)?;
        Ok(Naming { once, again })
    }

    /// A number is named, once more where it was named before.
    fn put(&mut self, number: InoNo)
        requires { number ≤ 65535 }
        ensures { (named : List ℕ) → HasNamed self.old named → HasNamed self.new (named ++ number ∷ []) }
    {
        if self.once.has(number) {
            self.again.put(number);
        } else {
            self.once.put(number);
        }
    }

    /// Each of these numbers is named.
    fn put_all(&mut self, numbers: &[InoNo])
        requires { All (λ n. n ≤ 65535) numbers.now }
        ensures { (named : List ℕ) → HasNamed self.old named → HasNamed self.new (named ++ numbers.now) }
    {
        for number in numbers {
            self.put(*number);
        }
    }
}

/// The number that an entry names.
fn number_of(slot: &Slot) -> Option<InoNo>
    ensures { result ≡ number_named slot.now }
{
    match slot {
        Slot::Unused => None,
        Slot::Entry { number, .. } => Some(*number),
    }
}

/// The numbers that the entries of a directory name, in the order of its slots.
pub(crate) fn numbers(alloc: Global, slots: &Directory) -> Result<Vec<InoNo>, AllocError>
    ensures named { IfOk result (λ numbers. numbers.items ≡ numbers_in slots.now) }
    ensures at_most { IfOk result (λ numbers. All (λ n. n ≤ 65535) numbers.items) }
{
    let mut numbers = Vec::with_capacity(alloc, slots.width() as usize)?;
    let entries = slots.entries(alloc)?;
    for slot in entries.as_slice() {
        match number_of(slot) {
            Some(number) => numbers.push(number)?,
            None => {}
        }
    }
    Ok(numbers)
}

/// What the entries of all directories name. Each entry is looked at once.
pub(crate) fn all_names(alloc: Global, directories: &HeldList) -> Result<Naming, AllocError>
    ensures { IfOk result (λ naming. HasNamed naming (numbers_by directories.now)) }
{
    let mut naming = Naming::new(alloc)?;
    for held in directories.as_slice() {
        let numbers = numbers(alloc, &held.slots)?;
        naming.put_all(&numbers);
    }
    Ok(naming)
}
