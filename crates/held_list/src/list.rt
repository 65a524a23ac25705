//! A list of directories by number.
ghost use Rattle.std.specs.Prelude.{◌≡◌, ◌<◌, [], ◌∷◌, ◌++◌, length, Some, None, MatchOption, OnOk, OnErr};
ghost use Rattle.std.specs.Borrow.{sem};
ghost use Rattle.std.specs.Option.{option_copied_mut};
ghost use Rattle.held_list.specs.Held.{IsInOrder, AllBelow, slots_at, with_slots, without};

use crate::held::Held;
use crate::places::place_of;
use dir_slots::Directory;
use std::alloc::{AllocError, Global};
use std::marker::Model;
use vol_numbers::InoNo;

/// Directories with their numbers, in the order of the numbers. No number comes twice.
#[derive(Drop)]
pub struct HeldList {
    items: Vec<Held>,
}

impl Model for HeldList {
    ghost use Rattle.std.specs.Prelude.{List};
    ghost use Rattle.held_list.specs.declared.held.Held.{Held};
    ghost use Rattle.held_list.specs.Held.{IsInOrder};

    ghost Value = { List Held };

    ghost view = { λ l. l.items.items };

    ghost invariant = { λ l. IsInOrder l.items.items };
}

impl HeldList {
    ghost use Rattle.held_list.specs.Lending.{LendsSlots};

    /// No directories. It takes no memory.
    pub fn new(alloc: Global) -> HeldList
        ensures { result ≡ [] }
    {
        HeldList {
            items: Vec::new(alloc),
        }
    }

    /// How many directories there are.
    pub fn len(&self) -> usize
        ensures { result ≡ length self.now }
    {
        self.items.len()
    }

    /// All of them, in the order of their numbers.
    pub fn as_slice(&self) -> &[Held]
        ensures is { result.now ≡ self.now }
        ensures order { IsInOrder self.now }
    {
        self.items.as_slice()
    }

    /// The directory of a number.
    pub fn get(&self, number: InoNo) -> Option<&Directory>
        ensures { MatchOption result (slots_at self.now number ≡ None) (λ slots. slots_at self.now number ≡ Some slots.now) }
    {
        match place_of(&self.items, number) {
            Ok(place) => Some(&self.items[place].slots),
            Err(_) => None,
        }
    }

    /// Puts a directory behind all others, whose numbers are less.
    pub fn push(&mut self, number: InoNo, slots: Directory) -> Result<(), AllocError>
        requires { AllBelow number self.old }
        ensures pushed { OnOk result (self.new ≡ self.old ++ record { number = number; slots = slots } ∷ []) }
        ensures unchanged { OnErr result (self.new ≡ self.old) }
    {
        self.items.push(Held { number, slots })?;
        Ok(())
    }

    /// Puts a directory under a number, in place of what the number had.
    pub fn insert(&mut self, number: InoNo, slots: Directory) -> Result<(), AllocError>
        ensures inserted { OnOk result (self.new ≡ with_slots self.old number slots) }
        ensures unchanged { OnErr result (self.new ≡ self.old) }
    {
        match place_of(&self.items, number) {
            Ok(place) => {
                self.items[place] = Held { number, slots };
                Ok(())
            }
            Err(place) => {
                self.items.insert(place, Held { number, slots })?;
                Ok(())
            }
        }
    }

    /// Takes the directory of a number away, and gives it.
    pub fn remove(&mut self, number: InoNo) -> Option<Directory>
        ensures given { result ≡ slots_at self.old number }
        ensures removed { self.new ≡ without self.old number }
    {
        match place_of(&self.items, number) {
            Ok(place) => {
                let held = self.items.remove(place);
                Some(held.slots)
            }
            Err(_) => None,
        }
    }

    /// The directory of a number, to be changed.
    pub fn get_mut(&mut self, number: InoNo) -> Option<&mut Directory>
        ensures* writes_back { sem 𝓛 (LendsSlots self.entry number result) }
        ensures value { option_copied_mut result ≡ slots_at self.old number }
    {
        match place_of(&self.items, number) {
            Ok(place) => Some(&mut self.items[place].slots),
            Err(_) => None,
        }
    }
}
