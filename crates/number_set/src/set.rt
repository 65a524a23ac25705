//! The set.
ghost use Rattle.std.specs.Prelude.{◌≡◌, ◌≤◌, IfOk, MatchOption, replicate, if◌then◌else◌};
ghost use Rattle.std.specs.FinSet as set;
ghost use Rattle.number_set.specs.Least.{IsLeastAbsent, HasAll};

use crate::bits::{has_bit, ones, write_bit};
use std::alloc::{AllocError, Global};
use std::marker::Model;

/// The greatest number that a set may have.
pub const MOST_NUMBER: u32 = 65_535;

/// How many words have a bit for each number.
const WORDS: usize = 1_024;

/// How many bits a word has.
const BITS: usize = 64;

/// Numbers up to 65,535. What a call costs doesn't grow with how many there are.
#[derive(Drop)]
pub struct NumberSet {
    /// A bit for each number.
    words: Vec<u64>,
    /// A bit for each of those words: whether it is full.
    full: Vec<u64>,
    /// A bit for each word of `full`: whether that is full.
    top: Vec<u64>,
}

impl Model for NumberSet {
    ghost use Rattle.std.specs.Ordering.{nat_cmp};
    ghost use Rattle.std.specs.FinSet as set;
    ghost use Rattle.std.specs.Coded.{coded_ℕ};
    ghost use Rattle.number_set.specs.Bits.{members, IsSummed};

    ghost Value = { set.FinSet nat_cmp };

    ghost coded = { set.code coded_ℕ };

    ghost view = { λ s. members s.words.items };

    ghost invariant = { λ s. IsSummed s.words.items s.full.items s.top.items };
}

impl NumberSet {
    /// The set with no number.
    pub fn new(alloc: Global) -> Result<NumberSet, AllocError>
        ensures { IfOk result (λ numbers. numbers ≡ set.empty) }
    {
        let words = no_bits(alloc, WORDS)?;
        let full = no_bits(alloc, WORDS / BITS)?;
        let top = no_bits(alloc, 1)?;
        Ok(NumberSet { words, full, top })
    }

    /// Whether the number is in the set.
    pub fn has(&self, number: u32) -> bool
        ensures { result ≡ set.contains self.now number }
    {
        has_bit(&self.words, number as usize)
    }

    /// Puts a number into the set or takes it out. Three words change at most.
    pub fn set(&mut self, number: u32, present: bool)
        requires { number ≤ 65535 }
        ensures { self.new ≡ (if present then set.insert self.old number else set.remove self.old number) }
    {
        let number = number as usize;
        write_bit(&mut self.words, number, present);
        // The bits above say what the words below have by now.
        let word = number / BITS;
        write_bit(&mut self.full, word, self.words[word] == u64::MAX);
        let group = word / BITS;
        write_bit(&mut self.top, group, self.full[group] == u64::MAX);
    }

    /// Puts a number into the set.
    pub fn put(&mut self, number: u32)
        requires { number ≤ 65535 }
        ensures { self.new ≡ set.insert self.old number }
    {
        self.set(number, true);
    }

    /// Takes a number out of the set.
    pub fn take_away(&mut self, number: u32)
        requires { number ≤ 65535 }
        ensures { self.new ≡ set.remove self.old number }
    {
        self.set(number, false);
    }

    /// The least number up to 65,535 that isn't in the set. Three words are looked at.
    pub fn least_absent(&self) -> Option<u32>
        ensures { MatchOption result (HasAll self.now) (λ number. IsLeastAbsent self.now number) }
    {
        let group = ones(self.top[0]);
        if group >= WORDS / BITS {
            return None;
        }
        let word = BITS * group + ones(self.full[group]);
        let number = BITS * word + ones(self.words[word]);
        Some(number as u32)
    }
}

/// So many words in which no bit is set.
fn no_bits(alloc: Global, count: usize) -> Result<Vec<u64>, AllocError>
    ensures { IfOk result (λ words. words.items ≡ replicate count 0) }
{
    let mut words = Vec::new(alloc);
    words.resize(count, 0)?;
    Ok(words)
}
