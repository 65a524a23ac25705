//! The free blocks of the area, kept as their runs.
ghost use Rattle.std.specs.Prelude.{◌≡◌, ◌<◌, ◌≤◌, ◌↔◌, ◌∷◌, ℕ, length, IfOk, OnErr, IsErrOf};
ghost use Rattle.vol_numbers.specs.Geometry.{layout_of};
ghost use Rattle.run_allocator.specs.Runs.{numbers_of, free_area, Ascends};
ghost use Rattle.run_allocator.specs.Taken.{taken_runs, AreTaken, left_without};
ghost use Rattle.run_allocator.specs.declared.free_map.TakeFault.TheVariants.{Short};

use crate::pieces::{copied, take_lowest, take_pieces};
use crate::zeros::runs_of_zeros;
use std::alloc::{AllocError, Global};
use std::collections::VecDeque;
use std::marker::Model;
use thiserror::Error;
use vol_numbers::{BlockNo, CountList, Geometry, Run, RunList};

/// The free blocks of the area.
#[derive(Drop)]
pub struct FreeMap {
    alloc: Global,
    runs: VecDeque<Run>,
    free: u32,
}

/// Why no run is taken.
#[derive(Clone, Copy, Debug, PartialEq, Eq, Error)]
pub enum TakeFault {
    #[error("only {free} blocks are free")]
    Short { free: u32 },
    #[error("out of memory")]
    OutOfMemory,
}

impl Model for FreeMap {
    ghost use Rattle.std.specs.Prelude.{◌≡◌, List, ℕ, length};
    ghost use Rattle.run_allocator.specs.Runs.{numbers_of, AreApart};

    ghost Value = { List ℕ };

    ghost view = { λ m. numbers_of m.runs.items };

    ghost invariant = { λ m. AreApart 1 m.runs.items × (m.free ≡ length (numbers_of m.runs.items)) };
}

impl From<AllocError> for TakeFault {
    ghost use Rattle.std.specs.Prelude.{◌≡◌};
    ghost use Rattle.run_allocator.specs.declared.free_map.TakeFault.TheVariants.{OutOfMemory};

    ghost from_gives = { λ _ fault. fault ≡ OutOfMemory };

    fn from(_: AllocError) -> TakeFault {
        TakeFault::OutOfMemory
    }
}

impl FreeMap {
    /// The blocks of the area that have the count 0.
    pub fn of(alloc: Global, counts: &CountList, g: &Geometry) -> Result<FreeMap, AllocError>
        requires { g.now.blocks ≤ length counts.now }
        ensures { IfOk result (λ m. m ≡ free_area (layout_of g.now) counts.now) }
    {
        let all = &counts.as_slice()[..g.blocks() as usize];
        let (runs, free) = runs_of_zeros(alloc, all, g.area_start())?;
        Ok(FreeMap { alloc, runs, free })
    }

    /// The same free blocks, from which others can be taken.
    pub fn copy(&self) -> Result<FreeMap, AllocError>
        ensures { IfOk result (λ m. m ≡ self.now) }
    {
        let runs = copied(self.alloc, &self.runs)?;
        Ok(FreeMap {
            alloc: self.alloc,
            runs,
            free: self.free,
        })
    }

    /// How many blocks are free. As a list their numbers ascend, and each is in the greatest volume.
    pub fn free(&self) -> u32
        ensures count { result ≡ length self.now }
        ensures ascends { Ascends 1 self.now }
    {
        self.free
    }

    /// Takes the lowest free block, as the rule takes one block. It takes no memory.
    pub fn take_one(&mut self) -> BlockNo
        requires { 1 ≤ length self.old }
        ensures lowest { self.old ≡ result ∷ self.new }
        ensures positive { 0 < result }
    {
        self.free -= 1;
        take_lowest(&mut self.runs)
    }

    /// Takes n blocks by the rule. One block is taken from the lowest run, without a look at any other.
    ///
    /// Where a run is long enough, the runs up to the lowest such are looked at once.
    ///
    /// Else the runs are passed five times, however many are taken: to see that none is long enough, to copy them, to count
    /// those that are taken whole, to drop these, and to find the last piece. The copy is sorted once, in place.
    pub fn take_run(&mut self, n: u32) -> Result<RunList, TakeFault>
        requires { 1 ≤ n }
        ensures taken { IfOk result (λ runs. runs ≡ taken_runs self.old n) }
        ensures in_turn { IfOk result (λ runs. AreTaken self.old n runs) }
        ensures left { IfOk result (λ runs. self.new ≡ left_without self.old runs) }
        ensures short { (free : ℕ) → IsErrOf result (Short free) → (free ≡ length self.old) × (length self.old < n) }
        ensures too_few { length self.old < n → IsErrOf result (Short (length self.old)) }
        ensures enough { IfOk result (λ runs. n ≤ length self.old) }
        ensures unchanged { OnErr result (self.new ≡ self.old) }
    {
        if self.free < n {
            return Err(TakeFault::Short { free: self.free });
        }
        let taken = take_pieces(self.alloc, &mut self.runs, n)?;
        self.free -= n;
        Ok(RunList::from_vec(taken))
    }
}
