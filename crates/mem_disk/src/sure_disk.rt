//! A disk in memory that never fails. It keeps a record of its writes and syncs, by which it tells its moments.
ghost use Rattle.std.specs.Prelude.{◌≡◌, ◌<◌, ◌≤◌, ◌^◌, [], length, refl, true, false, IsTrue, IsOk, OnOk, OnErr, IfOk, is_ok, ◌↔◌};
ghost use Rattle.std.specs.List.{All, AllByRecursion};
ghost use Rattle.vol_numbers.specs.Block.{zero_block};
ghost use Rattle.disk_model.specs.Disk.{blank, is_among, picked, IsImage};
ghost use Rattle.disk_model.specs.Media.{of_size};
ghost use Rattle.disk_model.specs.Past.{HasBegun};

use crate::record::{Before, Step, note, note_sync};
use disk_model::{Disk, DiskFault, LastRead, NotOpen, Pick};
use std::alloc::{AllocError, Global};
use vol_numbers::{Block, BlockNo};

/// A disk in memory whose count of faults is the constant 0.
#[derive(Drop)]
pub struct SureDisk {
    alloc: Global,
    cells: Vec<Block>,
    flags: Vec<bool>,
    steps: Vec<Step>,
    is_told: bool,
    given: LastRead,
    ghost paired: { length flags.items ≡ length cells.items },
    ghost fits: { length cells.items < 2 ^ 32 },
}

impl SureDisk {
    /// Zero blocks, none of them unsynced.
    pub fn new(alloc: Global, blocks: u32) -> Result<SureDisk, AllocError>
        ensures blank { IfOk result (λ disk. ⟦<SureDisk as Disk>⟧.state disk ≡ blank blocks) }
        ensures size { IfOk result (λ disk. ⟦<SureDisk as Disk>⟧.fixed disk ≡ of_size blocks) }
        ensures told { IfOk result (λ disk. IsTrue (⟦<SureDisk as Disk>⟧.past disk).is_told) }
        ensures given { IfOk result (λ disk. ⟦<SureDisk as Disk>⟧.given disk ≡ record { at = 0; block = zero_block; count = 0 }) }
    {
        Ok(SureDisk {
            alloc,
            cells: vec![in alloc; Block::zero(); blocks as usize]?,
            flags: vec![in alloc; false; blocks as usize]?,
            steps: Vec::new(alloc),
            is_told: true,
            given: LastRead::none(),
        })
    }

    /// No blocks, which takes no memory.
    pub(crate) fn none(alloc: Global) -> SureDisk
        ensures blank { ⟦<SureDisk as Disk>⟧.state result ≡ blank 0 }
        ensures size { ⟦<SureDisk as Disk>⟧.fixed result ≡ of_size 0 }
        ensures begun { HasBegun (⟦<SureDisk as Disk>⟧.past result) }
        ensures given { ⟦<SureDisk as Disk>⟧.given result ≡ record { at = 0; block = zero_block; count = 0 } }
    {
        SureDisk {
            alloc,
            cells: Vec::new(alloc),
            flags: Vec::new(alloc),
            steps: Vec::new(alloc),
            is_told: true,
            given: LastRead::none(),
        }
    }

    /// How many steps the record has.
    pub(crate) fn moments(&self) -> u64
        ensures { result ≡ (⟦<SureDisk as Disk>⟧.past self.now).clock }
    {
        self.steps.len() as u64
    }

    /// Whether it still tells its moments. It stops where memory for the record is wanting.
    pub fn tells_moments(&self) -> bool
        ensures { result ≡ (⟦<SureDisk as Disk>⟧.past self.now).is_told }
    {
        self.is_told
    }

    /// Begins a new record.
    pub(crate) fn begin(&mut self)
        ensures state { ⟦<SureDisk as Disk>⟧.state self.new ≡ ⟦<SureDisk as Disk>⟧.state self.old }
        ensures fixed { ⟦<SureDisk as Disk>⟧.fixed self.new ≡ ⟦<SureDisk as Disk>⟧.fixed self.old }
        ensures begun { HasBegun (⟦<SureDisk as Disk>⟧.past self.new) }
        ensures given { ⟦<SureDisk as Disk>⟧.given self.new ≡ ⟦<SureDisk as Disk>⟧.given self.old }
    {
        self.steps.clear();
        self.is_told = true;
    }

    /// Takes the blocks of another disk in the place of its own, and begins a new record.
    pub(crate) fn renew(&mut self, mut fresh: SureDisk)
        ensures state { ⟦<SureDisk as Disk>⟧.state self.new ≡ ⟦<SureDisk as Disk>⟧.state fresh }
        ensures fixed { ⟦<SureDisk as Disk>⟧.fixed self.new ≡ ⟦<SureDisk as Disk>⟧.fixed fresh }
        ensures begun { HasBegun (⟦<SureDisk as Disk>⟧.past self.new) }
        ensures given { ⟦<SureDisk as Disk>⟧.given self.new ≡ ⟦<SureDisk as Disk>⟧.given self.old }
    {
        fresh.begin();
        fresh.given = self.given;
        *self = fresh;
    }

    /// Whether a block is unsynced.
    pub(crate) fn is_unsynced(&self, at: BlockNo) -> bool
        ensures { result ≡ is_among (⟦<SureDisk as Disk>⟧.state self.now).unsynced at }
    {
        self.flags.get(at as usize).copied().unwrap_or(false)
    }

    fn are_unsynced(&self, picks: &[Pick]) -> bool
        ensures { IsTrue result ↔ All (λ pick. is_among (⟦<SureDisk as Disk>⟧.state self.now).unsynced pick.at ≡ true) picks.now }
    {
        picks.iter().all(|pick| self.is_unsynced(pick.at))
    }

    /// Cuts the power: the picks stand in their places, and nothing is unsynced. A new record begins.
    pub(crate) fn cut(&mut self, picks: &[Pick]) -> Result<(), NotOpen>
        ensures variant { IsOk result ↔ All (λ pick. is_among (⟦<SureDisk as Disk>⟧.state self.old).unsynced pick.at ≡ true) picks.now }
        ensures picked { OnOk result ((⟦<SureDisk as Disk>⟧.state self.new).contents ≡ picked picks.now (⟦<SureDisk as Disk>⟧.state self.old).contents) }
        ensures synced { OnOk result ((⟦<SureDisk as Disk>⟧.state self.new).unsynced ≡ []) }
        ensures image { OnOk result (IsImage (⟦<SureDisk as Disk>⟧.state self.old) (⟦<SureDisk as Disk>⟧.state self.new).contents) }
        ensures fixed { ⟦<SureDisk as Disk>⟧.fixed self.new ≡ ⟦<SureDisk as Disk>⟧.fixed self.old }
        ensures given { ⟦<SureDisk as Disk>⟧.given self.new ≡ ⟦<SureDisk as Disk>⟧.given self.old }
        ensures told { OnOk result (IsTrue (⟦<SureDisk as Disk>⟧.past self.new).is_told) }
        ensures err { OnErr result (self.new ≡ self.old) }
    {
        if !self.are_unsynced(picks) {
            return Err(NotOpen);
        }
        put_all(&mut self.cells, picks);
        close_all(&mut self.flags);
        self.steps.clear();
        self.is_told = true;
        Ok(())
    }
}

fn put_all(cells: &mut Vec<Block>, picks: &[Pick])
    requires { All (λ pick. pick.at < length cells.old.items) picks.now }
    ensures picked { cells.new.items ≡ picked picks.now cells.old.items }
    ensures len { length cells.new.items ≡ length cells.old.items }
{
    for pick in picks {
        cells[pick.at as usize] = pick.block;
    }
}

fn close_all(flags: &mut Vec<bool>)
    ensures closed { AllByRecursion (λ is. is ≡ false) flags.new.items }
    ensures len { length flags.new.items ≡ length flags.old.items }
{
    for is_unsynced in flags.iter_mut() {
        *is_unsynced = false;
    }
}

impl Disk for SureDisk {
    ghost use Rattle.mem_disk.specs.Memory.{told, past_of, stands_now, now_stood};

    ghost fixed = { λ d. of_size (length d.cells.items) };

    ghost tells = { true };

    ghost state = { λ d. told (d.cells.items, d.flags.items) };

    ghost past = { λ d. past_of d.is_told d.steps.items (d.cells.items, d.flags.items) };

    ghost faults = { λ _. 0 };

    ghost given = { λ d. d.given };

    ghost has_size = { λ d tells. refl };

    ghost now_counts = { λ d t recorded le. now_stood d.steps.items (d.cells.items, d.flags.items) t le };

    ghost only_now = { λ d s recorded stood. stands_now d.steps.items (d.cells.items, d.flags.items) s stood };

    fn blocks(&self) -> u32 {
        self.cells.len() as u32
    }

    fn read_block(&mut self, at: BlockNo, into: &mut Block) -> Result<(), DiskFault> {
        *into = self.cells[at as usize];
        self.given.note(at, into);
        Ok(())
    }

    fn write_block(&mut self, at: BlockNo, from: &Block) -> Result<(), DiskFault> {
        let i = at as usize;
        let before = Before {
            at,
            block: self.cells[i],
            was_unsynced: self.flags[i],
        };
        note(&mut self.steps, &mut self.is_told, Step::Wrote(before));
        self.cells[i] = *from;
        self.flags[i] = true;
        Ok(())
    }

    fn sync(&mut self) -> Result<(), DiskFault> {
        note_sync(self.alloc, &mut self.steps, &mut self.is_told, &self.flags);
        close_all(&mut self.flags);
        Ok(())
    }
}
