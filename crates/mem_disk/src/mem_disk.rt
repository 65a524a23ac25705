//! A disk in memory that fails by a plan, and loses what a power cut takes.
ghost use Rattle.std.specs.Prelude.{◌≡◌, ◌<◌, ◌≤◌, [], refl, true, ◌↔◌, IsErr, IsOk, OnOk, OnErr, IsTrue, IsFalse, IfOk, Some, slice_get};
ghost use Rattle.std.specs.List.{All};
ghost use Rattle.vol_numbers.specs.Block.{zero_block, block_of};
ghost use Rattle.vol_numbers.specs.Cause.{HasCause, raised};
ghost use Rattle.vol_numbers.specs.Plan.{no_plan, IsPlanned, advanced};
ghost use Rattle.disk_model.specs.Disk.{blank, is_among, picked, written, synced, IsImage, DuringWrite, DuringSync, Gives};
ghost use Rattle.disk_model.specs.Past.{Adds, Keeps, HasBegun};
ghost use Rattle.disk_model.specs.Media.{of_size};
ghost use Rattle.mem_disk.specs.Planned.{plan_of, junk_of};

use crate::SureDisk;
use disk_model::{Disk, DiskFault, NotOpen, Pick};
use std::alloc::{AllocError, Global};
use vol_numbers::{Block, BlockNo, CallList, CallPlan, FaultCount};

/// A disk in memory whose failures are planned.
#[derive(Drop)]
pub struct MemDisk {
    alloc: Global,
    device: SureDisk,
    plan: CallPlan,
    junk: u8,
    faults: FaultCount,
}

impl MemDisk {
    /// Zero blocks, none of them unsynced, no faults, and none planned.
    pub fn new(alloc: Global, blocks: u32) -> Result<MemDisk, AllocError>
        ensures blank { IfOk result (λ disk. ⟦<MemDisk as Disk>⟧.state disk ≡ blank blocks) }
        ensures size { IfOk result (λ disk. ⟦<MemDisk as Disk>⟧.fixed disk ≡ of_size blocks) }
        ensures told { IfOk result (λ disk. IsTrue (⟦<MemDisk as Disk>⟧.past disk).is_told) }
        ensures faults { IfOk result (λ disk. ⟦<MemDisk as Disk>⟧.faults disk ≡ 0) }
        ensures given { IfOk result (λ disk. ⟦<MemDisk as Disk>⟧.given disk ≡ record { at = 0; block = zero_block; count = 0 }) }
        ensures plan { IfOk result (λ disk. plan_of disk ≡ no_plan) }
    {
        Ok(MemDisk::of(alloc, SureDisk::new(alloc, blocks)?))
    }

    /// No blocks, which takes no memory.
    pub fn none(alloc: Global) -> MemDisk
        ensures blank { ⟦<MemDisk as Disk>⟧.state result ≡ blank 0 }
        ensures size { ⟦<MemDisk as Disk>⟧.fixed result ≡ of_size 0 }
        ensures begun { HasBegun (⟦<MemDisk as Disk>⟧.past result) }
        ensures faults { ⟦<MemDisk as Disk>⟧.faults result ≡ 0 }
        ensures given { ⟦<MemDisk as Disk>⟧.given result ≡ record { at = 0; block = zero_block; count = 0 } }
        ensures plan { plan_of result ≡ no_plan }
    {
        MemDisk::of(alloc, SureDisk::none(alloc))
    }

    fn of(alloc: Global, device: SureDisk) -> MemDisk
        ensures state { ⟦<MemDisk as Disk>⟧.state result ≡ ⟦<SureDisk as Disk>⟧.state device }
        ensures fixed { ⟦<MemDisk as Disk>⟧.fixed result ≡ ⟦<SureDisk as Disk>⟧.fixed device }
        ensures told { (⟦<MemDisk as Disk>⟧.past result).is_told ≡ (⟦<SureDisk as Disk>⟧.past device).is_told }
        ensures clock { (⟦<MemDisk as Disk>⟧.past result).clock ≡ (⟦<SureDisk as Disk>⟧.past device).clock }
        ensures faults { ⟦<MemDisk as Disk>⟧.faults result ≡ 0 }
        ensures given { ⟦<MemDisk as Disk>⟧.given result ≡ ⟦<SureDisk as Disk>⟧.given device }
        ensures plan { plan_of result ≡ no_plan }
        ensures junk { junk_of result ≡ 0 }
    {
        MemDisk {
            alloc,
            device,
            plan: CallPlan::none(alloc),
            junk: 0,
            faults: FaultCount::new(),
        }
    }

    /// How many writes and syncs its record has, which is its clock.
    pub fn moments(&self) -> u64
        ensures { result ≡ (⟦<MemDisk as Disk>⟧.past self.now).clock }
    {
        self.device.moments()
    }

    /// Whether it still tells its moments. It stops where memory for the record is wanting.
    pub fn tells_moments(&self) -> bool
        ensures { result ≡ (⟦<MemDisk as Disk>⟧.past self.now).is_told }
    {
        self.device.tells_moments()
    }

    /// Forgets the moments up to now, and tells its moments anew. Nothing else changes.
    pub fn begin(&mut self)
        ensures state { ⟦<MemDisk as Disk>⟧.state self.new ≡ ⟦<MemDisk as Disk>⟧.state self.old }
        ensures fixed { ⟦<MemDisk as Disk>⟧.fixed self.new ≡ ⟦<MemDisk as Disk>⟧.fixed self.old }
        ensures begun { HasBegun (⟦<MemDisk as Disk>⟧.past self.new) }
        ensures given { ⟦<MemDisk as Disk>⟧.given self.new ≡ ⟦<MemDisk as Disk>⟧.given self.old }
        ensures faults { ⟦<MemDisk as Disk>⟧.faults self.new ≡ ⟦<MemDisk as Disk>⟧.faults self.old }
        ensures plan { plan_of self.new ≡ plan_of self.old }
        ensures junk { junk_of self.new ≡ junk_of self.old }
    {
        self.device.begin();
    }

    /// Takes the blocks of another disk in the place of its own, and tells its moments anew. Its plan and its counts go on.
    pub fn renew(&mut self, fresh: SureDisk)
        ensures state { ⟦<MemDisk as Disk>⟧.state self.new ≡ ⟦<SureDisk as Disk>⟧.state fresh }
        ensures fixed { ⟦<MemDisk as Disk>⟧.fixed self.new ≡ ⟦<SureDisk as Disk>⟧.fixed fresh }
        ensures begun { HasBegun (⟦<MemDisk as Disk>⟧.past self.new) }
        ensures given { ⟦<MemDisk as Disk>⟧.given self.new ≡ ⟦<MemDisk as Disk>⟧.given self.old }
        ensures faults { ⟦<MemDisk as Disk>⟧.faults self.new ≡ ⟦<MemDisk as Disk>⟧.faults self.old }
        ensures plan { plan_of self.new ≡ plan_of self.old }
        ensures junk { junk_of self.new ≡ junk_of self.old }
    {
        self.device.renew(fresh);
    }

    /// Plans failures. The calls of `Disk` are numbered from 0 from now on; those in `fails` fail, and all from `from` on. A write that
    /// fails fills the block with `junk`.
    pub fn plan(&mut self, fails: CallList, from: Option<u64>, junk: u8)
        ensures plan { plan_of self.new ≡ record { next = 0; fails = fails; from = from } }
        ensures junk { junk_of self.new ≡ junk }
        ensures state { ⟦<MemDisk as Disk>⟧.state self.new ≡ ⟦<MemDisk as Disk>⟧.state self.old }
        ensures fixed { ⟦<MemDisk as Disk>⟧.fixed self.new ≡ ⟦<MemDisk as Disk>⟧.fixed self.old }
        ensures moments { Adds (⟦<MemDisk as Disk>⟧.past self.old) (⟦<MemDisk as Disk>⟧.past self.new) (λ s. ⊥) }
        ensures faults { ⟦<MemDisk as Disk>⟧.faults self.new ≡ ⟦<MemDisk as Disk>⟧.faults self.old }
        ensures given { ⟦<MemDisk as Disk>⟧.given self.new ≡ ⟦<MemDisk as Disk>⟧.given self.old }
    {
        self.plan = CallPlan::new(fails, from);
        self.junk = junk;
    }

    /// Whether a block is unsynced.
    pub fn is_open(&self, at: BlockNo) -> bool
        ensures { result ≡ is_among (⟦<MemDisk as Disk>⟧.state self.now).unsynced at }
    {
        self.device.is_unsynced(at)
    }

    /// Cuts the power, and gives it back: each pick's block stands in its place, nothing is unsynced, and no failure is planned. Refused,
    /// with all unchanged, exactly where a pick's block is not unsynced. The disk tells its moments anew.
    pub fn cut(&mut self, picks: &[Pick]) -> Result<(), NotOpen>
        ensures variant { IsOk result ↔ All (λ pick. is_among (⟦<MemDisk as Disk>⟧.state self.old).unsynced pick.at ≡ true) picks.now }
        ensures picked { OnOk result ((⟦<MemDisk as Disk>⟧.state self.new).contents ≡ picked picks.now (⟦<MemDisk as Disk>⟧.state self.old).contents) }
        ensures synced { OnOk result ((⟦<MemDisk as Disk>⟧.state self.new).unsynced ≡ []) }
        // What is left is an image of what stood there. `cut_reaches_each_image` says that each image comes so.
        ensures image { OnOk result (IsImage (⟦<MemDisk as Disk>⟧.state self.old) (⟦<MemDisk as Disk>⟧.state self.new).contents) }
        ensures plan { OnOk result (plan_of self.new ≡ no_plan) }
        ensures told { OnOk result (IsTrue (⟦<MemDisk as Disk>⟧.past self.new).is_told) }
        ensures fixed { ⟦<MemDisk as Disk>⟧.fixed self.new ≡ ⟦<MemDisk as Disk>⟧.fixed self.old }
        ensures faults { ⟦<MemDisk as Disk>⟧.faults self.new ≡ ⟦<MemDisk as Disk>⟧.faults self.old }
        ensures given { ⟦<MemDisk as Disk>⟧.given self.new ≡ ⟦<MemDisk as Disk>⟧.given self.old }
        ensures err { OnErr result (self.new ≡ self.old) }
    {
        self.device.cut(picks)?;
        self.plan = CallPlan::none(self.alloc);
        Ok(())
    }
}

/// Whether this call fails by the plan. If so, the fault is counted.
fn fails_now(plan: &mut CallPlan, faults: &mut FaultCount) -> bool
    ensures planned { IsTrue result ↔ IsPlanned plan.old }
    ensures next { plan.new ≡ advanced plan.old }
    ensures counted { IsTrue result → faults.new ≡ raised faults.old }
    ensures kept { IsFalse result → faults.new ≡ faults.old }
{
    let fails = plan.fails_now();
    if fails {
        faults.raise();
    }
    fails
}

impl Disk for MemDisk {
    ghost use Rattle.mem_disk.specs.Told.{size_of, state_of, moments_of, disk_stands, disk_counts};

    ghost fixed = { λ d. of_size (size_of d) };

    ghost tells = { true };

    ghost state = { λ d. state_of d };

    ghost past = { λ d. moments_of d };

    ghost faults = { λ d. d.faults };

    ghost given = { λ d. ⟦<SureDisk as Disk>⟧.given d.device };

    ghost has_size = { λ d tells. refl };

    ghost now_counts = { λ d t told le. disk_counts d t le };

    ghost only_now = { λ d s told stood. disk_stands d s stood };

    fn blocks(&self) -> u32 {
        self.device.blocks()
    }

    fn read_block(&mut self, at: BlockNo, into: &mut Block) -> Result<(), DiskFault>
        requires { at < (⟦<MemDisk as Disk>⟧.fixed self.old).size }
        ensures planned { IsErr result ↔ IsPlanned (plan_of self.old) }
        ensures next { plan_of self.new ≡ advanced (plan_of self.old) }
        ensures junk { junk_of self.new ≡ junk_of self.old }
        ensures read { OnOk result (slice_get (⟦<MemDisk as Disk>⟧.state self.old).contents at ≡ Some into.new) }
        ensures same { ⟦<MemDisk as Disk>⟧.state self.new ≡ ⟦<MemDisk as Disk>⟧.state self.old }
        ensures fixed { ⟦<MemDisk as Disk>⟧.fixed self.new ≡ ⟦<MemDisk as Disk>⟧.fixed self.old }
        ensures moments { Adds (⟦<MemDisk as Disk>⟧.past self.old) (⟦<MemDisk as Disk>⟧.past self.new) (λ s. s ≡ ⟦<MemDisk as Disk>⟧.state self.old) }
        ensures keeps { Keeps (⟦<MemDisk as Disk>⟧.past self.old) (⟦<MemDisk as Disk>⟧.past self.new) }
        ensures given { OnOk result (Gives (⟦<MemDisk as Disk>⟧.given self.old) (⟦<MemDisk as Disk>⟧.given self.new) at into.new) }
        ensures given_err { OnErr result (⟦<MemDisk as Disk>⟧.given self.new ≡ ⟦<MemDisk as Disk>⟧.given self.old) }
        ensures cause { HasCause (⟦<MemDisk as Disk>⟧.faults self.old) (⟦<MemDisk as Disk>⟧.faults self.new) result }
    {
        if fails_now(&mut self.plan, &mut self.faults) {
            return Err(DiskFault);
        }
        self.device.read_block(at, into)
    }

    fn write_block(&mut self, at: BlockNo, from: &Block) -> Result<(), DiskFault>
        requires { at < (⟦<MemDisk as Disk>⟧.fixed self.old).size }
        ensures planned { IsErr result ↔ IsPlanned (plan_of self.old) }
        ensures next { plan_of self.new ≡ advanced (plan_of self.old) }
        ensures junk { junk_of self.new ≡ junk_of self.old }
        ensures filled { OnErr result (⟦<MemDisk as Disk>⟧.state self.new ≡ written at (block_of (junk_of self.old)) (⟦<MemDisk as Disk>⟧.state self.old)) }
        ensures written { OnOk result (⟦<MemDisk as Disk>⟧.state self.new ≡ written at from.now (⟦<MemDisk as Disk>⟧.state self.old)) }
        ensures torn { OnErr result (DuringWrite at (⟦<MemDisk as Disk>⟧.state self.old) (⟦<MemDisk as Disk>⟧.state self.new)) }
        ensures fixed { ⟦<MemDisk as Disk>⟧.fixed self.new ≡ ⟦<MemDisk as Disk>⟧.fixed self.old }
        ensures moments { Adds (⟦<MemDisk as Disk>⟧.past self.old) (⟦<MemDisk as Disk>⟧.past self.new) (DuringWrite at (⟦<MemDisk as Disk>⟧.state self.old)) }
        ensures keeps { Keeps (⟦<MemDisk as Disk>⟧.past self.old) (⟦<MemDisk as Disk>⟧.past self.new) }
        ensures given { ⟦<MemDisk as Disk>⟧.given self.new ≡ ⟦<MemDisk as Disk>⟧.given self.old }
        ensures cause { HasCause (⟦<MemDisk as Disk>⟧.faults self.old) (⟦<MemDisk as Disk>⟧.faults self.new) result }
    {
        if fails_now(&mut self.plan, &mut self.faults) {
            self.device.write_block(at, &Block::filled(self.junk))?;
            return Err(DiskFault);
        }
        self.device.write_block(at, from)
    }

    fn sync(&mut self) -> Result<(), DiskFault>
        ensures planned { IsErr result ↔ IsPlanned (plan_of self.old) }
        ensures next { plan_of self.new ≡ advanced (plan_of self.old) }
        ensures junk { junk_of self.new ≡ junk_of self.old }
        ensures synced { OnOk result (⟦<MemDisk as Disk>⟧.state self.new ≡ synced (⟦<MemDisk as Disk>⟧.state self.old)) }
        ensures not_synced { OnErr result (⟦<MemDisk as Disk>⟧.state self.new ≡ ⟦<MemDisk as Disk>⟧.state self.old) }
        ensures fixed { ⟦<MemDisk as Disk>⟧.fixed self.new ≡ ⟦<MemDisk as Disk>⟧.fixed self.old }
        ensures moments { Adds (⟦<MemDisk as Disk>⟧.past self.old) (⟦<MemDisk as Disk>⟧.past self.new) (DuringSync (⟦<MemDisk as Disk>⟧.state self.old)) }
        ensures keeps { Keeps (⟦<MemDisk as Disk>⟧.past self.old) (⟦<MemDisk as Disk>⟧.past self.new) }
        ensures given { ⟦<MemDisk as Disk>⟧.given self.new ≡ ⟦<MemDisk as Disk>⟧.given self.old }
        ensures cause { HasCause (⟦<MemDisk as Disk>⟧.faults self.old) (⟦<MemDisk as Disk>⟧.faults self.new) result }
    {
        if fails_now(&mut self.plan, &mut self.faults) {
            return Err(DiskFault);
        }
        self.device.sync()
    }
}
