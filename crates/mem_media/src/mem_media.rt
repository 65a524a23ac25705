//! Named disks in memory, one of which is open.
ghost use Rattle.std.specs.Prelude.{◌≡◌, ◌≢◌, ◌⊎◌, ◌≤◌, ◌↔◌, ◌+◌, refl, ℕ, List, None, Some, IfSome, IsSome, IsNone, IsErr, OnOk, OnErr, IsTrue, IsErrOf, true, is_some, IfOk, string_bytes, vec_len, vec_capacity, ◌<◌, option_map, slice_get};
ghost use Rattle.vol_numbers.specs.Block.{zero_block, block_of};
ghost use Rattle.vol_numbers.specs.Cause.{HasCause, raised};
ghost use Rattle.vol_numbers.specs.Plan.{IsPlanned, advanced};
ghost use Rattle.std.specs.Option.{option_copied_mut};
ghost use Rattle.std.specs.Borrow.{sem};
ghost use Rattle.disk_model.specs.Disk.{blank, written, synced, DuringWrite, DuringSync, Gives};
ghost use Rattle.mem_media.specs.declared.named.Named.{Named};
ghost use Rattle.disk_model.specs.Past.{Adds, Keeps, HasBegun};
ghost use Rattle.disk_model.specs.Media.{image_named, of_size};
ghost use Rattle.mem_media.specs.Planned.{open_plan, open_junk};
ghost use Rattle.disk_model.specs.declared.media.OpenFault.TheVariants.{Failed};

use crate::named::{Named, add, change_over, is_name, place};
use disk_model::{Disk, DiskFault, LastRead, Media, OpenFault};
use mem_disk::{MemDisk, SureDisk};
use std::alloc::{AllocError, Global};
use std::mem;
use vol_numbers::{Block, BlockNo, FaultCount};

/// Named disks in memory. What it counts goes on from one opening to the next, and each disk keeps its own plan and counts.
#[derive(Drop)]
pub struct MemMedia {
    alloc: Global,
    /// The open image, or no blocks.
    disk: MemDisk,
    name: Option<String>,
    others: Vec<Named>,
    faults: FaultCount,
    given: LastRead,
    /// The clock at the last opening.
    earlier: u64,
    is_told: bool,
}

/// The clock goes on by the moments of a disk that is closed.
fn pass(earlier: &mut u64, is_told: &mut bool, disk: &MemDisk)
    ensures { IsTrue is_told.new → IsTrue is_told.old × IsTrue (⟦<MemDisk as Disk>⟧.past disk.now).is_told
        × (earlier.new ≡ earlier.old + (⟦<MemDisk as Disk>⟧.past disk.now).clock) }
{
    match earlier.checked_add(disk.moments()) {
        Some(clock) => *earlier = clock,
        None => *is_told = false,
    }
    if !disk.tells_moments() {
        *is_told = false;
    }
}

/// The disk that is opened: the one that was found, with these blocks if there are any.
fn opened(alloc: Global, found: Option<MemDisk>, fresh: Option<SureDisk>) -> MemDisk
    ensures found { IfSome found (λ disk. fresh ≡ None → ⟦<MemDisk as Disk>⟧.state result ≡ ⟦<MemDisk as Disk>⟧.state disk) }
    ensures fresh { IfSome fresh (λ device. ⟦<MemDisk as Disk>⟧.state result ≡ ⟦<SureDisk as Disk>⟧.state device) }
    ensures size { IfSome fresh (λ device. ⟦<MemDisk as Disk>⟧.fixed result ≡ ⟦<SureDisk as Disk>⟧.fixed device) }
    ensures begun { HasBegun (⟦<MemDisk as Disk>⟧.past result) }
{
    let mut disk = match found {
        Some(disk) => disk,
        None => MemDisk::none(alloc),
    };
    match fresh {
        Some(device) => disk.renew(device),
        None => disk.begin(),
    }
    disk
}

/// Takes the memory that an opening needs: the name, the blocks, and room among the images for one more.
fn room(
    alloc: Global,
    images: &mut Vec<Named>,
    name: &str,
    blocks: Option<u32>,
) -> Result<(String, Option<SureDisk>), AllocError>
    ensures images { images.new.items ≡ images.old.items }
    ensures room { OnOk result (vec_len images.new < vec_capacity images.new) }
    ensures name { IfOk result (λ r. string_bytes r.0 ≡ name.now) }
    ensures none { IfOk result (λ r. r.1 ≡ None ↔ (blocks ≡ None)) }
    ensures blank { IfOk result (λ r. IfSome r.1 (λ device. IfSome blocks (λ n. ⟦<SureDisk as Disk>⟧.state device ≡ blank n))) }
    ensures size { IfOk result (λ r. IfSome r.1 (λ device. IfSome blocks (λ n. ⟦<SureDisk as Disk>⟧.fixed device ≡ of_size n))) }
{
    images.reserve(1)?;
    let own = String::from_str(alloc, name)?;
    match blocks {
        Some(n) => Ok((own, Some(SureDisk::new(alloc, n)?))),
        None => Ok((own, None)),
    }
}

impl MemMedia {
    ghost use Rattle.mem_media.specs.Lending.{LendsOpen, LendsOther, LendsImage};

    /// No images and no faults. It takes no memory.
    pub fn new(alloc: Global) -> MemMedia
        ensures images { (name : List ℕ) → image_named (⟦<MemMedia as Disk>⟧.fixed result) (⟦<MemMedia as Disk>⟧.state result) name ≡ None }
        ensures size { (⟦<MemMedia as Disk>⟧.fixed result).size ≡ 0 }
        ensures faults { ⟦<MemMedia as Disk>⟧.faults result ≡ 0 }
        ensures given { ⟦<MemMedia as Disk>⟧.given result ≡ record { at = 0; block = zero_block; count = 0 } }
        ensures told { IsTrue (⟦<MemMedia as Disk>⟧.past result).is_told }
    {
        MemMedia {
            alloc,
            disk: MemDisk::none(alloc),
            name: None,
            others: Vec::new(alloc),
            faults: FaultCount::new(),
            given: LastRead::none(),
            earlier: 0,
            is_told: true,
        }
    }

    /// Whether it still tells its moments. It stops where memory for the record is wanting.
    pub fn tells_moments(&self) -> bool
        ensures { result ≡ (⟦<MemMedia as Disk>⟧.past self.now).is_told }
    {
        self.is_told && self.disk.tells_moments()
    }

    fn has(&self, name: &str) -> bool
        ensures { result ≡ is_some (image_named (⟦<MemMedia as Disk>⟧.fixed self.now) (⟦<MemMedia as Disk>⟧.state self.now) name.now) }
    {
        is_name(&self.name, name) || place(&self.others, name).is_some()
    }

    /// The disk of that name, if there is one.
    pub fn disk(&mut self, name: &str) -> Option<&mut MemDisk>
        ensures* writes_back { sem 𝓛 (LendsImage self.entry name.now result) }
        ensures image { option_map (λ disk. ⟦<MemDisk as Disk>⟧.state disk) (option_copied_mut result) ≡ image_named (⟦<MemMedia as Disk>⟧.fixed self.old) (⟦<MemMedia as Disk>⟧.state self.old) name.now }
    {
        if is_name(&self.name, name) {
            return Some(self.open_disk());
        }
        match place(&self.others, name) {
            Some(i) => Some(self.other_disk(i)),
            None => None,
        }
    }

    /// Adds an image, or replaces the one of that name. Where there is no memory for it, the disk is dropped and no image changes.
    pub fn add(&mut self, name: &str, disk: MemDisk) -> Result<(), AllocError>
        ensures added { OnOk result (image_named (⟦<MemMedia as Disk>⟧.fixed self.new) (⟦<MemMedia as Disk>⟧.state self.new) name.now ≡ Some (⟦<MemDisk as Disk>⟧.state disk)) }
        ensures others { (other : List ℕ) → other ≢ name.now
            → image_named (⟦<MemMedia as Disk>⟧.fixed self.new) (⟦<MemMedia as Disk>⟧.state self.new) other ≡ image_named (⟦<MemMedia as Disk>⟧.fixed self.old) (⟦<MemMedia as Disk>⟧.state self.old) other }
        ensures err { OnErr result (image_named (⟦<MemMedia as Disk>⟧.fixed self.new) (⟦<MemMedia as Disk>⟧.state self.new) name.now ≡ image_named (⟦<MemMedia as Disk>⟧.fixed self.old) (⟦<MemMedia as Disk>⟧.state self.old) name.now) }
        ensures current { (⟦<MemMedia as Disk>⟧.fixed self.new).current ≡ (⟦<MemMedia as Disk>⟧.fixed self.old).current }
        ensures state { (⟦<MemMedia as Disk>⟧.fixed self.old).current ≢ Some name.now → ⟦<MemMedia as Disk>⟧.state self.new ≡ ⟦<MemMedia as Disk>⟧.state self.old }
        ensures faults { ⟦<MemMedia as Disk>⟧.faults self.new ≡ ⟦<MemMedia as Disk>⟧.faults self.old }
        ensures given { ⟦<MemMedia as Disk>⟧.given self.new ≡ ⟦<MemMedia as Disk>⟧.given self.old }
        // The moments of the open image stay, if it isn't the one that is replaced.
        ensures told { (⟦<MemMedia as Disk>⟧.fixed self.old).current ≢ Some name.now → (⟦<MemMedia as Disk>⟧.past self.new).is_told ≡ (⟦<MemMedia as Disk>⟧.past self.old).is_told }
        ensures moments { (⟦<MemMedia as Disk>⟧.fixed self.old).current ≢ Some name.now → Adds (⟦<MemMedia as Disk>⟧.past self.old) (⟦<MemMedia as Disk>⟧.past self.new) (λ s. ⊥) }
        ensures keeps { (⟦<MemMedia as Disk>⟧.fixed self.old).current ≢ Some name.now → Keeps (⟦<MemMedia as Disk>⟧.past self.old) (⟦<MemMedia as Disk>⟧.past self.new) }
    {
        if let Some(there) = self.disk(name) {
            *there = disk;
            return Ok(());
        }
        add(self.alloc, &mut self.others, name, disk)
    }

    fn open_disk(&mut self) -> &mut MemDisk
        ensures* writes_back { sem 𝓛 (LendsOpen self.entry result) }
        ensures value { result.now ≡ self.old.disk }
    {
        &mut self.disk
    }

    fn other_disk(&mut self, i: usize) -> &mut MemDisk
        requires { i < vec_len self.old.others }
        ensures* writes_back { sem 𝓛 (LendsOther self.entry i result) }
        ensures value { option_map (λ (n : Named). n.disk) (slice_get self.old.others.items i) ≡ Some result.now }
    {
        let named = &mut self.others[i];
        &mut named.disk
    }

    /// Closes the open image, and opens the one of that name, which has these blocks from now on if there are any.
    fn exchange(&mut self, own: String, fresh: Option<SureDisk>)
        requires { vec_len self.old.others < vec_capacity self.old.others }
        ensures named { (⟦<MemMedia as Disk>⟧.fixed self.new).current ≡ Some (string_bytes own) }
        ensures found { fresh ≡ None → IfSome (image_named (⟦<MemMedia as Disk>⟧.fixed self.old) (⟦<MemMedia as Disk>⟧.state self.old) (string_bytes own)) (λ s. ⟦<MemMedia as Disk>⟧.state self.new ≡ s) }
        ensures made { IfSome fresh (λ device. ⟦<MemMedia as Disk>⟧.state self.new ≡ ⟦<SureDisk as Disk>⟧.state device) }
        ensures size { IfSome fresh (λ device. (⟦<MemMedia as Disk>⟧.fixed self.new).size ≡ (⟦<SureDisk as Disk>⟧.fixed device).size) }
        ensures others { (other : List ℕ) → other ≢ string_bytes own
            → image_named (⟦<MemMedia as Disk>⟧.fixed self.new) (⟦<MemMedia as Disk>⟧.state self.new) other ≡ image_named (⟦<MemMedia as Disk>⟧.fixed self.old) (⟦<MemMedia as Disk>⟧.state self.old) other }
        ensures moments { Adds (⟦<MemMedia as Disk>⟧.past self.old) (⟦<MemMedia as Disk>⟧.past self.new) (λ s. s ≡ ⟦<MemMedia as Disk>⟧.state self.new) }
        ensures faults { ⟦<MemMedia as Disk>⟧.faults self.new ≡ ⟦<MemMedia as Disk>⟧.faults self.old }
        ensures given { ⟦<MemMedia as Disk>⟧.given self.new ≡ ⟦<MemMedia as Disk>⟧.given self.old }
    {
        pass(&mut self.earlier, &mut self.is_told, &self.disk);
        let closed = mem::replace(&mut self.disk, MemDisk::none(self.alloc));
        let found = change_over(&mut self.others, self.name.take(), closed, own.as_str());
        self.disk = opened(self.alloc, found, fresh);
        self.name = Some(own);
    }
}

impl Disk for MemMedia {
    ghost use Rattle.mem_disk.specs.Told.{state_of};
    ghost use Rattle.mem_media.specs.Named.{fixed_of, past_since, media_stands, media_counts};

    ghost fixed = { λ m. fixed_of m };

    ghost tells = { true };

    ghost state = { λ m. state_of m.disk };

    ghost past = { λ m. past_since m };

    ghost faults = { λ m. m.faults };

    ghost given = { λ m. m.given };

    ghost has_size = { λ m tells. refl };

    ghost now_counts = { λ m t told le. media_counts m t le };

    ghost only_now = { λ m s told stood. media_stands m s stood };

    fn blocks(&self) -> u32 {
        self.disk.blocks()
    }

    fn read_block(&mut self, at: BlockNo, into: &mut Block) -> Result<(), DiskFault>
        requires { at < (⟦<MemMedia as Disk>⟧.fixed self.old).size }
        ensures planned { IsErr result ↔ IsPlanned (open_plan self.old) }
        ensures next { open_plan self.new ≡ advanced (open_plan self.old) }
        ensures junk { open_junk self.new ≡ open_junk self.old }
        ensures read { OnOk result (slice_get (⟦<MemMedia as Disk>⟧.state self.old).contents at ≡ Some into.new) }
        ensures same { ⟦<MemMedia as Disk>⟧.state self.new ≡ ⟦<MemMedia as Disk>⟧.state self.old }
        ensures fixed { ⟦<MemMedia as Disk>⟧.fixed self.new ≡ ⟦<MemMedia as Disk>⟧.fixed self.old }
        ensures moments { Adds (⟦<MemMedia as Disk>⟧.past self.old) (⟦<MemMedia as Disk>⟧.past self.new) (λ s. s ≡ ⟦<MemMedia as Disk>⟧.state self.old) }
        ensures keeps { Keeps (⟦<MemMedia as Disk>⟧.past self.old) (⟦<MemMedia as Disk>⟧.past self.new) }
        ensures given { OnOk result (Gives (⟦<MemMedia as Disk>⟧.given self.old) (⟦<MemMedia as Disk>⟧.given self.new) at into.new) }
        ensures given_err { OnErr result (⟦<MemMedia as Disk>⟧.given self.new ≡ ⟦<MemMedia as Disk>⟧.given self.old) }
        ensures cause { HasCause (⟦<MemMedia as Disk>⟧.faults self.old) (⟦<MemMedia as Disk>⟧.faults self.new) result }
    {
        if let Err(fault) = self.disk.read_block(at, into) {
            self.faults.raise();
            return Err(fault);
        }
        self.given.note(at, into);
        Ok(())
    }

    fn write_block(&mut self, at: BlockNo, from: &Block) -> Result<(), DiskFault>
        requires { at < (⟦<MemMedia as Disk>⟧.fixed self.old).size }
        ensures planned { IsErr result ↔ IsPlanned (open_plan self.old) }
        ensures next { open_plan self.new ≡ advanced (open_plan self.old) }
        ensures junk { open_junk self.new ≡ open_junk self.old }
        ensures filled { OnErr result (⟦<MemMedia as Disk>⟧.state self.new ≡ written at (block_of (open_junk self.old)) (⟦<MemMedia as Disk>⟧.state self.old)) }
        ensures written { OnOk result (⟦<MemMedia as Disk>⟧.state self.new ≡ written at from.now (⟦<MemMedia as Disk>⟧.state self.old)) }
        ensures torn { OnErr result (DuringWrite at (⟦<MemMedia as Disk>⟧.state self.old) (⟦<MemMedia as Disk>⟧.state self.new)) }
        ensures fixed { ⟦<MemMedia as Disk>⟧.fixed self.new ≡ ⟦<MemMedia as Disk>⟧.fixed self.old }
        ensures moments { Adds (⟦<MemMedia as Disk>⟧.past self.old) (⟦<MemMedia as Disk>⟧.past self.new) (DuringWrite at (⟦<MemMedia as Disk>⟧.state self.old)) }
        ensures keeps { Keeps (⟦<MemMedia as Disk>⟧.past self.old) (⟦<MemMedia as Disk>⟧.past self.new) }
        ensures given { ⟦<MemMedia as Disk>⟧.given self.new ≡ ⟦<MemMedia as Disk>⟧.given self.old }
        ensures cause { HasCause (⟦<MemMedia as Disk>⟧.faults self.old) (⟦<MemMedia as Disk>⟧.faults self.new) result }
    {
        let result = self.disk.write_block(at, from);
        if result.is_err() {
            self.faults.raise();
        }
        result
    }

    fn sync(&mut self) -> Result<(), DiskFault>
        ensures planned { IsErr result ↔ IsPlanned (open_plan self.old) }
        ensures next { open_plan self.new ≡ advanced (open_plan self.old) }
        ensures junk { open_junk self.new ≡ open_junk self.old }
        ensures synced { OnOk result (⟦<MemMedia as Disk>⟧.state self.new ≡ synced (⟦<MemMedia as Disk>⟧.state self.old)) }
        ensures not_synced { OnErr result (⟦<MemMedia as Disk>⟧.state self.new ≡ ⟦<MemMedia as Disk>⟧.state self.old) }
        ensures fixed { ⟦<MemMedia as Disk>⟧.fixed self.new ≡ ⟦<MemMedia as Disk>⟧.fixed self.old }
        ensures moments { Adds (⟦<MemMedia as Disk>⟧.past self.old) (⟦<MemMedia as Disk>⟧.past self.new) (DuringSync (⟦<MemMedia as Disk>⟧.state self.old)) }
        ensures keeps { Keeps (⟦<MemMedia as Disk>⟧.past self.old) (⟦<MemMedia as Disk>⟧.past self.new) }
        ensures given { ⟦<MemMedia as Disk>⟧.given self.new ≡ ⟦<MemMedia as Disk>⟧.given self.old }
        ensures cause { HasCause (⟦<MemMedia as Disk>⟧.faults self.old) (⟦<MemMedia as Disk>⟧.faults self.new) result }
    {
        let result = self.disk.sync();
        if result.is_err() {
            self.faults.raise();
        }
        result
    }
}

impl Media for MemMedia {
    fn open(&mut self, name: &str, blocks: Option<u32>) -> Result<(), OpenFault>
        ensures named { OnOk result ((⟦<MemMedia as Disk>⟧.fixed self.new).current ≡ Some name.now) }
        ensures found { OnOk result (blocks ≡ None → image_named (⟦<MemMedia as Disk>⟧.fixed self.old) (⟦<MemMedia as Disk>⟧.state self.old) name.now ≡ Some (⟦<MemMedia as Disk>⟧.state self.new)) }
        ensures made { OnOk result (IfSome blocks (λ n. ⟦<MemMedia as Disk>⟧.state self.new ≡ blank n)) }
        ensures size { OnOk result (IfSome blocks (λ n. (⟦<MemMedia as Disk>⟧.fixed self.new).size ≡ n)) }
        ensures size_err { IsErrOf result Failed → ((⟦<MemMedia as Disk>⟧.fixed self.new).size ≡ (⟦<MemMedia as Disk>⟧.fixed self.old).size) ⊎ ((⟦<MemMedia as Disk>⟧.fixed self.new).size ≡ 0) }
        ensures others { (other : List ℕ) → (other ≢ name.now) ⊎ (blocks ≡ None)
            → image_named (⟦<MemMedia as Disk>⟧.fixed self.new) (⟦<MemMedia as Disk>⟧.state self.new) other ≡ image_named (⟦<MemMedia as Disk>⟧.fixed self.old) (⟦<MemMedia as Disk>⟧.state self.old) other }
        ensures moments { Adds (⟦<MemMedia as Disk>⟧.past self.old) (⟦<MemMedia as Disk>⟧.past self.new) (λ s. s ≡ ⟦<MemMedia as Disk>⟧.state self.new) }
        ensures given { ⟦<MemMedia as Disk>⟧.given self.new ≡ ⟦<MemMedia as Disk>⟧.given self.old }
        ensures failed { IsErrOf result Failed → ⟦<MemMedia as Disk>⟧.faults self.new ≡ raised (⟦<MemMedia as Disk>⟧.faults self.old) }
        ensures kept { ¬ IsErrOf result Failed → ⟦<MemMedia as Disk>⟧.faults self.new ≡ ⟦<MemMedia as Disk>⟧.faults self.old }
        // It answers `Failed` exactly where it is given None and a name that no image has.
        ensures absent { IsErrOf result Failed ↔ ((blocks ≡ None) × (image_named (⟦<MemMedia as Disk>⟧.fixed self.old) (⟦<MemMedia as Disk>⟧.state self.old) name.now ≡ None)) }
        // A failure changes no image and closes none.
        ensures state_err { OnErr result (⟦<MemMedia as Disk>⟧.state self.new ≡ ⟦<MemMedia as Disk>⟧.state self.old) }
        ensures fixed_err { OnErr result (⟦<MemMedia as Disk>⟧.fixed self.new ≡ ⟦<MemMedia as Disk>⟧.fixed self.old) }
    {
        if blocks.is_none() && !self.has(name) {
            self.faults.raise();
            return Err(OpenFault::Failed);
        }
        match room(self.alloc, &mut self.others, name, blocks) {
            Ok((own, fresh)) => {
                self.exchange(own, fresh);
                Ok(())
            }
            Err(_) => Err(OpenFault::OutOfMemory),
        }
    }
}
