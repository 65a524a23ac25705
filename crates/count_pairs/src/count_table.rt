//! The counts in memory.
ghost use Rattle.std.specs.Prelude.{◌≡◌, ◌≢◌, ◌<◌, ◌≤◌, ◌+◌, ◌-◌, ◌*◌, ◌/◌, ◌^◌, ℕ, [], true, false, length, slice_index, slice_set, replicate, IfOk, OnOk, OnErr, IsTrue};
ghost use Rattle.vol_numbers.specs.Cause.{HasCause};
ghost use Rattle.vol_numbers.specs.Geometry.{layout_of};
ghost use Rattle.vol_numbers.specs.Layout.{count_blocks};
ghost use Rattle.disk_model.specs.Disk.{is_among, EachImage};
ghost use Rattle.disk_model.specs.Past.{Adds};
ghost use Rattle.block_format.specs.Homes.{home_bit};
ghost use Rattle.count_pairs.specs.Cause.{HasCountCause};
ghost use Rattle.count_pairs.specs.Homes.{Blocks, blocks_in, counts_from, other_of};
ghost use Rattle.count_pairs.specs.Loading.{GivesLast};
ghost use Rattle.count_pairs.specs.Table.{is_touched, IsKept};
ghost use Rattle.count_pairs.specs.Writing.{ChangesOnly, HasNamedHomes, IsWritten, NamesWritten};

use crate::CountFault;
use crate::count_block::COUNTS_PER_BLOCK;
use crate::loading::read_table;
use crate::writing::write_touched;
use block_format::{HomeBits, RootBody};
use disk_model::{Disk, DiskFault};
use std::alloc::Global;
use std::marker::Model;
use vol_numbers::BlockNo;

/// How many pointers lead to each block, and which count blocks were touched since they were read or written.
#[derive(Drop)]
pub struct CountTable {
    counts: Vec<u32>,
    touched: Vec<bool>,
}

impl Model for CountTable {
    ghost use Rattle.std.specs.Prelude.{◌≡◌, ◌≤◌, ◌*◌, length};
    ghost use Rattle.count_pairs.specs.Table.{Table};

    ghost Value = { Table };

    ghost view = { λ t. record { counts = t.counts.items; touched = t.touched.items } };

    ghost invariant = { λ t. (length t.counts.items ≡ 1024 * length t.touched.items) × (length t.touched.items ≤ 64) };
}

impl CountTable {
    /// The counts of all blocks, from the homes that the root names.
    pub fn load<D: Disk>(
        alloc: Global,
        disk: &mut D,
        body: &RootBody,
    ) -> Result<CountTable, CountFault>
        requires size { (layout_of body.now.geometry).blocks ≡ (D.fixed disk.old).size }
        ensures counts { IfOk result (λ t. IsTrue D.tells → t.counts ≡ counts_from (blocks_in (D.state disk.old).contents) body.now.homes.bytes 0 (count_blocks (layout_of body.now.geometry))) }
        ensures kept { IfOk result (λ t. IsTrue D.tells → IsKept (blocks_in (D.state disk.old).contents) body.now.homes.bytes t) }

        // On every disk there are so many counts, none of them touched, and the last ones are those of the block that was read last.
        ensures long { IfOk result (λ t. length t.counts ≡ 1024 * count_blocks (layout_of body.now.geometry)) }
        ensures untouched { IfOk result (λ t. t.touched ≡ replicate (count_blocks (layout_of body.now.geometry)) false) }
        ensures given { IfOk result (λ t. GivesLast (D.given disk.new) body.now.homes.bytes (count_blocks (layout_of body.now.geometry)) t.counts) }
        // It reads each count block once.
        ensures reads { IfOk result (λ t. (D.given disk.new).count ≤ (D.given disk.old).count + count_blocks (layout_of body.now.geometry)) }

        ensures same { IsTrue D.tells → D.state disk.new ≡ D.state disk.old }
        ensures moments { IsTrue D.tells → Adds (D.past disk.old) (D.past disk.new) (λ s. s ≡ D.state disk.old) }
        ensures fixed { D.fixed disk.new ≡ D.fixed disk.old }
        ensures cause { HasCountCause (D.faults disk.old) (D.faults disk.new) result }
    {
        let counts = read_table(alloc, disk, body)?;
        let touched = vec![in alloc; false; body.geometry.count_blocks() as usize]?;
        Ok(CountTable { counts, touched })
    }

    /// How many pointers lead to a block.
    pub fn get(&self, b: BlockNo) -> u32
        requires { b < length self.now.counts }
        ensures { result ≡ slice_index self.now.counts b }
    {
        self.counts[b as usize]
    }

    /// The counts of all blocks, from that of block 0 on.
    pub fn as_slice(&self) -> &[u32]
        ensures { result.now ≡ self.now.counts }
    {
        self.counts.as_slice()
    }

    /// One pointer more leads to a block.
    pub fn add(&mut self, b: BlockNo)
        requires known { b < length self.old.counts }
        requires fits { slice_index self.old.counts b + 1 < 2 ^ 32 }
        ensures one_more { self.new.counts ≡ slice_set self.old.counts b (slice_index self.old.counts b + 1) }
        ensures touched { self.new.touched ≡ slice_set self.old.touched (b / 1024) true }
        ensures kept { (read : Blocks) (homes : _) → IsKept read homes self.old → IsKept read homes self.new }
    {
        let count = self.counts[b as usize];
        self.set(b, count + 1);
    }

    /// One pointer less leads to a block.
    pub fn drop_one(&mut self, b: BlockNo)
        requires known { b < length self.old.counts }
        requires some { 1 ≤ slice_index self.old.counts b }
        ensures one_less { self.new.counts ≡ slice_set self.old.counts b (slice_index self.old.counts b - 1) }
        ensures touched { self.new.touched ≡ slice_set self.old.touched (b / 1024) true }
        ensures kept { (read : Blocks) (homes : _) → IsKept read homes self.old → IsKept read homes self.new }
    {
        let count = self.counts[b as usize];
        self.set(b, count - 1);
    }

    /// Writes each count block that was touched into the home that the bits don't name, and answers the bits that name what was written.
    /// It syncs nothing and takes no memory: a block is built when it is written.
    pub fn write_changed<D: Disk>(
        &mut self,
        disk: &mut D,
        homes: &HomeBits,
    ) -> Result<HomeBits, DiskFault>
        requires room { 3 + 2 * length self.old.touched ≤ (D.fixed disk.old).size }

        ensures bits { IfOk result (λ new. NamesWritten homes.now.bytes new.bytes self.old.touched) }
        ensures clear { IfOk result (λ new. (i : ℕ) → length self.old.touched ≤ i → home_bit homes.now.bytes i ≡ 0 → home_bit new.bytes i ≡ 0) }
        // The homes that the answered bits name spell the list, where those of the count blocks that were not touched did.
        ensures counts { IfOk result (λ new. IsTrue D.tells → IsKept (blocks_in (D.state disk.old).contents) homes.now.bytes self.old
            → counts_from (blocks_in (D.state disk.new).contents) new.bytes 0 (length self.old.touched) ≡ self.old.counts) }
        ensures kept { IfOk result (λ new. IsTrue D.tells → IsKept (blocks_in (D.state disk.old).contents) homes.now.bytes self.old
            → IsKept (blocks_in (D.state disk.new).contents) new.bytes self.new) }
        ensures joined { OnOk result (IsTrue D.tells → (b : ℕ) → IsWritten homes.now.bytes self.old.touched b → is_among (D.state disk.new).unsynced b ≡ true) }
        ensures untouched { OnOk result (self.new ≡ record { counts = self.old.counts; touched = replicate (length self.old.touched) false }) }

        // Also at each moment of the call, and after a failure, no block but the homes that are written has changed.
        ensures changes { IsTrue D.tells → ChangesOnly (IsWritten homes.now.bytes self.old.touched) (D.state disk.old) (D.state disk.new) }
        ensures during { IsTrue D.tells → Adds (D.past disk.old) (D.past disk.new) (ChangesOnly (IsWritten homes.now.bytes self.old.touched) (D.state disk.old)) }
        // At each moment of the call each image has the homes that the bits name as they were.
        ensures images { IsTrue D.tells → Adds (D.past disk.old) (D.past disk.new) (EachImage (HasNamedHomes homes.now.bytes (length self.old.touched) (D.state disk.old))) }

        // After a failure the same call can be tried again.
        ensures unchanged { OnErr result (self.new ≡ self.old) }
        ensures still_kept { OnErr result (IsTrue D.tells → IsKept (blocks_in (D.state disk.old).contents) homes.now.bytes self.old
            → IsKept (blocks_in (D.state disk.new).contents) homes.now.bytes self.new) }
        ensures unsynced { OnErr result (IsTrue D.tells → (D.state disk.new).unsynced ≢ []) }
        ensures fixed { D.fixed disk.new ≡ D.fixed disk.old }
        ensures given { D.given disk.new ≡ D.given disk.old }
        ensures cause { HasCause (D.faults disk.old) (D.faults disk.new) result }
    {
        let new = write_touched(disk, homes, self.counts.as_slice(), self.touched.as_slice())?;
        self.touched.fill(false);
        Ok(new)
    }

    /// Sets a count, and marks its count block as touched.
    fn set(&mut self, b: BlockNo, count: u32)
        requires { b < length self.old.counts }
        ensures counts { self.new.counts ≡ slice_set self.old.counts b count }
        ensures touched { self.new.touched ≡ slice_set self.old.touched (b / 1024) true }
        ensures kept { (read : Blocks) (homes : _) → IsKept read homes self.old → IsKept read homes self.new }
    {
        self.counts[b as usize] = count;
        self.touched[b as usize / COUNTS_PER_BLOCK] = true;
    }
}
