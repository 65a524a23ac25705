//! The inodes of all numbers.
ghost use Rattle.std.specs.Prelude.{◌≡◌, ◌≢◌, ◌<◌, ◌≤◌, ◌+◌, ◌++◌, ℕ, true, false, length, slice_index, IfOk, OnOk, OnErr, IfSome, IfNone, IsTrue};
ghost use Rattle.vol_numbers.specs.Geometry.{layout_of};
ghost use Rattle.disk_model.specs.Past.{Adds};
ghost use Rattle.place_words.specs.Different.{times};
ghost use Rattle.block_format.specs.Index.{IsInArea};
ghost use Rattle.block_format.specs.Inode.{inode_shape};
ghost use Rattle.block_format.specs.declared.inode.Inode.TheVariants.{Unused};
ghost use Rattle.block_tree.specs.Tree.{Blocks, blocks_in, nonzero};
ghost use Rattle.block_tree.specs.Notes.{Stand, page_blocks};
ghost use Rattle.block_tree.specs.Causes.{HasTreeCause};
ghost use Rattle.inode_file.specs.Inodes.{inode_of, is_used, IsTable, Stands};
ghost use Rattle.inode_file.specs.Loading.{IsWithin, IsLoadDamage};
ghost use Rattle.inode_file.specs.Rewriting.{has_nodes, is_unchanged, written_blocks, written_in_order, table_pointers};
ghost use Rattle.inode_file.specs.Counting.{used_positions};
ghost use Rattle.inode_file.specs.Renewal.{IsPlanned, all_written};

use crate::loading::{read_inodes, read_pointers};
use crate::notes::Notes;
use crate::renewal::{copy_inodes, count_fresh, count_used, renew_blocks, renew_index};
use crate::taken::{is_taken, taken_numbers};
use block_format::{Index, Inode};
use block_tree::{Rewritten, TreeFault};
use disk_model::Disk;
use number_set::NumberSet;
use run_allocator::FreeMap;
use std::alloc::{AllocError, Global};
use std::marker::Model;
use vol_numbers::{BlockNo, Geometry, InoNo};

/// The inode of each number up to 65,535, beside the inodes as they stand in blocks.
#[derive(Drop)]
pub struct InodeFile {
    alloc: Global,
    inodes: Vec<Inode>,
    stored: Vec<Inode>,
    pointers: Index,
    index: BlockNo,
    /// The numbers that no new node can have.
    taken: NumberSet,
}

/// Where the inode blocks and the inode index are to be.
#[derive(Clone, Copy)]
struct Plan {
    pointers: Index,
    index: BlockNo,
}

impl Model for InodeFile {
    ghost use Rattle.inode_file.specs.Inodes.{InodeTable, IsTable};
    ghost use Rattle.inode_file.specs.Taken.{HasTaken};

    ghost Value = { InodeTable };

    ghost view = { λ f. record { inodes = f.inodes.items; stored = f.stored.items; pointers = f.pointers.ptrs; index = f.index } };

    ghost invariant = { λ f. IsTable (record { inodes = f.inodes.items; stored = f.stored.items; pointers = f.pointers.ptrs; index = f.index }) × HasTaken f.taken f.inodes.items };
}

impl InodeFile {
    /// The inodes that an inode index and the blocks to which it points spell.
    ///
    /// It takes room for every number. Each block is read once.
    pub fn load<D: Disk>(
        alloc: Global,
        disk: &mut D,
        index: BlockNo,
        g: &Geometry,
    ) -> Result<InodeFile, TreeFault>
        requires size { (layout_of g.now).blocks ≡ (D.fixed disk.old).size }
        requires index { IsInArea (layout_of g.now) index }
        ensures stored { IfOk result (λ t. IsTrue D.tells → Stands (blocks_in (D.state disk.old).contents) t) }
        ensures index { IfOk result (λ t. t.index ≡ index) }
        ensures unchanged { IfOk result (λ t. t.inodes ≡ t.stored) }
        ensures none_changed { IfOk result (λ t. written_blocks t ≡ 0) }
        ensures within { IfOk result (IsWithin (layout_of g.now)) }
        ensures whole { IfOk result IsTable }
        ensures damaged { IsLoadDamage (layout_of g.now) D.tells (blocks_in (D.state disk.new).contents) index (D.given disk.old) (D.given disk.new) result }
        ensures same { IsTrue D.tells → D.state disk.new ≡ D.state disk.old }
        ensures moments { IsTrue D.tells → Adds (D.past disk.old) (D.past disk.new) (λ s. s ≡ D.state disk.old) }
        ensures fixed { D.fixed disk.new ≡ D.fixed disk.old }
        ensures cause { HasTreeCause (D.faults disk.old) (D.faults disk.new) result }
    {
        let pointers = read_pointers(disk, g, index)?;
        let inodes = read_inodes(alloc, disk, g, &pointers)?;
        let file = InodeFile::of(alloc, inodes, pointers, index)?;
        Ok(file)
    }

    /// These inodes, which stand in the blocks to which these pointers lead.
    pub(crate) fn of(
        alloc: Global,
        inodes: Vec<Inode>,
        pointers: Index,
        index: BlockNo,
    ) -> Result<InodeFile, AllocError>
        requires { IsTable (record { inodes = inodes.items; stored = inodes.items; pointers = pointers.ptrs; index = index }) }
        ensures { IfOk result (λ t. t ≡ record { inodes = inodes.items; stored = inodes.items; pointers = pointers.ptrs; index = index }) }
    {
        let stored = Vec::from_slice(alloc, &inodes)?;
        let taken = taken_numbers(alloc, &inodes)?;
        Ok(InodeFile {
            alloc,
            inodes,
            stored,
            pointers,
            index,
            taken,
        })
    }

    /// The inode of a number.
    pub fn get(&self, n: InoNo) -> Inode
        requires { n ≤ 65535 }
        ensures is { result ≡ inode_of self.now.inodes n }
        ensures whole { IsTable self.now }
    {
        self.inodes[n as usize]
    }

    /// Gives a number another inode. It takes no memory.
    pub fn set(&mut self, n: InoNo, inode: Inode)
        requires some { 1 ≤ n }
        requires at_most { n ≤ 65535 }
        requires shape { IsTrue (inode_shape inode) }
        ensures put { inode_of self.new.inodes n ≡ inode }
        ensures others { (m : ℕ) → m ≢ n → inode_of self.new.inodes m ≡ inode_of self.old.inodes m }
        ensures rest { self.new ≡ record self.old { inodes = self.new.inodes } }
        // At most one inode block more is to be written.
        ensures changed { written_blocks self.new ≤ written_blocks self.old + 1 }
        ensures whole { IsTable self.new }
    {
        self.inodes[n as usize] = inode;
        self.taken.set(n, is_taken(n, &inode));
    }

    /// The least number from 2 on that is unused. None exactly where each is used. It takes as long however many nodes there are.
    pub fn least_unused(&self) -> Option<InoNo>
        ensures within { IfSome result (λ n. (2 ≤ n) × (n ≤ 65535)) }
        ensures unused { IfSome result (λ n. inode_of self.now.inodes n ≡ Unused) }
        ensures least { IfSome result (λ n. (m : ℕ) → 2 ≤ m → m < n → is_used (inode_of self.now.inodes m) ≡ true) }
        ensures none { IfNone result ((m : ℕ) → 2 ≤ m → m ≤ 65535 → is_used (inode_of self.now.inodes m) ≡ true) }
    {
        self.taken.least_absent()
    }

    /// How many inode blocks a rewriting would write afresh.
    pub fn changed(&self) -> u32
        ensures is { result ≡ written_blocks self.now }
        ensures at_most { result ≤ 1024 }
        ensures whole { IsTable self.now }
    {
        count_fresh(&self.inodes, &self.stored, &self.pointers)
    }

    /// How many inode blocks the inodes take: one for each position of which a number is a node's.
    pub fn used_blocks(&self) -> u32
        ensures is { result ≡ used_positions self.now.inodes }
        ensures at_most { result ≤ 1024 }
        // A rewriting writes no more of them afresh.
        ensures written { written_blocks self.now ≤ result }
    {
        count_used(&self.inodes)
    }

    /// Plans the inode blocks and the inode index as they are to be written. It writes nothing, but takes them for written from then on.
    ///
    /// An inode block without nodes is dropped. One whose inodes are as they stand is kept. For the others the lowest free blocks are taken, by
    /// position, and then one for the inode index, where its pointers have changed.
    pub fn rewrite(&mut self, free: &mut FreeMap) -> Result<Rewritten, AllocError>
        requires { written_blocks self.old + 1 ≤ length free.old }
        // In each image in which the pages stand, and what stood in blocks before, all inodes stand.
        ensures stored { IfOk result (λ w. (after : Blocks) → Stand w.pages after → Stands after self.old → Stands after self.new) }
        ensures inodes { OnOk result (self.new.inodes ≡ self.old.inodes) }
        ensures now { OnOk result (self.new.stored ≡ self.old.inodes) }
        ensures settled { OnOk result (written_blocks self.new ≡ 0) }
        ensures root { IfOk result (λ w. w.root ≡ record { height = 1; ptr = self.new.index }) }
        ensures whole { OnOk result (IsTable self.new) }
        ensures pointers { IfOk result (λ w. (b : ℕ) → times b (table_pointers self.old) + times b w.added ≡ times b (table_pointers self.new) + times b w.dropped) }
        // There are as many inode blocks as different positions of the numbers of nodes.
        ensures count { OnOk result (length (nonzero self.new.pointers) ≡ used_positions self.old.inodes) }
        ensures pages { IfOk result (λ w. page_blocks w.pages ≡ written_in_order self.old self.new) }
        ensures added { IfOk result (λ w. w.added ≡ page_blocks w.pages) }
        ensures taken { IfOk result (λ w. page_blocks w.pages ++ free.new ≡ free.old) }
        ensures dropped { OnOk result ((k : ℕ) → k < 1024 → has_nodes self.old k ≡ false → slice_index self.new.pointers k ≡ 0) }
        ensures kept { OnOk result ((k : ℕ) → k < 1024 → has_nodes self.old k ≡ true → is_unchanged self.old k ≡ true → slice_index self.new.pointers k ≡ slice_index self.old.pointers k) }
        ensures kept_index { OnOk result (self.new.pointers ≡ self.old.pointers → self.new.index ≡ self.old.index) }
        ensures unchanged { OnErr result (self.new ≡ self.old) }
        ensures free_unchanged { OnErr result (free.new ≡ free.old) }
    {
        let mut trial = free.copy()?;
        let mut notes = Notes::new(self.alloc);
        let plan = self.plan(&mut trial, &mut notes)?;
        *free = trial;
        self.adopt(&plan);
        Ok(notes.into_rewritten(plan.index))
    }

    /// Renews all blocks, and says where they are.
    fn plan(&self, free: &mut FreeMap, notes: &mut Notes) -> Result<Plan, AllocError>
        requires { written_blocks self.now + 1 ≤ length free.old }
        ensures { IfOk result (λ plan. IsPlanned self.now (all_written self.now plan.pointers.ptrs plan.index) free.old free.new notes.old notes.new) }
    {
        let mut pointers = self.pointers;
        renew_blocks(&self.inodes, &self.stored, &mut pointers, free, notes)?;
        let index = renew_index(self.index, &self.pointers, &pointers, free, notes)?;
        Ok(Plan { pointers, index })
    }

    /// Takes the plan for done.
    fn adopt(&mut self, plan: &Plan)
        requires { IsTable (all_written self.old plan.now.pointers.ptrs plan.now.index) }
        ensures { self.new ≡ all_written self.old plan.now.pointers.ptrs plan.now.index }
    {
        copy_inodes(&self.inodes, &mut self.stored);
        self.pointers = plan.pointers;
        self.index = plan.index;
    }
}
