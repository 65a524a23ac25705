//! Each value has one spelling, and each spelling one value.
ghost use Rattle.std.specs.Prelude.{◌≡◌, ◌≤◌, ◌^◌, ℕ, IsTrue};
ghost use Rattle.vol_numbers.specs.Geometry.{layout_of};
ghost use Rattle.block_format.specs.Root.{root_of, root_in, root_bytes, SpellsRoot};
ghost use Rattle.block_format.specs.Words.{words};
ghost use Rattle.block_format.specs.Index.{SpellsIndex};
ghost use Rattle.block_format.specs.Counts.{SpellsCounts};
ghost use Rattle.block_format.specs.Inode.{IsInode, inode_in, inode_bytes, inode_shape, height_of};
ghost use Rattle.block_format.specs.Slot.{SpellsSlot, SlotFits, slot_in, slot_bytes};

use crate::{Index, Inode, RootBody, Slot, read_counts};
use vol_numbers::{Block, Geometry};

/// A root is read as it was spelled.
pub fn spelling_reads_back(body: RootBody)
    ensures { root_in (root_bytes (root_of body)) ≡ root_of body }
{}

/// The fields of a block that spells a root are this root.
pub fn root_of_spelling(body: RootBody, block: &Block)
    requires { SpellsRoot body block.now }
    ensures { root_in block.now.bytes ≡ root_of body }
{}

/// Two roots with one spelling are the same.
pub fn same_root(body: RootBody, other: RootBody, block: &Block)
    requires body { SpellsRoot body block.now }
    requires other { SpellsRoot other block.now }
    ensures { body ≡ other }
{}

/// The numbers of a block that spells an index are its pointers.
pub fn index_of_spelling(index: &Index, g: &Geometry, block: &Block)
    requires { SpellsIndex (layout_of g.now) index.now.ptrs block.now.bytes }
    ensures { words block.now.bytes ≡ index.now.ptrs }
{}

/// Two indexes with one spelling are the same.
pub fn same_index(index: &Index, other: &Index, g: &Geometry, block: &Block)
    requires index { SpellsIndex (layout_of g.now) index.now.ptrs block.now.bytes }
    requires other { SpellsIndex (layout_of g.now) other.now.ptrs block.now.bytes }
    ensures { index.now ≡ other.now }
{}

/// Every block spells counts: its numbers.
pub fn counts_of_block(block: &Block)
    ensures { SpellsCounts (words block.now.bytes) block.now.bytes }
{
    let _counts = read_counts(block);
}

/// Two lists of counts with one spelling are the same.
pub fn same_counts(counts: &[u32], other: &[u32], block: &Block)
    requires counts { SpellsCounts counts.now block.now.bytes }
    requires other { SpellsCounts other.now block.now.bytes }
    ensures { counts.now ≡ other.now }
{}

/// An inode is read as it was spelled.
pub fn inode_reads_back(inode: Inode)
    requires { IsTrue (inode_shape inode) }
    ensures { inode_in (inode_bytes inode) ≡ inode }
{
    let _bytes = inode.spelled();
}

/// The fields of bytes that spell an inode are this inode.
pub fn inode_of_spelling(inode: Inode, bytes: &[u8])
    requires { IsInode inode bytes.now }
    ensures { inode_in bytes.now ≡ inode }
{}

/// Two inodes with one spelling are the same.
pub fn same_inode(inode: Inode, other: Inode, bytes: &[u8])
    requires inode { IsInode inode bytes.now }
    requires other { IsInode other bytes.now }
    ensures { inode ≡ other }
{}

/// The height of a node is the least at which its tree has places for its blocks. At the height h it has 1,024 ^ h.
pub fn heights_are_least(blocks: u64)
    requires { blocks ≤ 1048576 }
    ensures enough { blocks ≤ 1024 ^ height_of blocks }
    ensures least { (h : ℕ) → blocks ≤ 1024 ^ h → height_of blocks ≤ h }
{}

/// A slot is read as it was spelled.
pub fn slot_reads_back(slot: &Slot)
    requires { SlotFits slot.now }
    ensures { slot_in (slot_bytes slot.now) ≡ slot.now }
{}

/// The fields of bytes that spell a slot are this slot.
pub fn slot_of_spelling(slot: &Slot, bytes: &[u8])
    requires { SpellsSlot slot.now bytes.now }
    ensures { slot_in bytes.now ≡ slot.now }
{}

/// Two slots with one spelling are the same.
pub fn same_slot(slot: &Slot, other: &Slot, bytes: &[u8])
    requires slot { SpellsSlot slot.now bytes.now }
    requires other { SpellsSlot other.now bytes.now }
    ensures { slot.now ≡ other.now }
{}
