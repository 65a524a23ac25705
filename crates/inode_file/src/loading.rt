//! Reads the inode index and the inode blocks.
ghost use Rattle.std.specs.Prelude.{◌≡◌, ◌<◌, ◌≤◌, ◌+◌, ℕ, true, false, All, IfOk, OnOk, IsTrue, length, slice_index};
ghost use Rattle.vol_numbers.specs.Geometry.{layout_of};
ghost use Rattle.disk_model.specs.Past.{Adds};
ghost use Rattle.block_format.specs.Index.{IsPointer, IsInArea};
ghost use Rattle.place_words.specs.Different.{is_among};
ghost use Rattle.block_tree.specs.Tree.{blocks_in, index_at};
ghost use Rattle.block_tree.specs.Causes.{HasTreeCause};
ghost use Rattle.inode_file.specs.Inodes.{inode_of, block_of, LeadsTo};
ghost use Rattle.inode_file.specs.Rewriting.{has_used};
ghost use Rattle.inode_file.specs.Loading.{IsWhole, IsLoadDamage};

use crate::inode_block::{inodes_in, no_inodes};
use block_format::{Index, Inode, counts_of_block, read_index};
use block_tree::TreeFault;
use disk_model::{Disk, DiskFault};
use std::alloc::Global;
use vol_numbers::{Block, BlockNo, Geometry};

/// How many numbers of nodes there are, that of no node among them.
const NUMBERS: usize = 65_536;

/// The pointers of the inode index.
pub(crate) fn read_pointers<D: Disk>(
    disk: &mut D,
    g: &Geometry,
    index: BlockNo,
) -> Result<Index, TreeFault>
    requires size { (layout_of g.now).blocks ≡ (D.fixed disk.old).size }
    requires index { IsInArea (layout_of g.now) index }
    ensures pointers { IfOk result (λ pointers. IsTrue D.tells → index_at (blocks_in (D.state disk.old).contents) index ≡ pointers.ptrs) }
    ensures within { IfOk result (λ pointers. All (IsPointer (layout_of g.now)) pointers.ptrs) }
    ensures reads { OnOk result ((D.given disk.new).count ≤ (D.given disk.old).count + 1) }
    ensures damaged { IsLoadDamage (layout_of g.now) D.tells (blocks_in (D.state disk.new).contents) index (D.given disk.old) (D.given disk.new) result }
    ensures same { IsTrue D.tells → D.state disk.new ≡ D.state disk.old }
    ensures moments { IsTrue D.tells → Adds (D.past disk.old) (D.past disk.new) (λ s. s ≡ D.state disk.old) }
    ensures fixed { D.fixed disk.new ≡ D.fixed disk.old }
    ensures cause { HasTreeCause (D.faults disk.old) (D.faults disk.new) result }
{
    let mut block = Block::zero();
    if let Err(DiskFault) = disk.read_block(index, &mut block) {
        return Err(TreeFault::Device);
    }
    match read_index(&block, g) {
        Some(pointers) => Ok(pointers),
        None => {
            // Each block spells numbers, so that this one has a number that is no pointer.
            counts_of_block(&block);
            Err(TreeFault::Damaged(index))
        }
    }
}

/// The inodes behind a pointer of the inode index.
fn read_inode_block<D: Disk>(
    disk: &mut D,
    g: &Geometry,
    at: BlockNo,
) -> Result<[Inode; 64], TreeFault>
    requires size { (layout_of g.now).blocks ≡ (D.fixed disk.old).size }
    requires at { IsPointer (layout_of g.now) at }
    ensures leads { IfOk result (λ inodes. IsTrue D.tells → LeadsTo (blocks_in (D.state disk.old).contents) at inodes) }
    ensures whole { IfOk result (λ inodes. (j : ℕ) → IsWhole (layout_of g.now) (inode_of inodes j)) }
    ensures hole { IfOk result (λ inodes. at ≡ 0 → has_used inodes ≡ false) }
    ensures damaged { (index : ℕ) → (IsTrue D.tells → is_among (index_at (blocks_in (D.state disk.old).contents) index) at ≡ true)
        → IsLoadDamage (layout_of g.now) D.tells (blocks_in (D.state disk.new).contents) index (D.given disk.old) (D.given disk.new) result }
    ensures counted { OnOk result ((D.given disk.old).count ≤ (D.given disk.new).count) }
    ensures same { IsTrue D.tells → D.state disk.new ≡ D.state disk.old }
    ensures moments { IsTrue D.tells → Adds (D.past disk.old) (D.past disk.new) (λ s. s ≡ D.state disk.old) }
    ensures fixed { D.fixed disk.new ≡ D.fixed disk.old }
    ensures cause { HasTreeCause (D.faults disk.old) (D.faults disk.new) result }
{
    if at == 0 {
        return Ok(no_inodes());
    }
    let mut block = Block::zero();
    if let Err(DiskFault) = disk.read_block(at, &mut block) {
        return Err(TreeFault::Device);
    }
    match inodes_in(&block, g) {
        Some(inodes) => Ok(inodes),
        None => Err(TreeFault::Damaged(at)),
    }
}

/// The inodes of all numbers. Each inode block is read once.
pub(crate) fn read_inodes<D: Disk>(
    alloc: Global,
    disk: &mut D,
    g: &Geometry,
    pointers: &Index,
) -> Result<Vec<Inode>, TreeFault>
    requires size { (layout_of g.now).blocks ≡ (D.fixed disk.old).size }
    requires pointers { All (IsPointer (layout_of g.now)) pointers.now.ptrs }
    ensures many { IfOk result (λ inodes. length inodes.items ≡ 65536) }
    ensures leads { IfOk result (λ inodes. IsTrue D.tells → (k : ℕ) → k < 1024 → LeadsTo (blocks_in (D.state disk.old).contents) (slice_index pointers.now.ptrs k) (block_of inodes.items k)) }
    ensures whole { IfOk result (λ inodes. (n : ℕ) → IsWhole (layout_of g.now) (inode_of inodes.items n)) }
    ensures holes { IfOk result (λ inodes. (k : ℕ) → k < 1024 → slice_index pointers.now.ptrs k ≡ 0 → has_used (block_of inodes.items k) ≡ false) }
    ensures damaged { (index : ℕ) → (IsTrue D.tells → index_at (blocks_in (D.state disk.old).contents) index ≡ pointers.now.ptrs)
        → IsLoadDamage (layout_of g.now) D.tells (blocks_in (D.state disk.new).contents) index (D.given disk.old) (D.given disk.new) result }
    ensures counted { OnOk result ((D.given disk.old).count ≤ (D.given disk.new).count) }
    ensures same { IsTrue D.tells → D.state disk.new ≡ D.state disk.old }
    ensures moments { IsTrue D.tells → Adds (D.past disk.old) (D.past disk.new) (λ s. s ≡ D.state disk.old) }
    ensures fixed { D.fixed disk.new ≡ D.fixed disk.old }
    ensures cause { HasTreeCause (D.faults disk.old) (D.faults disk.new) result }
{
    let mut inodes = Vec::with_capacity(alloc, NUMBERS)?;
    for k in 0..1_024 {
        let block = read_inode_block(disk, g, pointers.ptrs[k])?;
        inodes.extend_from_slice(&block)?;
    }
    Ok(inodes)
}
