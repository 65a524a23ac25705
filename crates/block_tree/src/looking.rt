//! Looks up a place.
ghost use Rattle.std.specs.Prelude.{◌≡◌, ◌<◌, ◌≤◌, ◌^◌, ℕ, true, [], All, IfOk, IsErrOf, IsTrue, slice_index, replicate};
ghost use Rattle.vol_numbers.specs.Geometry.{layout_of};
ghost use Rattle.disk_model.specs.Past.{Adds};
ghost use Rattle.block_format.specs.Index.{IsPointer};
ghost use Rattle.place_words.specs.Different.{is_among};
ghost use Rattle.block_tree.specs.Tree.{blocks_in, index_at, nonzero};
ghost use Rattle.block_tree.specs.Root.{block_at, tree_indexes, IsRoot};
ghost use Rattle.block_tree.specs.Parts.{SameEntries};
ghost use Rattle.block_tree.specs.Causes.{HasLookCause, IsLookDamage, IfLookDamaged, IsBlockOf};
ghost use Rattle.block_tree.specs.declared.fault.LookFault.TheVariants.{Damaged};

use crate::{LookFault, TreeRoot};
use block_format::{Index, counts_of_block, read_index};
use disk_model::{Disk, DiskFault};
use vol_numbers::{Block, BlockNo, Fbn, Geometry};

/// The block of a place, 0 where there is a hole. It takes no memory.
pub fn look<D: Disk>(
    disk: &mut D,
    g: &Geometry,
    root: &TreeRoot,
    place: Fbn,
) -> Result<BlockNo, LookFault>
    requires size { (layout_of g.now).blocks ≡ (D.fixed disk.old).size }
    requires root { IsRoot (layout_of g.now) root.now }
    requires place { place < 1024 ^ root.now.height }
    ensures found { IfOk result (λ block. IsTrue D.tells → block ≡ block_at (blocks_in (D.state disk.old).contents) root.now place) }
    ensures pointer { IfOk result (IsPointer (layout_of g.now)) }
    ensures damaged { IsLookDamage (layout_of g.now) D.tells (blocks_in (D.state disk.new).contents) (D.given disk.old) (D.given disk.new) result }
    // A damaged block is one of the tree's index blocks.
    ensures among { (b : ℕ) → IsErrOf result (Damaged b) → IsTrue D.tells → is_among (tree_indexes (blocks_in (D.state disk.old).contents) root.now) b ≡ true }
    ensures same { IsTrue D.tells → D.state disk.new ≡ D.state disk.old }
    ensures moments { IsTrue D.tells → Adds (D.past disk.old) (D.past disk.new) (λ s. s ≡ D.state disk.old) }
    ensures fixed { D.fixed disk.new ≡ D.fixed disk.old }
    ensures cause { HasLookCause (D.faults disk.old) (D.faults disk.new) result }
{
    if root.height == 0 {
        return Ok(root.ptr);
    }
    if root.height == 1 {
        return entry(disk, g, root.ptr, place);
    }
    let leaf = entry(disk, g, root.ptr, place / 1_024)?;
    entry(disk, g, leaf, place % 1_024)
}

/// An entry of an index block, 0 where there is no block.
fn entry<D: Disk>(disk: &mut D, g: &Geometry, at: BlockNo, i: u32) -> Result<BlockNo, LookFault>
    requires size { (layout_of g.now).blocks ≡ (D.fixed disk.old).size }
    requires at { IsPointer (layout_of g.now) at }
    requires i { i < 1024 }
    ensures found { IfOk result (λ block. IsTrue D.tells → block ≡ slice_index (index_at (blocks_in (D.state disk.old).contents) at) i) }
    ensures pointer { IfOk result (IsPointer (layout_of g.now)) }
    ensures damaged { IsLookDamage (layout_of g.now) D.tells (blocks_in (D.state disk.new).contents) (D.given disk.old) (D.given disk.new) result }
    ensures read { IfLookDamaged result (IsBlockOf at) }
    ensures same { IsTrue D.tells → D.state disk.new ≡ D.state disk.old }
    ensures moments { IsTrue D.tells → Adds (D.past disk.old) (D.past disk.new) (λ s. s ≡ D.state disk.old) }
    ensures fixed { D.fixed disk.new ≡ D.fixed disk.old }
    ensures cause { HasLookCause (D.faults disk.old) (D.faults disk.new) result }
{
    let index = entries(disk, g, at)?;
    Ok(index.ptrs[i as usize])
}

/// The pointers of an index block, zeros where there is no block.
pub(crate) fn entries<D: Disk>(disk: &mut D, g: &Geometry, at: BlockNo) -> Result<Index, LookFault>
    requires size { (layout_of g.now).blocks ≡ (D.fixed disk.old).size }
    requires at { IsPointer (layout_of g.now) at }
    ensures entries { IfOk result (λ index. IsTrue D.tells → SameEntries (index_at (blocks_in (D.state disk.old).contents) at) index.ptrs) }
    ensures pointers { IfOk result (λ index. All (IsPointer (layout_of g.now)) index.ptrs) }
    ensures hole { IfOk result (λ index. at ≡ 0 → nonzero index.ptrs ≡ []) }
    ensures damaged { IsLookDamage (layout_of g.now) D.tells (blocks_in (D.state disk.new).contents) (D.given disk.old) (D.given disk.new) result }
    ensures read { IfLookDamaged result (IsBlockOf at) }
    ensures same { IsTrue D.tells → D.state disk.new ≡ D.state disk.old }
    ensures moments { IsTrue D.tells → Adds (D.past disk.old) (D.past disk.new) (λ s. s ≡ D.state disk.old) }
    ensures fixed { D.fixed disk.new ≡ D.fixed disk.old }
    ensures cause { HasLookCause (D.faults disk.old) (D.faults disk.new) result }
{
    if at == 0 {
        return Ok(no_pointers());
    }
    let mut block = Block::zero();
    if let Err(DiskFault) = disk.read_block(at, &mut block) {
        return Err(LookFault::Device);
    }
    match read_index(&block, g) {
        Some(index) => Ok(index),
        None => {
            // Each block spells numbers, so that this one has a number that is no pointer.
            counts_of_block(&block);
            Err(LookFault::Damaged(at))
        }
    }
}

/// The pointers of a block that isn't there.
pub(crate) fn no_pointers() -> Index
    ensures { result.ptrs ≡ replicate 1024 0 }
{
    Index { ptrs: [0; 1024] }
}
