//! Reads blocks that were reached.
ghost use Rattle.std.specs.Prelude.{◌≡◌, ◌≤◌, ◌+◌, IfOk, OnOk, IsTrue};
ghost use Rattle.vol_numbers.specs.Geometry.{layout_of};
ghost use Rattle.disk_model.specs.Past.{Adds};
ghost use Rattle.block_format.specs.Index.{IsInArea};
ghost use Rattle.block_tree.specs.Tree.{blocks_in, index_at};
ghost use Rattle.vol_numbers.specs.Cause.{HasCause};

use block_format::read_counts;
use disk_model::{Disk, DiskFault};
use vol_numbers::{Block, BlockNo, Geometry};

/// A block of the area.
pub(crate) fn read_block<D: Disk>(
    disk: &mut D,
    g: &Geometry,
    at: BlockNo,
) -> Result<Block, DiskFault>
    requires size { (layout_of g.now).blocks ≡ (D.fixed disk.old).size }
    requires at { IsInArea (layout_of g.now) at }
    ensures bytes { IfOk result (λ block. IsTrue D.tells → blocks_in (D.state disk.old).contents at ≡ block.bytes) }
    ensures same { IsTrue D.tells → D.state disk.new ≡ D.state disk.old }
    ensures moments { IsTrue D.tells → Adds (D.past disk.old) (D.past disk.new) (λ s. s ≡ D.state disk.old) }
    ensures fixed { D.fixed disk.new ≡ D.fixed disk.old }
    ensures reads { OnOk result ((D.given disk.new).count ≤ (D.given disk.old).count + 1) }
    ensures cause { HasCause (D.faults disk.old) (D.faults disk.new) result }
{
    let mut block = Block::zero();
    disk.read_block(at, &mut block)?;
    Ok(block)
}

/// The pointers of an index block, wherever they lead.
pub(crate) fn read_pointers<D: Disk>(
    disk: &mut D,
    g: &Geometry,
    at: BlockNo,
) -> Result<[BlockNo; 1024], DiskFault>
    requires size { (layout_of g.now).blocks ≡ (D.fixed disk.old).size }
    requires at { IsInArea (layout_of g.now) at }
    ensures pointers { IfOk result (λ ptrs. IsTrue D.tells → index_at (blocks_in (D.state disk.old).contents) at ≡ ptrs) }
    ensures same { IsTrue D.tells → D.state disk.new ≡ D.state disk.old }
    ensures moments { IsTrue D.tells → Adds (D.past disk.old) (D.past disk.new) (λ s. s ≡ D.state disk.old) }
    ensures fixed { D.fixed disk.new ≡ D.fixed disk.old }
    ensures reads { OnOk result ((D.given disk.new).count ≤ (D.given disk.old).count + 1) }
    ensures cause { HasCause (D.faults disk.old) (D.faults disk.new) result }
{
    let block = read_block(disk, g, at)?;
    // Pointers stand in a block as counts do: 1,024 numbers in a row.
    Ok(read_counts(&block))
}
