//! The place that a truncation cuts in two.
ghost use Rattle.std.specs.Prelude.{◌≡◌, ◌<◌, ◌≤◌, ◌-◌, ◌/◌, ◌++◌, IfOk, IsTrue, length, take, replicate};
ghost use Rattle.vol_numbers.specs.Geometry.{layout_of};
ghost use Rattle.disk_model.specs.Past.{Adds};
ghost use Rattle.block_tree.specs.Causes.{HasLookCause, HasTreeCause, IsLookDamage, IsTreeDamage, IfLookDamaged, IfTreeDamaged};
ghost use Rattle.block_tree.specs.Tree.{blocks_in};
ghost use Rattle.inode_file.specs.Loading.{IsWithin};
ghost use Rattle.volume_model.specs.Machine.{Machine, Rules};
ghost use Rattle.place_read.specs.Holding.{HoldsFiles};
ghost use Rattle.command_effect.specs.Blocks.{AreFrom, IsCutBlock, cut_count};

use crate::writing::{block_is_whole, push_touched};
use block_tree::{LookFault, TreeFault};
use dirty_store::{DirtyStore, Touched};
use disk_model::Disk;
use inode_file::InodeFile;
use place_read::read_place;
use std::alloc::Global;
use vol_numbers::{Block, Geometry, InoNo};

/// The place that a truncation to a smaller size cuts in two, if it does, with the block that it has then.
pub(crate) fn cut_places<D: Disk>(
    alloc: Global,
    disk: &mut D,
    g: &Geometry,
    inodes: &InodeFile,
    dirty: &DirtyStore,
    number: InoNo,
    before: u64,
    size: u64,
) -> Result<Vec<Touched>, TreeFault>
    requires size { (layout_of g.now).blocks ≡ (D.fixed disk.old).size }
    requires within { IsWithin (layout_of g.now) inodes.now }
    requires number { number ≤ 65535 }
    requires largest { size ≤ 4294967296 }
    ensures are { IfOk result (λ touched. AreFrom (IsCutBlock D.tells (D.state disk.old).contents inodes.now dirty.now.overlay number size) (size / 4096) touched.items) }
    ensures many { IfOk result (λ touched. length touched.items ≡ cut_count before size) }
    ensures damaged { IsTreeDamage (layout_of g.now) D.tells (blocks_in (D.state disk.new).contents) (D.given disk.old) (D.given disk.new) result }
    // Over contents that stand for something no block is damaged.
    ensures sound { IsTrue D.tells → (r : Rules) (m : Machine) → HoldsFiles r m (D.state disk.old).contents inodes.now dirty.now.overlay → m.layout ≡ layout_of g.now → IfTreeDamaged result (λ b. ⊥) }
    ensures same { IsTrue D.tells → D.state disk.new ≡ D.state disk.old }
    ensures moments { IsTrue D.tells → Adds (D.past disk.old) (D.past disk.new) (λ s. s ≡ D.state disk.old) }
    ensures fixed { D.fixed disk.new ≡ D.fixed disk.old }
    ensures cause { HasTreeCause (D.faults disk.old) (D.faults disk.new) result }
{
    let mut touched = Vec::new(alloc);
    if size < before && size % 4_096 != 0 {
        let block = cut_block(disk, g, inodes, dirty, number, size)?;
        let place = (size / 4_096) as u32;
        push_touched(&mut touched, place, block)?;
    }
    Ok(touched)
}

/// The block that the place of the new end has after a truncation.
fn cut_block<D: Disk>(
    disk: &mut D,
    g: &Geometry,
    inodes: &InodeFile,
    dirty: &DirtyStore,
    number: InoNo,
    size: u64,
) -> Result<Block, LookFault>
    requires size { (layout_of g.now).blocks ≡ (D.fixed disk.old).size }
    requires within { IsWithin (layout_of g.now) inodes.now }
    requires number { number ≤ 65535 }
    requires largest { size ≤ 4294967296 }
    ensures is { IfOk result (λ block. IsCutBlock D.tells (D.state disk.old).contents inodes.now dirty.now.overlay number size (size / 4096) block.bytes) }
    ensures damaged { IsLookDamage (layout_of g.now) D.tells (blocks_in (D.state disk.new).contents) (D.given disk.old) (D.given disk.new) result }
    // Over contents that stand for something no block is damaged.
    ensures sound { IsTrue D.tells → (r : Rules) (m : Machine) → HoldsFiles r m (D.state disk.old).contents inodes.now dirty.now.overlay → m.layout ≡ layout_of g.now → IfLookDamaged result (λ b. ⊥) }
    ensures same { IsTrue D.tells → D.state disk.new ≡ D.state disk.old }
    ensures moments { IsTrue D.tells → Adds (D.past disk.old) (D.past disk.new) (λ s. s ≡ D.state disk.old) }
    ensures fixed { D.fixed disk.new ≡ D.fixed disk.old }
    ensures cause { HasLookCause (D.faults disk.old) (D.faults disk.new) result }
{
    let mut block = Block::zero();
    let place = (size / 4_096) as u32;
    read_place(disk, g, inodes, dirty, number, place, &mut block)?;
    zero_from(&mut block, (size % 4_096) as usize);
    block_is_whole(&block);
    Ok(block)
}

/// Has zeros in a block from a byte on.
fn zero_from(block: &mut Block, at: usize)
    requires { at < 4096 }
    ensures { block.new.bytes ≡ take at block.old.bytes ++ replicate (4096 - at) 0 }
{
    block.bytes[at..].fill(0);
}
