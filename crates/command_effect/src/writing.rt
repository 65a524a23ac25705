//! The places that a write touches.
ghost use Rattle.std.specs.Prelude.{◌≡◌, ◌<◌, ◌≤◌, ◌+◌, ◌*◌, ◌/◌, ◌∷◌, ◌++◌, false, [], IfOk, OnOk, IsTrue, length, take, drop};
ghost use Rattle.vol_numbers.specs.Geometry.{layout_of};
ghost use Rattle.disk_model.specs.Past.{Adds};
ghost use Rattle.block_tree.specs.Causes.{HasLookCause, HasTreeCause, IsLookDamage, IsTreeDamage, IfLookDamaged, IfTreeDamaged};
ghost use Rattle.block_tree.specs.Tree.{blocks_in};
ghost use Rattle.inode_file.specs.Loading.{IsWithin};
ghost use Rattle.volume_model.specs.Machine.{Machine, Rules, block_at};
ghost use Rattle.place_read.specs.Holding.{HoldsFiles};
ghost use Rattle.command_effect.specs.Blocks.{AreFrom, IsWrittenBlock, written_count};

use block_tree::{LookFault, TreeFault};
use dirty_store::{DirtyStore, Touched};
use disk_model::Disk;
use inode_file::InodeFile;
use place_read::read_place;
use std::alloc::{AllocError, Global};
use vol_numbers::{Block, Fbn, Geometry, InoNo};

/// The places in which a write has a byte, each with the block that it has then. A place that the write covers is not read.
pub(crate) fn written_places<D: Disk>(
    alloc: Global,
    disk: &mut D,
    g: &Geometry,
    inodes: &InodeFile,
    dirty: &DirtyStore,
    number: InoNo,
    offset: u64,
    given: &[u8],
) -> Result<Vec<Touched>, TreeFault>
    requires size { (layout_of g.now).blocks ≡ (D.fixed disk.old).size }
    requires within { IsWithin (layout_of g.now) inodes.now }
    requires number { number ≤ 65535 }
    requires largest { offset + length given.now ≤ 4294967296 }
    ensures are { IfOk result (λ touched. AreFrom (IsWrittenBlock D.tells (D.state disk.old).contents inodes.now dirty.now.overlay number offset given.now) (offset / 4096) touched.items) }
    ensures many { IfOk result (λ touched. length touched.items ≡ written_count offset given.now) }
    ensures damaged { IsTreeDamage (layout_of g.now) D.tells (blocks_in (D.state disk.new).contents) (D.given disk.old) (D.given disk.new) result }
    // Over contents that stand for something no block is damaged.
    ensures sound { IsTrue D.tells → (r : Rules) (m : Machine) → HoldsFiles r m (D.state disk.old).contents inodes.now dirty.now.overlay → m.layout ≡ layout_of g.now → IfTreeDamaged result (λ b. ⊥) }
    ensures same { IsTrue D.tells → D.state disk.new ≡ D.state disk.old }
    ensures moments { IsTrue D.tells → Adds (D.past disk.old) (D.past disk.new) (λ s. s ≡ D.state disk.old) }
    ensures fixed { D.fixed disk.new ≡ D.fixed disk.old }
    ensures cause { HasTreeCause (D.faults disk.old) (D.faults disk.new) result }
{
    let mut touched = Vec::new(alloc);
    if !given.is_empty() {
        push_places(disk, g, inodes, dirty, number, offset, given, &mut touched)?;
    }
    Ok(touched)
}

/// Adds the places of a write that has a byte, place by place.
fn push_places<D: Disk>(
    disk: &mut D,
    g: &Geometry,
    inodes: &InodeFile,
    dirty: &DirtyStore,
    number: InoNo,
    offset: u64,
    given: &[u8],
    touched: &mut Vec<Touched>,
) -> Result<(), TreeFault>
    requires size { (layout_of g.now).blocks ≡ (D.fixed disk.old).size }
    requires within { IsWithin (layout_of g.now) inodes.now }
    requires number { number ≤ 65535 }
    requires largest { offset + length given.now ≤ 4294967296 }
    requires some { 0 < length given.now }
    requires empty { touched.old.items ≡ [] }
    ensures are { OnOk result (AreFrom (IsWrittenBlock D.tells (D.state disk.old).contents inodes.now dirty.now.overlay number offset given.now) (offset / 4096) touched.new.items) }
    ensures many { OnOk result (length touched.new.items ≡ written_count offset given.now) }
    ensures damaged { IsTreeDamage (layout_of g.now) D.tells (blocks_in (D.state disk.new).contents) (D.given disk.old) (D.given disk.new) result }
    // Over contents that stand for something no block is damaged.
    ensures sound { IsTrue D.tells → (r : Rules) (m : Machine) → HoldsFiles r m (D.state disk.old).contents inodes.now dirty.now.overlay → m.layout ≡ layout_of g.now → IfTreeDamaged result (λ b. ⊥) }
    ensures same { IsTrue D.tells → D.state disk.new ≡ D.state disk.old }
    ensures moments { IsTrue D.tells → Adds (D.past disk.old) (D.past disk.new) (λ s. s ≡ D.state disk.old) }
    ensures fixed { D.fixed disk.new ≡ D.fixed disk.old }
    ensures cause { HasTreeCause (D.faults disk.old) (D.faults disk.new) result }
{
    let end = offset + given.len() as u64;
    for place in offset / 4_096..end.div_ceil(4_096) {
        let place = place as u32;
        let block = written_block(disk, g, inodes, dirty, number, offset, given, place)?;
        push_touched(touched, place, block)?;
    }
    Ok(())
}

/// The block that a place has after a write.
fn written_block<D: Disk>(
    disk: &mut D,
    g: &Geometry,
    inodes: &InodeFile,
    dirty: &DirtyStore,
    number: InoNo,
    offset: u64,
    given: &[u8],
    place: Fbn,
) -> Result<Block, LookFault>
    requires size { (layout_of g.now).blocks ≡ (D.fixed disk.old).size }
    requires within { IsWithin (layout_of g.now) inodes.now }
    requires number { number ≤ 65535 }
    requires largest { offset + length given.now ≤ 4294967296 }
    requires begins { offset < 4096 * place + 4096 }
    requires reaches { 4096 * place < offset + length given.now }
    ensures is { IfOk result (λ block. IsWrittenBlock D.tells (D.state disk.old).contents inodes.now dirty.now.overlay number offset given.now place block.bytes) }
    ensures damaged { IsLookDamage (layout_of g.now) D.tells (blocks_in (D.state disk.new).contents) (D.given disk.old) (D.given disk.new) result }
    // Over contents that stand for something no block is damaged.
    ensures sound { IsTrue D.tells → (r : Rules) (m : Machine) → HoldsFiles r m (D.state disk.old).contents inodes.now dirty.now.overlay → m.layout ≡ layout_of g.now → IfLookDamaged result (λ b. ⊥) }
    ensures same { IsTrue D.tells → D.state disk.new ≡ D.state disk.old }
    ensures moments { IsTrue D.tells → Adds (D.past disk.old) (D.past disk.new) (λ s. s ≡ D.state disk.old) }
    ensures fixed { D.fixed disk.new ≡ D.fixed disk.old }
    ensures cause { HasLookCause (D.faults disk.old) (D.faults disk.new) result }
{
    let start = 4_096 * u64::from(place);
    let end = offset + given.len() as u64;
    let from = offset.max(start);
    let to = end.min(start + 4_096);
    let is_covered = to - from == 4_096;
    let mut block = old_block(disk, g, inodes, dirty, number, place, is_covered)?;
    let part = &given[(from - offset) as usize..(to - offset) as usize];
    put(part, (from - start) as usize, &mut block);
    Ok(block)
}

/// The block that a place has now, of which nothing is needed where it is going to be covered.
fn old_block<D: Disk>(
    disk: &mut D,
    g: &Geometry,
    inodes: &InodeFile,
    dirty: &DirtyStore,
    number: InoNo,
    place: Fbn,
    is_covered: bool,
) -> Result<Block, LookFault>
    requires size { (layout_of g.now).blocks ≡ (D.fixed disk.old).size }
    requires within { IsWithin (layout_of g.now) inodes.now }
    requires number { number ≤ 65535 }
    ensures whole { IfOk result (λ block. length block.bytes ≡ 4096) }
    ensures read { IfOk result (λ block. is_covered ≡ false → IsTrue D.tells → (r : Rules) (m : Machine) → HoldsFiles r m (D.state disk.old).contents inodes.now dirty.now.overlay → block.bytes ≡ block_at m.tree (number, place)) }
    ensures damaged { IsLookDamage (layout_of g.now) D.tells (blocks_in (D.state disk.new).contents) (D.given disk.old) (D.given disk.new) result }
    // Over contents that stand for something no block is damaged.
    ensures sound { IsTrue D.tells → (r : Rules) (m : Machine) → HoldsFiles r m (D.state disk.old).contents inodes.now dirty.now.overlay → m.layout ≡ layout_of g.now → IfLookDamaged result (λ b. ⊥) }
    ensures same { IsTrue D.tells → D.state disk.new ≡ D.state disk.old }
    ensures moments { IsTrue D.tells → Adds (D.past disk.old) (D.past disk.new) (λ s. s ≡ D.state disk.old) }
    ensures fixed { D.fixed disk.new ≡ D.fixed disk.old }
    ensures cause { HasLookCause (D.faults disk.old) (D.faults disk.new) result }
{
    let mut block = Block::zero();
    if !is_covered {
        read_place(disk, g, inodes, dirty, number, place, &mut block)?;
    }
    block_is_whole(&block);
    Ok(block)
}

/// A block has 4,096 bytes. It does no more than say so.
pub(crate) fn block_is_whole(block: &Block)
    ensures { length block.now.bytes ≡ 4096 }
{
    let _last = block.bytes[4_095];
}

/// Puts some bytes into a block. All other bytes stay.
fn put(part: &[u8], at: usize, block: &mut Block)
    requires { at + length part.now ≤ 4096 }
    ensures { block.new.bytes ≡ take at block.old.bytes ++ part.now ++ drop (at + length part.now) block.old.bytes }
{
    block.bytes[at..at + part.len()].copy_from_slice(part);
}

/// Adds a place with its block.
pub(crate) fn push_touched(
    touched: &mut Vec<Touched>,
    place: Fbn,
    block: Block,
) -> Result<(), AllocError>
    ensures { OnOk result (touched.new.items ≡ touched.old.items ++ record { place = place; block = block } ∷ []) }
{
    touched.push(Touched { place, block })?;
    Ok(())
}
