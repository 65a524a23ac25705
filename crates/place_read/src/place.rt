//! Places as they are now.
ghost use Rattle.std.specs.Prelude.{◌≡◌, ◌≤◌, length, OnOk, IsTrue};
ghost use Rattle.vol_numbers.specs.Geometry.{layout_of};
ghost use Rattle.disk_model.specs.Past.{Adds};
ghost use Rattle.block_tree.specs.Causes.{HasLookCause, IsLookDamage, IfLookDamaged};
ghost use Rattle.block_tree.specs.Tree.{blocks_in};
ghost use Rattle.inode_file.specs.Loading.{IsWithin};
ghost use Rattle.volume_model.specs.Machine.{Machine, Rules, block_at};
ghost use Rattle.place_read.specs.Holding.{HoldsFiles};

use crate::stored::read_stored;
use block_tree::LookFault;
use dirty_store::DirtyStore;
use disk_model::Disk;
use inode_file::InodeFile;
use vol_numbers::{Block, Fbn, Geometry, InoNo};

/// Reads a place of a file as it is now. A place that is dirty has its staged block. One that was cut off since the last point, or had no block
/// then, is all zeros. Every other one has the block that it had then, which is read behind the index blocks that lead to it.
///
/// It takes no memory, and copies one block. After an error `into` may hold anything.
pub fn read_place<D: Disk>(
    disk: &mut D,
    g: &Geometry,
    inodes: &InodeFile,
    dirty: &DirtyStore,
    number: InoNo,
    place: Fbn,
    into: &mut Block,
) -> Result<(), LookFault>
    requires size { (layout_of g.now).blocks ≡ (D.fixed disk.old).size }
    requires within { IsWithin (layout_of g.now) inodes.now }
    requires number { number ≤ 65535 }
    ensures read { OnOk result (IsTrue D.tells → (r : Rules) (m : Machine) → HoldsFiles r m (D.state disk.old).contents inodes.now dirty.now.overlay → into.new.bytes ≡ block_at m.tree (number, place)) }
    ensures damaged { IsLookDamage (layout_of g.now) D.tells (blocks_in (D.state disk.new).contents) (D.given disk.old) (D.given disk.new) result }
    // Over contents that stand for something no block is damaged.
    ensures sound { IsTrue D.tells → (r : Rules) (m : Machine) → HoldsFiles r m (D.state disk.old).contents inodes.now dirty.now.overlay → m.layout ≡ layout_of g.now → IfLookDamaged result (λ b. ⊥) }
    ensures same { IsTrue D.tells → D.state disk.new ≡ D.state disk.old }
    ensures moments { IsTrue D.tells → Adds (D.past disk.old) (D.past disk.new) (λ s. s ≡ D.state disk.old) }
    ensures fixed { D.fixed disk.new ≡ D.fixed disk.old }
    ensures cause { HasLookCause (D.faults disk.old) (D.faults disk.new) result }
{
    if let Some(block) = dirty.block(number, place) {
        *into = *block;
        return Ok(());
    }
    if dirty.cut_to(number) <= place {
        *into = Block::zero();
        return Ok(());
    }
    read_stored(disk, g, &inodes.get(number), place, into)?;
    block_is_whole(into);
    Ok(())
}

/// A block has 4,096 bytes. It does no more than say so of one that a call has filled.
fn block_is_whole(block: &Block)
    ensures { length block.now.bytes ≡ 4096 }
{
    let _last = block.bytes[4_095];
}
