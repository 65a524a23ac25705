//! Places as they were at the last point.
ghost use Rattle.std.specs.Prelude.{◌≡◌, ◌<◌, ◌^◌, true, IfOk, OnOk, IfSome, IsTrue};
ghost use Rattle.vol_numbers.specs.Geometry.{layout_of};
ghost use Rattle.disk_model.specs.Past.{Adds};
ghost use Rattle.block_format.specs.Index.{IsPointer};
ghost use Rattle.place_words.specs.Different.{is_among};
ghost use Rattle.block_tree.specs.Causes.{HasLookCause, IsLookDamage, IfLookDamaged};
ghost use Rattle.block_tree.specs.Root.{IsRoot};
ghost use Rattle.block_tree.specs.Tree.{blocks_in};
ghost use Rattle.inode_file.specs.Loading.{IsWhole};
ghost use Rattle.place_read.specs.Stored.{tree_with, block_of_place, indexes_of_place, bytes_at};

use block_format::{Inode, blocks_of};
use block_tree::{LookFault, TreeRoot, look};
use disk_model::{Disk, DiskFault};
use vol_numbers::{Block, BlockNo, Fbn, Geometry};

/// Reads the block that an inode has at a place, and the index blocks that lead to it. Where there is no block there are zeros.
pub(crate) fn read_stored<D: Disk>(
    disk: &mut D,
    g: &Geometry,
    inode: &Inode,
    place: Fbn,
    into: &mut Block,
) -> Result<(), LookFault>
    requires size { (layout_of g.now).blocks ≡ (D.fixed disk.old).size }
    requires whole { IsWhole (layout_of g.now) inode.now }
    ensures read { OnOk result (IsTrue D.tells → into.new.bytes ≡ bytes_at (blocks_in (D.state disk.old).contents) (block_of_place (blocks_in (D.state disk.old).contents) inode.now place)) }
    ensures damaged { IsLookDamage (layout_of g.now) D.tells (blocks_in (D.state disk.new).contents) (D.given disk.old) (D.given disk.new) result }
    ensures among { IfLookDamaged result (λ b. IsTrue D.tells → is_among (indexes_of_place (blocks_in (D.state disk.old).contents) inode.now place) b ≡ true) }
    ensures same { IsTrue D.tells → D.state disk.new ≡ D.state disk.old }
    ensures moments { IsTrue D.tells → Adds (D.past disk.old) (D.past disk.new) (λ s. s ≡ D.state disk.old) }
    ensures fixed { D.fixed disk.new ≡ D.fixed disk.old }
    ensures cause { HasLookCause (D.faults disk.old) (D.faults disk.new) result }
{
    let at = stored_block(disk, g, inode, place)?;
    read_or_zeros(disk, g, at, into)
}

/// The block that an inode has at a place, 0 where there is none.
fn stored_block<D: Disk>(
    disk: &mut D,
    g: &Geometry,
    inode: &Inode,
    place: Fbn,
) -> Result<BlockNo, LookFault>
    requires size { (layout_of g.now).blocks ≡ (D.fixed disk.old).size }
    requires whole { IsWhole (layout_of g.now) inode.now }
    ensures found { IfOk result (λ block. IsTrue D.tells → block ≡ block_of_place (blocks_in (D.state disk.old).contents) inode.now place) }
    ensures pointer { IfOk result (IsPointer (layout_of g.now)) }
    ensures damaged { IsLookDamage (layout_of g.now) D.tells (blocks_in (D.state disk.new).contents) (D.given disk.old) (D.given disk.new) result }
    ensures among { IfLookDamaged result (λ b. IsTrue D.tells → is_among (indexes_of_place (blocks_in (D.state disk.old).contents) inode.now place) b ≡ true) }
    ensures same { IsTrue D.tells → D.state disk.new ≡ D.state disk.old }
    ensures moments { IsTrue D.tells → Adds (D.past disk.old) (D.past disk.new) (λ s. s ≡ D.state disk.old) }
    ensures fixed { D.fixed disk.new ≡ D.fixed disk.old }
    ensures cause { HasLookCause (D.faults disk.old) (D.faults disk.new) result }
{
    match tree_with(g, inode, place) {
        Some(root) => look(disk, g, &root, place),
        None => Ok(0),
    }
}

/// The tree of blocks in which a file has a place. None from its number of blocks on, and where the inode is of no file.
fn tree_with(g: &Geometry, inode: &Inode, place: Fbn) -> Option<TreeRoot>
    requires { IsWhole (layout_of g.now) inode.now }
    ensures is { result ≡ tree_with inode.now place }
    ensures root { IfSome result (IsRoot (layout_of g.now)) }
    ensures within { IfSome result (λ root. place < 1024 ^ root.height) }
{
    match *inode {
        Inode::File { size, height, ptr } => {
            if u64::from(place) < blocks_of(size) {
                Some(TreeRoot { height, ptr })
            } else {
                None
            }
        }
        _ => None,
    }
}

/// Reads a block, zeros where there is none.
fn read_or_zeros<D: Disk>(
    disk: &mut D,
    g: &Geometry,
    at: BlockNo,
    into: &mut Block,
) -> Result<(), LookFault>
    requires size { (layout_of g.now).blocks ≡ (D.fixed disk.old).size }
    requires at { IsPointer (layout_of g.now) at }
    ensures read { OnOk result (IsTrue D.tells → into.new.bytes ≡ bytes_at (blocks_in (D.state disk.old).contents) at) }
    ensures damaged { IsLookDamage (layout_of g.now) D.tells (blocks_in (D.state disk.new).contents) (D.given disk.old) (D.given disk.new) result }
    ensures none { IfLookDamaged result (λ b. ⊥) }
    ensures same { IsTrue D.tells → D.state disk.new ≡ D.state disk.old }
    ensures moments { IsTrue D.tells → Adds (D.past disk.old) (D.past disk.new) (λ s. s ≡ D.state disk.old) }
    ensures fixed { D.fixed disk.new ≡ D.fixed disk.old }
    ensures cause { HasLookCause (D.faults disk.old) (D.faults disk.new) result }
{
    if at == 0 {
        *into = Block::zero();
        return Ok(());
    }
    match disk.read_block(at, into) {
        Ok(()) => Ok(()),
        Err(DiskFault) => Err(LookFault::Device),
    }
}
