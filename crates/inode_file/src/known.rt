//! Inodes that are known by number, over the inode index in whose blocks they stand.
ghost use Rattle.std.specs.Prelude.{◌≡◌, ◌≤◌, ◌+◌, ℕ, IfOk, OnOk, IsTrue, ◌↔◌, length};
ghost use Rattle.vol_numbers.specs.Geometry.{layout_of};
ghost use Rattle.disk_model.specs.Past.{Adds};
ghost use Rattle.block_format.specs.Index.{IsInArea, IsPointer};
ghost use Rattle.block_tree.specs.Causes.{HasTreeCause};
ghost use Rattle.block_tree.specs.Tree.{blocks_in, index_at};
ghost use Rattle.inode_file.specs.Inodes.{IsTable, inode_of};
ghost use Rattle.inode_file.specs.Loading.{IsLoadDamage, IsWhole, IsWithin};

use crate::InodeFile;
use crate::loading::read_pointers;
use block_format::Inode;
use block_tree::TreeFault;
use disk_model::Disk;
use std::alloc::Global;
use vol_numbers::{BlockNo, Geometry};

/// Whether an inode is in shape, and points to no block or to one of the area.
pub fn is_whole(inode: &Inode, g: &Geometry) -> bool
    ensures { IsTrue result ↔ IsWhole (layout_of g.now) inode.now }
{
    inode.has_shape() && is_pointer(inode.pointer(), g)
}

/// Whether a number is 0 or that of a block of the area.
fn is_pointer(ptr: BlockNo, g: &Geometry) -> bool
    ensures { IsTrue result ↔ IsPointer (layout_of g.now) ptr }
{
    ptr == 0 || (g.area_start() <= ptr && ptr < g.blocks())
}

impl InodeFile {
    /// The inodes of all numbers, as whoever has read the inode blocks knows them. It reads the inode index alone.
    pub fn of_inodes<D: Disk>(
        alloc: Global,
        disk: &mut D,
        index: BlockNo,
        g: &Geometry,
        inodes: Vec<Inode>,
    ) -> Result<InodeFile, TreeFault>
        requires size { (layout_of g.now).blocks ≡ (D.fixed disk.old).size }
        requires index { IsInArea (layout_of g.now) index }
        requires many { length inodes.items ≡ 65536 }
        requires inodes { (n : ℕ) → IsWhole (layout_of g.now) (inode_of inodes.items n) }
        ensures inodes { IfOk result (λ t. t.inodes ≡ inodes.items) }
        ensures unchanged { IfOk result (λ t. t.inodes ≡ t.stored) }
        ensures pointers { IfOk result (λ t. IsTrue D.tells → index_at (blocks_in (D.state disk.old).contents) index ≡ t.pointers) }
        ensures index { IfOk result (λ t. t.index ≡ index) }
        ensures within { IfOk result (IsWithin (layout_of g.now)) }
        ensures whole { IfOk result IsTable }
        ensures reads { OnOk result ((D.given disk.new).count ≤ (D.given disk.old).count + 1) }
        ensures damaged { IsLoadDamage (layout_of g.now) D.tells (blocks_in (D.state disk.new).contents) index (D.given disk.old) (D.given disk.new) result }
        ensures same { IsTrue D.tells → D.state disk.new ≡ D.state disk.old }
        ensures moments { IsTrue D.tells → Adds (D.past disk.old) (D.past disk.new) (λ s. s ≡ D.state disk.old) }
        ensures fixed { D.fixed disk.new ≡ D.fixed disk.old }
        ensures cause { HasTreeCause (D.faults disk.old) (D.faults disk.new) result }
    {
        let pointers = read_pointers(disk, g, index)?;
        let file = InodeFile::of(alloc, inodes, pointers, index)?;
        Ok(file)
    }
}
