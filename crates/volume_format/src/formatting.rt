//! Makes a volume on a disk.
ghost use Rattle.std.specs.Prelude.{◌≡◌, ◌<◌, ◌≤◌, ◌-◌, ◌+◌, ◌*◌, false, length, IfOk, OnOk, IsTrue};
ghost use Rattle.vol_numbers.specs.Block.{zero_block};
ghost use Rattle.vol_numbers.specs.Cause.{HasCause};
ghost use Rattle.vol_numbers.specs.Layout.{count_blocks, area_start, area_size};
ghost use Rattle.vol_numbers.specs.Geometry.{layout_of};
ghost use Rattle.disk_model.specs.Disk.{EachImage, written, synced, is_among};
ghost use Rattle.disk_model.specs.Past.{Adds};
ghost use Rattle.image_model.specs.Fresh.{fresh_stored};
ghost use Rattle.image_model.specs.Stands.{Stands};
ghost use Rattle.volume_format.specs.Blocks.{root_block};
ghost use Rattle.volume_format.specs.Formatting.{with_counts, with_inodes, with_root, with_selector, IsFormatted, HasSelectorLast, KeepsSelector, WritesRootFirst, IsMomentOfFormat};

use crate::fresh::{count_block, index_block, inode_block, root_block};
use disk_model::{Disk, DiskFault, write_through};
use image_model::fresh_stands;
use vol_numbers::{Block, Geometry};

/// Makes a volume whose tree is the empty root directory, and answers how many blocks are free. It takes no memory. Of a format that was
/// stopped nothing is promised.
pub fn format<D: Disk>(disk: &mut D, g: &Geometry) -> Result<u32, DiskFault>
    requires { (D.fixed disk.old).size ≡ (layout_of g.now).blocks }
    ensures free { IfOk result (λ free. free ≡ area_size (layout_of g.now) - 2) }
    ensures formatted { OnOk result (IsTrue D.tells → IsFormatted (layout_of g.now) (D.state disk.new)) }
    // What it leaves stands for the root directory alone.
    ensures stands { OnOk result (IsTrue D.tells → Stands (D.state disk.new).contents (fresh_stored (layout_of g.now))) }
    // At each moment the disk has its blocks. Before the end none of what they hold is promised.
    ensures moments { IsTrue D.tells → Adds (D.past disk.old) (D.past disk.new) (λ s. length s.contents ≡ (layout_of g.now).blocks) }
    // Where the selector was synced, each image with another one has all else of a fresh volume at each moment.
    ensures order { IsTrue D.tells → is_among (D.state disk.old).unsynced 0 ≡ false
        → Adds (D.past disk.old) (D.past disk.new) (EachImage (HasSelectorLast (layout_of g.now) (D.state disk.old).contents)) }
    ensures fixed { D.fixed disk.new ≡ D.fixed disk.old }
    ensures cause { HasCause (D.faults disk.old) (D.faults disk.new) result }
{
    write_volume(disk, g)?;
    fresh_stands();
    Ok(g.area_size() - 2)
}

/// Writes all that a fresh volume has.
fn write_volume<D: Disk>(disk: &mut D, g: &Geometry) -> Result<(), DiskFault>
    requires { (D.fixed disk.old).size ≡ (layout_of g.now).blocks }
    ensures formatted { OnOk result (IsTrue D.tells → IsFormatted (layout_of g.now) (D.state disk.new)) }
    ensures moments { IsTrue D.tells → Adds (D.past disk.old) (D.past disk.new) (IsMomentOfFormat (layout_of g.now) (D.state disk.old)) }
    ensures fixed { D.fixed disk.new ≡ D.fixed disk.old }
    ensures cause { HasCause (D.faults disk.old) (D.faults disk.new) result }
{
    write_counts(disk, g)?;
    write_inodes(disk, g)?;
    write_named(disk, &root_block(g))
}

/// Writes the count blocks into their first homes.
fn write_counts<D: Disk>(disk: &mut D, g: &Geometry) -> Result<(), DiskFault>
    requires { (D.fixed disk.old).size ≡ (layout_of g.now).blocks }
    ensures written { OnOk result (IsTrue D.tells → D.state disk.new ≡ with_counts (layout_of g.now) (count_blocks (layout_of g.now)) (D.state disk.old)) }
    ensures moments { IsTrue D.tells → Adds (D.past disk.old) (D.past disk.new) (KeepsSelector (D.state disk.old)) }
    ensures fixed { D.fixed disk.new ≡ D.fixed disk.old }
    ensures cause { HasCause (D.faults disk.old) (D.faults disk.new) result }
{
    for i in 0..g.count_blocks() {
        disk.write_block(3 + 2 * i, &count_block(g, i))?;
    }
    Ok(())
}

/// Writes the inode block and the inode index.
fn write_inodes<D: Disk>(disk: &mut D, g: &Geometry) -> Result<(), DiskFault>
    requires { (D.fixed disk.old).size ≡ (layout_of g.now).blocks }
    ensures written { OnOk result (IsTrue D.tells → D.state disk.new ≡ with_inodes (layout_of g.now) (D.state disk.old)) }
    ensures moments { IsTrue D.tells → Adds (D.past disk.old) (D.past disk.new) (KeepsSelector (D.state disk.old)) }
    ensures fixed { D.fixed disk.new ≡ D.fixed disk.old }
    ensures cause { HasCause (D.faults disk.old) (D.faults disk.new) result }
{
    disk.write_block(g.area_start(), &inode_block())?;
    disk.write_block(g.area_start() + 1, &index_block(g))
}

/// Writes the root, and then the selector that names it.
#[tactic(auto, using(crate::proofs::FormatLemmas::adds_root, crate::proofs::FormatLemmas::adds_selector))]
fn write_named<D: Disk>(disk: &mut D, root: &Block) -> Result<(), DiskFault>
    requires { 1 < (D.fixed disk.old).size }
    ensures written { OnOk result (IsTrue D.tells → D.state disk.new ≡ synced (written 0 zero_block (synced (written 1 root.now (D.state disk.old))))) }
    ensures order { IsTrue D.tells → Adds (D.past disk.old) (D.past disk.new) (WritesRootFirst root.now (D.state disk.old)) }
    ensures fixed { D.fixed disk.new ≡ D.fixed disk.old }
    ensures cause { HasCause (D.faults disk.old) (D.faults disk.new) result }
{
    // All else has to be on the disk before the selector names the root.
    write_through(disk, 1, root)?;
    write_through(disk, 0, &Block::zero())?;
    Ok(())
}
