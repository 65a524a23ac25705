//! Mounts a volume.
ghost use Rattle.std.specs.Prelude.{◌≡◌, ◌<◌, ◌↔◌, [], false, slice_get, Some, IfOk, OnOk, IsTrue};
ghost use Rattle.vol_numbers.specs.Cause.{HasCause};
ghost use Rattle.vol_numbers.specs.Geometry.{layout_of};
ghost use Rattle.disk_model.specs.Disk.{DuringSync, synced};
ghost use Rattle.disk_model.specs.Past.{Adds};
ghost use Rattle.block_format.specs.Root.{root_of, HasGeometry};
ghost use Rattle.root_switch.specs.Current.{root_of_image};
ghost use Rattle.log_volume.specs.Finding.{Finds};
ghost use Rattle.log_volume.specs.Fits.{Fits};
ghost use Rattle.log_volume.specs.Image.{IsBuilt};
ghost use Rattle.log_volume.specs.Mounting.{OnFound, HasMountCause, HasFreshFields, HasCounts, HasInodes, HasBuilt};

use crate::replaying::read_tree;
use crate::{Finding, LogVolume};
use block_format::{HomeBits, RootBody};
use disk_model::{Disk, DiskFault};
use root_switch::{Current, RootFault, read_current};
use std::alloc::Global;
use thiserror::Error;
use vol_numbers::{Block, BlockNo, Geometry};
use volume_format::{count_block, index_block, inode_block};

/// Why no volume was mounted.
#[derive(Clone, Copy, Debug, PartialEq, Eq, Error)]
pub enum MountFault {
    #[error("the disk stands for no volume")]
    Found(Finding),
    #[error("the disk failed")]
    Device,
    #[error("memory is wanting")]
    OutOfMemory,
}

/// Mounts the volume on a disk: syncs it, reads its root, what a format wrote, and its log, and does the commands of the log on a new tree.
///
/// # Errors
///
/// What is found in a disk that stands for nothing, a fault of the disk, or want of memory. The contents are as they were.
pub fn mount<D: Disk>(alloc: Global, disk: &mut D) -> Result<LogVolume, MountFault>
    ensures fits { IfOk result (λ volume. IsTrue D.tells → Fits volume (D.state disk.new)) }
    ensures size { IfOk result (λ volume. volume.root.layout.blocks ≡ (D.fixed disk.new).size) }
    ensures sound { IfOk result (λ volume. volume.is_failed ≡ false) }
    ensures synced { OnOk result (IsTrue D.tells → D.state disk.new ≡ synced (D.state disk.old)) }
    ensures found { OnFound result (λ finding. IsTrue D.tells → Finds (D.state disk.old).contents finding) }
    ensures same { IsTrue D.tells → DuringSync (D.state disk.old) (D.state disk.new) }
    ensures moments { IsTrue D.tells → Adds (D.past disk.old) (D.past disk.new) (DuringSync (D.state disk.old)) }
    ensures fixed { D.fixed disk.new ≡ D.fixed disk.old }
    ensures cause { HasMountCause (D.faults disk.old) (D.faults disk.new) result }
{
    if disk.sync().is_err() {
        return Err(MountFault::Device);
    }
    read_volume(alloc, disk)
}

/// Mounts the volume on a disk that is synced.
fn read_volume<D: Disk>(alloc: Global, disk: &mut D) -> Result<LogVolume, MountFault>
    requires closed { IsTrue D.tells → (D.state disk.old).unsynced ≡ [] }
    ensures fits { IfOk result (λ volume. IsTrue D.tells → Fits volume (D.state disk.new)) }
    ensures size { IfOk result (λ volume. volume.root.layout.blocks ≡ (D.fixed disk.new).size) }
    ensures sound { IfOk result (λ volume. volume.is_failed ≡ false) }
    ensures found { OnFound result (λ finding. IsTrue D.tells → Finds (D.state disk.old).contents finding) }
    ensures same { IsTrue D.tells → D.state disk.new ≡ D.state disk.old }
    ensures moments { IsTrue D.tells → Adds (D.past disk.old) (D.past disk.new) (λ s. s ≡ D.state disk.old) }
    ensures fixed { D.fixed disk.new ≡ D.fixed disk.old }
    ensures cause { HasMountCause (D.faults disk.old) (D.faults disk.new) result }
{
    let current = read_built(disk)?;
    let tree = read_tree(alloc, disk, &current.body)?;
    Ok(LogVolume::new(current, tree))
}

/// The current root, if all that a format wrote stands there.
fn read_built<D: Disk>(disk: &mut D) -> Result<Current, MountFault>
    ensures built { IfOk result (λ current. IsTrue D.tells → HasBuilt current (D.state disk.old).contents) }
    ensures slot { IfOk result (λ current. current.slot < 2) }
    ensures grammar { IfOk result (λ current. HasGeometry (root_of current.body)) }
    ensures size { IfOk result (λ current. (root_of current.body).layout.blocks ≡ (D.fixed disk.old).size) }
    ensures found { OnFound result (λ finding. IsTrue D.tells → Finds (D.state disk.old).contents finding) }
    ensures same { IsTrue D.tells → D.state disk.new ≡ D.state disk.old }
    ensures moments { IsTrue D.tells → Adds (D.past disk.old) (D.past disk.new) (λ s. s ≡ D.state disk.old) }
    ensures fixed { D.fixed disk.new ≡ D.fixed disk.old }
    ensures cause { HasMountCause (D.faults disk.old) (D.faults disk.new) result }
{
    let current = match read_current(disk) {
        Ok(current) => current,
        Err(RootFault::Device) => return Err(MountFault::Device),
        Err(RootFault::NoRoot) => return Err(MountFault::Found(Finding::NoRoot)),
        Err(RootFault::BadGeometry) => return Err(MountFault::Found(Finding::BadGeometry)),
    };
    match is_built(disk, &current.body) {
        Ok(true) => Ok(current),
        Ok(false) => Err(MountFault::Found(Finding::Unbuilt)),
        Err(DiskFault) => Err(MountFault::Device),
    }
}

/// Whether all that a format wrote stands there, where this is the current root.
fn is_built<D: Disk>(disk: &mut D, body: &RootBody) -> Result<bool, DiskFault>
    requires size { (D.fixed disk.old).size ≡ (root_of body.now).layout.blocks }
    ensures is { IfOk result (λ is. IsTrue D.tells → root_of_image (D.state disk.old).contents ≡ root_of body.now → IsTrue is ↔ IsBuilt (D.state disk.old).contents) }
    ensures same { IsTrue D.tells → D.state disk.new ≡ D.state disk.old }
    ensures moments { IsTrue D.tells → Adds (D.past disk.old) (D.past disk.new) (λ s. s ≡ D.state disk.old) }
    ensures fixed { D.fixed disk.new ≡ D.fixed disk.old }
    ensures cause { HasCause (D.faults disk.old) (D.faults disk.new) result }
{
    if !has_fresh_fields(body) || !are_counts(disk, &body.geometry)? {
        return Ok(false);
    }
    are_inodes(disk, &body.geometry)
}

/// Whether a root's fields but those of the log are as a format writes them.
fn has_fresh_fields(body: &RootBody) -> bool
    ensures { IsTrue result ↔ HasFreshFields (root_of body.now) }
{
    body.point == 0
        && body.inode_index == body.geometry.area_start() + 1
        && body.homes == HomeBits::zero()
}

/// Whether the count blocks in their first homes are as a format writes them.
fn are_counts<D: Disk>(disk: &mut D, g: &Geometry) -> Result<bool, DiskFault>
    requires { (D.fixed disk.old).size ≡ (layout_of g.now).blocks }
    ensures are { IfOk result (λ are. IsTrue D.tells → IsTrue are ↔ HasCounts (layout_of g.now) (D.state disk.old).contents) }
    ensures same { IsTrue D.tells → D.state disk.new ≡ D.state disk.old }
    ensures moments { IsTrue D.tells → Adds (D.past disk.old) (D.past disk.new) (λ s. s ≡ D.state disk.old) }
    ensures fixed { D.fixed disk.new ≡ D.fixed disk.old }
    ensures cause { HasCause (D.faults disk.old) (D.faults disk.new) result }
{
    for i in 0..g.count_blocks() {
        if !is_block(disk, 3 + 2 * i, &count_block(g, i))? {
            return Ok(false);
        }
    }
    Ok(true)
}

/// Whether the inode block and the inode index are as a format writes them.
fn are_inodes<D: Disk>(disk: &mut D, g: &Geometry) -> Result<bool, DiskFault>
    requires { (D.fixed disk.old).size ≡ (layout_of g.now).blocks }
    ensures are { IfOk result (λ are. IsTrue D.tells → IsTrue are ↔ HasInodes (layout_of g.now) (D.state disk.old).contents) }
    ensures same { IsTrue D.tells → D.state disk.new ≡ D.state disk.old }
    ensures moments { IsTrue D.tells → Adds (D.past disk.old) (D.past disk.new) (λ s. s ≡ D.state disk.old) }
    ensures fixed { D.fixed disk.new ≡ D.fixed disk.old }
    ensures cause { HasCause (D.faults disk.old) (D.faults disk.new) result }
{
    if !is_block(disk, g.area_start(), &inode_block())? {
        return Ok(false);
    }
    is_block(disk, g.area_start() + 1, &index_block(g))
}

/// Whether this block stands there.
fn is_block<D: Disk>(disk: &mut D, at: BlockNo, block: &Block) -> Result<bool, DiskFault>
    requires { at < (D.fixed disk.old).size }
    ensures is { IfOk result (λ is. IsTrue D.tells → IsTrue is ↔ (slice_get (D.state disk.old).contents at ≡ Some block.now)) }
    ensures same { IsTrue D.tells → D.state disk.new ≡ D.state disk.old }
    ensures moments { IsTrue D.tells → Adds (D.past disk.old) (D.past disk.new) (λ s. s ≡ D.state disk.old) }
    ensures fixed { D.fixed disk.new ≡ D.fixed disk.old }
    ensures cause { HasCause (D.faults disk.old) (D.faults disk.new) result }
{
    let mut found = Block::zero();
    disk.read_block(at, &mut found)?;
    Ok(found == *block)
}
