//! Reads the current root.
ghost use Rattle.std.specs.Prelude.{◌≡◌, ◌<◌, ◌≤◌, ◌+◌, IfOk, IfSome, IsErrOf, IsTrue, slice_get};
ghost use Rattle.vol_numbers.specs.Cause.{HasCause, raised};
ghost use Rattle.disk_model.specs.Past.{Adds};
ghost use Rattle.block_format.specs.Root.{root_of, root_in, HasShape, HasGeometry, SpellsRoot};
ghost use Rattle.root_switch.specs.Current.{current_slot, root_of_image, HasRoot, FitsImage};
ghost use Rattle.root_switch.specs.declared.reading.RootFault.TheVariants.{Device, NoRoot, BadGeometry};

use block_format::{RootBody, RootShape, read_root};
use disk_model::{Disk, DiskFault};
use thiserror::Error;
use vol_numbers::Block;

/// The current slot, 0 or 1, and the root that it has.
#[derive(Clone, Copy, Debug, PartialEq, Eq)]
pub struct Current {
    pub slot: u32,
    pub body: RootBody,
}

/// Why there is no current root.
#[derive(Clone, Copy, Debug, PartialEq, Eq, Error)]
pub enum RootFault {
    #[error("the disk failed")]
    Device,
    #[error("the current slot has no root")]
    NoRoot,
    #[error("the root's numbers are outside their limits")]
    BadGeometry,
}

/// Reads the current root. It changes nothing and takes no memory.
pub fn read_current<D: Disk>(disk: &mut D) -> Result<Current, RootFault>
    // On a disk that tells its contents each answer but `Device` comes exactly where it is so.
    ensures root { IfOk result (λ c. IsTrue D.tells → HasRoot (D.state disk.old).contents × FitsImage (D.state disk.old).contents
        × (c.slot ≡ current_slot (D.state disk.old).contents) × (root_of c.body ≡ root_of_image (D.state disk.old).contents)) }
    ensures no_root { IsErrOf result NoRoot → IsTrue D.tells → HasRoot (D.state disk.old).contents → ⊥ }
    ensures bad_geometry { IsErrOf result BadGeometry → IsTrue D.tells → HasRoot (D.state disk.old).contents × (FitsImage (D.state disk.old).contents → ⊥) }
    ensures device { IsErrOf result Device → D.faults disk.new ≡ raised (D.faults disk.old) }
    ensures kept { ¬ IsErrOf result Device → D.faults disk.new ≡ D.faults disk.old }

    // On every disk the root is within its rules and of as many blocks as there are.
    ensures slot { IfOk result (λ c. c.slot < 2) }
    ensures grammar { IfOk result (λ c. HasGeometry (root_of c.body)) }
    ensures size { IfOk result (λ c. (root_of c.body).layout.blocks ≡ (D.fixed disk.old).size) }
    ensures reads { IfOk result (λ c. (D.given disk.new).count ≤ (D.given disk.old).count + 2) }

    ensures same { IsTrue D.tells → D.state disk.new ≡ D.state disk.old }
    ensures moments { IsTrue D.tells → Adds (D.past disk.old) (D.past disk.new) (λ s. s ≡ D.state disk.old) }
    ensures fixed { D.fixed disk.new ≡ D.fixed disk.old }
{
    if disk.blocks() < 3 {
        return Err(RootFault::NoRoot);
    }
    let slot = match named_slot(disk) {
        Ok(slot) => slot,
        Err(DiskFault) => return Err(RootFault::Device),
    };
    let body = read_slot(disk, slot)?;
    if body.geometry.blocks() != disk.blocks() {
        return Err(RootFault::BadGeometry);
    }
    Ok(Current { slot, body })
}

/// The slot that the selector names.
fn named_slot<D: Disk>(disk: &mut D) -> Result<u32, DiskFault>
    requires { 3 ≤ (D.fixed disk.old).size }
    ensures slot { IfOk result (λ slot. slot < 2) }
    ensures current { IfOk result (λ slot. IsTrue D.tells → slot ≡ current_slot (D.state disk.old).contents) }
    ensures reads { IfOk result (λ slot. (D.given disk.new).count ≤ (D.given disk.old).count + 1) }
    ensures same { IsTrue D.tells → D.state disk.new ≡ D.state disk.old }
    ensures moments { IsTrue D.tells → Adds (D.past disk.old) (D.past disk.new) (λ s. s ≡ D.state disk.old) }
    ensures fixed { D.fixed disk.new ≡ D.fixed disk.old }
    ensures cause { HasCause (D.faults disk.old) (D.faults disk.new) result }
{
    let mut selector = Block::zero();
    disk.read_block(0, &mut selector)?;
    Ok(u32::from(selector.bytes[0] % 2))
}

/// The root in a slot.
fn read_slot<D: Disk>(disk: &mut D, slot: u32) -> Result<RootBody, RootFault>
    requires slot { slot < 2 }
    requires room { 3 ≤ (D.fixed disk.old).size }
    ensures spelled { IfOk result (λ body. IsTrue D.tells → IfSome (slice_get (D.state disk.old).contents (1 + slot)) (λ block. SpellsRoot body block)) }
    ensures fields { IfOk result (λ body. IsTrue D.tells → IfSome (slice_get (D.state disk.old).contents (1 + slot)) (λ block. root_of body ≡ root_in block.bytes)) }
    ensures grammar { IfOk result (λ body. HasGeometry (root_of body)) }
    ensures reads { IfOk result (λ body. (D.given disk.new).count ≤ (D.given disk.old).count + 1) }
    ensures no_root { IsErrOf result NoRoot → IsTrue D.tells → IfSome (slice_get (D.state disk.old).contents (1 + slot)) (λ block. HasShape block.bytes → ⊥) }
    ensures bad_geometry { IsErrOf result BadGeometry → IsTrue D.tells → IfSome (slice_get (D.state disk.old).contents (1 + slot)) (λ block. HasShape block.bytes × (HasGeometry (root_in block.bytes) → ⊥)) }
    ensures device { IsErrOf result Device → D.faults disk.new ≡ raised (D.faults disk.old) }
    ensures kept { ¬ IsErrOf result Device → D.faults disk.new ≡ D.faults disk.old }
    ensures same { IsTrue D.tells → D.state disk.new ≡ D.state disk.old }
    ensures moments { IsTrue D.tells → Adds (D.past disk.old) (D.past disk.new) (λ s. s ≡ D.state disk.old) }
    ensures fixed { D.fixed disk.new ≡ D.fixed disk.old }
{
    let mut block = Block::zero();
    if let Err(DiskFault) = disk.read_block(1 + slot, &mut block) {
        return Err(RootFault::Device);
    }
    match read_root(&block) {
        Ok(body) => Ok(body),
        Err(RootShape::NoRoot) => Err(RootFault::NoRoot),
        Err(RootShape::BadGeometry) => Err(RootFault::BadGeometry),
    }
}
