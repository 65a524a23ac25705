//! The switch to a new root.
ghost use Rattle.std.specs.Prelude.{◌≡◌, ◌≢◌, ◌<◌, ◌-◌, [], IfOk, OnOk, OnErr, IsTrue};
ghost use Rattle.vol_numbers.specs.Cause.{HasCause};
ghost use Rattle.vol_numbers.specs.Geometry.{layout_of};
ghost use Rattle.disk_model.specs.Disk.{EachImage, DuringWrite, DuringWriteThrough, written, synced};
ghost use Rattle.disk_model.specs.Past.{Adds};
ghost use Rattle.block_format.specs.Root.{root_of, root_in, root_bytes, HasGeometry};
ghost use Rattle.root_switch.specs.Current.{selector_block};
ghost use Rattle.root_switch.specs.Switch.{IsCurrent, OldOrNew, IsSwitched, spelled_root};

use block_format::{RootBody, write_root};
use disk_model::{Disk, DiskFault, write_through};
use vol_numbers::{Block, BlockNo};

/// Makes a root the current one, in the slot that is not current, and answers that slot. All that was written before is on the disk before
/// the new root is.
pub fn commit<D: Disk>(disk: &mut D, slot: u32, body: &RootBody) -> Result<u32, DiskFault>
    requires slot { slot < 2 }
    requires size { (layout_of body.now.geometry).blocks ≡ (D.fixed disk.old).size }
    requires grammar { HasGeometry (root_of body.now) }
    requires current { IsTrue D.tells → IsCurrent slot (D.state disk.old) }

    ensures slot { IfOk result (λ other. other ≡ 1 - slot) }
    // What is read of the new root is this one.
    ensures reads_back { root_in (root_bytes (root_of body.now)) ≡ root_of body.now }
    // At each moment of the call each image has the old root or the new one, and no other block is lost.
    ensures during { IsTrue D.tells → Adds (D.past disk.old) (D.past disk.new) (EachImage (OldOrNew (D.state disk.old) slot body.now)) }
    ensures switched { OnOk result (IsTrue D.tells → IsSwitched (D.state disk.old) slot body.now (D.state disk.new)) }
    // So has each image of what a failure leaves, and something is unsynced then.
    ensures left { OnErr result (IsTrue D.tells → EachImage (OldOrNew (D.state disk.old) slot body.now) (D.state disk.new)) }
    ensures unsynced { OnErr result (IsTrue D.tells → (D.state disk.new).unsynced ≢ []) }
    ensures fixed { D.fixed disk.new ≡ D.fixed disk.old }
    ensures given { D.given disk.new ≡ D.given disk.old }
    ensures cause { HasCause (D.faults disk.old) (D.faults disk.new) result }
{
    // The new root and all that it leads to have to be on the disk before the selector names it.
    write_other_slot(disk, slot, &root_block(body))?;
    write_selector(disk, 1 - slot)?;
    Ok(1 - slot)
}

/// Has a block on the disk in the slot that is not current, and all that was written before.
fn write_other_slot<D: Disk>(disk: &mut D, slot: u32, root: &Block) -> Result<(), DiskFault>
    requires slot { slot < 2 }
    requires room { 2 - slot < (D.fixed disk.old).size }
    ensures done { OnOk result (IsTrue D.tells → D.state disk.new ≡ synced (written (2 - slot) root.now (D.state disk.old))) }
    ensures left { OnErr result (IsTrue D.tells → DuringWrite (2 - slot) (D.state disk.old) (D.state disk.new)) }
    ensures unsynced { OnErr result (IsTrue D.tells → (D.state disk.new).unsynced ≢ []) }
    ensures moments { IsTrue D.tells → Adds (D.past disk.old) (D.past disk.new) (DuringWriteThrough (2 - slot) root.now (D.state disk.old)) }
    ensures fixed { D.fixed disk.new ≡ D.fixed disk.old }
    ensures given { D.given disk.new ≡ D.given disk.old }
    ensures cause { HasCause (D.faults disk.old) (D.faults disk.new) result }
{
    write_through(disk, other_slot(slot), root)
}

/// The block of the slot that is not this one.
fn other_slot(slot: u32) -> BlockNo
    requires { slot < 2 }
    ensures { result ≡ 2 - slot }
{
    2 - slot
}

/// Has the selector of a slot on the disk.
fn write_selector<D: Disk>(disk: &mut D, slot: u32) -> Result<(), DiskFault>
    requires slot { slot < 2 }
    requires room { 0 < (D.fixed disk.old).size }
    ensures done { OnOk result (IsTrue D.tells → D.state disk.new ≡ synced (written 0 (selector_block slot) (D.state disk.old))) }
    ensures left { OnErr result (IsTrue D.tells → DuringWrite 0 (D.state disk.old) (D.state disk.new)) }
    ensures unsynced { OnErr result (IsTrue D.tells → (D.state disk.new).unsynced ≢ []) }
    ensures moments { IsTrue D.tells → Adds (D.past disk.old) (D.past disk.new) (DuringWriteThrough 0 (selector_block slot) (D.state disk.old)) }
    ensures fixed { D.fixed disk.new ≡ D.fixed disk.old }
    ensures given { D.given disk.new ≡ D.given disk.old }
    ensures cause { HasCause (D.faults disk.old) (D.faults disk.new) result }
{
    let block = selector(slot);
    write_through(disk, 0, &block)
}

/// The block that spells a root.
fn root_block(body: &RootBody) -> Block
    ensures spelled { result ≡ spelled_root body.now }
    ensures reads_back { root_in (root_bytes (root_of body.now)) ≡ root_of body.now }
{
    let mut block = Block::zero();
    write_root(body, &mut block);
    block
}

/// The selector that names a slot.
fn selector(slot: u32) -> Block
    requires { slot < 2 }
    ensures { result ≡ selector_block slot }
{
    let mut bytes = [0; 4096];
    bytes[0] = slot as u8;
    Block { bytes }
}
