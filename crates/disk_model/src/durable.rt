//! A write that is on the disk when the call is over.
ghost use Rattle.std.specs.Prelude.{◌≡◌, ◌≢◌, ◌<◌, [], OnOk, OnErr, IsTrue};
ghost use Rattle.vol_numbers.specs.Cause.{HasCause};
ghost use Rattle.disk_model.specs.Disk.{written, synced, DuringWrite, DuringWriteThrough};
ghost use Rattle.disk_model.specs.Past.{Adds};

use crate::{Disk, DiskFault};
use vol_numbers::{Block, BlockNo};

/// Writes a block, and has it and all that was written before on the disk.
pub fn write_through<D: Disk>(disk: &mut D, at: BlockNo, block: &Block) -> Result<(), DiskFault>
    requires { at < (D.fixed disk.old).size }
    ensures done { OnOk result (IsTrue D.tells → D.state disk.new ≡ synced (written at block.now (D.state disk.old))) }
    // After a failure the block may hold anything, and something is unsynced.
    ensures left { OnErr result (IsTrue D.tells → DuringWrite at (D.state disk.old) (D.state disk.new)) }
    ensures unsynced { OnErr result (IsTrue D.tells → (D.state disk.new).unsynced ≢ []) }
    ensures moments { IsTrue D.tells → Adds (D.past disk.old) (D.past disk.new) (DuringWriteThrough at block.now (D.state disk.old)) }
    ensures fixed { D.fixed disk.new ≡ D.fixed disk.old }
    ensures given { D.given disk.new ≡ D.given disk.old }
    ensures cause { HasCause (D.faults disk.old) (D.faults disk.new) result }
{
    disk.write_block(at, block)?;
    disk.sync()
}
