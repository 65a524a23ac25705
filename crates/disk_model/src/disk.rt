//! The trait of a disk: every promise of the server stands on its clauses.
ghost use Rattle.std.specs.Prelude.{◌≡◌, ◌<◌, ◌≤◌, ℕ, Bool, length, Some, slice_get, OnOk, OnErr, IsTrue};
ghost use Rattle.vol_numbers.specs.Cause.{HasCause};
ghost use Rattle.disk_model.specs.Disk.{State, Given, Gives, DuringWrite, DuringSync, written, synced};
ghost use Rattle.disk_model.specs.Past.{Past, Adds, Keeps};
ghost use Rattle.disk_model.specs.Media.{Fixed};

use thiserror::Error;
use vol_numbers::{Block, BlockNo};

/// A call of a disk failed.
#[derive(Clone, Copy, Debug, PartialEq, Eq, Error)]
#[error("a call of the disk failed")]
pub struct DiskFault;

/// A disk of blocks. A block that was written may be lost or torn by a power cut until a sync has succeeded.
pub trait Disk {
    /// How many blocks it has, and what else no call changes.
    ghost fixed: { Self → Fixed };

    /// Whether disks of this type tell what they hold.
    ghost tells: { Bool };

    /// What it holds, and which blocks are unsynced. It speaks only where `tells`.
    ghost state: { Self → State };

    /// The moments up to now, where it tells them.
    ghost past: { Self → Past };

    /// How often it has failed.
    ghost faults: { Self → ℕ };

    /// The last block that was read, also of a disk that tells nothing.
    ghost given: { Self → Given };

    /// How many blocks there are.
    fn blocks(&self) -> u32
        ensures { result ≡ (fixed self.now).size };

    /// Reads a block.
    fn read_block(&mut self, at: BlockNo, into: &mut Block) -> Result<(), DiskFault>
        requires { at < (fixed self.old).size }
        ensures read { OnOk result (IsTrue tells → slice_get (state self.old).contents at ≡ Some into.new) }
        ensures same { IsTrue tells → state self.new ≡ state self.old }
        ensures fixed { fixed self.new ≡ fixed self.old }
        ensures moments { Adds (past self.old) (past self.new) (λ s. s ≡ state self.old) }
        ensures keeps { Keeps (past self.old) (past self.new) }
        ensures given { OnOk result (Gives (given self.old) (given self.new) at into.new) }
        ensures given_err { OnErr result (given self.new ≡ given self.old) }
        ensures cause { HasCause (faults self.old) (faults self.new) result };

    /// Writes a block. A write that fails leaves any bytes in the block.
    fn write_block(&mut self, at: BlockNo, from: &Block) -> Result<(), DiskFault>
        requires { at < (fixed self.old).size }
        ensures written { OnOk result (IsTrue tells → state self.new ≡ written at from.now (state self.old)) }
        ensures torn { OnErr result (IsTrue tells → DuringWrite at (state self.old) (state self.new)) }
        ensures fixed { fixed self.new ≡ fixed self.old }
        ensures moments { Adds (past self.old) (past self.new) (DuringWrite at (state self.old)) }
        ensures keeps { Keeps (past self.old) (past self.new) }
        ensures given { given self.new ≡ given self.old }
        ensures cause { HasCause (faults self.old) (faults self.new) result };

    /// Has all that was written on the disk, where a power cut leaves it.
    fn sync(&mut self) -> Result<(), DiskFault>
        ensures synced { OnOk result (IsTrue tells → state self.new ≡ synced (state self.old)) }
        ensures not_synced { OnErr result (IsTrue tells → state self.new ≡ state self.old) }
        ensures fixed { fixed self.new ≡ fixed self.old }
        ensures moments { Adds (past self.old) (past self.new) (DuringSync (state self.old)) }
        ensures keeps { Keeps (past self.old) (past self.new) }
        ensures given { given self.new ≡ given self.old }
        ensures cause { HasCause (faults self.old) (faults self.new) result };

    /// Where the contents are told, there are as many blocks as `blocks()` says.
    ghost has_size: { (disk : Self) → IsTrue tells → length (state disk).contents ≡ (fixed disk).size };

    /// This moment is one of those since an earlier one.
    ghost now_counts: { (disk : Self) (t : ℕ) → IsTrue (past disk).is_told → t ≤ (past disk).clock → (past disk).since t (state disk) };

    /// Since this moment there is no other.
    ghost only_now: { (disk : Self) (s : State) → IsTrue (past disk).is_told → (past disk).since (past disk).clock s → s ≡ state disk };
}
