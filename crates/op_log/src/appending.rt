//! Writes a record behind the others.
ghost use Rattle.std.specs.Prelude.{◌≡◌, ◌≢◌, ◌<◌, ◌≤◌, ◌+◌, ◌++◌, ℕ, [], true, IfOk, OnOk, OnErr, IsTrue, Some, slice_get};
ghost use Rattle.vol_numbers.specs.Cause.{HasCause};
ghost use Rattle.vol_numbers.specs.Geometry.{layout_of};
ghost use Rattle.vol_numbers.specs.Layout.{log_start};
ghost use Rattle.disk_model.specs.Disk.{is_among};
ghost use Rattle.disk_model.specs.Past.{Adds};
ghost use Rattle.op_log.specs.Record.{IsLogged, HasRecord, record_blocks, text_block};
ghost use Rattle.op_log.specs.Log.{RecordStands};
ghost use Rattle.op_log.specs.Append.{ChangesWithin};

use crate::record_blocks;
use crate::spelling::Spelling;
use disk_model::{Disk, DiskFault};
use tree_model::Command;
use vol_numbers::{BlockNo, Geometry};

/// Writes the record of a command into the log, from its block `at` on, and answers how many blocks it takes. It syncs nothing and takes no
/// memory: a block is built when it is written. Each path of the command needs a name, since no record has the path of the root: the tree
/// refuses every change that speaks of the root.
pub fn append<D: Disk>(
    disk: &mut D,
    g: &Geometry,
    at: u32,
    command: &Command,
) -> Result<u32, DiskFault>
    requires logged { IsLogged command.now }
    requires room { at + record_blocks command.now ≤ (layout_of g.now).log_blocks }
    requires size { (layout_of g.now).blocks ≡ (D.fixed disk.old).size }

    ensures has_record { HasRecord command.now }
    ensures count { IfOk result (λ count. count ≡ record_blocks command.now) }
    ensures stands { OnOk result (IsTrue D.tells → RecordStands (D.state disk.new).contents (log_start (layout_of g.now) + at) command.now) }
    ensures joined { OnOk result (IsTrue D.tells → (i : ℕ) → i < record_blocks command.now → is_among (D.state disk.new).unsynced (log_start (layout_of g.now) + at + i) ≡ true) }

    // Also at each moment of the call, and after a failure, no block but those of the record has changed.
    ensures changes { IsTrue D.tells → ChangesWithin (log_start (layout_of g.now) + at) (record_blocks command.now) (D.state disk.old) (D.state disk.new) }
    ensures during { IsTrue D.tells → Adds (D.past disk.old) (D.past disk.new) (ChangesWithin (log_start (layout_of g.now) + at) (record_blocks command.now) (D.state disk.old)) }
    ensures unsynced { OnErr result (IsTrue D.tells → (D.state disk.new).unsynced ≢ []) }

    ensures fixed { D.fixed disk.new ≡ D.fixed disk.old }
    ensures given { D.given disk.new ≡ D.given disk.old }
    ensures cause { HasCause (D.faults disk.old) (D.faults disk.new) result }
{
    let count = record_blocks(command);
    let spelling = Spelling::of(command);
    write_blocks(disk, g.log_start() + at, &spelling, count)?;
    Ok(count)
}

/// Writes the first blocks of a record, from a block on.
fn write_blocks<D: Disk>(
    disk: &mut D,
    first: BlockNo,
    spelling: &Spelling<'_>,
    count: u32,
) -> Result<(), DiskFault>
    requires room { first + count ≤ (D.fixed disk.old).size }
    requires fits { first + count ≤ 65536 }
    ensures stand { OnOk result (IsTrue D.tells → (i : ℕ) → i < count → slice_get (D.state disk.new).contents (first + i) ≡ Some (text_block (spelling.now.head.items ++ spelling.now.payload.now) i)) }
    ensures joined { OnOk result (IsTrue D.tells → (i : ℕ) → i < count → is_among (D.state disk.new).unsynced (first + i) ≡ true) }
    ensures changes { IsTrue D.tells → ChangesWithin first count (D.state disk.old) (D.state disk.new) }
    ensures during { IsTrue D.tells → Adds (D.past disk.old) (D.past disk.new) (ChangesWithin first count (D.state disk.old)) }
    ensures unsynced { OnErr result (IsTrue D.tells → (D.state disk.new).unsynced ≢ []) }
    ensures fixed { D.fixed disk.new ≡ D.fixed disk.old }
    ensures given { D.given disk.new ≡ D.given disk.old }
    ensures cause { HasCause (D.faults disk.old) (D.faults disk.new) result }
{
    for i in 0..count {
        disk.write_block(first + i, &spelling.block(i))?;
    }
    Ok(())
}
