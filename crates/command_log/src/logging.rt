//! Logs a command: writes its record, and switches to a root that counts it.
ghost use Rattle.std.specs.Prelude.{◌≡◌, ◌≢◌, ◌<◌, ◌≤◌, ◌+◌, [], slice_get, Some, IfOk, OnOk, OnErr, IsTrue};
ghost use Rattle.vol_numbers.specs.Cause.{HasCause};
ghost use Rattle.disk_model.specs.Disk.{EachImage};
ghost use Rattle.disk_model.specs.Past.{Adds};
ghost use Rattle.root_switch.specs.Current.{selector_block};
ghost use Rattle.block_format.specs.Root.{root_of, HasGeometry};
ghost use Rattle.op_log.specs.Record.{IsLogged, record_blocks};
ghost use Rattle.volume_model.specs.Done.{done};
ghost use Rattle.volume_model.specs.Machine.{Machine, Rules, stored};
ghost use Rattle.image_model.specs.Next.{HasNext};
ghost use Rattle.image_model.specs.Seen.{seen};
ghost use Rattle.image_model.specs.Stands.{Stands};
ghost use Rattle.command_log.specs.Logging.{HasCurrent, MayDo, StandsForEither, KeepsBeside, next_root};

use block_format::RootBody;
use disk_model::{Disk, DiskFault};
use op_log::{append, record_blocks};
use root_switch::{Current, commit};
use tree_model::Command;

/// Writes the record of a command behind the log, and switches to a root that counts it. It answers that root, and takes no memory. A failed
/// write or sync is a fault of the device.
pub fn log<D: Disk>(
    disk: &mut D,
    current: &Current,
    command: &Command,
) -> Result<Current, DiskFault>
    requires slot { current.now.slot < 2 }
    requires grammar { HasGeometry (root_of current.now.body) }
    requires size { (root_of current.now.body).layout.blocks ≡ (D.fixed disk.old).size }
    requires logged { IsLogged command.now }
    requires room { current.now.body.log_used + record_blocks command.now ≤ (root_of current.now.body).layout.log_blocks }
    requires current { IsTrue D.tells → HasCurrent current.now.slot (root_of current.now.body) (D.state disk.old) }

    // The answer is a root with one record more, which is current on the disk, with nothing unsynced.
    ensures slot { IfOk result (λ next. next.slot < 2) }
    ensures grammar { IfOk result (λ next. HasGeometry (root_of next.body)) }
    ensures root { IfOk result (λ next. root_of next.body ≡ next_root (root_of current.now.body) command.now) }
    ensures geometry { IfOk result (λ next. next.body.geometry ≡ current.now.body.geometry) }
    ensures selector { IfOk result (λ next. IsTrue D.tells → slice_get (D.state disk.new).contents 0 ≡ Some (selector_block next.slot)) }
    ensures current { IfOk result (λ next. IsTrue D.tells → HasCurrent next.slot (root_of next.body) (D.state disk.new)) }
    ensures next { OnOk result (IsTrue D.tells → HasNext (D.state disk.old).contents (D.state disk.new).contents command.now) }

    // The contents stand for what the state stores after the command.
    ensures stands { OnOk result (IsTrue D.tells → (r : Rules) (m : Machine) → MayDo r m command.now (D.state disk.old).contents → Stands (D.state disk.new).contents (stored (done m command.now))) }
    // What is seen of the last point stays, and so does each block behind the root slots but those of the record.
    ensures seen { OnOk result (IsTrue D.tells → (r : Rules) (m : Machine) → MayDo r m command.now (D.state disk.old).contents → seen (D.state disk.new).contents ≡ seen (D.state disk.old).contents) }
    ensures beside { OnOk result (IsTrue D.tells → KeepsBeside (root_of current.now.body) command.now (D.state disk.old).contents (D.state disk.new).contents) }

    // At each moment, and in what a failure leaves, each image stands for what the state stores before the command, or after it.
    ensures during { IsTrue D.tells → (r : Rules) (m : Machine) → MayDo r m command.now (D.state disk.old).contents → Adds (D.past disk.old) (D.past disk.new) (EachImage (StandsForEither m command.now)) }
    ensures left { OnErr result (IsTrue D.tells → (r : Rules) (m : Machine) → MayDo r m command.now (D.state disk.old).contents → EachImage (StandsForEither m command.now) (D.state disk.new)) }
    // After a failure something is unsynced.
    ensures unsynced { OnErr result (IsTrue D.tells → (D.state disk.new).unsynced ≢ []) }

    ensures fixed { D.fixed disk.new ≡ D.fixed disk.old }
    ensures given { D.given disk.new ≡ D.given disk.old }
    ensures cause { HasCause (D.faults disk.old) (D.faults disk.new) result }
{
    // The record is on the disk before a root counts it: the switch syncs what was written before it names the root.
    let body = next_body(&current.body, record_blocks(command));
    append(disk, &current.body.geometry, current.body.log_used, command)?;
    let slot = commit(disk, current.slot, &body)?;
    Ok(Current { slot, body })
}

/// The root with one record more, of so many blocks.
fn next_body(body: &RootBody, blocks: u32) -> RootBody
    requires grammar { HasGeometry (root_of body.now) }
    requires some { 1 ≤ blocks }
    requires room { body.now.log_used + blocks ≤ (root_of body.now).layout.log_blocks }
    ensures next { root_of result ≡ record (root_of body.now) { records = body.now.records + 1; log_used = body.now.log_used + blocks } }
    ensures geometry { result.geometry ≡ body.now.geometry }
    ensures grammar { HasGeometry (root_of result) }
{
    let mut next = *body;
    next.records += 1;
    next.log_used += blocks;
    next
}
