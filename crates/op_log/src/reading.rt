//! Reads the records of a root.
ghost use Rattle.std.specs.Prelude.{◌≡◌, ◌<◌, ◌≤◌, ◌+◌, All, IfOk, IsTrue, length};
ghost use Rattle.vol_numbers.specs.Layout.{log_start};
ghost use Rattle.disk_model.specs.Past.{Adds};
ghost use Rattle.block_format.specs.Root.{root_of, HasGeometry};
ghost use Rattle.op_log.specs.Fault.{HasLogCause, IfBadRecord};
ghost use Rattle.op_log.specs.Log.{HoldsRecords, IsFirstBad, blocks_of};
ghost use Rattle.op_log.specs.Record.{HasRecord};

use crate::fault::ReadFault;
use crate::record_reading::push_next;
use crate::{CommandList, LogFault};
use block_format::RootBody;
use disk_model::Disk;
use std::alloc::Global;

/// Reads as many records as a root says, each of its blocks once, and answers their commands in order. It takes memory for these and for
/// the record that is being read. Whether the records fill the used blocks is left to the caller, by `record_blocks`.
pub fn read_all<D: Disk>(
    alloc: Global,
    disk: &mut D,
    body: &RootBody,
) -> Result<CommandList, LogFault>
    requires grammar { HasGeometry (root_of body.now) }
    requires size { (root_of body.now).layout.blocks ≡ (D.fixed disk.old).size }

    // On a disk that tells its contents the records are those of the log, and a bad one is the first.
    ensures records { IfOk result (λ commands. IsTrue D.tells → HoldsRecords (D.state disk.old).contents (log_start (root_of body.now).layout) body.now.log_used commands) }
    ensures bad_record { IfBadRecord result (λ number. IsTrue D.tells → IsFirstBad (D.state disk.old).contents (log_start (root_of body.now).layout) body.now.log_used number) }

    // On every disk they are as many as the root says, have records and do not pass the used blocks.
    ensures count { IfOk result (λ commands. length commands ≡ body.now.records) }
    ensures have_records { IfOk result (All HasRecord) }
    ensures within { IfOk result (λ commands. blocks_of commands ≤ body.now.log_used) }
    ensures bad_number { IfBadRecord result (λ number. number < body.now.records) }

    // Each block of these records is read once, and where one is bad no used block is read twice.
    ensures reads { IfOk result (λ commands. (D.given disk.new).count ≤ (D.given disk.old).count + blocks_of commands) }
    ensures reads_bad { IfBadRecord result (λ number. (D.given disk.new).count ≤ (D.given disk.old).count + body.now.log_used) }

    ensures same { IsTrue D.tells → D.state disk.new ≡ D.state disk.old }
    ensures moments { IsTrue D.tells → Adds (D.past disk.old) (D.past disk.new) (λ s. s ≡ D.state disk.old) }
    ensures fixed { D.fixed disk.new ≡ D.fixed disk.old }
    ensures cause { HasLogCause (D.faults disk.old) (D.faults disk.new) result }
{
    let first = body.geometry.log_start();
    let mut commands = Vec::new(alloc);
    let mut used = 0;
    for i in 0..body.records {
        let left = body.log_used - used;
        match push_next(alloc, disk, first + used, left, &mut commands) {
            Ok(Some(count)) => used += count,
            Ok(None) => return Err(LogFault::BadRecord(i)),
            Err(ReadFault::Device) => return Err(LogFault::Device),
            Err(ReadFault::OutOfMemory) => return Err(LogFault::OutOfMemory),
        }
    }
    Ok(CommandList::from_vec(commands))
}
