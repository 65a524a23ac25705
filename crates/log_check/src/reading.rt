//! Reads the records of a log up to the first bad one.
ghost use Rattle.std.specs.Prelude.{◌≡◌, ◌<◌, ◌≤◌, ◌+◌, ◌*◌, IfOk, IfNone, IsTrue, Some};
ghost use Rattle.vol_numbers.specs.Layout.{log_start};
ghost use Rattle.disk_model.specs.Past.{Adds};
ghost use Rattle.block_format.specs.Root.{root_of, HasGeometry};
ghost use Rattle.op_log.specs.Log.{IsFirstBad};
ghost use Rattle.log_check.specs.Cause.{IfFound, HasCheckCause};
ghost use Rattle.log_check.specs.Reading.{ReadsFront};

use crate::LogCheckFault;
use block_format::RootBody;
use disk_model::Disk;
use op_log::{CommandList, LogFault, read_all};
use std::alloc::Global;

/// The commands of the records that are good, and the index of the first bad one, if there is one.
#[derive(Drop)]
pub(crate) struct Front {
    pub(crate) commands: CommandList,
    pub(crate) bad: Option<u32>,
}

/// Reads the records up to the first bad one. The blocks are read again where there is one.
pub(crate) fn read_front<D: Disk>(
    alloc: Global,
    disk: &mut D,
    body: &RootBody,
) -> Result<Front, LogCheckFault>
    requires grammar { HasGeometry (root_of body.now) }
    requires size { (root_of body.now).layout.blocks ≡ (D.fixed disk.old).size }
    ensures front { IfOk result (ReadsFront D.tells (D.state disk.old).contents body.now) }
    ensures found { IfFound result (λ _. IsTrue D.tells → ⊥) }
    ensures reads { IfOk result (λ front. IfNone front.bad ((D.given disk.new).count ≤ (D.given disk.old).count + body.now.log_used)) }
    ensures reads_again { IfOk result (λ front. (D.given disk.new).count ≤ (D.given disk.old).count + 2 * body.now.log_used) }
    ensures reads_found { IfFound result (λ _. (D.given disk.new).count ≤ (D.given disk.old).count + 2 * body.now.log_used) }
    ensures same { IsTrue D.tells → D.state disk.new ≡ D.state disk.old }
    ensures moments { IsTrue D.tells → Adds (D.past disk.old) (D.past disk.new) (λ s. s ≡ D.state disk.old) }
    ensures fixed { D.fixed disk.new ≡ D.fixed disk.old }
    ensures cause { HasCheckCause (D.faults disk.old) (D.faults disk.new) result }
{
    match read_all(alloc, disk, body) {
        Ok(commands) => Ok(Front {
            commands,
            bad: None,
        }),
        Err(LogFault::BadRecord(bad)) => read_before(alloc, disk, body, bad),
        Err(LogFault::Device) => Err(LogCheckFault::Device),
        Err(LogFault::OutOfMemory) => Err(LogCheckFault::OutOfMemory),
    }
}

/// Reads the records before a bad one.
fn read_before<D: Disk>(
    alloc: Global,
    disk: &mut D,
    body: &RootBody,
    bad: u32,
) -> Result<Front, LogCheckFault>
    requires grammar { HasGeometry (root_of body.now) }
    requires size { (root_of body.now).layout.blocks ≡ (D.fixed disk.old).size }
    requires bad { bad < body.now.records }
    requires first_bad { IsTrue D.tells → IsFirstBad (D.state disk.old).contents (log_start (root_of body.now).layout) body.now.log_used bad }
    ensures front { IfOk result (ReadsFront D.tells (D.state disk.old).contents body.now) }
    ensures found { IfFound result (λ _. IsTrue D.tells → ⊥) }
    ensures bad { IfOk result (λ front. front.bad ≡ Some bad) }
    ensures reads { IfOk result (λ front. (D.given disk.new).count ≤ (D.given disk.old).count + body.now.log_used) }
    ensures reads_found { IfFound result (λ _. (D.given disk.new).count ≤ (D.given disk.old).count + body.now.log_used) }
    ensures same { IsTrue D.tells → D.state disk.new ≡ D.state disk.old }
    ensures moments { IsTrue D.tells → Adds (D.past disk.old) (D.past disk.new) (λ s. s ≡ D.state disk.old) }
    ensures fixed { D.fixed disk.new ≡ D.fixed disk.old }
    ensures cause { HasCheckCause (D.faults disk.old) (D.faults disk.new) result }
{
    match read_all(alloc, disk, &shorter(body, bad)) {
        Ok(commands) => Ok(Front {
            commands,
            bad: Some(bad),
        }),
        // A disk that tells what it holds gives the same blocks again.
        Err(LogFault::BadRecord(i)) => Err(LogCheckFault::Found(i)),
        Err(LogFault::Device) => Err(LogCheckFault::Device),
        Err(LogFault::OutOfMemory) => Err(LogCheckFault::OutOfMemory),
    }
}

/// The root with so many records.
fn shorter(body: &RootBody, records: u32) -> RootBody
    requires grammar { HasGeometry (root_of body.now) }
    requires fewer { records < body.now.records }
    ensures is { result ≡ record body.now { records = records } }
    ensures grammar { HasGeometry (root_of result) }
{
    let mut shorter = *body;
    shorter.records = records;
    shorter
}
