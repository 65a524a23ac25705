//! Checks a volume.
ghost use Rattle.std.specs.Prelude.{◌≡◌, ◌≤◌, ◌+◌, IfOk, IsTrue};
ghost use Rattle.disk_model.specs.Past.{Adds};
ghost use Rattle.fs_check.specs.Cause.{HasFsCause};
ghost use Rattle.fs_check.specs.Checked.{IsVerdict, IsSummed};
ghost use Rattle.fs_check.specs.Reads.{reads_of};

use crate::{CheckFault, examine};
use disk_model::Disk;
use std::alloc::Global;

/// How much there is in a good volume.
#[derive(Clone, Copy, Debug, PartialEq, Eq)]
pub struct Summary {
    /// The used nodes at the last point.
    pub nodes: u32,
    /// The records of the log.
    pub records: u32,
    /// The free blocks at the last point.
    pub free: u32,
}

/// Checks the volume on a disk: whether it stands for something, and else what is wrong first.
///
/// # Errors
///
/// The first finding of the first phase that has one, a fault of the disk, or want of memory.
pub fn check<D: Disk>(alloc: Global, disk: &mut D) -> Result<Summary, CheckFault>
    // On a disk that tells its contents: they stand for something, which has these numbers. Or they have this finding, and stand for nothing.
    ensures verdict { IsTrue D.tells → IsVerdict (D.state disk.old).contents (IsSummed (D.state disk.old).contents) result }
    ensures reads { IfOk result (λ sum. IsTrue D.tells → (D.given disk.new).count ≤ (D.given disk.old).count + reads_of (D.state disk.old).contents) }
    ensures same { IsTrue D.tells → D.state disk.new ≡ D.state disk.old }
    ensures moments { IsTrue D.tells → Adds (D.past disk.old) (D.past disk.new) (λ s. s ≡ D.state disk.old) }
    ensures fixed { D.fixed disk.new ≡ D.fixed disk.old }
    ensures cause { HasFsCause (D.faults disk.old) (D.faults disk.new) result }
{
    let examined = examine(alloc, disk)?;
    Ok(Summary {
        nodes: examined.used,
        records: examined.current.body.records,
        free: examined.free,
    })
}
