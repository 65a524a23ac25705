//! Checks the log of a volume whose other phases found nothing.
ghost use Rattle.std.specs.Prelude.{◌≡◌, ◌<◌, ◌≤◌, ◌+◌, ◌*◌, ◌^◌, ℕ, All, IfOk, IsTrue};
ghost use Rattle.disk_model.specs.Past.{Adds};
ghost use Rattle.block_format.specs.Root.{root_of, HasGeometry};
ghost use Rattle.root_switch.specs.Current.{root_of_image};
ghost use Rattle.op_log.specs.Log.{blocks_of};
ghost use Rattle.op_log.specs.Record.{HasRecord};
ghost use Rattle.volume_model.specs.Machine.{Stored};
ghost use Rattle.image_model.specs.Finds.{IsBadLog};
ghost use Rattle.image_model.specs.Stands.{Logs};
ghost use Rattle.log_check.specs.Accepting.{HoldsATree, IsShown, TakesEach, with_records};
ghost use Rattle.log_check.specs.Cause.{IfFound, HasCheckCause};
ghost use Rattle.log_check.specs.Reading.{IsWhole, IsPart};

use crate::LogCheckFault;
use crate::accepting::accept_each;
use crate::reading::{Front, read_front};
use block_format::RootBody;
use disk_model::Disk;
use node_table::NodeTable;
use op_log::{CommandList, blocks_of};
use std::alloc::Global;

/// Reads the records of a root's log, does their commands in a table that holds the tree of the last point, and answers them. So many blocks
/// are free there: what a record may cost and what must be free beside it are held against that.
///
/// Each used block of the log is read once, and once more where a record is bad. A record costs the names of its paths, each by the logarithm
/// of the entries on the way.
///
/// # Errors
///
/// The index of the first bad record, a fault of the disk, or want of memory. The table still holds a tree.
pub fn check_log<D: Disk>(
    alloc: Global,
    disk: &mut D,
    body: &RootBody,
    nodes: &mut NodeTable,
    free: u32,
) -> Result<CommandList, LogCheckFault>
    requires grammar { HasGeometry (root_of body.now) }
    requires size { (root_of body.now).layout.blocks ≡ (D.fixed disk.old).size }
    requires root { IsTrue D.tells → root_of_image (D.state disk.old).contents ≡ root_of body.now }
    requires holds { HoldsATree nodes.old }

    // Whatever the image shows whose tree the table held: its log has these records, or is bad at this index.
    ensures logs { IfOk result (λ records. IsTrue D.tells → (s : Stored) → IsShown (D.state disk.old).contents nodes.old free s → Logs (D.state disk.old).contents (with_records s records)) }
    ensures found { IfFound result (λ i. IsTrue D.tells → (s : Stored) → IsShown (D.state disk.old).contents nodes.old free s → IsBadLog (D.state disk.old).contents i) }

    // On every disk the records that are answered are accepted, and the table holds the tree after them.
    ensures takes { IfOk result (λ records. TakesEach free nodes.old records nodes.new) }
    ensures have_records { IfOk result (All HasRecord) }
    ensures still { HoldsATree nodes.new }

    // Each used block of the log is read once, and where a record is bad none is read more than twice.
    ensures reads { IfOk result (λ records. (D.given disk.new).count ≤ (D.given disk.old).count + body.now.log_used) }
    ensures reads_again { IfFound result (λ _. (D.given disk.new).count ≤ (D.given disk.old).count + 2 * body.now.log_used) }

    ensures same { IsTrue D.tells → D.state disk.new ≡ D.state disk.old }
    ensures moments { IsTrue D.tells → Adds (D.past disk.old) (D.past disk.new) (λ s. s ≡ D.state disk.old) }
    ensures fixed { D.fixed disk.new ≡ D.fixed disk.old }
    ensures cause { HasCheckCause (D.faults disk.old) (D.faults disk.new) result }
{
    let front = read_front(alloc, disk, body)?;
    match accept_each(front.commands.as_slice(), nodes, free) {
        Ok(()) => if_whole(front, body),
        Err(fault) => Err(fault),
    }
}

/// The commands, if none of the records is bad and they fill the used blocks.
fn if_whole(front: Front, body: &RootBody) -> Result<CommandList, LogCheckFault>
    requires have_records { All HasRecord front.commands }
    requires within { blocks_of front.commands < 2 ^ 32 }
    ensures whole { IfOk result (λ commands. IsWhole body.now front) }
    ensures is { IfOk result (λ commands. commands ≡ front.commands) }
    ensures part { IfFound result (IsPart body.now front) }
    ensures no_fault { (count : ℕ) → HasCheckCause count count result }
{
    if let Some(i) = front.bad {
        return Err(LogCheckFault::Found(i));
    }
    if blocks_of(&front.commands) < body.log_used {
        return Err(LogCheckFault::Found(body.records));
    }
    Ok(front.commands)
}
