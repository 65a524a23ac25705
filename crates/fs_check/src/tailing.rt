//! Bytes behind the size of a file.
ghost use Rattle.std.specs.Prelude.{◌≡◌, ◌≤◌, ◌+◌, OnOk, IsTrue};
ghost use Rattle.disk_model.specs.Past.{Adds};
ghost use Rattle.block_tree.specs.Tree.{blocks_in};
ghost use Rattle.image_model.specs.Nodes.{tail_finding};
ghost use Rattle.image_model.specs.Seen.{Seen};
ghost use Rattle.image_walk.specs.Reads.{file_count};
ghost use Rattle.fs_check.specs.Cause.{HasFsCause};
ghost use Rattle.fs_check.specs.Left.{IsLeft, IsSeen};
ghost use Rattle.fs_check.specs.Phases.{IsPhase};

use crate::CheckFault;
use disk_model::Disk;
use image_model::Finding;
use image_walk::Walked;
use name_check::tails;

/// No file has a byte behind its size that isn't 0.
pub(crate) fn clean_tails<D: Disk>(disk: &mut D, walked: &Walked) -> Result<(), CheckFault>
    requires { IsLeft (D.fixed disk.old).size walked.now }
    ensures found { IsTrue D.tells → (s : Seen) → IsSeen (blocks_in (D.state disk.old).contents) walked.now s → IsPhase (tail_finding s) result }
    ensures reads { OnOk result ((D.given disk.new).count ≤ (D.given disk.old).count + file_count walked.now.nodes) }
    ensures same { IsTrue D.tells → D.state disk.new ≡ D.state disk.old }
    ensures moments { IsTrue D.tells → Adds (D.past disk.old) (D.past disk.new) (λ s. s ≡ D.state disk.old) }
    ensures fixed { D.fixed disk.new ≡ D.fixed disk.old }
    ensures cause { HasFsCause (D.faults disk.old) (D.faults disk.new) result }
{
    let found = tails(disk, walked.nodes.as_slice(), walked.lasts.as_slice())?;
    match found {
        Some(number) => Err(CheckFault::Found(Finding::BadTail(number))),
        None => Ok(()),
    }
}
