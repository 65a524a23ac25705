//! The directories.
ghost use Rattle.std.specs.Prelude.{◌≡◌, ◌≤◌, ◌+◌, IfOk, IsTrue, length, map};
ghost use Rattle.disk_model.specs.Past.{Adds};
ghost use Rattle.block_tree.specs.Tree.{blocks_in};
ghost use Rattle.image_model.specs.Nodes.{directory_finding};
ghost use Rattle.image_model.specs.Seen.{Seen};
ghost use Rattle.name_check.specs.Seeing.{HoldsDirectories};
ghost use Rattle.log_check.specs.Holding.{AreNodes};
ghost use Rattle.fs_check.specs.Cause.{HasFsCause};
ghost use Rattle.fs_check.specs.Left.{IsLeft, IsSeen};
ghost use Rattle.fs_check.specs.Phases.{IsPhase};

use crate::CheckFault;
use disk_model::Disk;
use held_list::HeldList;
use image_walk::Walked;
use name_check::directories;
use std::alloc::Global;

/// All directories, where none is bad.
pub(crate) fn good_directories<D: Disk>(
    alloc: Global,
    disk: &mut D,
    walked: &Walked,
) -> Result<HeldList, CheckFault>
    requires { IsLeft (D.fixed disk.old).size walked.now }
    ensures found { IsTrue D.tells → (s : Seen) → IsSeen (blocks_in (D.state disk.old).contents) walked.now s → IsPhase (directory_finding s) result }
    ensures holds { IfOk result (λ held. IsTrue D.tells → (s : Seen) → IsSeen (blocks_in (D.state disk.old).contents) walked.now s → HoldsDirectories s held) }
    ensures are { IfOk result (λ held. AreNodes walked.now.nodes held) }
    ensures reads { IfOk result (λ held. (D.given disk.new).count ≤ (D.given disk.old).count + length walked.now.pages) }
    ensures same { IsTrue D.tells → D.state disk.new ≡ D.state disk.old }
    ensures moments { IsTrue D.tells → Adds (D.past disk.old) (D.past disk.new) (λ s. s ≡ D.state disk.old) }
    ensures fixed { D.fixed disk.new ≡ D.fixed disk.old }
    ensures cause { HasFsCause (D.faults disk.old) (D.faults disk.new) result }
{
    let held = directories(
        alloc,
        disk,
        walked.nodes.as_slice(),
        walked.pages.as_slice(),
    )?;
    Ok(held)
}
