//! The walk over all metadata.
ghost use Rattle.std.specs.Prelude.{◌≡◌, ◌≤◌, ◌+◌, ◌*◌, [], IfOk, IsTrue, length};
ghost use Rattle.vol_numbers.specs.Layout.{count_blocks};
ghost use Rattle.disk_model.specs.Past.{Adds};
ghost use Rattle.block_format.specs.Root.{root_of};
ghost use Rattle.block_tree.specs.Tree.{blocks_in};
ghost use Rattle.root_switch.specs.Current.{root_of_image};
ghost use Rattle.image_model.specs.Findings.{walk_finding};
ghost use Rattle.image_model.specs.Seen.{seen};
ghost use Rattle.image_model.specs.Walk.{walk};
ghost use Rattle.image_walk.specs.Reads.{metadata_count};
ghost use Rattle.fs_check.specs.Cause.{HasFsCause};
ghost use Rattle.fs_check.specs.Left.{IsLeft, IsSeen};
ghost use Rattle.fs_check.specs.Phases.{IsPhase};

use crate::CheckFault;
use block_format::RootBody;
use disk_model::Disk;
use image_walk::{Walked, walk};
use std::alloc::Global;

/// Walks from the inode index of a root over all metadata.
pub(crate) fn reach<D: Disk>(
    alloc: Global,
    disk: &mut D,
    body: &RootBody,
) -> Result<Walked, CheckFault>
    requires size { (root_of body.now).layout.blocks ≡ (D.fixed disk.old).size }
    requires root { IsTrue D.tells → root_of_image (D.state disk.old).contents ≡ root_of body.now }
    ensures found { IsTrue D.tells → IsPhase (walk_finding (root_of body.now).layout [] (seen (D.state disk.old).contents).met) result }
    ensures seen { IfOk result (λ w. IsTrue D.tells → IsSeen (blocks_in (D.state disk.old).contents) w (seen (D.state disk.old).contents)) }
    ensures left { IfOk result (λ w. IsLeft (D.fixed disk.old).size w) }
    ensures reads { IfOk result (λ w. IsTrue D.tells → (D.given disk.new).count ≤ (D.given disk.old).count + metadata_count (walk (blocks_in (D.state disk.old).contents) body.now.inode_index)) }
    ensures same { IsTrue D.tells → D.state disk.new ≡ D.state disk.old }
    ensures moments { IsTrue D.tells → Adds (D.past disk.old) (D.past disk.new) (λ s. s ≡ D.state disk.old) }
    ensures fixed { D.fixed disk.new ≡ D.fixed disk.old }
    ensures cause { HasFsCause (D.faults disk.old) (D.faults disk.new) result }
{
    let walked = walk(alloc, disk, &body.geometry, body.inode_index)?;
    Ok(walked)
}
