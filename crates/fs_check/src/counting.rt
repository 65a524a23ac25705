//! The counts that are kept, and the reserve.
ghost use Rattle.std.specs.Prelude.{◌≡◌, ◌≤◌, ◌+◌, ◌*◌, false, IfOk, IsTrue, length, replicate};
ghost use Rattle.vol_numbers.specs.Layout.{count_blocks};
ghost use Rattle.disk_model.specs.Past.{Adds};
ghost use Rattle.block_format.specs.Root.{root_of};
ghost use Rattle.count_pairs.specs.Homes.{blocks_in};
ghost use Rattle.count_pairs.specs.Table.{IsKept};
ghost use Rattle.root_switch.specs.Current.{root_of_image};
ghost use Rattle.image_model.specs.Findings.{free_in};
ghost use Rattle.image_model.specs.Seen.{seen};
ghost use Rattle.image_walk.specs.Marks.{Says};
ghost use Rattle.fs_check.specs.Cause.{HasFsCause};
ghost use Rattle.fs_check.specs.Phases.{IsPhase, counts_finding};

use crate::CheckFault;
use block_format::RootBody;
use count_check::{Counted, counts, reserve};
use disk_model::Disk;
use image_walk::Marks;
use std::alloc::Global;

/// All counts, where each is the number of pointers to its block, and enough blocks are free.
pub(crate) fn good_counts<D: Disk>(
    alloc: Global,
    disk: &mut D,
    body: &RootBody,
    marks: &Marks,
) -> Result<Counted, CheckFault>
    requires size { (root_of body.now).layout.blocks ≡ (D.fixed disk.old).size }
    requires root { IsTrue D.tells → root_of_image (D.state disk.old).contents ≡ root_of body.now }
    ensures found { IsTrue D.tells → Says marks.now (seen (D.state disk.old).contents).met → IsPhase (counts_finding (root_of body.now).layout (seen (D.state disk.old).contents)) result }
    ensures kept { IfOk result (λ c. IsTrue D.tells → c.counts.counts ≡ (seen (D.state disk.old).contents).kept) }
    ensures stand { IfOk result (λ c. IsTrue D.tells → IsKept (blocks_in (D.state disk.old).contents) body.now.homes.bytes c.counts) }
    ensures long { IfOk result (λ c. length c.counts.counts ≡ 1024 * count_blocks (root_of body.now).layout) }
    ensures untouched { IfOk result (λ c. c.counts.touched ≡ replicate (count_blocks (root_of body.now).layout) false) }
    ensures free { IfOk result (λ c. c.free ≡ free_in (root_of body.now).layout c.counts.counts) }
    ensures reads { IfOk result (λ c. (D.given disk.new).count ≤ (D.given disk.old).count + count_blocks (root_of body.now).layout) }
    ensures same { IsTrue D.tells → D.state disk.new ≡ D.state disk.old }
    ensures moments { IsTrue D.tells → Adds (D.past disk.old) (D.past disk.new) (λ s. s ≡ D.state disk.old) }
    ensures fixed { D.fixed disk.new ≡ D.fixed disk.old }
    ensures cause { HasFsCause (D.faults disk.old) (D.faults disk.new) result }
{
    let counted = counts(alloc, disk, body, marks)?;
    match reserve(counted.free) {
        Some(finding) => Err(CheckFault::Found(finding)),
        None => Ok(counted),
    }
}
