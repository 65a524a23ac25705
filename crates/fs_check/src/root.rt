//! The current root: whether there is one, and whether it is within its rules.
ghost use Rattle.std.specs.Prelude.{◌≡◌, ◌<◌, ◌≤◌, ◌+◌, IfOk, IsTrue};
ghost use Rattle.disk_model.specs.Past.{Adds};
ghost use Rattle.block_format.specs.Root.{root_of, HasGeometry};
ghost use Rattle.root_switch.specs.Current.{current_slot, root_of_image};
ghost use Rattle.image_model.specs.Roots.{root_finding};
ghost use Rattle.fs_check.specs.Cause.{HasFsCause};
ghost use Rattle.fs_check.specs.Phases.{IsPhase};

use crate::CheckFault;
use disk_model::Disk;
use root_switch::{Current, read_current};

/// The current root.
pub(crate) fn current_root<D: Disk>(disk: &mut D) -> Result<Current, CheckFault>
    ensures found { IsTrue D.tells → IsPhase (root_finding (D.state disk.old).contents) result }
    ensures current { IfOk result (λ c. IsTrue D.tells → c.slot ≡ current_slot (D.state disk.old).contents) }
    ensures root { IfOk result (λ c. IsTrue D.tells → root_of_image (D.state disk.old).contents ≡ root_of c.body) }
    ensures slot { IfOk result (λ c. c.slot < 2) }
    ensures grammar { IfOk result (λ c. HasGeometry (root_of c.body)) }
    ensures size { IfOk result (λ c. (root_of c.body).layout.blocks ≡ (D.fixed disk.old).size) }
    ensures reads { IfOk result (λ c. (D.given disk.new).count ≤ (D.given disk.old).count + 2) }
    ensures same { IsTrue D.tells → D.state disk.new ≡ D.state disk.old }
    ensures moments { IsTrue D.tells → Adds (D.past disk.old) (D.past disk.new) (λ s. s ≡ D.state disk.old) }
    ensures fixed { D.fixed disk.new ≡ D.fixed disk.old }
    ensures cause { HasFsCause (D.faults disk.old) (D.faults disk.new) result }
{
    let current = read_current(disk)?;
    Ok(current)
}
