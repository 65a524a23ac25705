//! Writes a plan and switches to its root.
ghost use Rattle.std.specs.Prelude.{◌≡◌, ◌≢◌, ◌<◌, ◌≤◌, ◌+◌, [], false, replicate, length, IfOk, OnOk, OnErr, IsTrue};
ghost use Rattle.vol_numbers.specs.Cause.{HasCause};
ghost use Rattle.vol_numbers.specs.Geometry.{layout_of};
ghost use Rattle.vol_numbers.specs.Layout.{count_blocks};
ghost use Rattle.disk_model.specs.Disk.{EachImage};
ghost use Rattle.disk_model.specs.Past.{Adds};
ghost use Rattle.block_format.specs.Root.{root_of, HasGeometry};
ghost use Rattle.point_plan.specs.Planning.{IsPlanWithin};
ghost use Rattle.volume_model.specs.Machine.{Machine, Rules};
ghost use Rattle.consistency_point.specs.Taking.{StandsBetween};
ghost use Rattle.consistency_point.specs.Writing.{HasSwitched, IsToBeWritten, WritesSome};

use crate::blocks::write_blocks;
use block_format::{HomeBits, RootBody};
use disk_model::{Disk, DiskFault};
use point_plan::{Plan, PointState};
use root_switch::{Current, commit};

/// Writes all that a plan has, and switches to its root, which it answers. The old root stays current until all that the new one leads to is
/// on the disk.
pub(crate) fn write_plan<D: Disk>(
    disk: &mut D,
    state: &mut PointState,
    plan: &Plan,
) -> Result<Current, DiskFault>
    requires slot { state.old.current.slot < 2 }
    requires within { IsPlanWithin (D.fixed disk.old).size plan.now }
    requires grammar { HasGeometry (root_of plan.now.root) }
    requires size { (layout_of plan.now.root.geometry).blocks ≡ (D.fixed disk.old).size }
    requires homes { plan.now.root.homes ≡ state.old.current.body.homes }
    requires many { length state.old.counts.touched ≡ count_blocks (layout_of plan.now.root.geometry) }
    requires held { IsTrue D.tells → WritesSome (D.state disk.old) state.old plan.now }

    ensures slot { IfOk result (λ current. current.slot < 2) }
    ensures grammar { IfOk result (λ current. HasGeometry (root_of current.body)) }
    ensures root { IfOk result (λ current. current.body ≡ record plan.now.root { homes = current.body.homes }) }
    ensures counts { OnOk result (state.new ≡ record state.old { counts = record { counts = state.old.counts.counts; touched = replicate (length state.old.counts.touched) false } }) }
    ensures switched { IfOk result (λ current. IsTrue D.tells → (r : Rules) (m : Machine) → IsToBeWritten r m (D.state disk.old) state.old plan.now → HasSwitched (D.state disk.old) state.old.dirty.overlay plan.now state.old.counts.counts current (D.state disk.new)) }
    // At each moment, and in what a failure leaves, each image stands for what was stored, or for what is stored after the point.
    ensures during { IsTrue D.tells → (r : Rules) (m : Machine) → IsToBeWritten r m (D.state disk.old) state.old plan.now → Adds (D.past disk.old) (D.past disk.new) (EachImage (StandsBetween r m plan.now.report)) }
    ensures left { OnErr result (IsTrue D.tells → (r : Rules) (m : Machine) → IsToBeWritten r m (D.state disk.old) state.old plan.now → EachImage (StandsBetween r m plan.now.report) (D.state disk.new)) }
    ensures unsynced { OnErr result (IsTrue D.tells → (D.state disk.new).unsynced ≢ []) }
    ensures fixed { D.fixed disk.new ≡ D.fixed disk.old }
    ensures given { D.given disk.new ≡ D.given disk.old }
    ensures cause { HasCause (D.faults disk.old) (D.faults disk.new) result }
{
    write_blocks(disk, &state.dirty, plan)?;
    let homes = state.counts.write_changed(disk, &state.current.body.homes)?;
    let body = next_root(&plan.root, homes);
    let slot = commit(disk, state.current.slot, &body)?;
    Ok(Current { slot, body })
}

/// The root that names what was written of the counts.
fn next_root(root: &RootBody, homes: HomeBits) -> RootBody
    ensures { result ≡ record root.now { homes = homes } }
{
    RootBody { homes, ..*root }
}
