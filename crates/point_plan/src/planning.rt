//! Plans a point.
ghost use Rattle.std.specs.Prelude.{◌≡◌, ◌<◌, ◌≤◌, ◌+◌, ◌-◌, ◌^◌, ℕ, true, IfOk, OnOk, OnErr, IsErrOf, IsTrue, length};
ghost use Rattle.vol_numbers.specs.Geometry.{layout_of};
ghost use Rattle.disk_model.specs.Past.{Adds};
ghost use Rattle.block_tree.specs.Causes.{IsDamage};
ghost use Rattle.block_tree.specs.Tree.{blocks_in};
ghost use Rattle.count_pairs.specs.Homes.{Blocks};
ghost use Rattle.count_pairs.specs.Table.{IsKept};
ghost use Rattle.dirty_store.specs.Overlay.{clean};
ghost use Rattle.dirty_store.specs.Undo.{Store};
ghost use Rattle.inode_file.specs.Counting.{used_positions};
ghost use Rattle.point_plan.specs.Cause.{HasPlanCause};
ghost use Rattle.point_plan.specs.Gathered.{IsGathered};
ghost use Rattle.point_plan.specs.NoRoom.{HasNoRoom};
ghost use Rattle.point_plan.specs.Nodes.{Ascend};
ghost use Rattle.point_plan.specs.Planning.{HoldsSome, IsNextRoot, IsPlan, IsPlanWithin, IsPlannedWithin, SharesNothing};
ghost use Rattle.point_plan.specs.PutFrom.{IsPutFrom, room_had, room_needed};
ghost use Rattle.point_plan.specs.State.{HoldsPoint, IsOfSize, node_in};
ghost use Rattle.point_plan.specs.declared.fault.PlanFault.TheVariants.{Damaged, Short};
ghost use Rattle.volume_model.specs.Machine.{Machine, Rules, free_of};
ghost use Rattle.volume_model.specs.Short.{is_short};

use crate::finishing::finish;
use crate::gathering::{Gathered, gather};
use crate::laws::point_rests;
use crate::plan_laws::{gathered_is_counted, put_together_is_plan};
use crate::preparing::{Prepared, prepare};
use crate::renewing::{RenewFault, Room};
use crate::totals::{totals_of, wide};
use crate::{Plan, PlanFault, PointState};
use disk_model::Disk;
use inode_file::InodeFile;
use point_model::planned_is_seen;
use std::alloc::Global;

/// Plans a point. It reads and takes memory, and writes nothing.
pub fn plan<D: Disk>(alloc: Global, disk: &mut D, state: &mut PointState) -> Result<Plan, PlanFault>
    requires size { IsOfSize (D.fixed disk.old).size state.old }
    requires held { IsTrue D.tells → HoldsSome (D.state disk.old).contents state.old }
    ensures rest { OnOk result (state.new ≡ record state.old { inodes = state.new.inodes; counts = state.new.counts; directories = state.new.directories; metadata = state.new.metadata }) }
    ensures planned { IfOk result (λ p. IsTrue D.tells → (r : Rules) (m : Machine) → SharesNothing r → HoldsPoint r m (D.state disk.old).contents state.old → IsPlan r m (D.state disk.old).contents state.old state.new p) }
    ensures within { IfOk result (λ p. IsPlanWithin (D.fixed disk.old).size p) }
    ensures root { IfOk result (λ p. IsNextRoot state.old state.new p) }
    ensures kept { OnOk result ((read : Blocks) (homes : _) → IsKept read homes state.old.counts → IsKept read homes state.new.counts) }
    ensures settled { OnOk result (IsPlannedWithin state.new) }
    // Once nothing is staged, memory has of each number what it has now.
    ensures nodes { OnOk result ((dirty : Store) → dirty.overlay ≡ clean → (n : ℕ) → node_in (record state.new { dirty = dirty }) n ≡ node_in state.old n) }
    ensures unchanged { OnErr result (state.new ≡ state.old) }
    ensures short { (free : ℕ) → IsErrOf result (Short free) → IsTrue D.tells → (r : Rules) (m : Machine) → SharesNothing r → HoldsPoint r m (D.state disk.old).contents state.old → (is_short m ≡ true) × (free ≡ free_of m) }
    ensures damaged { (b : ℕ) → IsErrOf result (Damaged b) → IsDamage (layout_of state.old.geometry) D.tells (blocks_in (D.state disk.old).contents) (D.given disk.old) (D.given disk.new) b }
    // Over a disk that tells its contents no block is damaged, since these hold a machine.
    ensures sound { (b : ℕ) → IsErrOf result (Damaged b) → IsTrue D.tells → ⊥ }
    ensures same { IsTrue D.tells → D.state disk.new ≡ D.state disk.old }
    ensures moments { IsTrue D.tells → Adds (D.past disk.old) (D.past disk.new) (λ s. s ≡ D.state disk.old) }
    ensures fixed { D.fixed disk.new ≡ D.fixed disk.old }
    ensures cause { HasPlanCause (D.faults disk.old) (D.faults disk.new) result }
{
    gathered_is_counted();
    put_together_is_plan();
    point_rests();
    planned_is_seen();
    match gather(alloc, disk, state) {
        Ok(gathered) => put_together(alloc, state, gathered),
        Err(fault) => Err(fault),
    }
}

/// Makes a plan of what was gathered, and gives memory what it is after the plan. A failure leaves all as it was.
fn put_together(
    alloc: Global,
    state: &mut PointState,
    mut gathered: Gathered,
) -> Result<Plan, PlanFault>
    requires size { IsOfSize (layout_of state.old.geometry).blocks state.old }
    requires gathered { IsGathered state.old gathered }
    ensures put { IfOk result (IsPutFrom state.old state.new gathered) }
    ensures kept { OnOk result ((read : Blocks) (homes : _) → IsKept read homes state.old.counts → IsKept read homes state.new.counts) }
    ensures unchanged { OnErr result (state.new ≡ state.old) }
    ensures short { (free : ℕ) → IsErrOf result (Short free) → (free ≡ gathered.free) × HasNoRoom state.old.inodes.inodes gathered.nodes (room_had state.old gathered) (room_needed state.old gathered) (length gathered.left) }
    ensures undamaged { (b : ℕ) → IsErrOf result (Damaged b) → ⊥ }
    ensures cause { (faults : ℕ) → HasPlanCause faults faults result }
{
    let room = room_for(state, &gathered);
    let free = gathered.free;
    match prepare(alloc, state, &mut gathered, &room) {
        Ok(
            Prepared {
                mut fresh,
                rewritten,
            },
        ) => {
            let metadata = metadata_after(&state.inodes, &gathered, &room);
            Ok(finish(state, gathered, &mut fresh, rewritten, metadata))
        }
        Err(RenewFault::OutOfMemory) => Err(PlanFault::OutOfMemory),
        Err(RenewFault::Short) => Err(PlanFault::Short { free }),
    }
}

/// How many blocks there may be, and how many are needed besides the inode blocks of after.
fn room_for(state: &PointState, gathered: &Gathered) -> Room
    requires { Ascend 1 gathered.now.nodes }
    ensures have { result.have ≡ room_had state.now gathered.now }
    ensures need { result.need ≡ room_needed state.now gathered.now }
    ensures small { result.need < 2 ^ 63 }
{
    let totals = totals_of(gathered.nodes.as_slice());
    let used = wide(state.inodes.used_blocks());
    Room {
        have: wide(gathered.free) + (totals.had + used),
        need: wide(state.metadata) + totals.given + wide(gathered.dirty) + 16,
    }
}

/// How many blocks of metadata there are after the point, with these inodes.
fn metadata_after(inodes: &InodeFile, gathered: &Gathered, room: &Room) -> u32
    requires need { gathered.now.dirty + 16 ≤ room.now.need }
    requires have { gathered.now.free ≤ room.now.have }
    requires room { room.now.need + used_positions inodes.now.inodes ≤ room.now.have }
    ensures { result ≡ (room.now.need - (gathered.now.dirty + 16) + used_positions inodes.now.inodes) - (room.now.have - gathered.now.free) }
{
    let used = wide(inodes.used_blocks());
    let given = room.need - (wide(gathered.dirty) + 16) + used;
    let had = room.have - wide(gathered.free);
    given.saturating_sub(had) as u32
}
