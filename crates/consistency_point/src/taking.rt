//! Takes a consistency point.
ghost use Rattle.std.specs.Prelude.{◌≡◌, ◌≢◌, ◌<◌, ◌*◌, ℕ, true, false, [], length, IfOk, OnOk, OnErr, IsErrOf, IsTrue};
ghost use Rattle.vol_numbers.specs.Cause.{HasCause};
ghost use Rattle.vol_numbers.specs.Geometry.{layout_of};
ghost use Rattle.vol_numbers.specs.Layout.{count_blocks};
ghost use Rattle.disk_model.specs.Disk.{EachImage};
ghost use Rattle.disk_model.specs.Past.{Adds};
ghost use Rattle.block_tree.specs.Causes.{IsDamage};
ghost use Rattle.block_tree.specs.Tree.{blocks_in};
ghost use Rattle.count_pairs.specs.Table.{AllStand};
ghost use Rattle.dirty_store.specs.Overlay.{clean};
ghost use Rattle.image_model.specs.Findings.{free_in};
ghost use Rattle.point_plan.specs.Planning.{IsNextRoot, IsPlanWithin, IsPlannedWithin, with_free};
ghost use Rattle.point_plan.specs.State.{HoldsPoint, IsOfSize, node_in};
ghost use Rattle.volume_model.specs.Machine.{Machine, Rules, free_of};
ghost use Rattle.volume_model.specs.Point.{after_point, fresh_in};
ghost use Rattle.volume_model.specs.ReportLaws.{IsReport};
ghost use Rattle.volume_model.specs.Short.{is_short};
ghost use Rattle.consistency_point.specs.Cause.{HasPointCause, EndsBeforeWrites, HasWritten};
ghost use Rattle.consistency_point.specs.Taking.{HoldsSome, IsHeld, StandsBetween, StandsThrough, StopsWithin};
ghost use Rattle.consistency_point.specs.Writing.{IsToBeWritten, WritesSome};
ghost use Rattle.consistency_point.specs.declared.fault.PointFault.TheVariants.{Damaged, WriteFault, Short};

use crate::PointFault;
use crate::switching::write_plan;
use count_pairs::CountTable;
use dirty_store::DirtyStore;
use disk_model::{Disk, DiskFault};
use point_plan::{Plan, PointState, plan};
use root_switch::Current;
use std::alloc::Global;
use tree_model::Report;
use vol_numbers::Geometry;

/// Takes a consistency point: what was staged is written, and made current by one switch of the root. All reads and all memory come before
/// the first write. A point that ends before that leaves all as it was. After `WriteFault` the state is spent.
pub fn take<D: Disk>(
    alloc: Global,
    disk: &mut D,
    state: &mut PointState,
) -> Result<Report, PointFault>
    requires size { IsOfSize (D.fixed disk.old).size state.old }
    requires held { IsTrue D.tells → HoldsSome (D.state disk.old) state.old }

    // The report is that of one of the machine's points,
    ensures report { IfOk result (λ report. IsTrue D.tells → (r : Rules) (m : Machine) → IsHeld r m (D.state disk.old) state.old → IsReport r m report) }
    // and after it disk and memory hold the machine after that point, with nothing unsynced.
    ensures taken { IfOk result (λ report. IsTrue D.tells → (r : Rules) (m : Machine) → IsHeld r m (D.state disk.old) state.old
        → IsHeld r (after_point r m (fresh_in report)) (D.state disk.new) state.new) }
    ensures size { OnOk result (IsOfSize (D.fixed disk.new).size state.new) }
    // On every disk memory has of each number what it had.
    ensures nodes { OnOk result ((n : ℕ) → node_in state.new n ≡ node_in state.old n) }
    // At each moment each image stands for what was stored, or for what is stored after one of the points.
    ensures during { IsTrue D.tells → (r : Rules) (m : Machine) → IsHeld r m (D.state disk.old) state.old → Adds (D.past disk.old) (D.past disk.new) (EachImage (StandsThrough r m)) }
    // That point is one for all images: the one that is answered, and some point where a write fails.
    ensures between { IfOk result (λ report. IsTrue D.tells → (r : Rules) (m : Machine) → IsHeld r m (D.state disk.old) state.old → Adds (D.past disk.old) (D.past disk.new) (EachImage (StandsBetween r m report))) }
    ensures stopped { IsErrOf result WriteFault → IsTrue D.tells → (r : Rules) (m : Machine) → IsHeld r m (D.state disk.old) state.old → StopsWithin r m (D.past disk.old) (D.past disk.new) (D.state disk.new) }
    // So does each image of what a failed write leaves, and something is unsynced then.
    ensures left { IsErrOf result WriteFault → IsTrue D.tells → (r : Rules) (m : Machine) → IsHeld r m (D.state disk.old) state.old → EachImage (StandsThrough r m) (D.state disk.new) }
    ensures unsynced { IsErrOf result WriteFault → IsTrue D.tells → (D.state disk.new).unsynced ≢ [] }

    // A point that ends before its first write leaves the disk and the memory as they were.
    ensures same { EndsBeforeWrites result → IsTrue D.tells → D.state disk.new ≡ D.state disk.old }
    ensures moments { EndsBeforeWrites result → IsTrue D.tells → Adds (D.past disk.old) (D.past disk.new) (λ s. s ≡ D.state disk.old) }
    ensures unchanged { EndsBeforeWrites result → state.new ≡ state.old }

    // A point is short exactly by the rule: one that is short is not written, and no other is called short.
    ensures short { (free : ℕ) → IsErrOf result (Short free) → IsTrue D.tells → (r : Rules) (m : Machine) → IsHeld r m (D.state disk.old) state.old → (is_short m ≡ true) × (free ≡ free_of m) }
    ensures long { HasWritten result → IsTrue D.tells → (r : Rules) (m : Machine) → IsHeld r m (D.state disk.old) state.old → is_short m ≡ false }
    // A damaged block is the one that was read last, and is outside the grammar.
    ensures damaged { (b : ℕ) → IsErrOf result (Damaged b) → IsDamage (layout_of state.old.geometry) D.tells (blocks_in (D.state disk.old).contents) (D.given disk.old) (D.given disk.new) b }
    // Over a disk that tells its contents no block is damaged, since disk and memory hold a machine.
    ensures sound { (b : ℕ) → IsErrOf result (Damaged b) → IsTrue D.tells → ⊥ }

    ensures fixed { D.fixed disk.new ≡ D.fixed disk.old }
    ensures cause { HasPointCause (D.faults disk.old) (D.faults disk.new) result }
{
    let plan = plan(alloc, disk, state)?;
    let report = carry_out(alloc, disk, state, plan)?;
    Ok(report)
}

/// Carries out a plan: writes it, switches to its root, and has memory hold what is stored then. It answers the report.
pub fn carry_out<D: Disk>(
    alloc: Global,
    disk: &mut D,
    state: &mut PointState,
    plan: Plan,
) -> Result<Report, DiskFault>
    requires size { (layout_of state.old.geometry).blocks ≡ (D.fixed disk.old).size }
    requires slot { state.old.current.slot < 2 }
    requires within { IsPlanWithin (D.fixed disk.old).size plan }
    requires root { IsNextRoot state.old state.old plan }
    requires planned { IsPlannedWithin state.old }
    requires held { IsTrue D.tells → WritesSome (D.state disk.old) state.old plan }

    ensures report { IfOk result (λ report. IsTrue D.tells → (r : Rules) (m : Machine) → IsToBeWritten r m (D.state disk.old) state.old plan → IsReport r m report) }
    ensures holds { IfOk result (λ report. IsTrue D.tells → (r : Rules) (m : Machine) → IsToBeWritten r m (D.state disk.old) state.old plan
        → HoldsPoint r (after_point r m (fresh_in report)) (D.state disk.new).contents state.new) }
    ensures counted { OnOk result (IsTrue D.tells → (r : Rules) (m : Machine) → IsToBeWritten r m (D.state disk.old) state.old plan
        → AllStand (blocks_in (D.state disk.new).contents) state.new.current.body.homes.bytes (count_blocks (layout_of state.new.geometry)) state.new.counts.counts) }
    ensures synced { OnOk result (IsTrue D.tells → (D.state disk.new).unsynced ≡ []) }
    ensures size { OnOk result (IsOfSize (D.fixed disk.new).size state.new) }
    ensures rest { OnOk result (state.new ≡ record state.old { current = state.new.current; counts = state.new.counts; dirty = state.new.dirty }) }
    ensures clean { OnOk result (state.new.dirty.overlay ≡ clean) }
    ensures during { IsTrue D.tells → (r : Rules) (m : Machine) → IsToBeWritten r m (D.state disk.old) state.old plan → Adds (D.past disk.old) (D.past disk.new) (EachImage (StandsBetween r m plan.report)) }
    ensures same_point { IfOk result (λ report. fresh_in report ≡ fresh_in plan.report) }
    ensures left { OnErr result (IsTrue D.tells → (r : Rules) (m : Machine) → IsToBeWritten r m (D.state disk.old) state.old plan → EachImage (StandsBetween r m plan.report) (D.state disk.new)) }
    ensures unsynced { OnErr result (IsTrue D.tells → (D.state disk.new).unsynced ≢ []) }
    ensures fixed { D.fixed disk.new ≡ D.fixed disk.old }
    // Nothing is read.
    ensures given { D.given disk.new ≡ D.given disk.old }
    ensures cause { HasCause (D.faults disk.old) (D.faults disk.new) result }
{
    let current = write_plan(disk, state, &plan)?;
    renew(alloc, state, current);
    let mut report = plan.report;
    count_free(&mut report, &state.counts, &state.geometry);
    Ok(report)
}

/// Memory has this root, and nothing staged.
fn renew(alloc: Global, state: &mut PointState, current: Current)
    ensures rest { state.new ≡ record state.old { current = current; dirty = state.new.dirty } }
    ensures clean { state.new.dirty.overlay ≡ clean }
{
    state.current = current;
    state.dirty = DirtyStore::new(alloc);
}

/// The report tells how many blocks are free by these counts.
fn count_free(report: &mut Report, counts: &CountTable, g: &Geometry)
    requires { length counts.now.counts ≡ 1024 * count_blocks (layout_of g.now) }
    ensures { report.new ≡ with_free report.old (free_in (layout_of g.now) counts.now.counts) }
{
    report.free = free_blocks(counts, g);
}

/// How many blocks of the area have the count 0.
fn free_blocks(counts: &CountTable, g: &Geometry) -> u32
    requires { length counts.now.counts ≡ 1024 * count_blocks (layout_of g.now) }
    ensures { result ≡ free_in (layout_of g.now) counts.now.counts }
{
    let mut free = 0;
    for block in g.area_start()..g.blocks() {
        if counts.get(block) == 0 {
            free += 1;
        }
    }
    free
}
