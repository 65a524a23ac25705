//! What is read and taken for a plan before anything in memory changes.
ghost use Rattle.std.specs.Prelude.{◌≡◌, ◌<◌, ◌≤◌, ℕ, true, IfOk, IsErrOf, IsTrue, length};
ghost use Rattle.vol_numbers.specs.Geometry.{layout_of};
ghost use Rattle.disk_model.specs.Past.{Adds};
ghost use Rattle.block_tree.specs.Causes.{IsDamage};
ghost use Rattle.block_tree.specs.Tree.{blocks_in};
ghost use Rattle.dirty_store.specs.Numbers.{AreOnce, staged_numbers};
ghost use Rattle.point_plan.specs.Cause.{HasPlanCause};
ghost use Rattle.point_plan.specs.Free.{free_now};
ghost use Rattle.point_plan.specs.Gathered.{ArePlannedOver, IsGathered};
ghost use Rattle.point_plan.specs.PlacedFresh.{ArePlacedFresh, as_plan_fault};
ghost use Rattle.point_plan.specs.Planning.{SharesNothing};
ghost use Rattle.point_plan.specs.State.{HoldsPoint, IsOfSize};
ghost use Rattle.point_plan.specs.declared.fault.PlanFault.TheVariants.{Damaged, Short};
ghost use Rattle.volume_model.specs.Machine.{Machine, Rules, free_of};
ghost use Rattle.volume_model.specs.Short.{is_short};

use crate::nodes::plan_nodes;
use crate::plan_laws::short_points;
use crate::{PlanFault, PlannedNodeList, PointState};
use disk_model::Disk;
use fresh_runs::{Placed, place_fresh};
use node_plan::NodeFault;
use run_allocator::FreeMap;
use std::alloc::{AllocError, Global};
use tree_model::LineList;
use vol_numbers::{CountList, InoNo};

/// What is read and taken for a plan.
#[derive(Drop)]
pub(crate) struct Gathered {
    /// The changed nodes, by number.
    pub nodes: PlannedNodeList,
    /// The fresh lines of the report.
    pub lines: LineList,
    /// The blocks that are still free.
    pub left: FreeMap,
    /// How many blocks are free at the last point.
    pub free: u32,
    /// How many places are dirty.
    pub dirty: u32,
}

/// Reads and takes what a plan is made of: fresh blocks for the dirty places, and a plan of each staged number. It writes nothing.
pub(crate) fn gather<D: Disk>(
    alloc: Global,
    disk: &mut D,
    state: &PointState,
) -> Result<Gathered, PlanFault>
    requires size { IsOfSize (D.fixed disk.old).size state.now }
    ensures gathered { IfOk result (IsGathered state.now) }
    ensures over { IfOk result (λ g. IsTrue D.tells → (r : Rules) (m : Machine) → SharesNothing r → HoldsPoint r m (D.state disk.old).contents state.now → ArePlannedOver r m (D.state disk.old).contents state.now g) }
    ensures short { (free : ℕ) → IsErrOf result (Short free) → IsTrue D.tells → (r : Rules) (m : Machine) → SharesNothing r → HoldsPoint r m (D.state disk.old).contents state.now → (is_short m ≡ true) × (free ≡ free_of m) }
    ensures damaged { (b : ℕ) → IsErrOf result (Damaged b) → IsDamage (layout_of state.now.geometry) D.tells (blocks_in (D.state disk.old).contents) (D.given disk.old) (D.given disk.new) b }
    // Over contents that hold a machine no block is damaged.
    ensures sound { (b : ℕ) → IsErrOf result (Damaged b) → IsTrue D.tells → (r : Rules) (m : Machine) → HoldsPoint r m (D.state disk.old).contents state.now → ⊥ }
    ensures same { IsTrue D.tells → D.state disk.new ≡ D.state disk.old }
    ensures moments { IsTrue D.tells → Adds (D.past disk.old) (D.past disk.new) (λ s. s ≡ D.state disk.old) }
    ensures fixed { D.fixed disk.new ≡ D.fixed disk.old }
    ensures cause { HasPlanCause (D.faults disk.old) (D.faults disk.new) result }
{
    short_points();
    let free = free_blocks(alloc, state)?;
    let numbers = state.dirty.numbers(alloc)?;
    let placed = place_fresh(alloc, &state.dirty, numbers.as_slice(), &free)?;
    with_nodes(alloc, disk, state, numbers.as_slice(), free.free(), placed)
}

/// What is planned of the staged numbers, and all that was gathered.
fn with_nodes<D: Disk>(
    alloc: Global,
    disk: &mut D,
    state: &PointState,
    numbers: &[InoNo],
    free: u32,
    placed: Placed,
) -> Result<Gathered, PlanFault>
    requires size { IsOfSize (D.fixed disk.old).size state.now }
    requires numbers { AreOnce (staged_numbers state.now.dirty.overlay) numbers.now }
    requires free { free ≡ length (free_now state.now) }
    requires placed { ArePlacedFresh state.now numbers.now placed }
    ensures gathered { IfOk result (IsGathered state.now) }
    ensures over { IfOk result (λ g. IsTrue D.tells → (r : Rules) (m : Machine) → SharesNothing r → HoldsPoint r m (D.state disk.old).contents state.now → ArePlannedOver r m (D.state disk.old).contents state.now g) }
    ensures short { (free : ℕ) → IsErrOf result (Short free) → IsTrue D.tells → (r : Rules) (m : Machine) → SharesNothing r → HoldsPoint r m (D.state disk.old).contents state.now → (is_short m ≡ true) × (free ≡ free_of m) }
    ensures damaged { (b : ℕ) → IsErrOf result (Damaged b) → IsDamage (layout_of state.now.geometry) D.tells (blocks_in (D.state disk.old).contents) (D.given disk.old) (D.given disk.new) b }
    // Over contents that hold a machine no block is damaged.
    ensures sound { (b : ℕ) → IsErrOf result (Damaged b) → IsTrue D.tells → (r : Rules) (m : Machine) → HoldsPoint r m (D.state disk.old).contents state.now → ⊥ }
    ensures same { IsTrue D.tells → D.state disk.new ≡ D.state disk.old }
    ensures moments { IsTrue D.tells → Adds (D.past disk.old) (D.past disk.new) (λ s. s ≡ D.state disk.old) }
    ensures fixed { D.fixed disk.new ≡ D.fixed disk.old }
    ensures cause { HasPlanCause (D.faults disk.old) (D.faults disk.new) result }
{
    short_points();
    let mut left = placed.left;
    match plan_nodes(alloc, disk, state, numbers, &placed.changes, &mut left) {
        Ok(nodes) => Ok(Gathered {
            nodes,
            lines: placed.lines,
            left,
            free,
            dirty: placed.blocks,
        }),
        Err(fault) => Err(node_fault(fault, free)),
    }
}

/// Why a point isn't planned, of which a number can't be.
fn node_fault(fault: NodeFault, free: u32) -> PlanFault
    ensures { result ≡ as_plan_fault fault free }
{
    match fault {
        NodeFault::ReadFault => PlanFault::ReadFault,
        NodeFault::Damaged(block) => PlanFault::Damaged(block),
        NodeFault::OutOfMemory => PlanFault::OutOfMemory,
        NodeFault::Short => PlanFault::Short { free },
    }
}

/// The blocks that the counts in memory call free.
pub(crate) fn free_blocks(alloc: Global, state: &PointState) -> Result<FreeMap, AllocError>
    requires { (layout_of state.now.geometry).blocks ≤ length state.now.counts.counts }
    ensures { IfOk result (λ free. free ≡ free_now state.now) }
{
    let counts = CountList::from_vec(state.counts.as_slice().to_vec(alloc)?);
    FreeMap::of(alloc, &counts, &state.geometry)
}
