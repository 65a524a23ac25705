//! Why a point isn't planned.
use run_allocator::TakeFault;
use std::alloc::AllocError;
use thiserror::Error;
use vol_numbers::BlockNo;

/// Why a point was not planned. All is as it was.
#[derive(Clone, Copy, Debug, PartialEq, Eq, Error)]
pub enum PlanFault {
    #[error("a read failed")]
    ReadFault,
    #[error("block {0} is outside the grammar of an index block")]
    Damaged(BlockNo),
    #[error("memory is wanting")]
    OutOfMemory,
    #[error("of the {free} free blocks too few are left after the point")]
    Short { free: u32 },
}

impl From<AllocError> for PlanFault {
    ghost use Rattle.std.specs.Prelude.{◌≡◌};
    ghost use Rattle.point_plan.specs.declared.fault.PlanFault.TheVariants.{OutOfMemory};

    ghost from_gives = { λ _ fault. fault ≡ OutOfMemory };

    fn from(_: AllocError) -> PlanFault {
        PlanFault::OutOfMemory
    }
}

impl From<TakeFault> for PlanFault {
    ghost use Rattle.std.specs.Prelude.{◌≡◌};
    ghost use Rattle.point_plan.specs.PlacedFresh.{as_taken_fault};

    ghost from_gives = { λ take fault. fault ≡ as_taken_fault take };

    fn from(fault: TakeFault) -> PlanFault {
        match fault {
            TakeFault::Short { free } => PlanFault::Short { free },
            TakeFault::OutOfMemory => PlanFault::OutOfMemory,
        }
    }
}
