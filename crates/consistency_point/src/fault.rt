//! Why a point isn't taken.
use disk_model::DiskFault;
use point_plan::PlanFault;
use thiserror::Error;
use vol_numbers::BlockNo;

/// Why a point was not taken. After `WriteFault` the state is spent, and after every other one all is as it was.
#[derive(Clone, Copy, Debug, PartialEq, Eq, Error)]
pub enum PointFault {
    #[error("a read failed")]
    ReadFault,
    #[error("block {0} is outside the grammar of an index block")]
    Damaged(BlockNo),
    #[error("a write or a sync failed")]
    WriteFault,
    #[error("memory is wanting")]
    OutOfMemory,
    #[error("of the {free} free blocks too few are left after the point")]
    Short { free: u32 },
}

impl From<PlanFault> for PointFault {
    ghost use Rattle.std.specs.Prelude.{◌≡◌};
    ghost use Rattle.consistency_point.specs.Cause.{fault_of};

    ghost from_gives = { λ from fault. fault ≡ fault_of from };

    fn from(fault: PlanFault) -> PointFault {
        match fault {
            PlanFault::ReadFault => PointFault::ReadFault,
            PlanFault::Damaged(b) => PointFault::Damaged(b),
            PlanFault::OutOfMemory => PointFault::OutOfMemory,
            PlanFault::Short { free } => PointFault::Short { free },
        }
    }
}

impl From<DiskFault> for PointFault {
    ghost use Rattle.std.specs.Prelude.{◌≡◌};
    ghost use Rattle.consistency_point.specs.declared.fault.PointFault.TheVariants.{WriteFault};

    ghost from_gives = { λ _ fault. fault ≡ WriteFault };

    fn from(_: DiskFault) -> PointFault {
        PointFault::WriteFault
    }
}
