//! Why no selection can be made.
use disk_model::DiskFault;
use std::alloc::AllocError;
use thiserror::Error;

/// Why no selection can be made.
#[derive(Clone, Copy, Debug, PartialEq, Eq, Error)]
pub enum FindFault {
    #[error("the disk failed")]
    Device,
    #[error("out of memory")]
    OutOfMemory,
}

impl From<AllocError> for FindFault {
    ghost use Rattle.std.specs.Prelude.{◌≡◌};
    ghost use Rattle.sequence_rule.specs.declared.fault.FindFault.TheVariants.{OutOfMemory};

    ghost from_gives = { λ _ fault. fault ≡ OutOfMemory };

    fn from(_: AllocError) -> FindFault {
        FindFault::OutOfMemory
    }
}

impl From<DiskFault> for FindFault {
    ghost use Rattle.std.specs.Prelude.{◌≡◌};
    ghost use Rattle.sequence_rule.specs.declared.fault.FindFault.TheVariants.{Device};

    ghost from_gives = { λ _ fault. fault ≡ Device };

    fn from(_: DiskFault) -> FindFault {
        FindFault::Device
    }
}
