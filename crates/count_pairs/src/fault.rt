//! Why counts aren't read.
use disk_model::DiskFault;
use std::alloc::AllocError;
use thiserror::Error;

/// Why the counts of a volume were not read.
#[derive(Clone, Copy, Debug, PartialEq, Eq, Error)]
pub enum CountFault {
    #[error("the disk failed")]
    Device,
    #[error("memory is wanting")]
    OutOfMemory,
}

impl From<AllocError> for CountFault {
    ghost use Rattle.std.specs.Prelude.{◌≡◌};
    ghost use Rattle.count_pairs.specs.declared.fault.CountFault.TheVariants.{OutOfMemory};

    ghost from_gives = { λ _ fault. fault ≡ OutOfMemory };

    fn from(_: AllocError) -> CountFault {
        CountFault::OutOfMemory
    }
}

impl From<DiskFault> for CountFault {
    ghost use Rattle.std.specs.Prelude.{◌≡◌};
    ghost use Rattle.count_pairs.specs.declared.fault.CountFault.TheVariants.{Device};

    ghost from_gives = { λ _ fault. fault ≡ Device };

    fn from(_: DiskFault) -> CountFault {
        CountFault::Device
    }
}
