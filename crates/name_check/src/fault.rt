//! Why no directories are given.
use disk_model::DiskFault;
use image_model::Finding;
use std::alloc::AllocError;
use thiserror::Error;

/// Why no directories are given.
#[derive(Clone, Copy, Debug, PartialEq, Eq, Error)]
pub enum NameFault {
    /// The image stands for nothing, for this reason first.
    #[error("the image stands for nothing")]
    Found(Finding),
    #[error("the disk failed")]
    Device,
    #[error("out of memory")]
    OutOfMemory,
}

impl From<AllocError> for NameFault {
    ghost use Rattle.std.specs.Prelude.{◌≡◌};
    ghost use Rattle.name_check.specs.declared.fault.NameFault.TheVariants.{OutOfMemory};

    ghost from_gives = { λ _ fault. fault ≡ OutOfMemory };

    fn from(_: AllocError) -> NameFault {
        NameFault::OutOfMemory
    }
}

impl From<DiskFault> for NameFault {
    ghost use Rattle.std.specs.Prelude.{◌≡◌};
    ghost use Rattle.name_check.specs.declared.fault.NameFault.TheVariants.{Device};

    ghost from_gives = { λ _ fault. fault ≡ Device };

    fn from(_: DiskFault) -> NameFault {
        NameFault::Device
    }
}
