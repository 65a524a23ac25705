//! Why a walk ends early.
use disk_model::DiskFault;
use image_model::Finding;
use std::alloc::AllocError;
use thiserror::Error;

/// Why a walk ends early.
#[derive(Clone, Copy, Debug, PartialEq, Eq, Error)]
pub enum WalkFault {
    /// The image stands for nothing, for this reason first.
    #[error("the image stands for nothing")]
    Found(Finding),
    #[error("the disk failed")]
    Device,
    #[error("out of memory")]
    OutOfMemory,
}

impl From<AllocError> for WalkFault {
    ghost use Rattle.std.specs.Prelude.{◌≡◌};
    ghost use Rattle.image_walk.specs.declared.fault.WalkFault.TheVariants.{OutOfMemory};

    ghost from_gives = { λ _ fault. fault ≡ OutOfMemory };

    fn from(_: AllocError) -> WalkFault {
        WalkFault::OutOfMemory
    }
}

impl From<DiskFault> for WalkFault {
    ghost use Rattle.std.specs.Prelude.{◌≡◌};
    ghost use Rattle.image_walk.specs.declared.fault.WalkFault.TheVariants.{Device};

    ghost from_gives = { λ _ fault. fault ≡ Device };

    fn from(_: DiskFault) -> WalkFault {
        WalkFault::Device
    }
}
