//! Why a volume isn't good.
use count_check::CountCheckFault;
use disk_model::DiskFault;
use image_model::Finding;
use image_walk::WalkFault;
use log_check::LogCheckFault;
use name_check::NameFault;
use root_switch::RootFault;
use std::alloc::AllocError;
use thiserror::Error;

/// Why a volume isn't good, or why that can't be said.
#[derive(Clone, Copy, Debug, PartialEq, Eq, Error)]
pub enum CheckFault {
    /// The image stands for nothing, for this reason first.
    #[error("the image stands for nothing")]
    Found(Finding),
    #[error("the disk failed")]
    Device,
    #[error("out of memory")]
    OutOfMemory,
}

impl From<AllocError> for CheckFault {
    ghost use Rattle.std.specs.Prelude.{◌≡◌};
    ghost use Rattle.fs_check.specs.declared.fault.CheckFault.TheVariants.{OutOfMemory};

    ghost from_gives = { λ _ fault. fault ≡ OutOfMemory };

    fn from(_: AllocError) -> CheckFault {
        CheckFault::OutOfMemory
    }
}

impl From<DiskFault> for CheckFault {
    ghost use Rattle.std.specs.Prelude.{◌≡◌};
    ghost use Rattle.fs_check.specs.declared.fault.CheckFault.TheVariants.{Device};

    ghost from_gives = { λ _ fault. fault ≡ Device };

    fn from(_: DiskFault) -> CheckFault {
        CheckFault::Device
    }
}

impl From<RootFault> for CheckFault {
    ghost use Rattle.std.specs.Prelude.{◌≡◌};
    ghost use Rattle.fs_check.specs.Faults.{of_root};

    ghost from_gives = { λ from fault. fault ≡ of_root from };

    fn from(fault: RootFault) -> CheckFault {
        match fault {
            RootFault::NoRoot => CheckFault::Found(Finding::NoRoot),
            RootFault::BadGeometry => CheckFault::Found(Finding::BadGeometry),
            RootFault::Device => CheckFault::Device,
        }
    }
}

impl From<WalkFault> for CheckFault {
    ghost use Rattle.std.specs.Prelude.{◌≡◌};
    ghost use Rattle.fs_check.specs.Faults.{of_walk};

    ghost from_gives = { λ from fault. fault ≡ of_walk from };

    fn from(fault: WalkFault) -> CheckFault {
        match fault {
            WalkFault::Found(finding) => CheckFault::Found(finding),
            WalkFault::Device => CheckFault::Device,
            WalkFault::OutOfMemory => CheckFault::OutOfMemory,
        }
    }
}

impl From<NameFault> for CheckFault {
    ghost use Rattle.std.specs.Prelude.{◌≡◌};
    ghost use Rattle.fs_check.specs.Faults.{of_names};

    ghost from_gives = { λ from fault. fault ≡ of_names from };

    fn from(fault: NameFault) -> CheckFault {
        match fault {
            NameFault::Found(finding) => CheckFault::Found(finding),
            NameFault::Device => CheckFault::Device,
            NameFault::OutOfMemory => CheckFault::OutOfMemory,
        }
    }
}

impl From<CountCheckFault> for CheckFault {
    ghost use Rattle.std.specs.Prelude.{◌≡◌};
    ghost use Rattle.fs_check.specs.Faults.{of_counts};

    ghost from_gives = { λ from fault. fault ≡ of_counts from };

    fn from(fault: CountCheckFault) -> CheckFault {
        match fault {
            CountCheckFault::Found(finding) => CheckFault::Found(finding),
            CountCheckFault::Device => CheckFault::Device,
            CountCheckFault::OutOfMemory => CheckFault::OutOfMemory,
        }
    }
}

impl From<LogCheckFault> for CheckFault {
    ghost use Rattle.std.specs.Prelude.{◌≡◌};
    ghost use Rattle.fs_check.specs.Faults.{of_log};

    ghost from_gives = { λ from fault. fault ≡ of_log from };

    fn from(fault: LogCheckFault) -> CheckFault {
        match fault {
            LogCheckFault::Found(record) => CheckFault::Found(Finding::BadLog(record)),
            LogCheckFault::Device => CheckFault::Device,
            LogCheckFault::OutOfMemory => CheckFault::OutOfMemory,
        }
    }
}
