//! Why a log isn't accepted.
use std::alloc::AllocError;
use thiserror::Error;

/// Why the records of a log were not accepted.
#[derive(Clone, Copy, Debug, PartialEq, Eq, Error)]
pub enum LogCheckFault {
    /// The first record, from 0 on, that is none, passes the used blocks, is refused by the tree or costs more than is free. Or all records are
    /// accepted, this is their number, and they take fewer blocks than the root says.
    #[error("record {0} of the log is bad")]
    Found(u32),
    #[error("the disk failed")]
    Device,
    #[error("memory is wanting")]
    OutOfMemory,
}

impl From<AllocError> for LogCheckFault {
    ghost use Rattle.std.specs.Prelude.{◌≡◌};
    ghost use Rattle.log_check.specs.declared.fault.LogCheckFault.TheVariants.{OutOfMemory};

    ghost from_gives = { λ _ fault. fault ≡ OutOfMemory };

    fn from(_: AllocError) -> LogCheckFault {
        LogCheckFault::OutOfMemory
    }
}
