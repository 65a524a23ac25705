//! Why a directory isn't read.
use std::alloc::AllocError;
use thiserror::Error;

/// Why no directory is read from its blocks.
#[derive(Clone, Copy, Debug, PartialEq, Eq, Error)]
pub enum DirFault {
    #[error("a slot is outside the grammar, or holds an entry behind the width, or has the name of another")]
    BadSlots,
    #[error("out of memory")]
    OutOfMemory,
}

impl From<AllocError> for DirFault {
    ghost use Rattle.std.specs.Prelude.{◌≡◌};
    ghost use Rattle.dir_slots.specs.declared.fault.DirFault.TheVariants.{OutOfMemory};

    ghost from_gives = { λ _ fault. fault ≡ OutOfMemory };

    fn from(_: AllocError) -> DirFault {
        DirFault::OutOfMemory
    }
}
