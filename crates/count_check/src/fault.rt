//! Why counts aren't given.
use count_pairs::CountFault;
use image_model::Finding;
use thiserror::Error;

/// Why the counts of a volume are not given.
#[derive(Clone, Copy, Debug, PartialEq, Eq, Error)]
pub enum CountCheckFault {
    /// The image stands for nothing, for this reason first.
    #[error("the image stands for nothing")]
    Found(Finding),
    #[error("the disk failed")]
    Device,
    #[error("out of memory")]
    OutOfMemory,
}

impl From<CountFault> for CountCheckFault {
    ghost use Rattle.std.specs.Prelude.{◌≡◌};
    ghost use Rattle.count_check.specs.Cause.{fault_of};

    ghost from_gives = { λ from fault. fault ≡ fault_of from };

    fn from(fault: CountFault) -> CountCheckFault {
        match fault {
            CountFault::Device => CountCheckFault::Device,
            CountFault::OutOfMemory => CountCheckFault::OutOfMemory,
        }
    }
}
