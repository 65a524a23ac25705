//! A call of the system on an image, and how it failed.
ghost use Rattle.std.specs.Prelude.{◌≡◌, IfOk, Ok};

use std::{fmt, io};
use vol_numbers::BlockNo;

/// What was asked of the system.
#[derive(Clone, Copy, Debug, PartialEq, Eq)]
pub enum ImageCall {
    /// To open the file for reading and writing.
    Open,
    /// To lock it, so that no other server has it.
    Lock,
    /// To give it its length.
    Resize,
    /// To tell its length.
    Measure,
    /// To drop what the system holds of it in memory.
    Forget,
    /// To read a block.
    Read(BlockNo),
    /// To write a block.
    Write(BlockNo),
    /// To have what was written on the disk.
    Sync,
    /// To have the file's entry on the disk.
    SyncFolder,
}

/// A call that failed, with the system's words for it.
#[derive(Clone, Copy, Debug)]
pub struct Failure {
    call: ImageCall,
    error: io::Error,
}

impl ImageCall {
    /// What the call answered; where that is an error, with the call that it is of.
    pub(crate) fn answered<T>(self, answer: io::Result<T>) -> Result<T, Failure>
        ensures { IfOk result (λ value. answer ≡ Ok value) }
    {
        match answer {
            Ok(value) => Ok(value),
            Err(error) => Err(Failure { call: self, error }),
        }
    }
}

impl Failure {
    /// Whether it was memory that was wanting.
    pub(crate) fn is_want_of_memory(&self) -> bool {
        self.error.kind() == io::ErrorKind::OutOfMemory
    }
}

impl fmt::Display for ImageCall {
    fn fmt<W: fmt::Write>(&self, f: &mut fmt::Formatter<W>) -> fmt::Result {
        match self {
            ImageCall::Open => f.write_str("open"),
            ImageCall::Lock => f.write_str("lock"),
            ImageCall::Resize => f.write_str("change of its length"),
            ImageCall::Measure => f.write_str("look at its length"),
            ImageCall::Forget => f.write_str("drop of the copies in memory"),
            ImageCall::Read(at) => write!(f, "read of block {at}"),
            ImageCall::Write(at) => write!(f, "write of block {at}"),
            ImageCall::Sync => f.write_str("sync"),
            ImageCall::SyncFolder => f.write_str("sync of its folder"),
        }
    }
}

impl fmt::Display for Failure {
    fn fmt<W: fmt::Write>(&self, f: &mut fmt::Formatter<W>) -> fmt::Result {
        let call = self.call;
        let error = self.error;
        write!(f, "{call}: {error}")
    }
}
