//! Why a log isn't read.
use thiserror::Error;

/// Why the records of a log were not read.
#[derive(Clone, Copy, Debug, PartialEq, Eq, Error)]
pub enum LogFault {
    #[error("the disk failed")]
    Device,
    /// The number of the record, from 0.
    #[error("record {0} of the log is no record, or passes the used blocks")]
    BadRecord(u32),
    #[error("memory is wanting")]
    OutOfMemory,
}

/// Why no block was read.
#[derive(Clone, Copy)]
pub(crate) enum ReadFault {
    Device,
    OutOfMemory,
}
