//! Why a text wasn't put whole.
use thiserror::Error;

/// A text wasn't put whole.
#[derive(Clone, Copy, Debug, PartialEq, Eq, Error)]
pub enum PutFault {
    /// A call of the sink failed.
    #[error("a call of the sink failed")]
    Sink,
    /// Memory was wanting, before anything was put.
    #[error("memory was wanting")]
    OutOfMemory,
}
