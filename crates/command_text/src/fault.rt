//! Why nothing was read.
use thiserror::Error;

/// No item was read.
#[derive(Clone, Copy, Debug, PartialEq, Eq, Error)]
pub enum TextFault {
    /// A call of the source failed.
    #[error("a call of the source failed")]
    Source,
    /// The input ends inside a line or its data, a line is longer than 8,192 bytes, or the byte behind data is no newline.
    #[error("the bytes are no text of a session")]
    BadStream,
    /// As many bytes as the budget allows were taken, and another is needed.
    #[error("the budget is spent")]
    Budget,
    /// Memory was wanting.
    #[error("memory was wanting")]
    OutOfMemory,
}
