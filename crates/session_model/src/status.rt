//! How a session ends.

/// How a call of the program ends.
#[derive(Clone, Copy, Debug, PartialEq, Eq)]
pub enum Status {
    /// The action is done.
    Done,
    /// The words, an option or a number are outside the table of actions.
    Usage,
    /// The image stands for nothing.
    BadVolume,
    /// The disk failed.
    Device,
    /// The source failed.
    SourceFailed,
    /// The sink failed.
    SinkFailed,
    /// Memory was wanting.
    NoMemory,
    /// The input is no list of lines.
    BadStream,
    /// The input is longer than a session may be.
    Budget,
}
