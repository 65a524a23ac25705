//! What a volume answers to a command.
use tree_model::Reply;

/// A reply of the tree; or the log has no room for the record of a command that the tree doesn't refuse, and all is as before.
#[derive(Drop)]
pub enum Answer {
    Reply(Reply),
    LogFull,
}

/// Why a volume did nothing.
#[derive(Clone, Copy, Debug, PartialEq, Eq)]
pub enum Stopped {
    /// A write or a sync failed in this call. Only a mount can say whether the command is in the log.
    Now,
    /// One had failed in an earlier call.
    Before,
}
