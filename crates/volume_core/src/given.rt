//! What a volume answers.
use block_tree::TreeFault;
use tree_model::{Answer, Report};

/// What a command is answered for now: an answer, or that a point is due which lacks blocks.
#[derive(Drop)]
pub enum Given {
    Answered(Answer),
    PointShort,
}

/// Why a volume did nothing more.
#[derive(Clone, Copy, Debug, PartialEq, Eq)]
pub enum Stopped {
    /// A write or a sync failed in this call. Only a mount can say what of the command was done.
    Now,
    /// One had failed in an earlier call.
    Before,
}

/// How a command was begun.
#[derive(Drop)]
pub(crate) enum Begun {
    /// It is to be answered now, behind the report of the point that was due, or with none due.
    Ready(Option<Report>),
    /// It has its answer: the point that was due was not taken.
    Given(Given),
}

/// Why a change wasn't done.
#[derive(Clone, Copy, Debug, PartialEq, Eq)]
pub(crate) enum Undone {
    /// It ended before any write.
    Fault(TreeFault),
    /// A write or a sync failed.
    Stopped,
}
