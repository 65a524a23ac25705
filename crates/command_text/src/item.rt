//! What is read of a session's text.
use tree_model::{Command, Refusal};

/// A command, or a line that is none, or the end of the session.
#[derive(Drop)]
pub enum Item {
    /// What the client asks for.
    Command(Command),
    /// A line that is no command, by `BadCommand`, or that names no path, by `BadName`.
    Refused(Refusal),
    /// The session has ended.
    Ended,
}
