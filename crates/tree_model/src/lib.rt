//! The tree: its commands and replies, what each command does to it, and the laws of that.
#![tactic(auto)]

mod command;
mod laws;
mod node;
mod path;
pub mod path_names;
mod refusal;
mod reply;
mod report;

pub use command::{Command, MOST_BYTES, Payload, ReadLength, TooLong};
pub use laws::{
    changes_are_done, entries_are, gives_least, keeps_order, keeps_tree, new_directories_are_empty,
    nodes_follow, put_at, reading_leaves, refusal_tells, refused_leaves, renames_move, same_tree,
    touches_only, touches_written, widths_are_greatest, widths_never_fall,
};
pub use node::{Content, NameList, Node};
pub use path::{BadPath, Path};
pub use refusal::Refusal;
pub use reply::{Entry, EntryList, Kind, Piece, PieceList, Reply};
pub use report::{Answer, Line, LineKind, LineList, Report};
