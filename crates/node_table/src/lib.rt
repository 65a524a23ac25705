//! The nodes of a volume in memory, without the bytes of files: which there are, where a path leads, why a command is refused, and what a change does.
#![tactic(auto)]

mod change;
mod changes;
mod checks;
mod counted;
mod held;
mod listing;
mod nodes;
mod planning;
mod table;
mod walks;

pub use change::Change;
pub use changes::last_name;
pub use held::{FoundNode, NodeInfo};
pub use table::NodeTable;
