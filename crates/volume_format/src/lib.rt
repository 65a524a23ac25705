//! The format of a volume: the blocks of a fresh one, and the call that writes them.
#![tactic(auto)]

mod formatting;
mod fresh;

pub use formatting::format;
pub use fresh::{count_block, index_block, inode_block};
