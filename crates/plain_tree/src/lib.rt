//! The tree kept plainly: a list of its nodes, and each command as its rule says.
#![tactic(auto)]

mod file_bytes;
mod node_list;
mod plain_step;
mod refusals;
mod tree;

pub use tree::PlainTree;
