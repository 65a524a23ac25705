//! The inodes of a volume in memory: by number, with the least unused number, and the inode blocks that are written afresh where they change.
#![tactic(auto)]

mod inode_block;
mod known;
mod laws;
mod loading;
mod notes;
mod renewal;
mod table;
mod taken;

pub use known::is_whole;
pub use laws::{not_damaged, number_spelled, one_table, table_stays, tree_of_table};
pub use table::InodeFile;
