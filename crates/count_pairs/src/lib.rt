//! The counts of the blocks, each count block in one of two homes: what is touched is written into the home that the root doesn't name.
#![tactic(auto)]

mod count_block;
mod count_table;
mod fault;
mod homes;
mod loading;
mod writing;

pub use count_table::CountTable;
pub use fault::CountFault;
