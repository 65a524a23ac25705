//! The log of a volume: each accepted command as one record, written and read back.
#![tactic(auto)]

mod appending;
mod blocks;
mod decoding;
mod fault;
mod head;
mod laws;
mod names;
mod reading;
mod record_reading;
mod spelling;

pub use appending::append;
pub use blocks::{blocks_of, is_logged, record_blocks};
pub use fault::LogFault;
pub use laws::{
    none_behind_bad, one_command, one_log, one_record_more, one_spelling, used_blocks_tell,
};
pub use reading::read_all;
use tree_model::Command;
use vol_numbers::ItemList;

/// Commands, in the order in which they were accepted.
pub type CommandList = ItemList<Command>;
