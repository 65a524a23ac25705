//! Directories in memory: which names they have, with what numbers and in which slots, read from their blocks and spelled again.
#![tactic(auto)]

mod copies;
mod directory;
mod fault;
mod holes;
mod laws;
mod order;
mod reading;
mod slots;

pub use directory::{Directory, SlotList};
pub use fault::DirFault;
pub use laws::{names_are_put, names_are_removed, one_directory};
