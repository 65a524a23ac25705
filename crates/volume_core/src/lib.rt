//! The volume: it answers each command from the tree on its disk and from what is staged over it.
#![tactic(auto)]

mod answering;
mod changing;
mod given;
mod looking;
mod points;
mod replying;
mod staging;
mod telling;
mod volume;

pub use given::{Given, Stopped};
pub use volume::Volume;
