//! Directories in memory, each with the number of its node, in the order of the numbers.
#![tactic(auto)]

mod held;
mod list;
mod places;

pub use held::Held;
pub use list::HeldList;
