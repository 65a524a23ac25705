//! The free blocks of the area, and the runs that are taken of them.
#![tactic(auto)]

mod free_map;
mod order;
mod pieces;
mod rule;
mod zeros;

pub use free_map::{FreeMap, TakeFault};
pub use rule::{eight_free, taken_runs_are_the_rule};
