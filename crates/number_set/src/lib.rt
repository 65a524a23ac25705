//! A set of small numbers as a bitmap, with two levels above it that say which words are full.
#![tactic(auto)]

mod bits;
mod set;

pub use set::{MOST_NUMBER, NumberSet};
