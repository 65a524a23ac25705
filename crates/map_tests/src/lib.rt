//! Tests of maps from places to blocks that are rewritten.
#![tactic(auto)]

#[cfg(test)]
mod faults;
#[cfg(test)]
mod sizes;
#[cfg(test)]
mod steps;
