//! Tests of what the program has of the system.
#![tactic(auto)]

#[cfg(test)]
mod files;
