//! Tests of directories that are held by their numbers, and of their copies.
#![tactic(auto)]

#[cfg(test)]
mod lists;
