//! Tests of what is found in directories and files: trees, and entries that make none.
#![tactic(auto)]

#[cfg(test)]
mod built;
#[cfg(test)]
mod trees;
