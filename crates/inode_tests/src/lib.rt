//! Tests of the inodes in memory: read from blocks, changed, rewritten and read again.
#![tactic(auto)]

#[cfg(test)]
mod damage;
#[cfg(test)]
mod numbers;
#[cfg(test)]
mod rewriting;
#[cfg(test)]
mod volume;
