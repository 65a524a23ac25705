//! Tests of the phases of a volume's check that follow the walk: counts, tails of files and directories.
#![tactic(auto)]

#[cfg(test)]
mod counting;
#[cfg(test)]
mod volume;
