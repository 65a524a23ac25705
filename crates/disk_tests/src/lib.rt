//! Tests of disks and media in memory.
#![tactic(auto)]

#[cfg(test)]
mod disks;
#[cfg(test)]
mod media;
#[cfg(test)]
mod moments;
