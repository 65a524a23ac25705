//! Tests of the blocks of a volume: what they spell, how often each is pointed to, which are free and which are taken, trees of them,
//! what commands are charged, and directories.
#![tactic(auto)]

#[cfg(test)]
mod charges;
#[cfg(test)]
mod counts;
#[cfg(test)]
mod directories;
#[cfg(test)]
mod formats;
#[cfg(test)]
mod roots;
#[cfg(test)]
mod runs;
#[cfg(test)]
mod trees;
