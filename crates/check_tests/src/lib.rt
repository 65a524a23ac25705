//! Tests of a volume's check: what is found in images that are bad in one place, and the numbers of those that are good.
#![tactic(auto)]

#[cfg(test)]
mod good;
#[cfg(test)]
mod nodes;
#[cfg(test)]
mod spaces;
#[cfg(test)]
mod walks;
