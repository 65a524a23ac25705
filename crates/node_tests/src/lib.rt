//! Tests of number sets and of node tables: sessions of commands, with the changes and the refusals that the rules of the tree give.
#![tactic(auto)]

#[cfg(test)]
mod acts;
#[cfg(test)]
mod numbers;
#[cfg(test)]
mod sessions;
