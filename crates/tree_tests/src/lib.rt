//! Tests of the tree and of the log: sessions by the rules of the tree, and records by the bytes of the format.
#![tactic(auto)]

#[cfg(test)]
mod acts;
#[cfg(test)]
mod damage;
#[cfg(test)]
mod logs;
#[cfg(test)]
mod records;
#[cfg(test)]
mod sessions;
