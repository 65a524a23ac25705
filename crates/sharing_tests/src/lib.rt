//! Tests of the cache list and of the sequences that are shared.
#![tactic(auto)]

#[cfg(test)]
mod cache_rows;
#[cfg(test)]
mod digests;
#[cfg(test)]
mod selections;
#[cfg(test)]
mod stored;
