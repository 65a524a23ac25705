//! The cache of fingerprints: which disk blocks may be shared, and in which order they are forgotten.
#![tactic(auto)]

mod cache;
mod digest;
mod hashing;
mod kin_list;
mod plain_cache;
mod steps;

pub use cache::ContentCache;
pub use digest::Fingerprint;
pub use hashing::fingerprint;
pub use kin_list::{KIN_LIMIT, KinList};
pub use plain_cache::PlainCache;
pub use steps::Steps;
