//! Loads what a volume has of its last point, for a mount.
#![tactic(auto)]

mod known;
mod loading;
mod numbering;

pub use loading::{Loaded, load};
