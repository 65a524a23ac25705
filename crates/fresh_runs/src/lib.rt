//! The fresh blocks that a consistency point gives to the dirty places of files, and the lines of its report.
#![tactic(auto)]

mod grow;
mod laws;
mod place;
mod placed;

pub use laws::{changes_are_of_places, fresh_is_reported, nothing_is_shared, staged_have_dirty};
pub use place::place_fresh;
pub use placed::Placed;
