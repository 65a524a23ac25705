//! What a place of a file holds now: what is staged of it, the block that it has kept, or zeros.
#![tactic(auto)]

mod laws;
mod part;
mod place;
mod stored;

pub use laws::read_is_data;
pub use part::{FilePart, read_bytes};
pub use place::read_place;
