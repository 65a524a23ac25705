//! What a changing command is charged, what must be free beside that, and whether both fit.
#![tactic(auto)]

mod charges;
mod laws;

pub use charges::{charge, fits, reserve};
pub use laws::charges_each_place;
