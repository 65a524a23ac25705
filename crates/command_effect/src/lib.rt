//! What an accepted command does to the nodes and the places of a volume, as an effect that can be staged.
#![tactic(auto)]

mod cutting;
mod effect;
mod laws;
mod nodes;
mod writing;

pub use effect::effect_of;
pub use laws::staging_fits;
