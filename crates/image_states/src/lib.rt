//! What an image stands for can be mounted, so the laws of reached states hold of a volume that was mounted from it.
#![tactic(auto)]

mod laws;

pub use laws::{mounting_is_reached, places_read_blocks, standing_fits, standing_is_mountable};
