//! Walks over all metadata of an image, and says what it reaches or what is wrong with it first.
#![tactic(auto)]

mod area;
mod fault;
mod index;
mod inodes;
mod marks;
mod metadata;
mod mixing;
mod node_block;
mod reached;
mod reading;
mod root;
mod stray;
mod trees;
mod walked;

pub use fault::WalkFault;
pub use marks::{Mark, Marks};
pub use metadata::count_metadata;
pub use mixing::mixed;
pub use node_block::{NodeBlock, NodeBlockList};
pub use walked::{NodeList, Walked, walk};
