//! What accepted commands have staged since the last point: dirty blocks, nodes and directory slots, and how the last staging is undone.
#![tactic(auto)]

mod boxes;
mod cuts;
mod effect;
mod entries;
mod laws;
mod node_change;
mod numbers;
mod rooms;
mod runs;
mod staged;
mod staging;
mod store;

pub use effect::{Effect, SlotChange, SlotChangeList, Touched, TouchedList};
pub use laws::{
    dirty_are_the_machines, one_list_of_runs, staged_blocks_are, staged_is_in_order,
    staged_nodes_are, staged_slots_are,
};
pub use node_change::NodeChange;
pub use numbers::{NumberList, PlaceList};
pub use staged::Staged;
pub use store::DirtyStore;
