//! What a consistency point plans of one node, by its kind now: its tree, which tree_plan plans, and its blocks of metadata before and after.
#![tactic(auto)]

mod counting;
mod fault;
mod kinds;
mod laws;
mod node;
mod plan;
mod room;

pub use fault::NodeFault;
pub use laws::{directory_holds, unstaged_is_planned};
pub use node::plan_node;
pub use plan::NodePlan;
