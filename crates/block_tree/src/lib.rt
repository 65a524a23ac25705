//! Block trees: the blocks of a file or a directory by their places, under index blocks that are written afresh where they change.
#![tactic(auto)]

mod edit;
mod fault;
mod laws;
mod leaves;
mod listing;
mod looking;
mod notes;
mod opening;
mod plan;
mod portion;
mod renewal;
mod rewriting;
mod root;

pub use fault::{LookFault, TreeFault};
pub use laws::{index_count, leaves_spell, pairs_are, pointers_are};
pub use listing::pointers;
pub use looking::look;
pub use plan::{Rewritten, rewrite};
pub use root::TreeRoot;
