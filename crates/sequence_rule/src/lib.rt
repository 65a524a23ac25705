//! Which runs of dirty blocks are shared: the rule turned into a body, plain on purpose.
#![tactic(auto)]

mod choosing;
mod dirty;
mod fault;
mod matched;
mod matching;
mod plain;
mod sorting;

pub use dirty::{BlockList, DirtyRun, DirtyRunList, DirtyRuns};
pub use fault::FindFault;
pub use plain::{SequenceList, plain_select};
pub use volume_model::Sequence;
