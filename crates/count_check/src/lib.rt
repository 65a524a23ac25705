//! What is wrong with the counts that a volume keeps, and whether enough of its blocks are free.
#![tactic(auto)]

mod comparing;
mod fault;
mod reserving;

pub use comparing::{Counted, counts};
pub use fault::CountCheckFault;
pub use reserving::reserve;
