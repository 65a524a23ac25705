//! Checks a volume: what is wrong with it first, or what a mount needs of it.
#![tactic(auto)]

mod checking;
mod counting;
mod examining;
mod fault;
mod logging;
mod looking;
mod mixing;
mod naming;
mod root;
mod tailing;
mod treeing;
mod walking;

pub use checking::{Summary, check};
pub use examining::{Examined, examine};
pub use fault::CheckFault;
