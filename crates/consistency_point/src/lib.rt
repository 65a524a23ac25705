//! The consistency point: what was staged is written to free blocks, and made current by one switch of the root.
#![tactic(auto)]

mod blocks;
mod fault;
mod switching;
mod taking;
mod writing;

pub use fault::PointFault;
pub use point_plan::PointState;
pub use taking::{carry_out, take};
