//! Disks in memory: one that never fails, and one that fails by a plan and loses what a power cut takes.
#![tactic(auto)]

mod mem_disk;
mod record;
mod sure_disk;

pub use mem_disk::MemDisk;
pub use sure_disk::SureDisk;
