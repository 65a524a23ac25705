//! A medium in memory: named disks, one of which is open.
#![tactic(auto)]

mod mem_media;
mod named;

pub use mem_media::MemMedia;
