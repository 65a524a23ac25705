//! A disk as the volume sees it: what it holds, what a power cut may leave of it, and how it fails.
#![tactic(auto)]

mod disk;
mod durable;
mod last_read;
mod laws;
mod media;
mod pick;

pub use disk::{Disk, DiskFault};
pub use durable::write_through;
pub use last_read::LastRead;
pub use laws::cut_reaches_each_image;
pub use media::{Media, OpenFault};
pub use pick::{NotOpen, Pick};
