//! Images in the files of the system.
#![tactic(auto)]

mod failure;
mod file_media;
mod image;
mod pages;

pub use failure::{Failure, ImageCall};
pub use file_media::FileMedia;
