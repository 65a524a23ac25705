//! A volume whose tree is made by the records of its log alone: it is formatted, mounted, and does the commands of the tree.
#![tactic(auto)]

mod answer;
mod finding;
mod logging;
mod meaning;
mod mounting;
mod replaying;
mod volume;

pub use answer::{Answer, Stopped};
pub use finding::Finding;
pub use meaning::{
    found_stands_for_nothing, fresh_stands, images_stand, kept_meaning, next_stands, one_meaning,
};
pub use mounting::{MountFault, mount};
pub use volume::LogVolume;
pub use volume_format::format;
