//! What a consistency point plans of the tree of one node: that of a file or of a directory with its pages, and that of a number that is removed.
#![tactic(auto)]

mod directory;
mod emptying;
mod file;
mod pages;
mod plan;
mod renewed;
mod root;
mod spelling;

pub use directory::plan_directory;
pub use emptying::plan_removed;
pub use file::plan_file;
pub use pages::written_pages;
pub use plan::TreePlan;
pub use renewed::renewed_directory;
pub use root::{own_pages, root_of};
