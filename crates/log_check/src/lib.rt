//! The last phase of the check of a volume: whether the tree accepts each record of the log, beside the charges of those before it.
#![tactic(auto)]

mod accepting;
mod checking;
mod fault;
mod reading;
mod shown;
mod table;

pub use checking::check_log;
pub use fault::LogCheckFault;
pub use shown::early_images_are_shown;
pub use table::table_of;
