//! The server's top call: words, an image, a source and a sink in, a status out.
#![tactic(auto)]

mod checking;
mod findings;
mod meaning;
mod opening;
mod reply;
mod running;
mod serving;
mod status;
mod words;

pub use log_volume::{LogVolume, MountFault, format, mount};
pub use meaning::acknowledged_stay;
pub use running::run;
pub use serving::serve;
pub use status::Status;
