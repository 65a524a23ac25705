//! Which of a volume's two root slots is current, and the switch to a new root.
#![tactic(auto)]

mod reading;
mod switch;

pub use reading::{Current, RootFault, read_current};
pub use switch::commit;
