//! The lines of commands: their fields, and what each line says.
#![tactic(auto)]

mod cut;
mod line;
mod number;
mod path;
mod verb;

pub use line::{Said, line_in};
pub use number::read_number;
pub use verb::PathVerb;
