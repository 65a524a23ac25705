//! The text of answers: names as replies write them, lines, and whole answers put into a sink.
#![tactic(auto)]

mod entries;
mod escape;
mod fault;
mod laws;
mod replies;
mod reply;
mod text_line;

pub use escape::push_escaped;
pub use fault::PutFault;
pub use laws::none_begins_another;
pub use replies::{put_written, write_reply};
