//! The text of a session: commands are read from any pieces of bytes, and each has one spelling.
#![tactic(auto)]

mod fault;
mod held;
mod item;
mod line_end;
mod print;
mod reader;

pub use fault::TextFault;
pub use item::Item;
pub use print::print_command;
pub use reader::CommandReader;
