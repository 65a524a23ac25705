//! The ends of a session: where its bytes come from and where its answers go, in memory and over std.
#![tactic(auto)]

mod laws;
mod mem_sink;
mod mem_source;
mod put_buffer;
mod sink;
mod source;
mod std_sink;
mod std_source;
mod system_faults;

pub use laws::{
    part_behind, part_of_more, passes_compose, passes_part, passes_whole, puts_compose,
    takes_compose, takes_whole,
};
pub use mem_sink::MemSink;
pub use mem_source::MemSource;
pub use put_buffer::PutBuffer;
pub use sink::{Sink, SinkFault};
pub use source::{Source, SourceFault};
pub use std_sink::StdSink;
pub use std_source::StdSource;
