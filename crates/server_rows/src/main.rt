//! Runs the server over media in memory, as the lines of standard input say, and writes what came of each call of it.
#![tactic(auto)]

mod bench;
mod ends;
mod image;
mod texts;

use bench::Bench;
use std::io::{self, Write};

fn main(rt: HostRuntime) -> io::Result<()> {
    let mut bench = Bench::new(rt.alloc());
    for line in rt.lines(rt.alloc()) {
        let text = bench.line(rt.alloc(), line?.as_str())?;
        rt.stdout().write_all(&text)?;
    }
    Ok(())
}
