//! What the next call of the server reads from and writes to, and which calls of its ends fail.
ghost use Rattle.std.specs.Prelude.{◌<◌};

use std::alloc::{AllocError, Global};
use vol_numbers::{ByteList, CallList};
use wire_ends::{MemSink, MemSource, Source};

/// How many bytes the source gives for each call, how many the sink has room for, and which calls fail.
#[derive(Clone, Copy)]
pub(crate) struct Ends {
    pub(crate) piece: u32,
    pub(crate) room: u32,
    pub(crate) source_fails: Option<u64>,
    pub(crate) sink_fails: Option<u64>,
}

impl Ends {
    /// Pieces and room enough for each row, and no failure.
    pub(crate) fn ample() -> Ends {
        Ends {
            piece: 100_000,
            room: 100_000,
            source_fails: None,
            sink_fails: None,
        }
    }

    pub(crate) fn source(&self, alloc: Global, input: Vec<u8>) -> Result<MemSource, AllocError> {
        let fails = one_call(alloc, self.source_fails)?;
        let piece = self.piece.max(1) as usize;
        Ok(MemSource::new(ByteList::from_vec(input), piece, fails))
    }

    pub(crate) fn sink(&self, alloc: Global) -> Result<MemSink, AllocError> {
        let fails = one_call(alloc, self.sink_fails)?;
        MemSink::new(alloc, self.room as usize, fails)
    }
}

/// The call of this number, if there is one.
pub(crate) fn one_call(alloc: Global, call: Option<u64>) -> Result<CallList, AllocError> {
    let mut calls = Vec::new(alloc);
    if let Some(number) = call {
        calls.push(number)?;
    }
    Ok(CallList::from_vec(calls))
}

/// How many of at most so many bytes a source still has. It gives at least one for each call.
pub(crate) fn left_in(source: &mut MemSource, most: usize) -> u64 {
    let mut left: u64 = 0;
    let mut piece = [0; 64];
    for _ in 0..most {
        match source.take(&mut piece) {
            Ok(count) => left = left.saturating_add(count as u64),
            Err(_) => return left,
        }
    }
    left
}
