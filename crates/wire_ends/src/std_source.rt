//! A source over a reader of std.
ghost use Rattle.std.specs.Prelude.{◌≡◌, ◌<◌, ◌↔◌, IsSome};
ghost use Rattle.wire_ends.specs.Std.{input_of};

use crate::system_faults::SystemFaults;
use crate::{Source, SourceFault};
use std::io;
use std::io::Read;
use vol_numbers::FaultCount;

/// The bytes that a reader gives.
#[derive(Drop)]
pub struct StdSource<R: Read> {
    reader: R,
    faults: SystemFaults,
}

impl<R: Read> StdSource<R> {
    /// Nothing is read yet.
    pub fn new(reader: R) -> StdSource<R>
        ensures { ⟦<StdSource<R> as Source>⟧.seen result ≡ input_of (R.remaining reader) 0 }
    {
        StdSource {
            reader,
            faults: SystemFaults::new(),
        }
    }

    /// How often it has failed.
    pub fn faults(&self) -> FaultCount
        ensures { result ≡ (⟦<StdSource<R> as Source>⟧.seen self.now).faults }
    {
        self.faults.count()
    }

    /// The system's error of the last call that failed, if one has.
    pub fn error(&self) -> Option<io::Error>
        ensures { IsSome result ↔ 0 < (⟦<StdSource<R> as Source>⟧.seen self.now).faults }
    {
        self.faults.last()
    }
}

impl<R: Read> Source for StdSource<R> {
    ghost use Rattle.wire_ends.specs.Std.{input_of};

    ghost seen = { λ s. input_of (R.remaining s.reader) s.faults };

    fn take(&mut self, into: &mut [u8]) -> Result<usize, SourceFault> {
        match self.reader.read(into) {
            Ok(count) => Ok(count),
            Err(error) => {
                self.faults.raise(error);
                Err(SourceFault)
            }
        }
    }
}
