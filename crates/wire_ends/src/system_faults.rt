//! The failures of the system's calls.
ghost use Rattle.std.specs.Prelude.{◌≡◌, ◌<◌, ◌↔◌, IsSome};
ghost use Rattle.vol_numbers.specs.Cause.{raised};

use std::io;
use std::marker::Model;
use vol_numbers::FaultCount;

/// How often a call of the system failed, and the error of the last one that did.
#[derive(Drop)]
pub(crate) struct SystemFaults {
    count: FaultCount,
    last: Option<io::Error>,
}

impl Model for SystemFaults {
    ghost use Rattle.std.specs.Prelude.{ℕ, ◌<◌, ◌↔◌, IsSome};

    ghost Value = { ℕ };

    ghost view = { λ f. f.count };

    ghost invariant = { λ f. IsSome f.last ↔ 0 < f.count };
}

impl SystemFaults {
    /// No failure yet.
    pub(crate) fn new() -> SystemFaults
        ensures { result ≡ 0 }
    {
        SystemFaults {
            count: FaultCount::new(),
            last: None,
        }
    }

    /// Counts a failure, and keeps its error.
    pub(crate) fn raise(&mut self, error: io::Error)
        ensures { self.new ≡ raised self.old }
    {
        self.count.raise();
        self.last = Some(error);
    }

    /// How many failures there were.
    pub(crate) fn count(&self) -> FaultCount
        ensures { result ≡ self.now }
    {
        self.count
    }

    /// The error of the last one, if there was one.
    pub(crate) fn last(&self) -> Option<io::Error>
        ensures { IsSome result ↔ 0 < self.now }
    {
        self.last
    }
}
