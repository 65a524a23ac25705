//! How often a device, a source or a sink has failed.
ghost use Rattle.std.specs.Prelude.{◌≡◌, ℕ};
ghost use Rattle.vol_numbers.specs.Cause.{raised};

use std::marker::Model;

/// A count of faults. It never falls, and stands still at the greatest `u64`.
#[derive(Clone, Copy, Debug, PartialEq, Eq)]
pub struct FaultCount {
    count: u64,
}

impl Model for FaultCount {
    ghost Value = { ℕ };

    ghost view = { λ c. c.count };

    ghost inverse = { λ n. record { count = n } };
}

impl FaultCount {
    /// No fault yet.
    pub fn new() -> FaultCount
        ensures { result ≡ 0 }
    {
        FaultCount { count: 0 }
    }

    /// Counts one fault more.
    pub fn raise(&mut self)
        ensures { self.new ≡ raised self.old }
    {
        self.count = self.count.saturating_add(1);
    }
}
