//! The trait of a source: where the bytes of a session come from.
ghost use Rattle.std.specs.Prelude.{◌≡◌, ◌<◌, ◌≤◌, [], take, length, IfOk, OnErr, IsTrue};
ghost use Rattle.vol_numbers.specs.Cause.{HasCause};
ghost use Rattle.wire_ends.specs.Ends.{Input, Takes};

use thiserror::Error;

/// A call of a source failed.
#[derive(Clone, Copy, Debug, PartialEq, Eq, Error)]
#[error("a call of the source failed")]
pub struct SourceFault;

/// Bytes in order.
pub trait Source {
    /// What is left, where the source tells it, and how often it has failed.
    ghost seen: { Self → Input };

    /// Takes the next bytes into the front of a slice, and answers how many: at most as many as the slice has room for, and no more than
    /// these are taken. With room, it answers 0 exactly at the end of the input. What the slice holds behind them isn't promised.
    ///
    /// # Errors
    ///
    /// The source failed. Nothing was taken, and the fault was counted.
    fn take(&mut self, into: &mut [u8]) -> Result<usize, SourceFault>
        ensures within { IfOk result (λ count. count ≤ length into.new) }
        ensures taken { IfOk result (λ count. Takes (seen self.old) (seen self.new) (take count into.new)) }
        ensures zero_at_end_only { IfOk result (λ count. count ≡ 0 → 0 < length into.new → IsTrue (seen self.old).is_told → (seen self.old).left ≡ []) }
        ensures zero_at_end { IfOk result (λ count. IsTrue (seen self.old).is_told → (seen self.old).left ≡ [] → count ≡ 0) }
        ensures none { OnErr result (Takes (seen self.old) (seen self.new) []) }
        ensures cause { HasCause (seen self.old).faults (seen self.new).faults result };
}
