//! A source in memory.
ghost use Rattle.std.specs.Prelude.{◌≡◌, ◌<◌, ◌≤◌, ◌+◌, [], take, drop, min, length, true, Contains, IfOk, OnErr, IsErr, IsTrue, ◌↔◌};
ghost use Rattle.vol_numbers.specs.Cause.{raised, HasCause};

use crate::{Source, SourceFault};
use std::marker::Model;
use vol_numbers::{ByteList, CallList, CallPlan, FaultCount};

/// Bytes in memory, given in pieces, by calls of which some fail.
#[derive(Drop)]
pub struct MemSource {
    bytes: ByteList,
    at: usize,
    piece: usize,
    plan: CallPlan,
    faults: FaultCount,
}

impl Model for MemSource {
    ghost use Rattle.std.specs.Prelude.{◌≡◌, ◌<◌, ◌≤◌, drop, length, None};
    ghost use Rattle.wire_ends.specs.Memory.{MemInput};

    ghost Value = { MemInput };

    ghost view = { λ s. record { left = drop s.at s.bytes; piece = s.piece; call = s.plan.next; fails = s.plan.fails; faults = s.faults } };

    ghost invariant = { λ s. (s.at ≤ length s.bytes) × (0 < s.piece) × (s.plan.from ≡ None) };
}

impl MemSource {
    /// A source of these bytes that gives at most `piece` of them for each call, which is at least 1. Calls are numbered from 0, and those
    /// whose numbers are in `fails` fail.
    pub fn new(bytes: ByteList, piece: usize, fails: CallList) -> MemSource
        requires { 0 < piece }
        ensures is { result ≡ record { left = bytes; piece = piece; call = 0; fails = fails; faults = 0 } }
        ensures seen { ⟦<MemSource as Source>⟧.seen result ≡ record { is_told = true; left = bytes; faults = 0 } }
    {
        MemSource {
            bytes,
            at: 0,
            piece,
            plan: CallPlan::new(fails, None),
            faults: FaultCount::new(),
        }
    }
}

/// Copies bytes from a place on: as many as there are and have room, and at most so many.
fn copy_some(from: &[u8], at: usize, most: usize, into: &mut [u8]) -> usize
    requires { at ≤ length from.now }
    ensures count { result ≡ min most (min (length (drop at from.now)) (length into.new)) }
    ensures within { at + result ≤ length from.now }
    ensures copied { take result into.new ≡ take result (drop at from.now) }
{
    let count = most.min(from.len() - at).min(into.len());
    into[..count].copy_from_slice(&from[at..at + count]);
    count
}

impl Source for MemSource {
    ghost use Rattle.wire_ends.specs.Ends.{Takes};

    ghost seen = { λ s. record { is_told = true; left = s.left; faults = s.faults } };

    fn take(&mut self, into: &mut [u8]) -> Result<usize, SourceFault>
        ensures within { IfOk result (λ count. count ≤ length into.new) }
        ensures taken { IfOk result (λ count. Takes (⟦<MemSource as Source>⟧.seen self.old) (⟦<MemSource as Source>⟧.seen self.new) (take count into.new)) }
        ensures zero_at_end_only { IfOk result (λ count. count ≡ 0 → 0 < length into.new → IsTrue (⟦<MemSource as Source>⟧.seen self.old).is_told → (⟦<MemSource as Source>⟧.seen self.old).left ≡ []) }
        ensures zero_at_end { IfOk result (λ count. IsTrue (⟦<MemSource as Source>⟧.seen self.old).is_told → (⟦<MemSource as Source>⟧.seen self.old).left ≡ [] → count ≡ 0) }
        ensures none { OnErr result (Takes (⟦<MemSource as Source>⟧.seen self.old) (⟦<MemSource as Source>⟧.seen self.new) []) }
        ensures cause { HasCause (⟦<MemSource as Source>⟧.seen self.old).faults (⟦<MemSource as Source>⟧.seen self.new).faults result }
        ensures planned { IsErr result ↔ Contains self.old.fails self.old.call }
        ensures count { IfOk result (λ count. count ≡ min self.old.piece (min (length self.old.left) (length into.new))) }
        ensures next { self.new.call ≡ raised self.old.call }
        ensures same_plan { self.new.fails ≡ self.old.fails }
        ensures same_piece { self.new.piece ≡ self.old.piece }
    {
        if self.plan.fails_now() {
            self.faults.raise();
            return Err(SourceFault);
        }
        let count = copy_some(self.bytes.as_slice(), self.at, self.piece, into);
        self.at += count;
        Ok(count)
    }
}
