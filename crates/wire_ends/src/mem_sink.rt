//! A sink in memory.
ghost use Rattle.std.specs.Prelude.{◌≡◌, ◌<◌, ◌+◌, ◌⊎◌, [], length, true, Contains, IfOk, OnOk, OnErr, IsErr, ◌↔◌};
ghost use Rattle.vol_numbers.specs.Cause.{raised, HasCause};

use crate::{Sink, SinkFault};
use std::alloc::{AllocError, Global};
use std::marker::Model;
use vol_numbers::{CallList, CallPlan, FaultCount};

/// Room in memory for so many bytes, filled by calls of which some fail.
#[derive(Drop)]
pub struct MemSink {
    bytes: Vec<u8>,
    room: usize,
    plan: CallPlan,
    faults: FaultCount,
}

impl Model for MemSink {
    ghost use Rattle.std.specs.Prelude.{◌≡◌, ◌≤◌, vec_len, vec_capacity, None};
    ghost use Rattle.wire_ends.specs.Memory.{MemOutput};

    ghost Value = { MemOutput };

    ghost view = { λ s. record { got = s.bytes.items; room = s.room; call = s.plan.next; fails = s.plan.fails; faults = s.faults } };

    ghost invariant = { λ s. (vec_len s.bytes ≤ s.room) × (s.room ≤ vec_capacity s.bytes) × (s.plan.from ≡ None) };
}

impl MemSink {
    /// A sink for `room` bytes. The memory for them is taken here, and none later. Calls are numbered from 0, and those whose numbers are in
    /// `fails` fail, as do those whose bytes have no room.
    ///
    /// # Errors
    ///
    /// The memory isn't to be had.
    pub fn new(alloc: Global, room: usize, fails: CallList) -> Result<MemSink, AllocError>
        ensures is { IfOk result (λ sink. sink ≡ record { got = []; room = room; call = 0; fails = fails; faults = 0 }) }
        ensures seen { IfOk result (λ sink. ⟦<MemSink as Sink>⟧.seen sink ≡ record { is_told = true; got = []; faults = 0 }) }
    {
        Ok(MemSink {
            bytes: Vec::with_capacity(alloc, room)?,
            room,
            plan: CallPlan::new(fails, None),
            faults: FaultCount::new(),
        })
    }

    /// What was appended.
    pub fn bytes(&self) -> &[u8]
        ensures { result.now ≡ (⟦<MemSink as Sink>⟧.seen self.now).got }
    {
        &self.bytes
    }
}

impl Sink for MemSink {
    ghost use Rattle.wire_ends.specs.Ends.{Puts, PutsPart};

    ghost seen = { λ s. record { is_told = true; got = s.got; faults = s.faults } };

    fn put(&mut self, bytes: &[u8]) -> Result<(), SinkFault>
        ensures whole { OnOk result (Puts (⟦<MemSink as Sink>⟧.seen self.old) (⟦<MemSink as Sink>⟧.seen self.new) bytes.now) }
        ensures part { OnErr result (PutsPart (⟦<MemSink as Sink>⟧.seen self.old) (⟦<MemSink as Sink>⟧.seen self.new) bytes.now) }
        ensures cause { HasCause (⟦<MemSink as Sink>⟧.seen self.old).faults (⟦<MemSink as Sink>⟧.seen self.new).faults result }
        ensures planned { IsErr result ↔ (Contains self.old.fails self.old.call ⊎ (self.old.room < length self.old.got + length bytes.now)) }
        ensures nothing { OnErr result (self.new.got ≡ self.old.got) }
        ensures next { self.new.call ≡ raised self.old.call }
        ensures same_plan { self.new.fails ≡ self.old.fails }
        ensures same_room { self.new.room ≡ self.old.room }
    {
        let is_planned = self.plan.fails_now();
        if is_planned || bytes.len() > self.room - self.bytes.len() {
            self.faults.raise();
            return Err(SinkFault);
        }
        match self.bytes.extend_from_slice(bytes) {
            Ok(()) => Ok(()),
            Err(AllocError) => unreachable!(),
        }
    }
}
