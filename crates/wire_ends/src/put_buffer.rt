//! A buffer in front of a sink.
ghost use Rattle.std.specs.Prelude.{◌≡◌, ◌≤◌, ◌+◌, ◌++◌, [], length, OnOk, OnErr};
ghost use Rattle.vol_numbers.specs.Cause.{HasCause};
ghost use Rattle.wire_ends.specs.Buffer.{Passes};
ghost use Rattle.wire_ends.specs.Ends.{Puts, PutsPart};

use crate::{Sink, SinkFault};
use arrayvec::ArrayVec;
use std::marker::Model;

/// At most so many bytes that are on their way to a sink, so that it gets them in few puts. It takes no memory.
#[derive(Drop)]
pub struct PutBuffer<const ROOM: usize> {
    bytes: ArrayVec<u8, ROOM>,
}

impl<const ROOM: usize> Model for PutBuffer<ROOM> {
    ghost use Rattle.std.specs.Prelude.{ℕ, List};

    ghost Value = { List ℕ };

    ghost view = { λ b. b.bytes.items };
}

impl<const ROOM: usize> PutBuffer<ROOM> {
    /// Nothing is held yet.
    pub fn new() -> PutBuffer<ROOM>
        ensures { result ≡ [] }
    {
        PutBuffer {
            bytes: ArrayVec::new(),
        }
    }

    /// Holds these bytes behind the others. Where there is no room for them, what is held is let out first. More bytes than the buffer has
    /// room for are let out at once.
    ///
    /// # Errors
    ///
    /// The sink failed. It has a prefix of all bytes, and nothing is held any more.
    pub fn put<W: Sink>(&mut self, sink: &mut W, bytes: &[u8]) -> Result<(), SinkFault>
        ensures passed { OnOk result (Passes (W.seen sink.old) (W.seen sink.new) self.old self.new bytes.now) }
        ensures part { OnErr result (PutsPart (W.seen sink.old) (W.seen sink.new) (self.old ++ bytes.now)) }
        ensures lost { OnErr result (self.new ≡ []) }
        ensures held { length self.old + length bytes.now ≤ ROOM → self.new ≡ self.old ++ bytes.now }
        ensures not_asked { length self.old + length bytes.now ≤ ROOM → sink.new ≡ sink.old }
        ensures cause { HasCause (W.seen sink.old).faults (W.seen sink.new).faults result }
    {
        match self.bytes.try_extend_from_slice(bytes) {
            Ok(()) => Ok(()),
            Err(_) => self.flush_and_put(sink, bytes),
        }
    }

    /// Lets out what is held, and then holds these bytes, or lets them out too where they are more than there is room for.
    fn flush_and_put<W: Sink>(&mut self, sink: &mut W, bytes: &[u8]) -> Result<(), SinkFault>
        ensures passed { OnOk result (Passes (W.seen sink.old) (W.seen sink.new) self.old self.new bytes.now) }
        ensures part { OnErr result (PutsPart (W.seen sink.old) (W.seen sink.new) (self.old ++ bytes.now)) }
        ensures lost { OnErr result (self.new ≡ []) }
        ensures cause { HasCause (W.seen sink.old).faults (W.seen sink.new).faults result }
    {
        if let Err(SinkFault) = self.flush(sink) {
            return Err(SinkFault);
        }
        if self.bytes.try_extend_from_slice(bytes).is_ok() {
            return Ok(());
        }
        sink.put(bytes)
    }

    /// Lets out what is held.
    ///
    /// # Errors
    ///
    /// The sink failed. It has a prefix of what was held, and nothing is held any more.
    pub fn flush<W: Sink>(&mut self, sink: &mut W) -> Result<(), SinkFault>
        ensures whole { OnOk result (Puts (W.seen sink.old) (W.seen sink.new) self.old) }
        ensures part { OnErr result (PutsPart (W.seen sink.old) (W.seen sink.new) self.old) }
        ensures none_held { self.new ≡ [] }
        ensures not_asked { self.old ≡ [] → sink.new ≡ sink.old }
        ensures cause { HasCause (W.seen sink.old).faults (W.seen sink.new).faults result }
    {
        if self.bytes.is_empty() {
            return Ok(());
        }
        let done = sink.put(self.bytes.as_slice());
        self.bytes.clear();
        done
    }
}
