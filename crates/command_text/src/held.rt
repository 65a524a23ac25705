//! The bytes that a reader holds.
ghost use Rattle.std.specs.Prelude.{◌≡◌, ◌<◌, ◌≤◌, ◌+◌, [], drop, take, length, IfOk, OnErr, IsErrOf, IsTrue};
ghost use Rattle.command_text.specs.Filling.{HoldsMore};
ghost use Rattle.command_text.specs.Holding.{most_in_memory};
ghost use Rattle.command_text.specs.Reading.{HasTextCause};
ghost use Rattle.command_text.specs.declared.fault.TextFault.TheVariants.{BadStream, Budget};

use crate::TextFault;
use std::alloc::{AllocError, Global};
use std::marker::Model;
use wire_ends::{Source, SourceFault};

/// Bytes that were taken and belong to no item yet. Those before `at` are done with, and still in memory. There are never more in memory
/// than a write has with its line, its data and their newlines.
#[derive(Drop)]
pub(crate) struct Held {
    bytes: Vec<u8>,
    at: usize,
}

impl Model for Held {
    ghost use Rattle.std.specs.Prelude.{◌≤◌, drop, length};
    ghost use Rattle.command_text.specs.Holding.{Holding, most_in_memory};

    ghost Value = { Holding };

    ghost view = { λ h. record { bytes = drop h.at h.bytes.items; memory = length h.bytes.items } };

    ghost invariant = { λ h. (h.at ≤ length h.bytes.items) × (length h.bytes.items ≤ most_in_memory) };
}

impl Held {
    pub(crate) fn new(alloc: Global) -> Result<Held, AllocError>
        ensures { IfOk result (λ held. held ≡ record { bytes = []; memory = 0 }) }
    {
        Ok(Held {
            bytes: Vec::with_capacity(alloc, 8_192)?,
            at: 0,
        })
    }

    pub(crate) fn as_slice(&self) -> &[u8]
        ensures { result.now ≡ self.now.bytes }
    {
        &self.bytes[self.at..]
    }

    pub(crate) fn len(&self) -> usize
        ensures { result ≡ length self.now.bytes }
    {
        self.bytes.len() - self.at
    }

    /// Is done with the first bytes.
    pub(crate) fn skip(&mut self, count: usize)
        requires { count ≤ length self.old.bytes }
        ensures { self.new ≡ record { bytes = drop count self.old.bytes; memory = self.old.memory } }
    {
        self.at += count;
    }

    /// Moves the bytes to the front of the memory, over those that are done with, so that no others are in memory.
    pub(crate) fn move_up(&mut self)
        ensures { self.new ≡ record { bytes = self.old.bytes; memory = length self.old.bytes } }
    {
        if self.at == 0 {
            return;
        }
        let count = self.len();
        self.bytes.copy_within(self.at.., 0);
        self.bytes.truncate(count);
        self.at = 0;
    }

    /// Takes a piece of at most so many bytes behind those that are held. It answers how many it has: 0 at the end of the input alone.
    pub(crate) fn take_piece<R: Source>(
        &mut self,
        source: &mut R,
        most: usize,
    ) -> Result<usize, TextFault>
        requires some { 0 < most }
        requires room { self.old.memory + most ≤ most_in_memory }
        ensures more { HoldsMore self.old.bytes self.new.bytes (R.seen source.old) (R.seen source.new) }
        ensures counted { IfOk result (λ count. length self.new.bytes ≡ length self.old.bytes + count) }
        ensures within { IfOk result (λ count. count ≤ most) }
        ensures ended { IfOk result (λ count. count ≡ 0 → IsTrue (R.seen source.old).is_told → (R.seen source.old).left ≡ []) }
        ensures none { OnErr result (self.new ≡ self.old) }
        ensures no_budget { IsErrOf result Budget → ⊥ }
        ensures no_bad_stream { IsErrOf result BadStream → ⊥ }
        ensures cause { HasTextCause (R.seen source.old).faults (R.seen source.new).faults result }
    {
        let end = self.bytes.len();
        if let Err(AllocError) = self.bytes.resize(end + most, 0) {
            return Err(TextFault::OutOfMemory);
        }
        match source.take(&mut self.bytes[end..]) {
            Ok(count) => {
                self.bytes.truncate(end + count);
                Ok(count)
            }
            Err(SourceFault) => {
                self.bytes.truncate(end);
                Err(TextFault::Source)
            }
        }
    }
}
