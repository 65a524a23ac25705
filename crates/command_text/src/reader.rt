//! A reader of a session's text, which takes the bytes of a source in pieces.
ghost use Rattle.std.specs.Prelude.{◌≡◌, ◌<◌, ◌≤◌, ◌+◌, [], true, false, Some, None, Ok, Err, length, drop, position, IfOk, IfErr, IfNone, IfSome, OnOk, OnErr, IsErrOf, IsTrue, MatchOption};
ghost use Rattle.command_text.specs.Front.{write_of};
ghost use Rattle.command_text.specs.Text.{is_end};
ghost use Rattle.command_text.specs.declared.fault.TextFault.TheVariants.{Source, BadStream, Budget, OutOfMemory};

use crate::held::Held;
use crate::line_end::{LineEnd, line_end};
use crate::{Item, TextFault};
use line_text::{Said, line_in};
use std::alloc::{AllocError, Global};
use std::marker::Model;
use tree_model::{Command, Path, Payload, ReadLength, Refusal, TooLong};
use vol_numbers::ByteList;
use wire_ends::Source;

/// Reads items from the bytes of a source, which come in any pieces.
#[derive(Drop)]
pub struct CommandReader {
    alloc: Global,
    held: Held,
    budget: u64,
    is_over: bool,
    fault: Option<TextFault>,
}

impl Model for CommandReader {
    ghost use Rattle.command_text.specs.Reading.{Reading};

    ghost Value = { Reading };

    ghost view = { λ r. record { held = r.held.bytes; budget = r.budget; is_over = r.is_over; fault = r.fault } };
}

impl CommandReader {
    ghost use Rattle.std.specs.Prelude.{◌≡◌, ◌<◌, ◌≤◌, ◌+◌, [], true, false, Some, None, Ok, Err, length, drop, position, IfOk, IfErr, IfNone, IfSome, OnOk, OnErr, IsErrOf, IsTrue, MatchOption};
    ghost use Rattle.command_text.specs.Front.{front, is_newline};
    ghost use Rattle.command_text.specs.Holding.{most_in_memory};
    ghost use Rattle.command_text.specs.Text.{next};
    ghost use Rattle.command_text.specs.declared.item.Item.TheVariants.{Ended};
    ghost use Rattle.command_text.specs.Reading.{Reading, HasTextCause, Undecided, unread, ReadsNext, TakesForNext, LeftUndecided, Falls, settled};
    ghost use Rattle.command_text.specs.Filling.{TakesPiece, Fills, IsShorter, LineEnds, InputEnds, Stopped, Fails, AsksToWrite, Reads, ReadsSettled};

    /// A reader that takes at most so many bytes.
    pub fn new(alloc: Global, budget: u64) -> Result<CommandReader, AllocError>
        ensures { IfOk result (λ reader. reader ≡ record { held = []; budget = budget; is_over = false; fault = None }) }
    {
        Ok(CommandReader {
            alloc,
            held: Held::new(alloc)?,
            budget,
            is_over: false,
            fault: None,
        })
    }

    /// The next item. After `Ended`, and after the command `end`, the session is over: every later call answers `Ended` and takes nothing.
    /// After a fault every later call answers the same fault and takes nothing.
    ///
    /// # Errors
    ///
    /// - `Source`: a call of the source failed, in this call of the reader or in an earlier one.
    /// - `BadStream`: the input ends inside a line or its data, a line is longer than 8,192 bytes, or the byte behind data is no newline.
    /// - `Budget`: as many bytes as the budget allows were taken, and they aren't an item.
    /// - `OutOfMemory`: memory was wanting.
    pub fn read_command<R: Source>(&mut self, source: &mut R) -> Result<Item, TextFault>
        ensures reads { self.old.fault ≡ None → IsTrue (R.seen source.old).is_told →
            ReadsNext (next (unread self.old (R.seen source.old))) (unread self.new (R.seen source.new)) result }
        ensures takes { TakesForNext self.old self.new (R.seen source.old) (R.seen source.new) }
        ensures falls { Falls (length self.old.held + self.old.budget) (length self.new.held + self.new.budget) result }
        ensures holds { length self.old.held ≤ 4096 → OnOk result (length self.new.held ≤ 4096) }
        ensures ended { result ≡ Ok Ended → self.new.is_over ≡ true }
        ensures over { self.old.fault ≡ None → self.old.is_over ≡ true → (result ≡ Ok Ended) × (self.new ≡ self.old) × (R.seen source.new ≡ R.seen source.old) }
        ensures failed { IfErr result (λ fault. self.new.fault ≡ Some fault) }
        ensures goes_on { OnOk result (self.new.fault ≡ None) }
        ensures again { IfSome self.old.fault (λ fault. (result ≡ Err fault) × (self.new ≡ self.old) × (R.seen source.new ≡ R.seen source.old)) }
        ensures undecided { self.old.fault ≡ None → result ≡ Err Source → LeftUndecided self.old self.new (R.seen source.old) (R.seen source.new) }
        ensures cause { self.old.fault ≡ None → HasTextCause (R.seen source.old).faults (R.seen source.new).faults result }
        ensures budget { self.old.fault ≡ None → result ≡ Err Budget → self.new.budget ≡ 0 }
    {
        if let Some(fault) = self.fault {
            return Err(fault);
        }
        if self.is_over {
            return Ok(Item::Ended);
        }
        self.read_on(source)
    }

    /// The next item of a session that goes on.
    fn read_on<R: Source>(&mut self, source: &mut R) -> Result<Item, TextFault>
        requires no_fault { self.old.fault ≡ None }
        requires not_over { self.old.is_over ≡ false }
        ensures reads { ReadsSettled self.old self.new (R.seen source.old) (R.seen source.new) result }
        ensures cause { HasTextCause (R.seen source.old).faults (R.seen source.new).faults result }
    {
        match self.read_next(source) {
            Ok(item) => {
                self.is_over = is_end(&item);
                Ok(item)
            }
            Err(fault) => {
                self.fault = Some(fault);
                Err(fault)
            }
        }
    }

    /// Takes a piece of at most so many bytes. It answers whether there was one.
    fn take_piece<R: Source>(&mut self, source: &mut R, most: usize) -> Result<bool, TextFault>
        requires some { 0 < most }
        requires room { length self.old.held + most ≤ most_in_memory }
        ensures piece { TakesPiece self.old self.new (R.seen source.old) (R.seen source.new) }
        ensures some { result ≡ Ok true → length self.old.held < length self.new.held }
        ensures ended { result ≡ Ok false → (self.new ≡ self.old) × (0 < self.old.budget) × (IsTrue (R.seen source.old).is_told → (R.seen source.old).left ≡ []) }
        ensures budget { IsErrOf result Budget → self.old.budget ≡ 0 }
        ensures err { OnErr result (self.new ≡ self.old) }
        ensures no_bad_stream { IsErrOf result BadStream → ⊥ }
        ensures cause { HasTextCause (R.seen source.old).faults (R.seen source.new).faults result }
    {
        if self.budget == 0 {
            return Err(TextFault::Budget);
        }
        let most = most.min(4_096).min(self.budget as usize);
        self.held.move_up();
        let count = self.held.take_piece(source, most)?;
        self.budget -= count as u64;
        Ok(count > 0)
    }

    /// Takes pieces until the end of a line is held. It answers where that is, or none where the input ends before the line.
    fn fill_line<R: Source>(&mut self, source: &mut R) -> Result<Option<usize>, TextFault>
        ensures fills { Fills Undecided self.old self.new (R.seen source.old) (R.seen source.new) }
        ensures line { IfOk result (λ end. MatchOption end (self.new.held ≡ []) (λ place. LineEnds self.new.held place)) }
        ensures ended { IfOk result (λ end. IfNone end (InputEnds self.new (R.seen source.old) (R.seen source.new))) }
        ensures err { IfErr result (λ fault. Stopped fault self.new (R.seen source.old) (R.seen source.new)) }
        ensures cause { HasTextCause (R.seen source.old).faults (R.seen source.new).faults result }
    {
        'pieces: loop {
            match line_end(self.held.as_slice()) {
                LineEnd::At(end) => return Ok(Some(end)),
                LineEnd::TooLong => return Err(TextFault::BadStream),
                LineEnd::Missing => {}
            }
            if !self.take_piece(source, 4_096)? {
                return self.at_input_end();
            }
        }
    }

    /// Where the input ends: before a line, or inside one.
    fn at_input_end(&self) -> Result<Option<usize>, TextFault>
        ensures ok { IfOk result (λ end. (end ≡ None) × (self.now.held ≡ [])) }
        ensures err { IfErr result (λ fault. (fault ≡ BadStream) × (0 < length self.now.held)) }
    {
        if self.held.len() > 0 {
            return Err(TextFault::BadStream);
        }
        Ok(None)
    }

    /// Takes pieces until so many bytes are held.
    fn fill_to<R: Source>(&mut self, source: &mut R, count: usize) -> Result<(), TextFault>
        requires { count ≤ most_in_memory }
        ensures fills { Fills (IsShorter count) self.old self.new (R.seen source.old) (R.seen source.new) }
        ensures full { OnOk result (count ≤ length self.new.held) }
        ensures short { OnErr result (length self.new.held < count) }
        ensures err { IfErr result (λ fault. Fails fault self.new (R.seen source.old) (R.seen source.new)) }
        ensures cause { HasTextCause (R.seen source.old).faults (R.seen source.new).faults result }
    {
        'pieces: while self.held.len() < count {
            let missing = count - self.held.len();
            if !self.take_piece(source, missing)? {
                return Err(TextFault::BadStream);
            }
        }
        Ok(())
    }

    /// Reads the data of a write behind its line, which ends at this place, and the newline behind them.
    fn read_data<R: Source>(
        &mut self,
        source: &mut R,
        end: usize,
        path: Option<Path>,
        offset: u64,
        count: ReadLength,
    ) -> Result<Item, TextFault>
        requires { AsksToWrite self.old.held end path offset count }
        ensures reads { Reads self.old self.new (R.seen source.old) (R.seen source.new) result }
        ensures cause { HasTextCause (R.seen source.old).faults (R.seen source.new).faults result }
    {
        let start = end + 1;
        let behind = start + count.get() as usize;
        if let Err(fault) = self.fill_to(source, behind + 1) {
            return Err(fault);
        }
        let bytes = self.held.as_slice();
        if bytes[behind] != b'\n' {
            return Err(TextFault::BadStream);
        }
        match written(self.alloc, path, offset, &bytes[start..behind]) {
            Ok(item) => {
                self.held.skip(behind + 1);
                Ok(item)
            }
            Err(AllocError) => Err(TextFault::OutOfMemory),
        }
    }

    /// Fills up, and reads an item.
    fn read_next<R: Source>(&mut self, source: &mut R) -> Result<Item, TextFault>
        ensures reads { Reads self.old self.new (R.seen source.old) (R.seen source.new) result }
        ensures cause { HasTextCause (R.seen source.old).faults (R.seen source.new).faults result }
    {
        let end = match self.fill_line(source)? {
            Some(end) => end,
            None => return Ok(Item::Ended),
        };
        match line_in(self.alloc, &self.held.as_slice()[..end]) {
            Ok(Said::Command(command)) => {
                self.held.skip(end + 1);
                Ok(Item::Command(command))
            }
            Ok(Said::Refused(refusal)) => {
                self.held.skip(end + 1);
                Ok(Item::Refused(refusal))
            }
            Ok(
                Said::Write {
                    path,
                    offset,
                    count,
                },
            ) => self.read_data(source, end, path, offset, count),
            Err(AllocError) => Err(TextFault::OutOfMemory),
        }
    }
}

/// A write of these bytes, if its path is one.
fn written(alloc: Global, path: Option<Path>, offset: u64, bytes: &[u8]) -> Result<Item, AllocError>
    requires { length bytes.now ≤ 65536 }
    ensures { IfOk result (λ item. item ≡ write_of path offset bytes.now) }
{
    let Some(path) = path else {
        return Ok(Item::Refused(Refusal::BadName));
    };
    let bytes = ByteList::from_vec(Vec::from_slice(alloc, bytes)?);
    match Payload::new(bytes) {
        Ok(bytes) => Ok(Item::Command(Command::Write {
            path,
            offset,
            bytes,
        })),
        Err(TooLong) => unreachable!(),
    }
}

/// Whether a session ends with this item.
fn is_end(item: &Item) -> bool
    ensures { result ≡ is_end item.now }
{
    matches!(item, Item::Command(Command::End) | Item::Ended)
}
