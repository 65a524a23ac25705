//! A sink over a writer of std.
ghost use Rattle.std.specs.Prelude.{◌≡◌, ◌<◌, ◌≤◌, ◌↔◌, ℕ, [], take, length, IsSome, IfOk, OnOk, OnErr};
ghost use Rattle.std.specs.Io.KnownBytes.{Appends};
ghost use Rattle.wire_ends.specs.Std.{output_of};

use crate::system_faults::SystemFaults;
use crate::{Sink, SinkFault};
use std::io;
use std::io::Write;
use vol_numbers::FaultCount;

/// The bytes go to a writer.
#[derive(Drop)]
pub struct StdSink<W: Write> {
    writer: W,
    faults: SystemFaults,
}

impl<W: Write> StdSink<W> {
    /// Nothing is put yet.
    pub fn new(writer: W) -> StdSink<W>
        ensures { ⟦<StdSink<W> as Sink>⟧.seen result ≡ output_of (W.contents writer) 0 }
    {
        StdSink {
            writer,
            faults: SystemFaults::new(),
        }
    }

    /// The writer, which holds what was put.
    pub fn writer(&self) -> &W
        ensures { ⟦<StdSink<W> as Sink>⟧.seen self.now ≡ output_of (W.contents result.now) (⟦<StdSink<W> as Sink>⟧.seen self.now).faults }
    {
        &self.writer
    }

    /// How often it has failed.
    pub fn faults(&self) -> FaultCount
        ensures { result ≡ (⟦<StdSink<W> as Sink>⟧.seen self.now).faults }
    {
        self.faults.count()
    }

    /// The system's error of the last call that failed, if one has. Where a writer takes no byte, it is one of the kind `WriteZero`.
    pub fn error(&self) -> Option<io::Error>
        ensures { IsSome result ↔ 0 < (⟦<StdSink<W> as Sink>⟧.seen self.now).faults }
    {
        self.faults.last()
    }
}

/// Has a writer take some of the bytes, at least one.
fn put_some<W: Write>(writer: &mut W, bytes: &[u8]) -> io::Result<usize>
    ensures count { IfOk result (λ count. (0 < count) × (count ≤ length bytes.now)) }
    ensures put { IfOk result (λ count. Appends (W.contents writer.old) (W.contents writer.new) (take count bytes.now)) }
    ensures none { OnErr result (Appends (W.contents writer.old) (W.contents writer.new) []) }
{
    match writer.write(bytes) {
        Ok(0) => Err(io::ErrorKind::WriteZero.into()),
        written => written,
    }
}

/// Has a writer take all of the bytes, and let them out of its buffers.
fn put_all<W: Write>(writer: &mut W, bytes: &[u8]) -> io::Result<()>
    ensures whole { OnOk result (Appends (W.contents writer.old) (W.contents writer.new) bytes.now) }
    ensures part { OnErr result ((count : ℕ) × Appends (W.contents writer.old) (W.contents writer.new) (take count bytes.now)) }
{
    let mut done = 0;
    while done < bytes.len() {
        done += put_some(writer, &bytes[done..])?;
    }
    writer.flush()
}

impl<W: Write> Sink for StdSink<W> {
    ghost use Rattle.wire_ends.specs.Std.{output_of};

    ghost seen = { λ s. output_of (W.contents s.writer) s.faults };

    fn put(&mut self, bytes: &[u8]) -> Result<(), SinkFault> {
        match put_all(&mut self.writer, bytes) {
            Ok(()) => Ok(()),
            Err(error) => {
                self.faults.raise(error);
                Err(SinkFault)
            }
        }
    }
}
