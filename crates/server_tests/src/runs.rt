//! Calls of the server over media, a source and a sink in memory.
use command_server::{Status, run};
use mem_media::MemMedia;
use std::alloc::{AllocError, Global};
use vol_numbers::{ByteList, CallList};
use wire_ends::{MemSink, MemSource, Sink};

/// How many bytes the sinks have room for.
const ROOM: usize = 1_000;

/// Media with a fresh volume `v` of 2,048 blocks and a log of 64, which begins at block 7.
pub(crate) fn fresh(alloc: Global) -> Result<MemMedia, AllocError> {
    let mut sink = roomy(alloc)?;
    let mut media = MemMedia::new(alloc);
    let words = ["format", "v", "--blocks", "2048", "--log", "64"];
    let mut source = MemSource::new(ByteList::new(alloc), 1, CallList::new(alloc));
    run(alloc, &words, &mut media, &mut source, &mut sink);
    Ok(media)
}

/// A session over the image `v` with this input.
pub(crate) fn serve_over<W: Sink>(
    alloc: Global,
    media: &mut MemMedia,
    input: &[u8],
    sink: &mut W,
) -> Result<Status, AllocError> {
    let bytes = ByteList::from_vec(input.to_vec(alloc)?);
    let mut source = MemSource::new(bytes, 1_000, CallList::new(alloc));
    Ok(run(alloc, &["serve", "v"], media, &mut source, sink))
}

/// A check of the image `v`.
pub(crate) fn check_over<W: Sink>(
    alloc: Global,
    media: &mut MemMedia,
    sink: &mut W,
) -> Result<Status, AllocError> {
    let mut source = MemSource::new(ByteList::new(alloc), 1, CallList::new(alloc));
    Ok(run(alloc, &["check", "v"], media, &mut source, sink))
}

/// A sink with room for what any test writes.
pub(crate) fn roomy(alloc: Global) -> Result<MemSink, AllocError> {
    MemSink::new(alloc, ROOM, CallList::new(alloc))
}
