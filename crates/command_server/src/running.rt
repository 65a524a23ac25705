//! The top call.
ghost use Rattle.std.specs.Prelude.{◌≡◌, ◌⊎◌, ◌-◌, None, Some, IfSome, IsTrue};
ghost use Rattle.vol_numbers.specs.Geometry.{layout_of};
ghost use Rattle.vol_numbers.specs.Layout.{area_size};
ghost use Rattle.disk_model.specs.Media.{image_named};
ghost use Rattle.disk_model.specs.Past.{Adds};
ghost use Rattle.command_server.specs.Checking.{Checks, Decides};
ghost use Rattle.command_server.specs.Faults.{device_faults, source_faults, sink_faults};
ghost use Rattle.command_server.specs.Words.{bytes_of_words, request_of, Format};
ghost use Rattle.command_server.specs.Texts.{usage_text, formatted_text};
ghost use Rattle.command_server.specs.Run.{PutsBy, PutsFor, IsServe, IfServe, IfCheck, IsActionDone, IsMade, KeepsOthers, IsDuring};
ghost use Rattle.command_server.specs.Serves.{Serves, ends_of};
ghost use Rattle.command_server.specs.declared.status.Status.TheVariants.{Done, Usage, Device, SinkFailed};

use crate::Status;
use crate::checking::check_image;
use crate::opening::serve_image;
use crate::reply::{put_formatted, put_usage};
use crate::words::{Request, read_words};
use disk_model::{DiskFault, Media, OpenFault};
use log_volume::format;
use std::alloc::Global;
use vol_numbers::Geometry;
use wire_ends::{Sink, SinkFault, Source};

/// Does what the words after the program's name ask for, over an image of the media, and answers how it ended. The table of actions is in
/// `docs/FORMAT.md`.
pub fn run<M: Media, R: Source, W: Sink>(
    alloc: Global,
    words: &[&str],
    media: &mut M,
    source: &mut R,
    sink: &mut W,
) -> Status
    // Usage exactly where the words are outside the table, but that a failure of the sink comes in its place.
    ensures usage { result ≡ Usage → request_of (bytes_of_words words.now) ≡ None }
    ensures usage_always { request_of (bytes_of_words words.now) ≡ None → (result ≡ Usage) ⊎ (result ≡ SinkFailed) }
    // A call of the media, the source or the sink that fails ends all, with the status that tells of it. Want of memory alone is free.
    ensures device_faults { M.faults media.new ≡ device_faults result (M.faults media.old) }
    ensures source_faults { (R.seen source.new).faults ≡ source_faults result (R.seen source.old).faults }
    ensures sink_faults { (W.seen sink.new).faults ≡ sink_faults result (W.seen sink.old).faults }

    // What is written, and what is made.
    ensures put { PutsFor (request_of (bytes_of_words words.now)) result (W.seen sink.old) (W.seen sink.new) }
    ensures made { IsActionDone result → IsTrue M.tells → IfSome (request_of (bytes_of_words words.now)) (λ request. IsMade request (M.fixed media.new) (M.state media.new)) }
    ensures moments { IsTrue M.tells → IfSome (request_of (bytes_of_words words.now)) (λ request. Adds (M.past media.old) (M.past media.new)
        (IsDuring request (image_named (M.fixed media.old) (M.state media.old)) (M.state media.new))) }

    // A session.
    ensures served { IfServe (request_of (bytes_of_words words.now)) (λ image. Serves M.tells image
        (ends_of (R.seen source.old) (W.seen sink.old) (M.fixed media.old) (M.state media.old) (M.past media.old))
        (ends_of (R.seen source.new) (W.seen sink.new) (M.fixed media.new) (M.state media.new) (M.past media.new))
        result) }

    // A check.
    ensures checks { IfCheck (request_of (bytes_of_words words.now)) (λ image. Checks result M.tells
        (image_named (M.fixed media.old) (M.state media.old) image) (W.seen sink.old) (W.seen sink.new)) }
    ensures decides { IsTrue M.tells → IfCheck (request_of (bytes_of_words words.now)) (λ image.
        IfSome (image_named (M.fixed media.old) (M.state media.old) image) (λ there. Decides there.contents result)) }

    // What stays.
    ensures others { IsTrue M.tells → IfSome (request_of (bytes_of_words words.now)) (λ request.
        KeepsOthers request (M.fixed media.old) (M.state media.old) (M.fixed media.new) (M.state media.new)) }
    ensures untouched { request_of (bytes_of_words words.now) ≡ None → media.new ≡ media.old }
    ensures source { ¬ IsServe (request_of (bytes_of_words words.now)) → source.new ≡ source.old }
{
    match read_words(words) {
        Some(Request::Format { image, geometry }) => format_image(image, &geometry, media, sink),
        Some(Request::Serve { image }) => serve_image(alloc, image, media, source, sink),
        Some(Request::Check { image }) => check_image(alloc, image, media, sink),
        None => refuse(sink),
    }
}

/// Says how the program is called.
fn refuse<W: Sink>(sink: &mut W) -> Status
    ensures status { (result ≡ Usage) ⊎ (result ≡ SinkFailed) }
    ensures put { PutsBy result usage_text (W.seen sink.old) (W.seen sink.new) }
    ensures sink_faults { (W.seen sink.new).faults ≡ sink_faults result (W.seen sink.old).faults }
{
    match put_usage(sink) {
        Ok(()) => Status::Usage,
        Err(SinkFault) => Status::SinkFailed,
    }
}

/// Makes a volume in an image.
fn format_image<M: Media, W: Sink>(
    image: &str,
    geometry: &Geometry,
    media: &mut M,
    sink: &mut W,
) -> Status
    ensures not_usage { result ≡ Usage → ⊥ }
    ensures device_faults { M.faults media.new ≡ device_faults result (M.faults media.old) }
    ensures sink_faults { (W.seen sink.new).faults ≡ sink_faults result (W.seen sink.old).faults }
    ensures put { PutsBy result (formatted_text (area_size (layout_of geometry.now) - 2)) (W.seen sink.old) (W.seen sink.new) }
    ensures made { IsActionDone result → IsTrue M.tells → IsMade (Format image.now (layout_of geometry.now)) (M.fixed media.new) (M.state media.new) }
    ensures moments { IsTrue M.tells → Adds (M.past media.old) (M.past media.new)
        (IsDuring (Format image.now (layout_of geometry.now)) (image_named (M.fixed media.old) (M.state media.old)) (M.state media.new)) }
    ensures others { IsTrue M.tells → KeepsOthers (Format image.now (layout_of geometry.now)) (M.fixed media.old) (M.state media.old) (M.fixed media.new) (M.state media.new) }
{
    match media.open(image, Some(geometry.blocks())) {
        Ok(()) => {}
        Err(OpenFault::Failed) => return Status::Device,
        Err(OpenFault::OutOfMemory) => return Status::NoMemory,
    }
    match format(media, geometry) {
        Ok(free) => tell(sink, free),
        Err(DiskFault) => Status::Device,
    }
}

/// Says how many blocks are free.
fn tell<W: Sink>(sink: &mut W, free: u32) -> Status
    ensures status { (result ≡ Done) ⊎ (result ≡ SinkFailed) }
    ensures put { PutsBy result (formatted_text free) (W.seen sink.old) (W.seen sink.new) }
    ensures sink_faults { (W.seen sink.new).faults ≡ sink_faults result (W.seen sink.old).faults }
{
    match put_formatted(sink, free) {
        Ok(()) => Status::Done,
        Err(SinkFault) => Status::SinkFailed,
    }
}
