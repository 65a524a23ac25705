//! A check of a named image.
ghost use Rattle.std.specs.Prelude.{◌≡◌, ℕ, List, IsTrue};
ghost use Rattle.disk_model.specs.Media.{image_named};
ghost use Rattle.disk_model.specs.Past.{Adds};
ghost use Rattle.command_server.specs.Checking.{Checks, Tells};
ghost use Rattle.command_server.specs.Faults.{device_faults, sink_faults};
ghost use Rattle.command_server.specs.Findings.{good_text, bad_text};
ghost use Rattle.command_server.specs.Run.{IsDuring, KeepsOthers};
ghost use Rattle.command_server.specs.Words.{Check};
ghost use Rattle.command_server.specs.declared.status.Status.TheVariants.{Done, BadVolume};

use crate::Status;
use crate::findings::{put_bad, put_good};
use disk_model::{Media, OpenFault};
use fs_check::{CheckFault, Summary, check};
use image_model::Finding;
use std::alloc::Global;
use wire_ends::{Sink, SinkFault};

/// Opens an image as it is, checks it, and says what was found.
pub(crate) fn check_image<M: Media, W: Sink>(
    alloc: Global,
    image: &str,
    media: &mut M,
    sink: &mut W,
) -> Status
    ensures checks { Checks result M.tells (image_named (M.fixed media.old) (M.state media.old) image.now) (W.seen sink.old) (W.seen sink.new) }
    ensures others { IsTrue M.tells → KeepsOthers (Check image.now) (M.fixed media.old) (M.state media.old) (M.fixed media.new) (M.state media.new) }
    ensures moments { IsTrue M.tells → Adds (M.past media.old) (M.past media.new) (IsDuring (Check image.now) (image_named (M.fixed media.old) (M.state media.old)) (M.state media.new)) }
    ensures device_faults { M.faults media.new ≡ device_faults result (M.faults media.old) }
    ensures sink_faults { (W.seen sink.new).faults ≡ sink_faults result (W.seen sink.old).faults }
{
    match media.open(image, None) {
        Ok(()) => {}
        Err(OpenFault::Failed) => return Status::Device,
        Err(OpenFault::OutOfMemory) => return Status::NoMemory,
    }
    match check(alloc, media) {
        Ok(sum) => tell_good(sink, sum),
        Err(CheckFault::Found(finding)) => tell_bad(sink, finding),
        Err(CheckFault::Device) => Status::Device,
        Err(CheckFault::OutOfMemory) => Status::NoMemory,
    }
}

/// Says how much there is in a good image.
fn tell_good<W: Sink>(sink: &mut W, sum: Summary) -> Status
    ensures tells { Tells Done (good_text sum) result (W.seen sink.old) (W.seen sink.new) }
    ensures sink_faults { (W.seen sink.new).faults ≡ sink_faults result (W.seen sink.old).faults }
{
    match put_good(sink, sum) {
        Ok(()) => Status::Done,
        Err(SinkFault) => Status::SinkFailed,
    }
}

/// Says what is wrong with an image.
fn tell_bad<W: Sink>(sink: &mut W, finding: Finding) -> Status
    ensures tells { Tells BadVolume (bad_text finding) result (W.seen sink.old) (W.seen sink.new) }
    ensures sink_faults { (W.seen sink.new).faults ≡ sink_faults result (W.seen sink.old).faults }
{
    match put_bad(sink, finding) {
        Ok(()) => Status::BadVolume,
        Err(SinkFault) => Status::SinkFailed,
    }
}
