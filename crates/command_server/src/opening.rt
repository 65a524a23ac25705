//! A session over a named image.
ghost use Rattle.std.specs.Prelude.{◌≡◌, ◌≢◌, List, ℕ, Some, false, IsTrue};
ghost use Rattle.disk_model.specs.Media.{image_named};
ghost use Rattle.command_server.specs.Faults.{device_faults, source_faults, sink_faults};
ghost use Rattle.command_server.specs.Serves.{Serves, TellsFinding, ends_of};
ghost use Rattle.command_server.specs.Serving.{text_of_source, no_text, session_budget};
ghost use Rattle.command_server.specs.Session.{Session, point};
ghost use Rattle.log_volume.specs.Fits.{Fits, kept_by};
ghost use Rattle.log_volume.specs.Replay.{Kept};

use crate::Status;
use crate::reply::put_finding;
use crate::serving::serve;
use disk_model::{Disk, Media, OpenFault};
use log_volume::{Finding, LogVolume, MountFault, mount};
use std::alloc::Global;
use wire_ends::{Sink, SinkFault, Source};

/// How many bytes a session takes at most.
const SESSION_BUDGET: u64 = 1_099_511_627_776;

/// Opens an image, mounts its volume, and serves a session over it.
pub(crate) fn serve_image<M: Media, R: Source, W: Sink>(
    alloc: Global,
    image: &str,
    media: &mut M,
    source: &mut R,
    sink: &mut W,
) -> Status
    ensures served { Serves M.tells image.now
        (ends_of (R.seen source.old) (W.seen sink.old) (M.fixed media.old) (M.state media.old) (M.past media.old))
        (ends_of (R.seen source.new) (W.seen sink.new) (M.fixed media.new) (M.state media.new) (M.past media.new))
        result }
    ensures others { IsTrue M.tells → (other : List ℕ) → other ≢ image.now → image_named (M.fixed media.new) (M.state media.new) other ≡ image_named (M.fixed media.old) (M.state media.old) other }
    ensures device_faults { M.faults media.new ≡ device_faults result (M.faults media.old) }
    ensures source_faults { (R.seen source.new).faults ≡ source_faults result (R.seen source.old).faults }
    ensures sink_faults { (W.seen sink.new).faults ≡ sink_faults result (W.seen sink.old).faults }
{
    match media.open(image, None) {
        Ok(()) => {}
        Err(OpenFault::Failed) => return Status::Device,
        Err(OpenFault::OutOfMemory) => return Status::NoMemory,
    }
    match mount(alloc, media) {
        Ok(volume) => serve_mounted(alloc, volume, media, source, sink),
        Err(MountFault::Found(finding)) => tell_finding(sink, finding),
        Err(MountFault::Device) => Status::Device,
        Err(MountFault::OutOfMemory) => Status::NoMemory,
    }
}

/// Serves a session over a mounted volume.
fn serve_mounted<D: Disk, R: Source, W: Sink>(
    alloc: Global,
    volume: LogVolume,
    disk: &mut D,
    source: &mut R,
    sink: &mut W,
) -> Status
    requires sound { volume.is_failed ≡ false }
    requires size { volume.root.layout.blocks ≡ (D.fixed disk.old).size }
    requires fits { IsTrue D.tells → Fits volume (D.state disk.old) }
    ensures session { (left : Kept) × Session volume.root.layout.log_blocks D.tells
        (point (text_of_source session_budget (R.seen source.old)) (R.seen source.old) (W.seen sink.old) (kept_by volume) (D.state disk.old) (D.past disk.old))
        (point no_text (R.seen source.new) (W.seen sink.new) left (D.state disk.new) (D.past disk.new))
        (Some result) }
    ensures device_faults { D.faults disk.new ≡ device_faults result (D.faults disk.old) }
    ensures source_faults { (R.seen source.new).faults ≡ source_faults result (R.seen source.old).faults }
    ensures sink_faults { (W.seen sink.new).faults ≡ sink_faults result (W.seen sink.old).faults }
    ensures fixed { D.fixed disk.new ≡ D.fixed disk.old }
{
    let mut volume = volume;
    serve(alloc, &mut volume, disk, source, sink, SESSION_BUDGET)
}

/// Says why an image stands for nothing.
fn tell_finding<W: Sink>(sink: &mut W, finding: Finding) -> Status
    ensures tells { TellsFinding finding result (W.seen sink.old) (W.seen sink.new) }
    ensures sink_faults { (W.seen sink.new).faults ≡ sink_faults result (W.seen sink.old).faults }
{
    match put_finding(sink, finding) {
        Ok(()) => Status::BadVolume,
        Err(SinkFault) => Status::SinkFailed,
    }
}
