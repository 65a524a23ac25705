//! A session over a volume: item after item is read and answered.
ghost use Rattle.std.specs.Prelude.{◌≡◌, ◌≢◌, ◌↔◌, ◌<◌, ◌+◌, ℕ, [], length, false, None, Some, OnOk, OnErr, IsNone, IsTrue};
ghost use Rattle.vol_numbers.specs.Cause.{HasCause};
ghost use Rattle.disk_model.specs.Disk.{EachImage};
ghost use Rattle.disk_model.specs.Past.{Adds};
ghost use Rattle.wire_ends.specs.Ends.{Input};
ghost use Rattle.log_volume.specs.Fits.{Fits, StandsForSome, kept_by};
ghost use Rattle.log_volume.specs.Replay.{after};
ghost use Rattle.command_text.specs.Reading.{unread};
ghost use Rattle.command_text.specs.Text.{Text};
ghost use Rattle.command_text.specs.declared.item.Item.TheVariants.{Ended};
ghost use Rattle.command_server.specs.Answering.{status_of, Says};
ghost use Rattle.command_server.specs.Faults.{device_faults, source_faults, sink_faults, faults_then};
ghost use Rattle.command_server.specs.Items.{IsLegal, added_by};
ghost use Rattle.command_server.specs.Serving.{ended_by, left_by, text_of_source, no_text, IsRead};
ghost use Rattle.command_server.specs.Session.{Session, point};
ghost use Rattle.command_server.specs.Texts.{answered_text};

use crate::Status;
use crate::reply::put_answer;
use command_text::{CommandReader, Item, TextFault};
use disk_model::Disk;
use log_volume::{Answer, LogVolume, Stopped};
use reply_text::PutFault;
use std::alloc::Global;
use tree_model::Reply;
use wire_ends::{Sink, Source};

/// What became of one item: the session goes on, or ends.
#[derive(Clone, Copy)]
pub(crate) enum Served {
    GoesOn,
    Ends(Status),
}

/// Answers the commands of a source, which gives at most so many bytes, one after the other. An answer is put before more is taken from the
/// source. The session ends with the status that tells why.
pub fn serve<D: Disk, R: Source, W: Sink>(
    alloc: Global,
    volume: &mut LogVolume,
    disk: &mut D,
    source: &mut R,
    sink: &mut W,
    budget: u64,
) -> Status
    requires sound { volume.old.is_failed ≡ false }
    requires size { volume.old.root.layout.blocks ≡ (D.fixed disk.old).size }
    requires fits { IsTrue D.tells → Fits volume.old (D.state disk.old) }
    ensures session { Session volume.old.root.layout.log_blocks D.tells
        (point (text_of_source budget (R.seen source.old)) (R.seen source.old) (W.seen sink.old) (kept_by volume.old) (D.state disk.old) (D.past disk.old))
        (point no_text (R.seen source.new) (W.seen sink.new) (kept_by volume.new) (D.state disk.new) (D.past disk.new))
        (Some result) }
    ensures device_faults { D.faults disk.new ≡ device_faults result (D.faults disk.old) }
    ensures source_faults { (R.seen source.new).faults ≡ source_faults result (R.seen source.old).faults }
    ensures sink_faults { (W.seen sink.new).faults ≡ sink_faults result (W.seen sink.old).faults }
    ensures fixed { D.fixed disk.new ≡ D.fixed disk.old }
{
    let Ok(reader) = CommandReader::new(alloc, budget) else {
        return Status::NoMemory;
    };
    let mut reader = reader;
    'items: loop {
        match serve_item(alloc, &mut reader, volume, disk, source, sink) {
            Served::GoesOn => {}
            Served::Ends(status) => return status,
        }
    }
}

/// Reads an item and answers it.
fn serve_item<D: Disk, R: Source, W: Sink>(
    alloc: Global,
    reader: &mut CommandReader,
    volume: &mut LogVolume,
    disk: &mut D,
    source: &mut R,
    sink: &mut W,
) -> Served
    requires no_fault { reader.old.fault ≡ None }
    requires sound { volume.old.is_failed ≡ false }
    requires size { volume.old.root.layout.blocks ≡ (D.fixed disk.old).size }
    requires fits { IsTrue D.tells → Fits volume.old (D.state disk.old) }
    ensures session { Session volume.old.root.layout.log_blocks D.tells
        (point (unread reader.old (R.seen source.old)) (R.seen source.old) (W.seen sink.old) (kept_by volume.old) (D.state disk.old) (D.past disk.old))
        (point (left_by result (unread reader.new (R.seen source.new))) (R.seen source.new) (W.seen sink.new) (kept_by volume.new) (D.state disk.new) (D.past disk.new))
        (ended_by result) }
    ensures layout { volume.new.root.layout ≡ volume.old.root.layout }
    ensures sound { IsNone (ended_by result) → volume.new.is_failed ≡ false }
    ensures fits { IsNone (ended_by result) → IsTrue D.tells → Fits volume.new (D.state disk.new) }
    ensures no_fault { IsNone (ended_by result) → reader.new.fault ≡ None }
    ensures falls { IsNone (ended_by result) → length reader.new.held + reader.new.budget < length reader.old.held + reader.old.budget }
    ensures device_faults { D.faults disk.new ≡ faults_then device_faults (ended_by result) (D.faults disk.old) }
    ensures source_faults { (R.seen source.new).faults ≡ faults_then source_faults (ended_by result) (R.seen source.old).faults }
    ensures sink_faults { (W.seen sink.new).faults ≡ faults_then sink_faults (ended_by result) (W.seen sink.old).faults }
    ensures fixed { D.fixed disk.new ≡ D.fixed disk.old }
{
    match reader.read_command(source) {
        Ok(item) => {
            let served = answer_item(alloc, volume, disk, sink, &item);
            drop(item);
            served
        }
        Err(fault) => Served::Ends(status_of(fault)),
    }
}

/// Answers an item that was read from some source.
fn answer_item<D: Disk, W: Sink>(
    alloc: Global,
    volume: &mut LogVolume,
    disk: &mut D,
    sink: &mut W,
    item: &Item,
) -> Served
    requires sound { volume.old.is_failed ≡ false }
    requires size { volume.old.root.layout.blocks ≡ (D.fixed disk.old).size }
    requires fits { IsTrue D.tells → Fits volume.old (D.state disk.old) }
    ensures session { (text behind : Text) → (from to : Input) → IsRead item.now text behind from to → Session volume.old.root.layout.log_blocks D.tells
        (point text from (W.seen sink.old) (kept_by volume.old) (D.state disk.old) (D.past disk.old))
        (point (left_by result behind) to (W.seen sink.new) (kept_by volume.new) (D.state disk.new) (D.past disk.new))
        (ended_by result) }
    ensures goes_on { IsNone (ended_by result) → item.now ≢ Ended }
    ensures layout { volume.new.root.layout ≡ volume.old.root.layout }
    ensures sound { IsNone (ended_by result) → volume.new.is_failed ≡ false }
    ensures fits { IsNone (ended_by result) → IsTrue D.tells → Fits volume.new (D.state disk.new) }
    ensures device_faults { D.faults disk.new ≡ faults_then device_faults (ended_by result) (D.faults disk.old) }
    ensures no_source_fault { (count : ℕ) → faults_then source_faults (ended_by result) count ≡ count }
    ensures sink_faults { (W.seen sink.new).faults ≡ faults_then sink_faults (ended_by result) (W.seen sink.old).faults }
    ensures fixed { D.fixed disk.new ≡ D.fixed disk.old }
{
    if is_ended(item) {
        return Served::Ends(Status::Done);
    }
    match answer_to(volume, disk, item) {
        Ok(answer) => say(alloc, sink, answer),
        Err(_) => Served::Ends(Status::Device),
    }
}

/// Whether the item is the end of the session.
fn is_ended(item: &Item) -> bool
    ensures { IsTrue result ↔ (item.now ≡ Ended) }
{
    match item {
        Item::Ended => true,
        Item::Command(_) | Item::Refused(_) => false,
    }
}

/// The status of a session whose next item can't be read.
fn status_of(fault: TextFault) -> Status
    ensures { result ≡ status_of fault }
{
    match fault {
        TextFault::Source => Status::SourceFailed,
        TextFault::BadStream => Status::BadStream,
        TextFault::Budget => Status::Budget,
        TextFault::OutOfMemory => Status::NoMemory,
    }
}

/// The answer to an item, where the volume doesn't stop at it.
fn answer_to<D: Disk>(volume: &mut LogVolume, disk: &mut D, item: &Item) -> Result<Answer, Stopped>
    requires some { item.now ≢ Ended }
    requires sound { volume.old.is_failed ≡ false }
    requires size { volume.old.root.layout.blocks ≡ (D.fixed disk.old).size }
    requires fits { IsTrue D.tells → Fits volume.old (D.state disk.old) }
    ensures legal { IsLegal volume.old.root.layout.log_blocks (kept_by volume.old) item.now result }
    ensures kept { OnOk result (kept_by volume.new ≡ after (added_by volume.old.root.layout.log_blocks (kept_by volume.old) item.now result) (kept_by volume.old)) }
    ensures layout { volume.new.root.layout ≡ volume.old.root.layout }
    ensures sound { OnOk result (volume.new.is_failed ≡ false) }
    ensures fits { OnOk result (IsTrue D.tells → Fits volume.new (D.state disk.new)) }
    ensures during { IsTrue D.tells → Adds (D.past disk.old) (D.past disk.new)
        (EachImage (StandsForSome (kept_by volume.old) (added_by volume.old.root.layout.log_blocks (kept_by volume.old) item.now result))) }
    ensures left { OnErr result (IsTrue D.tells
        → EachImage (StandsForSome (kept_by volume.old) (added_by volume.old.root.layout.log_blocks (kept_by volume.old) item.now result)) (D.state disk.new)) }
    ensures unsynced { OnErr result (IsTrue D.tells → (D.state disk.new).unsynced ≢ []) }
    ensures fixed { D.fixed disk.new ≡ D.fixed disk.old }
    ensures cause { HasCause (D.faults disk.old) (D.faults disk.new) result }
{
    match item {
        Item::Command(command) => volume.apply(disk, command),
        Item::Refused(refusal) => Ok(Answer::Reply(Reply::Refused(*refusal))),
        Item::Ended => unreachable!(),
    }
}

/// Puts an answer.
fn say<W: Sink>(alloc: Global, sink: &mut W, answer: Answer) -> Served
    ensures says { Says (answered_text answer) result (W.seen sink.old) (W.seen sink.new) }
    ensures sink_faults { (W.seen sink.new).faults ≡ faults_then sink_faults (ended_by result) (W.seen sink.old).faults }
{
    match put_answer(alloc, sink, answer) {
        Ok(()) => Served::GoesOn,
        Err(PutFault::Sink) => Served::Ends(Status::SinkFailed),
        Err(PutFault::OutOfMemory) => Served::Ends(Status::NoMemory),
    }
}
