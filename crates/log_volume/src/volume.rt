//! A volume whose tree is made by the records of its log alone.
ghost use Rattle.std.specs.Prelude.{◌≡◌, ◌≢◌, ◌<◌, ◌≤◌, ◌+◌, ◌↔◌, ℕ, [], slice_get, nat_le, Some, true, false, IfOk, OnOk, OnErr, IsOk, IsErrOf, IsTrue};
ghost use Rattle.vol_numbers.specs.Cause.{HasCause};
ghost use Rattle.disk_model.specs.Disk.{EachImage};
ghost use Rattle.disk_model.specs.Past.{Adds};
ghost use Rattle.root_switch.specs.Current.{selector_block};
ghost use Rattle.block_format.specs.Root.{root_of, HasGeometry};
ghost use Rattle.op_log.specs.Record.{record_blocks};
ghost use Rattle.tree_model.specs.Shape.{IsTree};
ghost use Rattle.tree_model.specs.Step.{step, is_plain, is_change};
ghost use Rattle.log_volume.specs.Answers.{Legal, accepted, added, unbuilt_reply};
ghost use Rattle.log_volume.specs.Fits.{Fits, StandsForSome, kept_by};
ghost use Rattle.log_volume.specs.Replay.{after};
ghost use Rattle.log_volume.specs.Stopping.{HasStopCause};
ghost use Rattle.tree_model.specs.declared.refusal.Refusal.TheVariants.{OutOfMemory};
ghost use Rattle.tree_model.specs.declared.reply.Reply.TheVariants.{Refused};
ghost use Rattle.log_volume.specs.declared.answer.Answer.TheVariants as answers;
ghost use Rattle.log_volume.specs.declared.answer.Stopped.TheVariants.{Now, Before};

use crate::logging::log;
use crate::{Answer, Stopped};
use block_format::RootBody;
use disk_model::{Disk, DiskFault};
use op_log::record_blocks;
use plain_tree::PlainTree;
use root_switch::Current;
use std::alloc::AllocError;
use std::marker::Model;
use tree_model::{Command, Refusal, Reply};

/// The current root, the tree, and whether a write or a sync has failed.
#[derive(Drop)]
pub struct LogVolume {
    current: Current,
    tree: PlainTree,
    is_failed: bool,
}

impl Model for LogVolume {
    ghost use Rattle.std.specs.Prelude.{◌<◌};
    ghost use Rattle.block_format.specs.Root.{root_of, HasGeometry};
    ghost use Rattle.tree_model.specs.Shape.{IsTree};
    ghost use Rattle.log_volume.specs.Fits.{Volume};

    ghost Value = { Volume };

    ghost view = { λ v. record { slot = v.current.slot; root = root_of v.current.body; tree = v.tree; is_failed = v.is_failed } };

    ghost invariant = { λ v. (v.current.slot < 2) × HasGeometry (root_of v.current.body) × IsTree v.tree };
}

/// The answer to a command for which memory is wanting.
fn out_of_memory() -> Answer
    ensures { result ≡ answers.Reply (Refused OutOfMemory) }
{
    Answer::Reply(Reply::Refused(Refusal::OutOfMemory))
}

/// The answer to a command that isn't of the tree.
fn unbuilt_reply(command: &Command) -> Answer
    ensures { result ≡ unbuilt_reply command.now }
{
    match command {
        Command::End => Answer::Reply(Reply::Done),
        _ => Answer::Reply(Reply::Refused(Refusal::BadCommand)),
    }
}

impl LogVolume {
    /// A volume with this current root and this tree.
    pub(crate) fn new(current: Current, tree: PlainTree) -> LogVolume
        requires slot { current.slot < 2 }
        requires grammar { HasGeometry (root_of current.body) }
        requires tree { IsTree tree }
        ensures { result ≡ record { slot = current.slot; root = root_of current.body; tree = tree; is_failed = false } }
    {
        LogVolume {
            current,
            tree,
            is_failed: false,
        }
    }

    /// Whether a write or a sync of an earlier call has failed. Then no command is done any more.
    pub fn is_failed(&self) -> bool
        ensures { result ≡ self.now.is_failed }
    {
        self.is_failed
    }

    /// Answers a command. A change that the tree doesn't refuse is in the log of the disk before it is answered.
    ///
    /// # Errors
    ///
    /// A write or a sync failed, now or before. After a failure the volume does nothing any more, and only a mount can say whether the
    /// command is in the log. Want of memory is an answer, and leaves the volume as it was.
    pub fn apply<D: Disk>(&mut self, disk: &mut D, command: &Command) -> Result<Answer, Stopped>
        requires size { self.old.root.layout.blocks ≡ (D.fixed disk.old).size }
        requires fits { self.old.is_failed ≡ false → IsTrue D.tells → Fits self.old (D.state disk.old) }

        ensures answer { IfOk result (Legal self.old.root.layout.log_blocks (kept_by self.old) command.now) }
        ensures kept { IfOk result (λ answer. kept_by self.new ≡ after (accepted command.now answer) (kept_by self.old)) }
        ensures layout { self.new.root.layout ≡ self.old.root.layout }
        ensures fits { OnOk result (IsTrue D.tells → Fits self.new (D.state disk.new)) }
        // After a command that was logged the selector is the one block that names the slot.
        ensures selector { IfOk result (λ answer. accepted command.now answer ≢ [] → IsTrue D.tells → slice_get (D.state disk.new).contents 0 ≡ Some (selector_block self.new.slot)) }

        // At each moment each image stands for the tree of before or for that after the command, and so does what a failure leaves.
        ensures during { IsTrue D.tells → Adds (D.past disk.old) (D.past disk.new)
            (EachImage (StandsForSome (kept_by self.old) (added self.old.root.layout.log_blocks (kept_by self.old) command.now result))) }
        ensures left { IsErrOf result Now → IsTrue D.tells
            → EachImage (StandsForSome (kept_by self.old) (added self.old.root.layout.log_blocks (kept_by self.old) command.now result)) (D.state disk.new) }
        ensures unsynced { IsErrOf result Now → IsTrue D.tells → (D.state disk.new).unsynced ≢ [] }

        // A volume that has failed says so without a call of the disk.
        ensures failed { IsOk result ↔ (self.new.is_failed ≡ false) }
        ensures before { IsErrOf result Before ↔ (self.old.is_failed ≡ true) }
        ensures untouched { IsErrOf result Before → (disk.new ≡ disk.old) × (self.new ≡ self.old) }

        ensures fixed { D.fixed disk.new ≡ D.fixed disk.old }
        ensures cause { HasStopCause (D.faults disk.old) (D.faults disk.new) result }
    {
        if self.is_failed {
            return Err(Stopped::Before);
        }
        if !command.is_plain() {
            return Ok(unbuilt_reply(command));
        }
        if !command.is_change() {
            return Ok(self.look(command));
        }
        match self.change(disk, command) {
            Ok(answer) => Ok(answer),
            Err(DiskFault) => Err(self.stop()),
        }
    }

    /// From now on no command is done any more.
    fn stop(&mut self) -> Stopped
        ensures now { result ≡ Now }
        ensures failed { self.new ≡ record self.old { is_failed = true } }
    {
        self.is_failed = true;
        Stopped::Now
    }

    /// Answers a command that changes nothing.
    fn look(&mut self, command: &Command) -> Answer
        requires plain { IsTrue (is_plain command.now) }
        requires reading { is_change command.now ≡ false }
        ensures answer { (room : ℕ) → Legal room (kept_by self.old) command.now result }
        ensures same { self.new ≡ self.old }
    {
        match self.tree.step(command) {
            Ok(reply) => Answer::Reply(reply),
            Err(AllocError) => out_of_memory(),
        }
    }

    /// Does a change, if the tree doesn't refuse it and its record has room. All memory for it is taken before it is logged.
    fn change<D: Disk>(&mut self, disk: &mut D, command: &Command) -> Result<Answer, DiskFault>
        requires change { is_change command.now ≡ true }
        requires size { self.old.root.layout.blocks ≡ (D.fixed disk.old).size }
        requires fits { IsTrue D.tells → Fits self.old (D.state disk.old) }
        ensures answer { IfOk result (Legal self.old.root.layout.log_blocks (kept_by self.old) command.now) }
        ensures kept { IfOk result (λ answer. kept_by self.new ≡ after (accepted command.now answer) (kept_by self.old)) }
        ensures layout { self.new.root.layout ≡ self.old.root.layout }
        ensures sound { self.new.is_failed ≡ self.old.is_failed }
        ensures fits { OnOk result (IsTrue D.tells → Fits self.new (D.state disk.new)) }
        ensures selector { IfOk result (λ answer. accepted command.now answer ≢ [] → IsTrue D.tells → slice_get (D.state disk.new).contents 0 ≡ Some (selector_block self.new.slot)) }
        ensures during { IsTrue D.tells → Adds (D.past disk.old) (D.past disk.new)
            (EachImage (StandsForSome (kept_by self.old) (added self.old.root.layout.log_blocks (kept_by self.old) command.now result))) }
        ensures left { OnErr result (IsTrue D.tells
            → EachImage (StandsForSome (kept_by self.old) (added self.old.root.layout.log_blocks (kept_by self.old) command.now result)) (D.state disk.new)) }
        ensures unsynced { OnErr result (IsTrue D.tells → (D.state disk.new).unsynced ≢ []) }
        ensures fixed { D.fixed disk.new ≡ D.fixed disk.old }
        ensures cause { HasCause (D.faults disk.old) (D.faults disk.new) result }
    {
        if let Some(refusal) = self.tree.refusal(command) {
            return Ok(Answer::Reply(Reply::Refused(refusal)));
        }
        if !has_room(&self.current.body, command) {
            return Ok(Answer::LogFull);
        }
        if change_tree(&mut self.tree, command).is_err() {
            return Ok(out_of_memory());
        }
        match log(disk, &self.current, command) {
            Ok(next) => {
                self.current = next;
                Ok(Answer::Reply(Reply::Done))
            }
            Err(fault) => Err(fault),
        }
    }
}

/// Whether the log has room for the record of a change.
fn has_room(body: &RootBody, command: &Command) -> bool
    requires grammar { HasGeometry (root_of body.now) }
    requires change { is_change command.now ≡ true }
    ensures { result ≡ nat_le (body.now.log_used + record_blocks command.now) (root_of body.now).layout.log_blocks }
{
    record_blocks(command) <= body.geometry.log_blocks() - body.log_used
}

/// Does a change on a tree, and lets the reply go. Want of memory leaves the tree as it is.
fn change_tree(tree: &mut PlainTree, command: &Command) -> Result<(), AllocError>
    requires plain { IsTrue (is_plain command.now) }
    ensures done { OnOk result (tree.new ≡ (step tree.old command.now).1) }
    ensures err { OnErr result (tree.new ≡ tree.old) }
    ensures sound { IsTree tree.old → IsTree tree.new }
{
    tree.step(command)?;
    Ok(())
}
