//! Replies to a command at which no point is due any more.
ghost use Rattle.std.specs.Prelude.{◌≡◌, true, false, Err, IfOk, OnOk, OnErr, IsTrue};
ghost use Rattle.session_model.specs.Follows.{seen_of};
ghost use Rattle.tree_model.specs.Step.{is_change};
ghost use Rattle.volume_model.specs.Legal.{is_due};
ghost use Rattle.volume_model.specs.Machine.{Machine, Rules};
ghost use Rattle.volume_core.specs.Answers.{IsBuilt, after_reply};
ghost use Rattle.volume_core.specs.Memory.{IsFitting, IsIn, IsInSome};
ghost use Rattle.volume_core.specs.Replied.{Replied};
ghost use Rattle.volume_core.specs.declared.given.Stopped.TheVariants.{Now};

use crate::Volume;
use crate::given::{Stopped, Undone};
use crate::looking::refusal_by;
use disk_model::Disk;
use point_model::table_holds_tree;
use space_account::{charge, reserve};
use state_laws::accepted_is_done;
use std::alloc::Global;
use tree_model::{Command, Refusal, Reply};

impl Volume {
    /// Replies to a command, behind the point that was due or where none was.
    pub(crate) fn reply<D: Disk>(
        &mut self,
        alloc: Global,
        disk: &mut D,
        command: &Command,
    ) -> Result<Reply, Stopped>
        requires built { IsBuilt command.now }
        requires fits { IsFitting (D.fixed disk.old).size self.old }
        requires held { IsTrue D.tells → IsInSome (D.state disk.old) self.old }
        // No point is due at it in the state in which it is answered.
        ensures replied { (r : Rules) (m : Machine) → (IsTrue D.tells → IsIn r m (D.state disk.old) self.old) → (IsTrue D.tells → is_change command.now ≡ true → is_due m command.now ≡ false)
            → Replied D.tells m command.now result (seen_of (D.state disk.old) (D.past disk.old) (D.faults disk.old)) (seen_of (D.state disk.new) (D.past disk.new) (D.faults disk.new)) }
        ensures next { IfOk result (λ reply. IsTrue D.tells → (r : Rules) (m : Machine) → IsIn r m (D.state disk.old) self.old → (is_change command.now ≡ true → is_due m command.now ≡ false)
            → IsIn r (after_reply m command.now reply) (D.state disk.new) self.new) }
        ensures now { OnErr result (result ≡ Err Now) }
        ensures failed { OnErr result (self.new.is_failed ≡ true) }
        ensures fits { OnOk result (IsFitting (D.fixed disk.old).size self.new) }
        ensures alive { OnOk result (self.new.is_failed ≡ self.old.is_failed) }
        ensures fixed { D.fixed disk.new ≡ D.fixed disk.old }
    {
        if command.is_change() {
            return self.reply_to_change(alloc, disk, command);
        }
        if let Command::Checkpoint = command {
            return Ok(Reply::Done);
        }
        Ok(self.look(alloc, disk, command))
    }

    /// Replies to a change: it is done where the tree takes it and it has room.
    fn reply_to_change<D: Disk>(
        &mut self,
        alloc: Global,
        disk: &mut D,
        command: &Command,
    ) -> Result<Reply, Stopped>
        requires change { is_change command.now ≡ true }
        requires fits { IsFitting (D.fixed disk.old).size self.old }
        requires held { IsTrue D.tells → IsInSome (D.state disk.old) self.old }
        ensures replied { (r : Rules) (m : Machine) → (IsTrue D.tells → IsIn r m (D.state disk.old) self.old) → (IsTrue D.tells → is_due m command.now ≡ false)
            → Replied D.tells m command.now result (seen_of (D.state disk.old) (D.past disk.old) (D.faults disk.old)) (seen_of (D.state disk.new) (D.past disk.new) (D.faults disk.new)) }
        ensures next { IfOk result (λ reply. IsTrue D.tells → (r : Rules) (m : Machine) → IsIn r m (D.state disk.old) self.old → is_due m command.now ≡ false
            → IsIn r (after_reply m command.now reply) (D.state disk.new) self.new) }
        ensures now { OnErr result (result ≡ Err Now) }
        ensures failed { OnErr result (self.new.is_failed ≡ true) }
        ensures fits { OnOk result (IsFitting (D.fixed disk.old).size self.new) }
        ensures alive { OnOk result (self.new.is_failed ≡ self.old.is_failed) }
        ensures fixed { D.fixed disk.new ≡ D.fixed disk.old }
    {
        // The table holds the machine's tree, and what a tree accepts is done.
        table_holds_tree();
        accepted_is_done();
        if let Some(refusal) = self.nodes.refusal(command) {
            return Ok(Reply::Refused(refusal));
        }
        if !self.has_room(command) {
            return Ok(Reply::Refused(Refusal::NoSpace {
                free: self.free,
                need: charge(command) + reserve(command),
            }));
        }
        match self.change(alloc, disk, command) {
            Ok(()) => Ok(Reply::Done),
            Err(Undone::Fault(fault)) => Ok(Reply::Refused(refusal_by(&fault))),
            Err(Undone::Stopped) => Err(Stopped::Now),
        }
    }
}
