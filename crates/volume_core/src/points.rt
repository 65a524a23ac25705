//! The point that is due before a command.
ghost use Rattle.std.specs.Prelude.{◌≡◌, ◌≢◌, ◌≤◌, ◌+◌, ℕ, Ok, Err, [], not, true, false, is_some, ◌&&◌, IfOk, OnOk, OnErr, IsErrOf, IsTrue};
ghost use Rattle.block_format.specs.Root.{root_of};
ghost use Rattle.consistency_point.specs.Cause.{HasPointCause, EndsBeforeWrites, HasWritten};
ghost use Rattle.consistency_point.specs.Taking.{StandsBetween, StopsWithin};
ghost use Rattle.consistency_point.specs.declared.fault.PointFault.TheVariants.{Damaged, WriteFault, Short};
ghost use Rattle.disk_model.specs.Disk.{State, EachImage};
ghost use Rattle.disk_model.specs.Past.{Adds};
ghost use Rattle.node_table.specs.Held.{HoldsNodes};
ghost use Rattle.op_log.specs.Record.{record_blocks};
ghost use Rattle.session_model.specs.Follows.{seen_of};
ghost use Rattle.space_account.specs.Charge.{need};
ghost use Rattle.tree_model.specs.Shape.{IsTree};
ghost use Rattle.tree_model.specs.Step.{is_change, refusal_of};
ghost use Rattle.tree_model.specs.Tree.{Tree};
ghost use Rattle.volume_model.specs.Legal.{is_due, lacks_room, when_answered};
ghost use Rattle.volume_model.specs.Machine.{Machine, Rules};
ghost use Rattle.volume_model.specs.Point.{after_point, fresh_in};
ghost use Rattle.volume_model.specs.ReportLaws.{IsReport};
ghost use Rattle.volume_model.specs.Short.{is_short};
ghost use Rattle.volume_core.specs.Answers.{Applied};
ghost use Rattle.volume_core.specs.Begun.{HasBegun, IfReady, IfGiven, TellsNothingDone, untaken};
ghost use Rattle.volume_core.specs.Memory.{FitsSome, IsFitting, IsIn, IsInSome};
ghost use Rattle.volume_core.specs.declared.given.Stopped.TheVariants.{Now};

use crate::Volume;
use crate::given::{Begun, Given, Stopped};
use consistency_point::{PointFault, take};
use disk_model::Disk;
use op_log::record_blocks;
use point_model::table_holds_tree;
use space_account::{charge, fits, reserve};
use std::alloc::Global;
use tree_model::{Answer, Command, Refusal, Reply, Report};

impl Volume {
    /// Takes the point that is due before a command, if one is. Where it isn't taken, that is the answer.
    pub(crate) fn begin<D: Disk>(
        &mut self,
        alloc: Global,
        disk: &mut D,
        command: &Command,
    ) -> Result<Begun, Stopped>
        requires fits { IsFitting (D.fixed disk.old).size self.old }
        requires held { IsTrue D.tells → IsInSome (D.state disk.old) self.old }
        // The command is to be answered in the state after the point, or in that of before where none was due.
        ensures ready { IfReady result (λ report. (r : Rules) (m : Machine) → (IsTrue D.tells → IsIn r m (D.state disk.old) self.old)
            → HasBegun r D.tells m command.now report (seen_of (D.state disk.old) (D.past disk.old) (D.faults disk.old)) (seen_of (D.state disk.new) (D.past disk.new) (D.faults disk.new))) }
        ensures holds { IfReady result (λ report. IsTrue D.tells → (r : Rules) (m : Machine) → IsIn r m (D.state disk.old) self.old → IsIn r (when_answered r m report) (D.state disk.new) self.new) }
        // A point that isn't taken leaves disk and memory as they were, and the answer is owed.
        ensures given { IfGiven result (λ given. (r : Rules) (m : Machine) → (IsTrue D.tells → IsIn r m (D.state disk.old) self.old)
            → Applied r D.tells m command.now (Ok given) (seen_of (D.state disk.old) (D.past disk.old) (D.faults disk.old)) (seen_of (D.state disk.new) (D.past disk.new) (D.faults disk.new))) }
        ensures idle { IfGiven result TellsNothingDone }
        ensures stays { IfGiven result (λ _. self.new ≡ self.old) }
        ensures same { IfGiven result (λ _. IsTrue D.tells → D.state disk.new ≡ D.state disk.old) }
        // A write of the point failed.
        ensures stopped { OnErr result ((r : Rules) (m : Machine) → (IsTrue D.tells → IsIn r m (D.state disk.old) self.old)
            → Applied r D.tells m command.now (Err Now) (seen_of (D.state disk.old) (D.past disk.old) (D.faults disk.old)) (seen_of (D.state disk.new) (D.past disk.new) (D.faults disk.new))) }
        ensures now { OnErr result (result ≡ Err Now) }
        ensures failed { OnErr result (self.new.is_failed ≡ true) }
        ensures fits { OnOk result (IsFitting (D.fixed disk.old).size self.new) }
        ensures alive { OnOk result (self.new.is_failed ≡ self.old.is_failed) }
        ensures fixed { D.fixed disk.new ≡ D.fixed disk.old }
    {
        if !self.is_due(command) {
            return Ok(Begun::Ready(None));
        }
        match self.take_point(alloc, disk) {
            Ok(report) => Ok(Begun::Ready(Some(report))),
            Err(fault) => untaken(&fault),
        }
    }

    /// Takes a point. After it nothing is pending, and so many blocks are free as its report says. Where one of its writes fails the volume has
    /// failed.
    fn take_point<D: Disk>(&mut self, alloc: Global, disk: &mut D) -> Result<Report, PointFault>
        requires fits { IsFitting (D.fixed disk.old).size self.old }
        requires held { IsTrue D.tells → IsInSome (D.state disk.old) self.old }
        ensures report { IfOk result (λ report. IsTrue D.tells → (r : Rules) (m : Machine) → IsIn r m (D.state disk.old) self.old → IsReport r m report) }
        ensures taken { IfOk result (λ report. IsTrue D.tells → (r : Rules) (m : Machine) → IsIn r m (D.state disk.old) self.old → IsIn r (after_point r m (fresh_in report)) (D.state disk.new) self.new) }
        ensures between { IfOk result (λ report. IsTrue D.tells → (r : Rules) (m : Machine) → IsIn r m (D.state disk.old) self.old → Adds (D.past disk.old) (D.past disk.new) (EachImage (StandsBetween r m report))) }
        ensures stopped { IsErrOf result WriteFault → IsTrue D.tells → (r : Rules) (m : Machine) → IsIn r m (D.state disk.old) self.old → StopsWithin r m (D.past disk.old) (D.past disk.new) (D.state disk.new) }
        ensures unsynced { IsErrOf result WriteFault → IsTrue D.tells → (D.state disk.new).unsynced ≢ [] }
        ensures same { EndsBeforeWrites result → IsTrue D.tells → D.state disk.new ≡ D.state disk.old }
        ensures moments { EndsBeforeWrites result → IsTrue D.tells → Adds (D.past disk.old) (D.past disk.new) (λ s. s ≡ D.state disk.old) }
        ensures unchanged { EndsBeforeWrites result → self.new ≡ self.old }
        ensures short { (free : ℕ) → IsErrOf result (Short free) → IsTrue D.tells → (r : Rules) (m : Machine) → IsIn r m (D.state disk.old) self.old → is_short m ≡ true }
        ensures long { HasWritten result → IsTrue D.tells → (r : Rules) (m : Machine) → IsIn r m (D.state disk.old) self.old → is_short m ≡ false }
        // Where disk and memory hold a machine no block is damaged.
        ensures sound { (b : ℕ) → IsErrOf result (Damaged b) → IsTrue D.tells → ⊥ }
        ensures failed { IsErrOf result WriteFault → self.new.is_failed ≡ true }
        ensures fits { OnOk result (IsFitting (D.fixed disk.old).size self.new) }
        ensures alive { OnOk result (self.new.is_failed ≡ self.old.is_failed) }
        ensures fixed { D.fixed disk.new ≡ D.fixed disk.old }
        ensures cause { HasPointCause (D.faults disk.old) (D.faults disk.new) result }
    {
        match take(alloc, disk, &mut self.state) {
            Ok(report) => {
                self.free = report.free;
                self.pending = 0;
                Ok(report)
            }
            Err(fault) => {
                if let PointFault::WriteFault = fault {
                    self.is_failed = true;
                }
                Err(fault)
            }
        }
    }

    /// Whether a point is due before a command.
    fn is_due(&self, command: &Command) -> bool
        requires { FitsSome self.now }
        ensures { (r : Rules) (m : Machine) (s : State) → IsIn r m s self.now → result ≡ is_due m command.now }
    {
        // The table holds the machine's tree.
        table_holds_tree();
        if let Command::Checkpoint = command {
            return true;
        }
        command.is_change()
            && self.nodes.refusal(command).is_none()
            && self.state.current.body.records != 0
            && !self.has_room(command)
    }

    /// Whether the log has room for the record of a change, and its charge and reserve are free beside what is pending.
    pub(crate) fn has_room(&self, command: &Command) -> bool
        requires fits { FitsSome self.now }
        requires change { is_change command.now ≡ true }
        ensures log { IsTrue result → self.now.state.current.body.log_used + record_blocks command.now ≤ (root_of self.now.state.current.body).layout.log_blocks }
        ensures space { IsTrue result → self.now.pending + need command.now ≤ self.now.free }
        ensures lacks { (r : Rules) (m : Machine) (s : State) → IsIn r m s self.now → not result ≡ lacks_room m command.now }
        ensures few { record_blocks command.now ≤ 17 }
    {
        let body = &self.state.current.body;
        let blocks = record_blocks(command);
        body.log_used + blocks <= body.geometry.log_blocks()
            && fits(self.free, self.pending, charge(command), reserve(command))
    }
}

/// What a point that isn't taken is answered, or that a write of it failed.
fn untaken(fault: &PointFault) -> Result<Begun, Stopped>
    ensures { result ≡ untaken fault.now }
{
    let refusal = match fault {
        PointFault::ReadFault => Refusal::DeviceFault,
        PointFault::Damaged(block) => Refusal::Damaged(*block),
        PointFault::OutOfMemory => Refusal::OutOfMemory,
        PointFault::Short { .. } => return Ok(Begun::Given(Given::PointShort)),
        PointFault::WriteFault => return Err(Stopped::Now),
    };
    Ok(Begun::Given(Given::Answered(Answer {
        report: None,
        reply: Reply::Refused(refusal),
    })))
}
