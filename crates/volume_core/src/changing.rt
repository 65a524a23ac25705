//! Does a change: stages it, and logs it.
ghost use Rattle.std.specs.Prelude.{◌≡◌, ◌≢◌, ◌≤◌, ◌+◌, [], true, false, None, OnOk, IsTrue};
ghost use Rattle.block_format.specs.Root.{root_of};
ghost use Rattle.command_log.specs.Logging.{StandsForEither};
ghost use Rattle.disk_model.specs.Disk.{EachImage};
ghost use Rattle.disk_model.specs.Past.{Adds};
ghost use Rattle.node_table.specs.Held.{HoldsNodes};
ghost use Rattle.op_log.specs.Record.{record_blocks};
ghost use Rattle.space_account.specs.Charge.{need};
ghost use Rattle.tree_model.specs.Shape.{IsTree};
ghost use Rattle.tree_model.specs.Step.{is_change, refusal_of};
ghost use Rattle.tree_model.specs.Tree.{Tree};
ghost use Rattle.volume_model.specs.Done.{done};
ghost use Rattle.volume_model.specs.Legal.{is_due};
ghost use Rattle.volume_model.specs.Machine.{Machine, Rules};
ghost use Rattle.volume_core.specs.Changing.{HasChangeCause, OnUndone, OnStopped, IfDamaged};
ghost use Rattle.volume_core.specs.Memory.{IsFitting, IsIn, IsInSome};

use crate::Volume;
use crate::given::Undone;
use command_log::log;
use disk_model::{Disk, DiskFault};
use inode_file::table_stays;
use point_model::table_holds_tree;
use space_account::charge;
use state_laws::{accepted_is_done, always_coherent};
use std::alloc::Global;
use tree_model::Command;

impl Volume {
    /// Does a change that the tree doesn't refuse and that has room: it is staged, and then its record is logged. All reads and all memory come
    /// before the first write. Where the log fails the volume has failed.
    pub(crate) fn change<D: Disk>(
        &mut self,
        alloc: Global,
        disk: &mut D,
        command: &Command,
    ) -> Result<(), Undone>
        requires fits { IsFitting (D.fixed disk.old).size self.old }
        requires change { is_change command.now ≡ true }
        requires accepted { (tree : Tree) → IsTree tree → HoldsNodes self.old.nodes tree → refusal_of tree command.now ≡ None }
        requires log { self.old.state.current.body.log_used + record_blocks command.now ≤ (root_of self.old.state.current.body).layout.log_blocks }
        requires space { self.old.pending + need command.now ≤ self.old.free }
        requires held { IsTrue D.tells → IsInSome (D.state disk.old) self.old }
        // Disk and memory hold the machine after the command.
        ensures done { OnOk result (IsTrue D.tells → (r : Rules) (m : Machine) → IsIn r m (D.state disk.old) self.old → is_due m command.now ≡ false → IsIn r (done m command.now) (D.state disk.new) self.new) }
        // At each moment, and in what a failed write leaves, each image stands for what is stored before the command, or after it.
        ensures during { IsTrue D.tells → (r : Rules) (m : Machine) → IsIn r m (D.state disk.old) self.old → Adds (D.past disk.old) (D.past disk.new) (EachImage (StandsForEither m command.now)) }
        ensures left { OnStopped result (IsTrue D.tells → (r : Rules) (m : Machine) → IsIn r m (D.state disk.old) self.old → EachImage (StandsForEither m command.now) (D.state disk.new)) }
        ensures unsynced { OnStopped result (IsTrue D.tells → (D.state disk.new).unsynced ≢ []) }
        // A fault or want of memory leaves disk and memory as they were.
        ensures unstaged { OnUndone result (IsTrue D.tells → (r : Rules) (m : Machine) → IsIn r m (D.state disk.old) self.old → IsIn r m (D.state disk.new) self.new) }
        ensures same { OnUndone result (IsTrue D.tells → D.state disk.new ≡ D.state disk.old) }
        ensures moments { OnUndone result (IsTrue D.tells → Adds (D.past disk.old) (D.past disk.new) (λ s. s ≡ D.state disk.old)) }
        ensures alive { OnUndone result (self.new.is_failed ≡ self.old.is_failed) }
        ensures alive_done { OnOk result (self.new.is_failed ≡ self.old.is_failed) }
        ensures failed { OnStopped result (self.new.is_failed ≡ true) }
        // Where disk and memory hold a machine no block is damaged.
        ensures sound { IfDamaged result (IsTrue D.tells → ⊥) }
        ensures fits { IsFitting (D.fixed disk.old).size self.new }
        ensures fixed { D.fixed disk.new ≡ D.fixed disk.old }
        ensures cause { HasChangeCause (D.faults disk.old) (D.faults disk.new) result }
    {
        // The table holds the machine's tree, a state after an answer is coherent, and the inodes stay where their blocks do.
        table_holds_tree();
        accepted_is_done();
        always_coherent();
        table_stays();
        if let Err(fault) = self.stage(alloc, disk, command) {
            return Err(Undone::Fault(fault));
        }
        let pending = pending_with(self.pending, charge(command), self.free);
        match log(disk, &self.state.current, command) {
            Ok(current) => {
                self.state.current = current;
                self.pending = pending;
                Ok(())
            }
            Err(DiskFault) => {
                self.is_failed = true;
                Err(Undone::Stopped)
            }
        }
    }
}

/// What is pending with one charge more. What is free bounds it.
fn pending_with(pending: u32, charge: u32, free: u32) -> u32
    requires { pending + charge ≤ free }
    ensures { result ≡ pending + charge }
{
    prove!(pending <= free);
    pending + charge
}
