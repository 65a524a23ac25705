//! Answers the commands that neither change the tree nor ask for a point.
ghost use Rattle.std.specs.Prelude.{◌≡◌, ◌≤◌, true, IsTrue};
ghost use Rattle.disk_model.specs.Past.{Adds};
ghost use Rattle.node_table.specs.Held.{HoldsNodes};
ghost use Rattle.tree_model.specs.Shape.{IsTree};
ghost use Rattle.tree_model.specs.Tree.{Tree};
ghost use Rattle.tree_model.specs.declared.command.Command.TheVariants.{Read};
ghost use Rattle.volume_model.specs.Machine.{Machine, Rules};
ghost use Rattle.volume_core.specs.Answers.{IsReplyTo, IsTold, HasReplyCause, only_looks, only_tells, refusal_by, space_of};
ghost use Rattle.volume_core.specs.Memory.{IsFitting, IsIn};

use crate::Volume;
use block_tree::TreeFault;
use disk_model::Disk;
use node_table::NodeInfo;
use place_read::{FilePart, read_bytes, read_is_data};
use point_model::table_holds_tree;
use std::alloc::{AllocError, Global};
use tree_model::{Command, Path, Refusal, Reply};

impl Volume {
    /// Answers a command that neither changes the tree nor asks for a point. A write of no bytes is one.
    pub(crate) fn look<D: Disk>(&self, alloc: Global, disk: &mut D, command: &Command) -> Reply
        requires fits { IsFitting (D.fixed disk.old).size self.now }
        requires looks { only_looks command.now ≡ true }
        ensures reply { IsTrue D.tells → (r : Rules) (m : Machine) → IsIn r m (D.state disk.old) self.now → IsReplyTo m command.now result }
        ensures same { IsTrue D.tells → D.state disk.new ≡ D.state disk.old }
        ensures moments { IsTrue D.tells → Adds (D.past disk.old) (D.past disk.new) (λ s. s ≡ D.state disk.old) }
        ensures fixed { D.fixed disk.new ≡ D.fixed disk.old }
        ensures cause { HasReplyCause (D.faults disk.old) (D.faults disk.new) result }
    {
        // Where memory and disk hold a machine, the table holds its tree.
        table_holds_tree();
        match command {
            Command::Read {
                path,
                offset,
                length,
            } => self.read(alloc, disk, path, *offset, length.get()),
            Command::Space => self.space(),
            _ => self.tell(alloc, command),
        }
    }

    /// Answers `read`.
    fn read<D: Disk>(
        &self,
        alloc: Global,
        disk: &mut D,
        path: &Path,
        offset: u64,
        length: u32,
    ) -> Reply
        requires fits { IsFitting (D.fixed disk.old).size self.now }
        ensures reply { IsTrue D.tells → (r : Rules) (m : Machine) → IsIn r m (D.state disk.old) self.now → IsReplyTo m (Read path.now offset length) result }
        ensures same { IsTrue D.tells → D.state disk.new ≡ D.state disk.old }
        ensures moments { IsTrue D.tells → Adds (D.past disk.old) (D.past disk.new) (λ s. s ≡ D.state disk.old) }
        ensures fixed { D.fixed disk.new ≡ D.fixed disk.old }
        ensures cause { HasReplyCause (D.faults disk.old) (D.faults disk.new) result }
    {
        table_holds_tree();
        read_is_data();
        let found = match self.nodes.find(path) {
            Ok(found) => found,
            Err(refusal) => return Reply::Refused(refusal),
        };
        let NodeInfo::File { size } = found.info else {
            return Reply::Refused(Refusal::IsADirectory);
        };
        let part = FilePart {
            number: found.number,
            size,
            offset,
            length,
        };
        let state = &self.state;
        match read_bytes(
            alloc,
            disk,
            &state.geometry,
            &state.inodes,
            &state.dirty,
            &part,
        ) {
            Ok(bytes) => Reply::Data(bytes),
            Err(fault) => Reply::Refused(refusal_by(&fault)),
        }
    }
}

/// The refusal for a fault.
pub(crate) fn refusal_by(fault: &TreeFault) -> Refusal
    ensures { result ≡ refusal_by fault.now }
{
    match fault {
        TreeFault::Device => Refusal::DeviceFault,
        TreeFault::Damaged(block) => Refusal::Damaged(*block),
        TreeFault::OutOfMemory => Refusal::OutOfMemory,
    }
}
