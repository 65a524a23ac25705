//! The log.
ghost use Rattle.std.specs.Prelude.{◌≡◌, ◌≤◌, ◌+◌, All, List, IfOk, IsTrue};
ghost use Rattle.disk_model.specs.Past.{Adds};
ghost use Rattle.block_format.specs.Root.{root_of, HasGeometry};
ghost use Rattle.root_switch.specs.Current.{root_of_image};
ghost use Rattle.op_log.specs.Record.{HasRecord};
ghost use Rattle.log_check.specs.Accepting.{HoldsATree};
ghost use Rattle.log_check.specs.Holding.{AreNodes, FindsNoneLost, HoldsEachTree, IsTableOf};
ghost use Rattle.node_table.specs.Held.{AreDirectories};
ghost use Rattle.fs_check.specs.Cause.{HasFsCause};
ghost use Rattle.fs_check.specs.Checked.{IsEarly, IsVerdict, StandsWith, AreAccepted};
ghost use Rattle.fs_check.specs.Looked.{IsWellFormed};

use crate::CheckFault;
use crate::looking::Looked;
use block_format::{Inode, RootBody};
use disk_model::Disk;
use held_list::HeldList;
use log_check::{check_log, table_of};
use node_table::NodeTable;
use op_log::CommandList;
use std::alloc::Global;
use vol_numbers::InoNo;

/// The records of a good log, and the nodes as at the last point.
///
/// The log is done in a table of its own, so that the other stays that of the last point.
pub(crate) fn load_log<D: Disk>(
    alloc: Global,
    disk: &mut D,
    body: &RootBody,
    looked: &Looked,
) -> Result<(CommandList, NodeTable), CheckFault>
    requires grammar { HasGeometry (root_of body.now) }
    requires size { (root_of body.now).layout.blocks ≡ (D.fixed disk.old).size }
    requires root { IsTrue D.tells → root_of_image (D.state disk.old).contents ≡ root_of body.now }
    requires formed { IsWellFormed (root_of body.now).layout looked.now }
    ensures verdict { IsTrue D.tells → IsEarly (D.state disk.old).contents looked.now.nodes looked.now.directories looked.now.free
        → IsVerdict (D.state disk.old).contents (λ l. StandsWith (D.state disk.old).contents looked.now.nodes looked.now.directories looked.now.free l.0) result }
    ensures reads { IfOk result (λ l. (D.given disk.new).count ≤ (D.given disk.old).count + body.now.log_used) }
    ensures have_records { IfOk result (λ l. All HasRecord l.0) }
    ensures accepted { IfOk result (λ l. AreAccepted looked.now.nodes looked.now.directories looked.now.free l.0) }
    ensures table { IfOk result (λ l. IsTableOf looked.now.nodes looked.now.directories l.1) }
    ensures trees { IfOk result (λ l. HoldsEachTree looked.now.nodes looked.now.directories l.1) }
    ensures a_tree { IfOk result (λ l. HoldsATree l.1) }
    ensures each { IfOk result (λ l. AreDirectories l.1) }
    ensures same { IsTrue D.tells → D.state disk.new ≡ D.state disk.old }
    ensures moments { IsTrue D.tells → Adds (D.past disk.old) (D.past disk.new) (λ s. s ≡ D.state disk.old) }
    ensures fixed { D.fixed disk.new ≡ D.fixed disk.old }
    ensures cause { HasFsCause (D.faults disk.old) (D.faults disk.new) result }
{
    let nodes = looked.nodes.as_slice();
    let records = good_log(alloc, disk, body, nodes, &looked.directories, looked.free)?;
    let table = table_of(alloc, nodes, &looked.directories)?;
    Ok((records, table))
}

/// The records of the log, where each is accepted by the tree after those before it. So many blocks are free at the last point.
fn good_log<D: Disk>(
    alloc: Global,
    disk: &mut D,
    body: &RootBody,
    nodes: &[(InoNo, Inode)],
    directories: &HeldList,
    free: u32,
) -> Result<CommandList, CheckFault>
    requires grammar { HasGeometry (root_of body.now) }
    requires size { (root_of body.now).layout.blocks ≡ (D.fixed disk.old).size }
    requires root { IsTrue D.tells → root_of_image (D.state disk.old).contents ≡ root_of body.now }
    requires are { AreNodes nodes.now directories.now }
    requires none_lost { FindsNoneLost nodes.now directories.now }
    ensures verdict { IsTrue D.tells → IsEarly (D.state disk.old).contents nodes.now directories.now free → IsVerdict (D.state disk.old).contents (StandsWith (D.state disk.old).contents nodes.now directories.now free) result }
    ensures reads { IfOk result (λ records. (D.given disk.new).count ≤ (D.given disk.old).count + body.now.log_used) }
    ensures have_records { IfOk result (All HasRecord) }
    ensures accepted { IfOk result (AreAccepted nodes.now directories.now free) }
    ensures same { IsTrue D.tells → D.state disk.new ≡ D.state disk.old }
    ensures moments { IsTrue D.tells → Adds (D.past disk.old) (D.past disk.new) (λ s. s ≡ D.state disk.old) }
    ensures fixed { D.fixed disk.new ≡ D.fixed disk.old }
    ensures cause { HasFsCause (D.faults disk.old) (D.faults disk.new) result }
{
    let mut table = table_of(alloc, nodes, directories)?;
    let records = check_log(alloc, disk, body, &mut table, free)?;
    Ok(records)
}
