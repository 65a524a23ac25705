//! Examines a volume, and loads what a mount needs of it.
ghost use Rattle.std.specs.Prelude.{◌≡◌, ◌≤◌, ◌+◌, IfOk, IsTrue};
ghost use Rattle.disk_model.specs.Past.{Adds};
ghost use Rattle.block_format.specs.Root.{root_of, HasGeometry};
ghost use Rattle.root_switch.specs.Current.{current_slot, root_of_image};
ghost use Rattle.image_model.specs.Finds.{early_finding};
ghost use Rattle.std.specs.Prelude.{◌<◌, None};
ghost use Rattle.fs_check.specs.Cause.{HasFsCause};
ghost use Rattle.fs_check.specs.Checked.{IsVerdict, IsLoaded, IsFit};
ghost use Rattle.fs_check.specs.Looked.{IsLookedAt, IsWellFormed};
ghost use Rattle.fs_check.specs.Reads.{reads_of};

use crate::CheckFault;
use crate::logging::load_log;
use crate::looking::{Looked, look};
use crate::root::current_root;
use count_pairs::CountTable;
use disk_model::Disk;
use held_list::HeldList;
use image_walk::NodeList;
use node_table::NodeTable;
use op_log::CommandList;
use root_switch::Current;
use std::alloc::Global;

/// What is loaded of a volume that stands for something.
#[derive(Drop)]
pub struct Examined {
    pub current: Current,
    pub counts: CountTable,
    /// The directories by number, as at the last point.
    pub directories: HeldList,
    /// All nodes, as at the last point.
    pub nodes: NodeTable,
    /// The used inodes by number, as at the last point.
    pub inodes: NodeList,
    /// How many nodes there are.
    pub used: u32,
    /// The commands that the log has behind the last point.
    pub records: CommandList,
    /// How many blocks are free at the last point.
    pub free: u32,
    /// How many blocks of metadata the last point has.
    pub metadata: u32,
}

/// Examines the volume on a disk, phase by phase, up to the first finding.
///
/// Each block of metadata is read once, and so is the last block of each file, and each used block of the log; where a record is bad, those before
/// it are read again. It keeps names, kinds and sizes in memory, and no file's bytes.
///
/// # Errors
///
/// The first finding of the first phase that has one, a fault of the disk, or want of memory.
pub fn examine<D: Disk>(alloc: Global, disk: &mut D) -> Result<Examined, CheckFault>
    // On a disk that tells its contents: they stand for something, and that is loaded. Or they have this finding, and stand for nothing.
    ensures verdict { IsTrue D.tells → IsVerdict (D.state disk.old).contents (IsLoaded (D.state disk.old).contents) result }
    ensures fit { IfOk result (IsFit (D.fixed disk.old).size) }
    // Each block of metadata, each file's last block, each count block and each used block of the log is read once.
    ensures reads { IfOk result (λ e. IsTrue D.tells → (D.given disk.new).count ≤ (D.given disk.old).count + reads_of (D.state disk.old).contents) }
    ensures same { IsTrue D.tells → D.state disk.new ≡ D.state disk.old }
    ensures moments { IsTrue D.tells → Adds (D.past disk.old) (D.past disk.new) (λ s. s ≡ D.state disk.old) }
    ensures fixed { D.fixed disk.new ≡ D.fixed disk.old }
    ensures cause { HasFsCause (D.faults disk.old) (D.faults disk.new) result }
{
    let current = current_root(disk)?;
    let looked = look(alloc, disk, &current.body)?;
    with_log(alloc, disk, &current, looked)
}

/// The log, and all that is loaded.
fn with_log<D: Disk>(
    alloc: Global,
    disk: &mut D,
    current: &Current,
    looked: Looked,
) -> Result<Examined, CheckFault>
    requires slot { current.now.slot < 2 }
    requires grammar { HasGeometry (root_of current.now.body) }
    requires size { (root_of current.now.body).layout.blocks ≡ (D.fixed disk.old).size }
    requires root { IsTrue D.tells → root_of_image (D.state disk.old).contents ≡ root_of current.now.body }
    requires formed { IsWellFormed (root_of current.now.body).layout looked }
    ensures verdict { IsTrue D.tells → early_finding (D.state disk.old).contents ≡ None → current.now.slot ≡ current_slot (D.state disk.old).contents → IsLookedAt (D.state disk.old).contents current.now.body looked
        → IsVerdict (D.state disk.old).contents (IsLoaded (D.state disk.old).contents) result }
    ensures fit { IfOk result (IsFit (D.fixed disk.old).size) }
    ensures reads { IfOk result (λ e. (D.given disk.new).count ≤ (D.given disk.old).count + current.now.body.log_used) }
    ensures same { IsTrue D.tells → D.state disk.new ≡ D.state disk.old }
    ensures moments { IsTrue D.tells → Adds (D.past disk.old) (D.past disk.new) (λ s. s ≡ D.state disk.old) }
    ensures fixed { D.fixed disk.new ≡ D.fixed disk.old }
    ensures cause { HasFsCause (D.faults disk.old) (D.faults disk.new) result }
{
    let (records, nodes) = load_log(alloc, disk, &current.body, &looked)?;
    let used = looked.nodes.len() as u32;
    Ok(Examined {
        current: *current,
        counts: looked.counts,
        directories: looked.directories,
        nodes,
        inodes: looked.nodes,
        used,
        records,
        free: looked.free,
        metadata: looked.metadata,
    })
}
