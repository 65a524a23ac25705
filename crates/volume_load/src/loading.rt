//! Loads what a volume has of its last point.
ghost use Rattle.std.specs.Prelude.{◌≡◌, IfOk, IsTrue};
ghost use Rattle.disk_model.specs.Past.{Adds};
ghost use Rattle.dirty_store.specs.Overlay.{clean};
ghost use Rattle.fs_check.specs.Cause.{HasFsCause};
ghost use Rattle.fs_check.specs.Checked.{IsFit, IsLoaded, IsVerdict};
ghost use Rattle.volume_load.specs.Known.{made_of};
ghost use Rattle.volume_load.specs.Last.{FitsLast, HoldsLast};

use crate::known::known_inodes;
use dirty_store::DirtyStore;
use disk_model::Disk;
use fs_check::{CheckFault, Examined, examine};
use image_states::standing_is_mountable;
use inode_file::InodeFile;
use node_table::NodeTable;
use op_log::CommandList;
use point_model::{at_rest, clean_nodes_are};
use point_plan::PointState;
use state_laws::always_coherent;
use std::alloc::Global;

/// What a mount has of the last point, before it does a record of the log.
#[derive(Drop)]
pub struct Loaded {
    /// The volume as at the last point, with nothing staged.
    pub state: PointState,
    /// All nodes, as at the last point.
    pub nodes: NodeTable,
    /// The commands that the log has behind the last point.
    pub records: CommandList,
    /// How many blocks are free at the last point.
    pub free: u32,
}

/// Examines the volume on a disk, and loads what it has of the last point. It writes nothing, and does no record.
///
/// It reads what `examine` reads, and the inode index once more. It keeps no file's bytes.
///
/// # Errors
///
/// The first finding of the first phase that has one, a fault of the disk, or want of memory. Where the inode index changes between its two readings, one
/// that is damaged then is a `BadPointer`.
pub fn load<D: Disk>(alloc: Global, disk: &mut D) -> Result<Loaded, CheckFault>
    // On a disk that tells its contents: they stand for something, and that is loaded. Or they have this finding, and stand for nothing.
    ensures verdict { IsTrue D.tells → IsVerdict (D.state disk.old).contents (HoldsLast (D.state disk.old).contents) result }
    ensures fits { IfOk result (FitsLast (D.fixed disk.old).size) }
    ensures same { IsTrue D.tells → D.state disk.new ≡ D.state disk.old }
    ensures moments { IsTrue D.tells → Adds (D.past disk.old) (D.past disk.new) (λ s. s ≡ D.state disk.old) }
    ensures fixed { D.fixed disk.new ≡ D.fixed disk.old }
    ensures cause { HasFsCause (D.faults disk.old) (D.faults disk.new) result }
{
    let examined = examine(alloc, disk)?;
    with_inodes(alloc, disk, examined)
}

/// The same, of a volume that was examined.
fn with_inodes<D: Disk>(
    alloc: Global,
    disk: &mut D,
    examined: Examined,
) -> Result<Loaded, CheckFault>
    requires { IsFit (D.fixed disk.old).size examined }
    ensures verdict { IsTrue D.tells → IsLoaded (D.state disk.old).contents examined → IsVerdict (D.state disk.old).contents (HoldsLast (D.state disk.old).contents) result }
    ensures fits { IfOk result (FitsLast (D.fixed disk.old).size) }
    ensures same { IsTrue D.tells → D.state disk.new ≡ D.state disk.old }
    ensures moments { IsTrue D.tells → Adds (D.past disk.old) (D.past disk.new) (λ s. s ≡ D.state disk.old) }
    ensures fixed { D.fixed disk.new ≡ D.fixed disk.old }
    ensures cause { HasFsCause (D.faults disk.old) (D.faults disk.new) result }
{
    let nodes = examined.inodes.as_slice();
    let inodes = known_inodes(alloc, disk, &examined.current.body, nodes)?;
    standing_is_mountable();
    always_coherent();
    at_rest();
    clean_nodes_are();
    Ok(rested(alloc, examined, inodes))
}

/// The last point, with nothing staged.
fn rested(alloc: Global, examined: Examined, inodes: InodeFile) -> Loaded
    ensures is { result ≡ made_of examined inodes result.state.dirty }
    ensures clean { result.state.dirty.overlay ≡ clean }
{
    Loaded {
        state: PointState {
            geometry: examined.current.body.geometry,
            current: examined.current,
            counts: examined.counts,
            inodes,
            directories: examined.directories,
            metadata: examined.metadata,
            dirty: DirtyStore::new(alloc),
        },
        nodes: examined.nodes,
        records: examined.records,
        free: examined.free,
    }
}
