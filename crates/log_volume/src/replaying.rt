//! Reads the log of a volume, and does its commands on a new tree.
ghost use Rattle.std.specs.Prelude.{◌≡◌, ◌<◌, ◌≤◌, ℕ, All, length, IfOk, IsTrue};
ghost use Rattle.disk_model.specs.Past.{Adds};
ghost use Rattle.block_format.specs.Root.{root_of, HasGeometry};
ghost use Rattle.root_switch.specs.Current.{root_of_image};
ghost use Rattle.tree_model.specs.Shape.{IsTree};
ghost use Rattle.vol_numbers.specs.Layout.{log_start};
ghost use Rattle.op_log.specs.Log.{IsFirstBad};
ghost use Rattle.op_log.specs.Record.{HasRecord};
ghost use Rattle.log_volume.specs.Image.{Logs};
ghost use Rattle.log_volume.specs.Mounting.{OnFound, HasMountCause, FindsLog};
ghost use Rattle.log_volume.specs.Replay.{nothing_kept, after, DoesEach};
ghost use Rattle.log_volume.specs.Replaying.{ReadsFront, IsRefusal};

use crate::{Finding, MountFault};
use block_format::RootBody;
use disk_model::Disk;
use op_log::{CommandList, LogFault, blocks_of, read_all};
use plain_tree::PlainTree;
use std::alloc::{AllocError, Global};
use tree_model::{Command, Reply};

/// The tree that the log makes, where this is the current root.
pub(crate) fn read_tree<D: Disk>(
    alloc: Global,
    disk: &mut D,
    body: &RootBody,
) -> Result<PlainTree, MountFault>
    requires grammar { HasGeometry (root_of body.now) }
    requires size { (root_of body.now).layout.blocks ≡ (D.fixed disk.old).size }
    requires root { IsTrue D.tells → root_of_image (D.state disk.old).contents ≡ root_of body.now }
    ensures logs { IfOk result (λ tree. IsTrue D.tells → Logs (D.state disk.old).contents (record { tree = tree; used = body.now.log_used })) }
    ensures tree { IfOk result IsTree }
    ensures found { OnFound result (λ finding. IsTrue D.tells → FindsLog (D.state disk.old).contents finding) }
    ensures same { IsTrue D.tells → D.state disk.new ≡ D.state disk.old }
    ensures moments { IsTrue D.tells → Adds (D.past disk.old) (D.past disk.new) (λ s. s ≡ D.state disk.old) }
    ensures fixed { D.fixed disk.new ≡ D.fixed disk.old }
    ensures cause { HasMountCause (D.faults disk.old) (D.faults disk.new) result }
{
    let front = read_front(alloc, disk, body)?;
    let tree = match replay(alloc, front.commands.as_slice()) {
        Ok(tree) => tree,
        Err(fault) => return Err(fault),
    };
    let used = blocks_of(&front.commands);
    let bad = front.bad;
    drop(front);
    if let Some(i) = bad {
        return Err(MountFault::Found(Finding::BadLog(i)));
    }
    if used < body.log_used {
        return Err(MountFault::Found(Finding::BadLog(body.records)));
    }
    Ok(tree)
}

/// The commands of the records that are good, and the number of the first bad one, if there is one.
#[derive(Drop)]
pub(crate) struct Front {
    pub(crate) commands: CommandList,
    pub(crate) bad: Option<u32>,
}

/// Reads the records up to the first bad one.
fn read_front<D: Disk>(alloc: Global, disk: &mut D, body: &RootBody) -> Result<Front, MountFault>
    requires grammar { HasGeometry (root_of body.now) }
    requires size { (root_of body.now).layout.blocks ≡ (D.fixed disk.old).size }
    ensures front { IfOk result (ReadsFront D.tells (D.state disk.old).contents body.now) }
    ensures found { OnFound result (λ finding. IsTrue D.tells → ⊥) }
    ensures same { IsTrue D.tells → D.state disk.new ≡ D.state disk.old }
    ensures moments { IsTrue D.tells → Adds (D.past disk.old) (D.past disk.new) (λ s. s ≡ D.state disk.old) }
    ensures fixed { D.fixed disk.new ≡ D.fixed disk.old }
    ensures cause { HasMountCause (D.faults disk.old) (D.faults disk.new) result }
{
    match read_all(alloc, disk, body) {
        Ok(commands) => Ok(Front {
            commands,
            bad: None,
        }),
        Err(LogFault::BadRecord(bad)) => read_before(alloc, disk, body, bad),
        Err(LogFault::Device) => Err(MountFault::Device),
        Err(LogFault::OutOfMemory) => Err(MountFault::OutOfMemory),
    }
}

/// Reads the records before a bad one.
fn read_before<D: Disk>(
    alloc: Global,
    disk: &mut D,
    body: &RootBody,
    bad: u32,
) -> Result<Front, MountFault>
    requires grammar { HasGeometry (root_of body.now) }
    requires size { (root_of body.now).layout.blocks ≡ (D.fixed disk.old).size }
    requires bad { bad < body.now.records }
    requires first_bad { IsTrue D.tells → IsFirstBad (D.state disk.old).contents (log_start (root_of body.now).layout) body.now.log_used bad }
    ensures front { IfOk result (ReadsFront D.tells (D.state disk.old).contents body.now) }
    ensures found { OnFound result (λ finding. IsTrue D.tells → ⊥) }
    ensures same { IsTrue D.tells → D.state disk.new ≡ D.state disk.old }
    ensures moments { IsTrue D.tells → Adds (D.past disk.old) (D.past disk.new) (λ s. s ≡ D.state disk.old) }
    ensures fixed { D.fixed disk.new ≡ D.fixed disk.old }
    ensures cause { HasMountCause (D.faults disk.old) (D.faults disk.new) result }
{
    match read_all(alloc, disk, &shorter(body, bad)) {
        Ok(commands) => Ok(Front {
            commands,
            bad: Some(bad),
        }),
        // A disk that tells what it holds gives the same blocks again.
        Err(LogFault::BadRecord(i)) => Err(MountFault::Found(Finding::BadLog(i))),
        Err(LogFault::Device) => Err(MountFault::Device),
        Err(LogFault::OutOfMemory) => Err(MountFault::OutOfMemory),
    }
}

/// The root with so many records.
fn shorter(body: &RootBody, records: u32) -> RootBody
    requires grammar { HasGeometry (root_of body.now) }
    requires fewer { records < body.now.records }
    ensures is { result ≡ record body.now { records = records } }
    ensures grammar { HasGeometry (root_of result) }
{
    let mut shorter = *body;
    shorter.records = records;
    shorter
}

impl From<AllocError> for MountFault {
    ghost use Rattle.std.specs.Prelude.{◌≡◌};
    ghost use Rattle.log_volume.specs.declared.mounting.MountFault.TheVariants.{OutOfMemory};

    ghost from_gives = { λ _ fault. fault ≡ OutOfMemory };

    fn from(_: AllocError) -> MountFault {
        MountFault::OutOfMemory
    }
}

/// Does commands in turn on a new tree, up to the first that it refuses.
fn replay(alloc: Global, commands: &[Command]) -> Result<PlainTree, MountFault>
    requires have_records { All HasRecord commands.now }
    requires few { length commands.now ≤ 4096 }
    ensures tree { IfOk result IsTree }
    ensures done { IfOk result (λ tree. DoesEach nothing_kept commands.now) }
    ensures is { IfOk result (λ tree. tree ≡ (after commands.now nothing_kept).tree) }
    ensures refused { OnFound result (IsRefusal commands.now) }
    ensures no_fault { (count : ℕ) → HasMountCause count count result }
{
    let mut tree = PlainTree::new(alloc)?;
    for (i, command) in commands.iter().enumerate() {
        match tree.step(command)? {
            Reply::Done => {}
            _ => return Err(MountFault::Found(Finding::BadLog(i as u32))),
        }
    }
    Ok(tree)
}
