//! The effect of a change.
ghost use Rattle.std.specs.Prelude.{ℕ, ◌≡◌, ◌≤◌, ◌+◌, None, Some, IfOk, IfNone, IfSome, IsTrue, length};
ghost use Rattle.vol_numbers.specs.Geometry.{layout_of};
ghost use Rattle.disk_model.specs.Past.{Adds};
ghost use Rattle.place_words.specs.Different.{up};
ghost use Rattle.block_tree.specs.Causes.{HasTreeCause, IsTreeDamage, IfTreeDamaged};
ghost use Rattle.block_tree.specs.Tree.{blocks_in};
ghost use Rattle.dirty_store.specs.Overlay.{IsEffect};
ghost use Rattle.inode_file.specs.Loading.{IsWithin};
ghost use Rattle.node_table.specs.Changes.{IsChangeWithin};
ghost use Rattle.node_table.specs.Held.{HoldsNodes, held};
ghost use Rattle.node_table.specs.declared.change.Change.TheVariants.{Sized};
ghost use Rattle.node_table.specs.declared.held.HeldNode.TheVariants.{File};
ghost use Rattle.point_model.specs.NodeChanges.{IsBuiltOf};
ghost use Rattle.point_model.specs.Staging.{IsEffectOn};
ghost use Rattle.volume_model.specs.Machine.{Machine, Rules};
ghost use Rattle.place_read.specs.Holding.{HoldsFiles};
ghost use Rattle.command_effect.specs.Blocks.{AreFrom, IsCutBlock, IsWrittenBlock, cut_count, written_count};
ghost use Rattle.command_effect.specs.Effects.{ArePlacesWithin, CanDo, CutsToSize, IsOfNodes, IsSizedEffect};

use crate::cutting::cut_places;
use crate::nodes::node_effect;
use crate::writing::written_places;
use block_format::Inode;
use block_tree::TreeFault;
use dirty_store::{DirtyStore, Effect, SlotChangeList, Touched, TouchedList};
use disk_model::Disk;
use inode_file::InodeFile;
use node_table::{Change, NodeInfo, NodeTable};
use std::alloc::Global;
use tree_model::Command;
use vol_numbers::{Fbn, Geometry, InoNo};

/// What a change that a table's `plan` has told does to the volume: the kind and size that its number gets, what is cut off, the places that it
/// touches with whole blocks, and the slots that it empties and fills.
///
/// A place that a write covers is not read. One that it covers partly, and the one that a truncation cuts in two, is read behind the index blocks
/// on the way. Nothing else is read.
pub fn effect_of<D: Disk>(
    alloc: Global,
    disk: &mut D,
    g: &Geometry,
    inodes: &InodeFile,
    dirty: &DirtyStore,
    nodes: &NodeTable,
    command: &Command,
    change: &Change,
) -> Result<Effect, TreeFault>
    requires size { (layout_of g.now).blocks ≡ (D.fixed disk.old).size }
    requires within { IsWithin (layout_of g.now) inodes.now }
    requires done { CanDo command.now change.now nodes.now }
    requires rules { IsChangeWithin change.now }
    ensures built { IfOk result (IsBuiltOf command.now change.now nodes.now) }
    ensures cut { IfOk result (λ e. CutsToSize command.now e.cut_to) }
    ensures effect { IfOk result IsEffect }
    ensures places { IfOk result ArePlacesWithin }
    ensures on { IfOk result (λ e. IsTrue D.tells → (r : Rules) (m : Machine) → HoldsFiles r m (D.state disk.old).contents inodes.now dirty.now.overlay → HoldsNodes nodes.now m.tree → IsEffectOn m command.now e) }
    ensures damaged { IsTreeDamage (layout_of g.now) D.tells (blocks_in (D.state disk.new).contents) (D.given disk.old) (D.given disk.new) result }
    // Over contents that stand for something no block is damaged.
    ensures sound { IsTrue D.tells → (r : Rules) (m : Machine) → HoldsFiles r m (D.state disk.old).contents inodes.now dirty.now.overlay → m.layout ≡ layout_of g.now → IfTreeDamaged result (λ b. ⊥) }
    ensures same { IsTrue D.tells → D.state disk.new ≡ D.state disk.old }
    ensures moments { IsTrue D.tells → Adds (D.past disk.old) (D.past disk.new) (λ s. s ≡ D.state disk.old) }
    ensures fixed { D.fixed disk.new ≡ D.fixed disk.old }
    ensures cause { HasTreeCause (D.faults disk.old) (D.faults disk.new) result }
{
    match sized_of(change) {
        Some((number, size)) => {
            sized_effect(alloc, disk, g, inodes, dirty, nodes, command, number, size)
        }
        None => Ok(node_effect(alloc, nodes, command, change)?),
    }
}

/// The file and its new size, where a size changes.
fn sized_of(change: &Change) -> Option<(InoNo, u64)>
    ensures sized { IfSome result (λ f. change.now ≡ Sized f.0 f.1) }
    ensures other { IfNone result (IsOfNodes change.now) }
{
    match *change {
        Change::Sized { number, size } => Some((number, size)),
        _ => None,
    }
}

/// A file that gets this size.
fn sized_effect<D: Disk>(
    alloc: Global,
    disk: &mut D,
    g: &Geometry,
    inodes: &InodeFile,
    dirty: &DirtyStore,
    nodes: &NodeTable,
    command: &Command,
    number: InoNo,
    size: u64,
) -> Result<Effect, TreeFault>
    requires size { (layout_of g.now).blocks ≡ (D.fixed disk.old).size }
    requires within { IsWithin (layout_of g.now) inodes.now }
    requires done { CanDo command.now (Sized number size) nodes.now }
    requires number { number ≤ 65535 }
    requires largest { size ≤ 4294967296 }
    ensures built { IfOk result (IsBuiltOf command.now (Sized number size) nodes.now) }
    ensures cut { IfOk result (λ e. CutsToSize command.now e.cut_to) }
    ensures effect { IfOk result IsEffect }
    ensures places { IfOk result ArePlacesWithin }
    ensures on { IfOk result (λ e. IsTrue D.tells → (r : Rules) (m : Machine) → HoldsFiles r m (D.state disk.old).contents inodes.now dirty.now.overlay → HoldsNodes nodes.now m.tree → IsEffectOn m command.now e) }
    ensures damaged { IsTreeDamage (layout_of g.now) D.tells (blocks_in (D.state disk.new).contents) (D.given disk.old) (D.given disk.new) result }
    // Over contents that stand for something no block is damaged.
    ensures sound { IsTrue D.tells → (r : Rules) (m : Machine) → HoldsFiles r m (D.state disk.old).contents inodes.now dirty.now.overlay → m.layout ≡ layout_of g.now → IfTreeDamaged result (λ b. ⊥) }
    ensures same { IsTrue D.tells → D.state disk.new ≡ D.state disk.old }
    ensures moments { IsTrue D.tells → Adds (D.past disk.old) (D.past disk.new) (λ s. s ≡ D.state disk.old) }
    ensures fixed { D.fixed disk.new ≡ D.fixed disk.old }
    ensures cause { HasTreeCause (D.faults disk.old) (D.faults disk.new) result }
{
    match command {
        Command::Write {
            path: _,
            offset,
            bytes,
        } => {
            let touched = written_places(
                alloc,
                disk,
                g,
                inodes,
                dirty,
                number,
                *offset,
                bytes.as_slice(),
            )?;
            Ok(sized(alloc, number, size, None, touched))
        }
        Command::Truncate { path: _, size: _ } => {
            let before = size_of(nodes, number);
            let touched = cut_places(alloc, disk, g, inodes, dirty, number, before, size)?;
            Ok(sized(
                alloc,
                number,
                size,
                Some(size.div_ceil(4_096) as u32),
                touched,
            ))
        }
        _ => unreachable!(),
    }
}

/// How many bytes a file has.
fn size_of(nodes: &NodeTable, number: InoNo) -> u64
    requires { (size : ℕ) × (held nodes.now number ≡ Some (File size)) }
    ensures { held nodes.now number ≡ Some (File result) }
{
    match nodes.info(number) {
        Some(NodeInfo::File { size }) => size,
        _ => unreachable!(),
    }
}

/// A file of this size, with what is touched and cut off.
fn sized(
    alloc: Global,
    number: InoNo,
    size: u64,
    cut_to: Option<Fbn>,
    touched: Vec<Touched>,
) -> Effect
    ensures sized { IsSizedEffect number size cut_to result }
    ensures touched { result.touched ≡ touched.items }
{
    Effect {
        number,
        inode: Inode::File {
            size,
            height: 0,
            ptr: 0,
        },
        cut_to,
        touched: TouchedList::from_vec(touched),
        slots: SlotChangeList::new(alloc),
    }
}
