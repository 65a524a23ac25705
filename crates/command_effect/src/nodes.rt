//! Effects that need no disk: of new, removed and renamed nodes.
ghost use Rattle.std.specs.Prelude.{◌≡◌, ◌<◌, ◌∷◌, ◌++◌, false, [], IfOk};
ghost use Rattle.std.specs.Option.{option_map};
ghost use Rattle.dirty_store.specs.Overlay.{IsEffect};
ghost use Rattle.node_table.specs.Changes.{IsChangeWithin};
ghost use Rattle.node_table.specs.Held.{Nodes, held, info};
ghost use Rattle.node_table.specs.declared.change.Change.TheVariants.{Made, Removed, Renamed};
ghost use Rattle.point_model.specs.NodeChanges.{IsBuiltOf};
ghost use Rattle.point_model.specs.PointPlan.{told};
ghost use Rattle.tree_model.specs.declared.command.Command.{Command};
ghost use Rattle.command_effect.specs.Effects.{CanDo, IsOfNodes};

use block_format::{Inode, Slot};
use dirty_store::{Effect, SlotChange, SlotChangeList, TouchedList};
use node_table::{Change, NodeInfo, NodeTable, last_name};
use std::alloc::{AllocError, Global};
use tree_model::Command;
use vol_numbers::InoNo;

/// What a change does that is of no file's size.
pub(crate) fn node_effect(
    alloc: Global,
    nodes: &NodeTable,
    command: &Command,
    change: &Change,
) -> Result<Effect, AllocError>
    requires done { CanDo command.now change.now nodes.now }
    requires rules { IsChangeWithin change.now }
    requires kind { IsOfNodes change.now }
    ensures built { IfOk result (IsBuiltOf command.now change.now nodes.now) }
    ensures effect { IfOk result IsEffect }
    ensures none { IfOk result (λ e. e.touched ≡ []) }
{
    match *change {
        Change::Made {
            parent,
            slot,
            number,
        } => Ok(made(alloc, command, parent, slot, number)?),
        Change::Removed {
            parent,
            slot,
            number,
        } => Ok(removed(alloc, parent, slot, number)?),
        Change::Renamed {
            number,
            from,
            from_slot,
            to,
            to_slot,
        } => Ok(renamed(
            alloc,
            nodes,
            command,
            number,
            (from, from_slot),
            (to, to_slot),
        )?),
        Change::Sized { .. } => unreachable!(),
    }
}

/// A new node: it is empty, its number is cut to no block, and its name comes into a slot.
fn made(
    alloc: Global,
    command: &Command,
    parent: InoNo,
    slot: u32,
    number: InoNo,
) -> Result<Effect, AllocError>
    requires done { (before : Nodes) × CanDo command.now (Made parent slot number) before }
    requires slot { slot < 65534 }
    ensures built { IfOk result (λ e. (before : Nodes) → IsBuiltOf command.now (Made parent slot number) before e) }
    ensures effect { IfOk result IsEffect }
    ensures none { IfOk result (λ e. e.touched ≡ []) }
{
    let (path, inode) = match command {
        Command::Mkdir { path } => (path, empty_directory()),
        Command::Create { path } => (path, empty_file()),
        _ => unreachable!(),
    };
    let name = *last_name(path);
    let entry = Slot::Entry { number, name };
    Ok(Effect {
        number,
        inode,
        cut_to: Some(0),
        touched: TouchedList::new(alloc),
        slots: one_slot(alloc, parent, slot, entry)?,
    })
}

/// A removed node: its number is unused, and cut to no block, and its slot is empty.
fn removed(alloc: Global, parent: InoNo, slot: u32, number: InoNo) -> Result<Effect, AllocError>
    requires slot { slot < 65534 }
    ensures built { IfOk result (λ e. (command : Command) (before : Nodes) → CanDo command (Removed parent slot number) before → IsBuiltOf command (Removed parent slot number) before e) }
    ensures effect { IfOk result IsEffect }
    ensures none { IfOk result (λ e. e.touched ≡ []) }
{
    Ok(Effect {
        number,
        inode: Inode::Unused,
        cut_to: Some(0),
        touched: TouchedList::new(alloc),
        slots: one_slot(alloc, parent, slot, Slot::Unused)?,
    })
}

/// A renamed node: it stays what it is, its old slot is empty, and its new name comes into a slot.
fn renamed(
    alloc: Global,
    nodes: &NodeTable,
    command: &Command,
    number: InoNo,
    left: (InoNo, u32),
    came: (InoNo, u32),
) -> Result<Effect, AllocError>
    requires done { CanDo command.now (Renamed number left.0 left.1 came.0 came.1) nodes.now }
    requires left { left.1 < 65534 }
    requires came { came.1 < 65534 }
    ensures built { IfOk result (IsBuiltOf command.now (Renamed number left.0 left.1 came.0 came.1) nodes.now) }
    ensures effect { IfOk result IsEffect }
    ensures none { IfOk result (λ e. e.touched ≡ []) }
{
    let path = match command {
        Command::Rename { from: _, to } => to,
        _ => unreachable!(),
    };
    let name = *last_name(path);
    let entry = Slot::Entry { number, name };
    Ok(Effect {
        number,
        inode: inode_of(nodes.info(number)),
        cut_to: None,
        touched: TouchedList::new(alloc),
        slots: two_slots(alloc, left, came, entry)?,
    })
}

/// An inode of this kind and size, without blocks.
fn inode_of(info: Option<NodeInfo>) -> Inode
    ensures { told result ≡ info }
{
    match info {
        Some(NodeInfo::File { size }) => Inode::File {
            size,
            height: 0,
            ptr: 0,
        },
        Some(NodeInfo::Directory { width }) => Inode::Directory {
            width,
            height: 0,
            ptr: 0,
        },
        None => Inode::Unused,
    }
}

fn empty_directory() -> Inode
    ensures { result ≡ Inode.Directory 0 0 0 }
{
    Inode::Directory {
        width: 0,
        height: 0,
        ptr: 0,
    }
}

fn empty_file() -> Inode
    ensures { result ≡ Inode.File 0 0 0 }
{
    Inode::File {
        size: 0,
        height: 0,
        ptr: 0,
    }
}

/// One slot that is changed.
fn one_slot(
    alloc: Global,
    directory: InoNo,
    slot: u32,
    content: Slot,
) -> Result<SlotChangeList, AllocError>
    ensures { IfOk result (λ slots. slots ≡ record { directory = directory; slot = slot; content = content } ∷ []) }
{
    let mut slots = Vec::new(alloc);
    slots.push(SlotChange {
        directory,
        slot,
        content,
    })?;
    Ok(SlotChangeList::from_vec(slots))
}

/// A slot that is emptied, and then one that is filled.
fn two_slots(
    alloc: Global,
    left: (InoNo, u32),
    came: (InoNo, u32),
    entry: Slot,
) -> Result<SlotChangeList, AllocError>
    ensures { IfOk result (λ slots. slots ≡ record { directory = left.0; slot = left.1; content = Slot.Unused } ∷ record { directory = came.0; slot = came.1; content = entry } ∷ []) }
{
    let mut slots = Vec::new(alloc);
    slots.push(SlotChange {
        directory: left.0,
        slot: left.1,
        content: Slot::Unused,
    })?;
    slots.push(SlotChange {
        directory: came.0,
        slot: came.1,
        content: entry,
    })?;
    Ok(SlotChangeList::from_vec(slots))
}
