//! Makes the table of nodes as they were at the last point.
ghost use Rattle.std.specs.Prelude.{◌≡◌, ◌≤◌, true, List, Some, IfOk, OnOk};
ghost use Rattle.block_format.specs.declared.slot.Slot.{Slot};
ghost use Rattle.dir_slots.specs.Slots.{IsDirectory};
ghost use Rattle.held_list.specs.Held.{slots_at};
ghost use Rattle.image_model.specs.Walk.{is_directory};
ghost use Rattle.node_table.specs.Changes.{IsSet};
ghost use Rattle.node_table.specs.Held.{AreDirectories};
ghost use Rattle.node_table.specs.declared.held.HeldNode.{HeldNode};
ghost use Rattle.log_check.specs.Accepting.{HoldsATree};
ghost use Rattle.log_check.specs.Holding.{AreNodes, node_held, IsTableOf, HoldsEachTree, FindsNoneLost};

use block_format::Inode;
use held_list::HeldList;
use node_table::NodeTable;
use std::alloc::{AllocError, Global};
use vol_numbers::InoNo;

/// The table of these nodes: files with their sizes, and directories with their slots.
///
/// It copies each directory once. A directory is found by the logarithm of their number.
pub fn table_of(
    alloc: Global,
    nodes: &[(InoNo, Inode)],
    directories: &HeldList,
) -> Result<NodeTable, AllocError>
    requires { AreNodes nodes.now directories.now }
    ensures nodes { IfOk result (λ table. IsTableOf nodes.now directories.now table) }
    ensures trees { IfOk result (λ table. HoldsEachTree nodes.now directories.now table) }
    ensures directories { IfOk result AreDirectories }
    ensures a_tree { IfOk result (λ table. FindsNoneLost nodes.now directories.now → HoldsATree table) }
{
    let mut table = NodeTable::new(alloc)?;
    for node in nodes {
        put_node(&mut table, node, directories)?;
    }
    Ok(table)
}

/// Puts a node under its number.
fn put_node(
    table: &mut NodeTable,
    node: &(InoNo, Inode),
    directories: &HeldList,
) -> Result<(), AllocError>
    requires at_least { 1 ≤ node.now.0 }
    requires at_most { node.now.0 ≤ 65535 }
    requires held { (held : HeldNode) × (node_held directories.now node.now.0 node.now.1 ≡ Some held) }
    ensures put { OnOk result (IsSet table.old node.now.0 (node_held directories.now node.now.0 node.now.1) table.new) }
    ensures directory { OnOk result ((slots : List Slot) → is_directory node.now.1 ≡ true → slots_at directories.now node.now.0 ≡ Some slots → IsDirectory slots) }
{
    match node.1 {
        Inode::Unused => Ok(()),
        Inode::File { size, .. } => {
            table.put_file(node.0, size);
            Ok(())
        }
        Inode::Directory { .. } => match directories.get(node.0) {
            Some(slots) => {
                let _width = slots.width();
                table.put_directory(node.0, slots.clone()?)
            }
            None => Ok(()),
        },
    }
}
