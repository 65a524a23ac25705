//! Whether the entries of directories make a tree.
ghost use Rattle.std.specs.Prelude.{◌≡◌, map, None, OnOk, IfErr};
ghost use Rattle.place_words.specs.Rising.{Rising};
ghost use Rattle.image_model.specs.Nodes.{tree_finding};
ghost use Rattle.image_model.specs.Seen.{Seen};
ghost use Rattle.name_check.specs.Cause.{IsOwn};
ghost use Rattle.name_check.specs.Tree.{FindsInTree};
ghost use Rattle.name_check.specs.Seeing.{HoldsDirectories};

use crate::NameFault;
use crate::lost::Marks;
use block_format::Inode;
use held_list::HeldList;
use image_model::Finding;
use std::alloc::Global;
use vol_numbers::InoNo;

/// Whether the nodes make a tree under number 1: each other one is named by one entry and reached from there, and no entry names
/// number 1 or a number without a node. The least number that breaks this is found.
///
/// Nothing is read from a disk. Each entry is looked at twice and each directory searched for by halves, whatever the entries name.
pub fn tree(
    alloc: Global,
    nodes: &[(InoNo, Inode)],
    directories: &HeldList,
) -> Result<(), NameFault>
    requires { Rising 0 (map (λ node. node.0) nodes.now) }
    ensures none { OnOk result ((s : Seen) → s.nodes ≡ nodes.now → HoldsDirectories s directories.now → tree_finding s ≡ None) }
    ensures found { IfErr result (λ fault. (s : Seen) → s.nodes ≡ nodes.now → HoldsDirectories s directories.now → FindsInTree s fault) }
    ensures cause { IfErr result (λ fault. IsOwn fault) }
{
    let marks = Marks::new(alloc, nodes, directories)?;
    match marks.first_lost() {
        Some(number) => Err(NameFault::Found(Finding::NotATree(number))),
        None => Ok(()),
    }
}
