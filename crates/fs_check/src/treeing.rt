//! The tree that the entries make.
ghost use Rattle.std.specs.Prelude.{◌≡◌, ℕ, OnOk};
ghost use Rattle.image_model.specs.Nodes.{tree_finding};
ghost use Rattle.image_model.specs.Seen.{Seen};
ghost use Rattle.name_check.specs.Seeing.{HoldsDirectories};
ghost use Rattle.log_check.specs.Holding.{AreNodes, FindsNoneLost};
ghost use Rattle.fs_check.specs.Cause.{HasFsCause};
ghost use Rattle.fs_check.specs.Phases.{IsPhase};

use crate::CheckFault;
use block_format::Inode;
use held_list::HeldList;
use name_check::tree;
use std::alloc::Global;
use vol_numbers::InoNo;

/// The entries make one tree under number 1, of all nodes.
pub(crate) fn one_tree(
    alloc: Global,
    nodes: &[(InoNo, Inode)],
    directories: &HeldList,
) -> Result<(), CheckFault>
    requires { AreNodes nodes.now directories.now }
    ensures found { (s : Seen) → s.nodes ≡ nodes.now → HoldsDirectories s directories.now → IsPhase (tree_finding s) result }
    ensures none_lost { OnOk result (FindsNoneLost nodes.now directories.now) }
    ensures cause { (count : ℕ) → HasFsCause count count result }
{
    tree(alloc, nodes, directories)?;
    Ok(())
}
