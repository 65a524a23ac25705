//! The root directory.
ghost use Rattle.std.specs.Prelude.{◌≡◌, ◌==◌, ◌&&◌};
ghost use Rattle.std.specs.List.{list_any};
ghost use Rattle.vol_numbers.specs.Layout.{Layout};
ghost use Rattle.image_model.specs.Walk.{is_directory, root_met};
ghost use Rattle.image_walk.specs.Cause.{IsNoDevice};
ghost use Rattle.image_walk.specs.Going.{Checks};

use crate::WalkFault;
use block_format::Inode;
use image_model::Finding;
use vol_numbers::InoNo;

/// The number of the root directory.
const ROOT: InoNo = 1;

/// Number 1 has to be a directory.
pub(crate) fn walk_root(nodes: &[(InoNo, Inode)]) -> Result<(), WalkFault>
    ensures walked { (g : Layout) → Checks g (root_met nodes.now) result }
    ensures cause { IsNoDevice result }
{
    if has_root(nodes) {
        Ok(())
    } else {
        Err(WalkFault::Found(Finding::BadInode(ROOT)))
    }
}

/// Whether one of the nodes is the root directory.
fn has_root(nodes: &[(InoNo, Inode)]) -> bool
    ensures { result ≡ list_any (λ node. node.0 == 1 && is_directory node.1) nodes.now }
{
    nodes
        .iter()
        .any(|node| node.0 == ROOT && is_directory(&node.1))
}

/// Whether it is a directory's.
fn is_directory(inode: &Inode) -> bool
    ensures { result ≡ is_directory inode.now }
{
    match inode {
        Inode::Directory { .. } => true,
        Inode::Unused | Inode::File { .. } => false,
    }
}
