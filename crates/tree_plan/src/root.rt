//! Where a node's tree begins.
ghost use Rattle.std.specs.Prelude.{◌≡◌, ◌≤◌, min};
ghost use Rattle.dir_slots.specs.Pages.{pages_for};
ghost use Rattle.point_model.specs.Holding.{width_in};
ghost use Rattle.block_format.specs.Inode.{blocks_of};
ghost use Rattle.tree_plan.specs.Trees.{root_of};

use crate::pages::SLOTS;
use block_format::{Inode, blocks_of};
use block_tree::TreeRoot;
use vol_numbers::Fbn;

/// Where the tree below an inode begins.
pub fn root_of(inode: &Inode) -> TreeRoot
    ensures { result ≡ root_of inode.now }
{
    match *inode {
        Inode::Unused => TreeRoot { height: 0, ptr: 0 },
        Inode::File { height, ptr, .. } => TreeRoot { height, ptr },
        Inode::Directory { height, ptr, .. } => TreeRoot { height, ptr },
    }
}

/// A cut that leaves no place past a size.
pub(crate) fn cut_within(cut_to: Fbn, size: u64) -> Fbn
    requires { size ≤ 4294967296 }
    ensures { result ≡ min cut_to (blocks_of size) }
{
    u64::from(cut_to).min(blocks_of(size)) as Fbn
}

/// How many pages a directory has, by its inode, and 0 of what is none.
pub fn own_pages(inode: &Inode) -> u32
    ensures is { result ≡ pages_for (width_in inode.now) }
    ensures at_most { result ≤ 268435456 }
{
    match *inode {
        Inode::Directory { width, .. } => width.div_ceil(SLOTS),
        _ => 0,
    }
}
