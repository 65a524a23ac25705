//! The 64 inodes of an inode block.
ghost use Rattle.std.specs.Prelude.{◌≡◌, ◌<◌, ℕ, IsTrue, IfSome, IfNone, Some, length, replicate};
ghost use Rattle.vol_numbers.specs.Geometry.{layout_of};
ghost use Rattle.block_format.specs.Inode.{inode_at, inode_part, inode_shape};
ghost use Rattle.block_format.specs.declared.inode.Inode.TheVariants.{Unused};
ghost use Rattle.inode_file.specs.Inodes.{inode_of, is_used};
ghost use Rattle.inode_file.specs.Loading.{IsWhole, IsNoInodeBlock};
ghost use Rattle.inode_file.specs.Rewriting.{has_used, are_same};

use block_format::{Inode, read_inode, write_inode};
use vol_numbers::{Block, Geometry};

/// How many inodes a block has.
pub(crate) const INODES: usize = 64;

/// Whether the number is a node's.
pub(crate) fn is_used(inode: &Inode) -> bool
    ensures { result ≡ is_used inode.now }
{
    match inode {
        Inode::Unused => false,
        Inode::File { .. } | Inode::Directory { .. } => true,
    }
}

/// Whether one of the numbers is a node's.
pub(crate) fn has_used(inodes: &[Inode]) -> bool
    ensures { result ≡ has_used inodes.now }
{
    for inode in inodes {
        if is_used(inode) {
            return true;
        }
    }
    false
}

/// Whether these are the same inodes.
pub(crate) fn are_same(inodes: &[Inode], other: &[Inode]) -> bool
    ensures test { result ≡ are_same inodes.now other.now }
    ensures is { IsTrue result → inodes.now ≡ other.now }
{
    inodes == other
}

/// No node has any of the numbers.
pub(crate) fn no_inodes() -> [Inode; 64]
    ensures { result ≡ replicate 64 Unused }
{
    [Inode::Unused; INODES]
}

/// The inodes that a block spells. None exactly where one of them is outside the grammar.
pub(crate) fn inodes_in(block: &Block, g: &Geometry) -> Option<[Inode; 64]>
    ensures spelled { IfSome result (λ inodes. (j : ℕ) → j < 64 → inode_at (inode_part j block.now.bytes) ≡ Some (inode_of inodes j)) }
    ensures whole { IfSome result (λ inodes. (j : ℕ) → IsWhole (layout_of g.now) (inode_of inodes j)) }
    ensures none { IfNone result (IsNoInodeBlock (layout_of g.now) block.now.bytes) }
{
    let mut inodes = no_inodes();
    for j in 0..INODES as u32 {
        inodes[j as usize] = read_inode(block, j, g)?;
    }
    Some(inodes)
}

/// The block that spells these inodes.
pub(crate) fn spelled(inodes: &[Inode]) -> Block
    requires many { length inodes.now ≡ 64 }
    requires shape { (j : ℕ) → IsTrue (inode_shape (inode_of inodes.now j)) }
    ensures { (j : ℕ) → j < 64 → inode_at (inode_part j result.bytes) ≡ Some (inode_of inodes.now j) }
{
    let mut block = Block::zero();
    for j in 0..INODES as u32 {
        write_inode(&inodes[j as usize], j, &mut block);
    }
    block
}
