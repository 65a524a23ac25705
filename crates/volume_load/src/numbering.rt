//! The inodes of all numbers, of those that are used.
ghost use Rattle.std.specs.Prelude.{◌≡◌, ℕ, IfOk, length, map};
ghost use Rattle.block_format.specs.declared.inode.Inode.TheVariants.{Unused};
ghost use Rattle.image_walk.specs.Left.{AreWithin};
ghost use Rattle.inode_file.specs.Inodes.{inode_of};
ghost use Rattle.place_words.specs.Rising.{Rising};
ghost use Rattle.volume_load.specs.Known.{HasInodes};

use block_format::Inode;
use std::alloc::{AllocError, Global};
use vol_numbers::InoNo;

/// How many numbers there are, with 0.
const NUMBERS: usize = 65_536;

/// The inode of each number up to 65,535, where the used ones are given by rising number.
pub(crate) fn numbered(alloc: Global, nodes: &[(InoNo, Inode)]) -> Result<Vec<Inode>, AllocError>
    requires rising { Rising 1 (map (λ node. node.0) nodes.now) }
    requires within { AreWithin nodes.now }
    ensures many { IfOk result (λ inodes. length inodes.items ≡ 65536) }
    ensures each { IfOk result (λ inodes. HasInodes nodes.now inodes.items) }
{
    let mut inodes = all_unused(alloc)?;
    for node in nodes {
        inodes[node.0 as usize] = node.1;
    }
    Ok(inodes)
}

/// An unused inode for each number.
fn all_unused(alloc: Global) -> Result<Vec<Inode>, AllocError>
    ensures many { IfOk result (λ inodes. length inodes.items ≡ 65536) }
    ensures unused { IfOk result (λ inodes. (n : ℕ) → inode_of inodes.items n ≡ Unused) }
{
    let mut inodes = Vec::with_capacity(alloc, NUMBERS)?;
    for _number in 0..NUMBERS {
        inodes.push(Inode::Unused)?;
    }
    Ok(inodes)
}
