//! The numbers that no new node can have.
ghost use Rattle.std.specs.Prelude.{◌≡◌, ◌||◌, nat_lt, IfOk, length};
ghost use Rattle.inode_file.specs.Inodes.{is_used};
ghost use Rattle.inode_file.specs.Taken.{HasTaken};

use crate::inode_block::is_used;
use block_format::Inode;
use number_set::NumberSet;
use std::alloc::{AllocError, Global};
use vol_numbers::InoNo;

/// Whether no new node can have a number: 0 is no node's, 1 is that of the root directory, and another is where it is used.
pub(crate) fn is_taken(n: InoNo, inode: &Inode) -> bool
    ensures { result ≡ (nat_lt n 2 || is_used inode.now) }
{
    n < 2 || is_used(inode)
}

/// The numbers that no new node can have.
pub(crate) fn taken_numbers(alloc: Global, inodes: &[Inode]) -> Result<NumberSet, AllocError>
    requires { length inodes.now ≡ 65536 }
    ensures { IfOk result (λ numbers. HasTaken numbers inodes.now) }
{
    let mut numbers = NumberSet::new(alloc)?;
    for n in 0..65_536 {
        numbers.set(n, is_taken(n, &inodes[n as usize]));
    }
    Ok(numbers)
}
