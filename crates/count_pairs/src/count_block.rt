//! The block that spells a part of the counts.
ghost use Rattle.std.specs.Prelude.{◌≡◌, ◌≤◌, ◌+◌, ◌*◌, length};
ghost use Rattle.block_format.specs.Words.{words};
ghost use Rattle.count_pairs.specs.Table.{count_block};

use block_format::write_counts;
use vol_numbers::Block;

/// How many counts a count block has.
pub(crate) const COUNTS_PER_BLOCK: usize = 1_024;

/// The block that spells the counts of count block i.
pub(crate) fn block_of(counts: &[u32], i: u32) -> Block
    requires { 1024 * i + 1024 ≤ length counts.now }
    ensures { words result.bytes ≡ count_block counts.now i }
{
    let first = COUNTS_PER_BLOCK * i as usize;
    let mut block = Block::zero();
    write_counts(&counts[first..first + COUNTS_PER_BLOCK], &mut block);
    block
}
