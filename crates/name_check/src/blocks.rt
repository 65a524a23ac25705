//! Blocks of nodes, in the order of the nodes.
ghost use Rattle.std.specs.Prelude.{◌≡◌, ◌<◌, ◌≤◌, ◌==◌, ℕ, filter, length, IfSome, IfNone, []};
ghost use Rattle.block_tree.specs.Tree.{Blocks};
ghost use Rattle.image_model.specs.Slots.{held_at};
ghost use Rattle.image_walk.specs.Blocks.{NeverFall, AreOnDisk, number_at, blocks_held};

use image_walk::NodeBlock;
use vol_numbers::{BlockNo, InoNo};

/// How many blocks are of nodes below a number.
fn below(blocks: &[NodeBlock], number: u64) -> usize
    requires { NeverFall blocks.now }
    ensures within { result ≤ length blocks.now }
    ensures before { (k : ℕ) → k < result → number_at blocks.now k < number }
    ensures behind { (k : ℕ) → result ≤ k → k < length blocks.now → number ≤ number_at blocks.now k }
{
    blocks.partition_point(|there| u64::from(there.number) < number)
}

/// The blocks of one node. Beside these, no more blocks are looked at than a logarithm of all.
pub(crate) fn of_number(blocks: &[NodeBlock], number: InoNo) -> &[NodeBlock]
    requires { NeverFall blocks.now }
    ensures { result.now ≡ filter (λ b. b.number == number) blocks.now }
{
    let from = below(blocks, u64::from(number));
    let to = below(blocks, u64::from(number) + 1);
    &blocks[from..to]
}

/// The block of a node at a place.
pub(crate) fn block_at(blocks: &[NodeBlock], number: InoNo, place: u64) -> Option<BlockNo>
    requires { NeverFall blocks.now }
    ensures some { IfSome result (λ block. (read : Blocks) → held_at (blocks_held read blocks.now) number place ≡ read block) }
    ensures disk { IfSome result (λ block. (size : ℕ) → AreOnDisk size blocks.now → block < size) }
    ensures none { IfNone result ((read : Blocks) → held_at (blocks_held read blocks.now) number place ≡ []) }
{
    for there in of_number(blocks, number) {
        if u64::from(there.place) == place {
            return Some(there.block);
        }
    }
    None
}
