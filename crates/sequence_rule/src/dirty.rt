//! The dirty places of a file, with their blocks.
ghost use Rattle.sequence_rule.specs.Runs.{AreRuns, AreRuns-prop};

use vol_numbers::{Block, Fbn, ItemList};

/// Blocks, in order.
pub type BlockList = ItemList<Block>;

/// Adjacent dirty places: the first, and the blocks that are to stand there.
#[derive(Drop)]
pub struct DirtyRun {
    pub first: Fbn,
    pub blocks: BlockList,
}

/// Runs, in order.
pub type DirtyRunList = ItemList<DirtyRun>;

/// The dirty places of one file. Each run has a block, the runs ascend, no two are adjacent, and each place is below 1,048,576.
#[derive(Drop)]
pub struct DirtyRuns {
    pub runs: DirtyRunList,
    ghost in_order: { AreRuns 0 runs } by { AreRuns-prop 0 runs },
}
