//! The block that was read last, which every disk keeps and tells.
ghost use Rattle.std.specs.Prelude.{◌≡◌};
ghost use Rattle.vol_numbers.specs.Block.{zero_block};
ghost use Rattle.disk_model.specs.Disk.{Given, Gives};

use std::marker::Model;
use vol_numbers::{Block, BlockNo};

/// The last block that a disk gave, its number, and how many it gave, up to the greatest `u64`.
#[derive(Clone, Copy)]
pub struct LastRead {
    at: BlockNo,
    block: Block,
    count: u64,
}

impl Model for LastRead {
    ghost use Rattle.disk_model.specs.Disk.{Given};

    ghost Value = { Given };

    ghost view = { λ r. record { at = r.at; block = r.block; count = r.count } };

    ghost inverse = { λ g. record { at = g.at; block = g.block; count = g.count } };
}

impl LastRead {
    /// Nothing was read yet.
    pub fn none() -> LastRead
        ensures { result ≡ record { at = 0; block = zero_block; count = 0 } }
    {
        LastRead {
            at: 0,
            block: Block::zero(),
            count: 0,
        }
    }

    /// Notes one block more.
    pub fn note(&mut self, at: BlockNo, block: &Block)
        ensures { Gives self.old self.new at block.now }
    {
        self.at = at;
        self.block = *block;
        self.count = self.count.saturating_add(1);
    }
}
