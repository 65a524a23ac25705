//! What a staging replaced.
use crate::cuts::Was;
use crate::node_change::NodeChange;
use block_format::Slot;
use std::marker::Model;
use vol_numbers::{Block, InoNo};

/// What a staging replaced or cut away, by which it is undone.
#[derive(Drop)]
pub struct Staged {
    pub(crate) number: InoNo,
    pub(crate) node: Option<NodeChange>,
    pub(crate) blocks: Vec<Was<Box<Block>>>,
    pub(crate) slots: Vec<Was<Box<Slot>>>,
}

impl Model for Staged {
    ghost use Rattle.dirty_store.specs.Entries.{AreWithin};
    ghost use Rattle.dirty_store.specs.Inside.{was_unboxed};
    ghost use Rattle.dirty_store.specs.Undo.{Replaced};

    ghost Value = { Replaced };

    ghost view = { λ s. record {
      number = s.number;
      node = s.node;
      blocks = was_unboxed s.blocks.items;
      slots = was_unboxed s.slots.items;
    } };

    ghost invariant = { λ s. AreWithin s.blocks.items × AreWithin s.slots.items };
}
