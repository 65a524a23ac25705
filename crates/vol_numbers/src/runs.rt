//! Runs, pages and changes: the elements of the lists that layers hand to one another.
use crate::{Block, BlockNo, Fbn};

/// Adjacent blocks or places: the first, and how many.
#[derive(Clone, Copy, Debug, PartialEq, Eq)]
pub struct Run {
    pub first: u32,
    pub length: u32,
}

/// A block with the number under which it is to be written.
#[derive(Clone, Copy, Debug, PartialEq, Eq)]
pub struct Page {
    pub at: BlockNo,
    pub block: Block,
}

/// A place of a node with the block that it is to point to.
#[derive(Clone, Copy, Debug, PartialEq, Eq)]
pub struct Change {
    pub place: Fbn,
    pub block: BlockNo,
}
