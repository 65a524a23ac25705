//! What a power cut leaves in a block.
use thiserror::Error;
use vol_numbers::{Block, BlockNo};

/// A block that stands on the disk after a power cut.
#[derive(Clone, Copy, Debug, PartialEq, Eq)]
pub struct Pick {
    pub at: BlockNo,
    pub block: Block,
}

/// A pick names a block that is not unsynced, so a power cut can't change it.
#[derive(Clone, Copy, Debug, PartialEq, Eq, Error)]
#[error("a power cut changes only blocks that were written and not synced")]
pub struct NotOpen;
