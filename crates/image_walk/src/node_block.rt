//! Blocks of files and directories, as a walk leaves them to later phases.
use vol_numbers::{BlockNo, Fbn, InoNo, ItemList};

/// A block of a file or a directory.
#[derive(Clone, Copy, Debug, PartialEq, Eq)]
pub struct NodeBlock {
    /// The file or the directory.
    pub number: InoNo,
    pub place: Fbn,
    pub block: BlockNo,
}

/// Blocks in the order of their nodes.
pub type NodeBlockList = ItemList<NodeBlock>;
