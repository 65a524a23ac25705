//! What is planned of a node.
use block_format::Inode;
use vol_numbers::{InoNo, ItemList, PageList, PointerList};

/// A node that has changed since the last point, and what becomes of its blocks.
#[derive(Drop)]
pub struct PlannedNode {
    pub number: InoNo,
    /// Its inode at the last point.
    pub was: Inode,
    /// Its inode after this one, which leads to its new blocks.
    pub is: Inode,
    /// The blocks of its index and of its directory that are written afresh.
    pub pages: PageList,
    /// The pointers that come and those that go, with repeats.
    pub added: PointerList,
    pub dropped: PointerList,
    /// How many blocks of metadata it had at the last point, and how many it is going to have.
    pub metadata_before: u32,
    pub metadata: u32,
}

/// Nodes that have changed, by number.
pub type PlannedNodeList = ItemList<PlannedNode>;
