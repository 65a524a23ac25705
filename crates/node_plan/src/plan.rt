//! What is planned of a node.
use block_format::Inode;
use vol_numbers::{PageList, PointerList};

/// What a point plans of one node: that of its tree, and how many blocks of metadata this had and is going to have.
#[derive(Drop)]
pub struct NodePlan {
    pub inode: Inode,
    pub pages: PageList,
    pub added: PointerList,
    pub dropped: PointerList,
    /// Index blocks, and for a directory its pages too.
    pub metadata_before: u32,
    pub metadata: u32,
}
