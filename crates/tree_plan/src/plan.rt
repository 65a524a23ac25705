//! What is planned of a tree.
use block_format::Inode;
use vol_numbers::{PageList, PointerList};

/// What a point plans of the tree of one node: its inode, with the tree that it will have, the blocks that are written, and the pointers that come and that go.
#[derive(Drop)]
pub struct TreePlan {
    pub inode: Inode,
    pub pages: PageList,
    pub added: PointerList,
    pub dropped: PointerList,
}
