//! What a point plans.
use crate::PlannedNodeList;
use block_format::RootBody;
use tree_model::Report;
use vol_numbers::PageList;

/// What a point is to write, and what it reports.
#[derive(Drop)]
pub struct Plan {
    /// The changed nodes, by number, with their pages.
    pub nodes: PlannedNodeList,
    /// The inode blocks that are written afresh, and the inode index.
    pub inode_pages: PageList,
    /// The dirty places with their blocks, as lines, and what the point is to answer.
    pub report: Report,
    /// The new root, with the home bits of the old one: those of the new one are known once the counts are written.
    pub root: RootBody,
}
