//! What dirty places are given.
use run_allocator::FreeMap;
use tree_model::LineList;
use vol_numbers::ChangeList;

/// The fresh blocks that a point gives to dirty places.
#[derive(Drop)]
pub struct Placed {
    /// The fresh lines of its report, by number and place.
    pub lines: LineList,
    /// Of each of the numbers, in their order, the places with their new blocks.
    pub changes: Vec<ChangeList>,
    /// The blocks that are still free.
    pub left: FreeMap,
    /// How many blocks are given.
    pub blocks: u32,
}
