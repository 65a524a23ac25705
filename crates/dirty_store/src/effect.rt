//! What an accepted command does to a volume, as whole blocks, nodes and slots.
use block_format::{Inode, Slot};
use vol_numbers::{Block, Fbn, InoNo, ItemList};

/// A place of a node with the block that it has now.
#[derive(Clone, Copy, Debug, PartialEq, Eq)]
pub struct Touched {
    pub place: Fbn,
    pub block: Block,
}

/// A slot of a directory with what it holds now.
#[derive(Clone, Copy, Debug, PartialEq, Eq)]
pub struct SlotChange {
    pub directory: InoNo,
    pub slot: u32,
    pub content: Slot,
}

/// Touched places, in their order.
pub type TouchedList = ItemList<Touched>;

/// Changes of slots, in their order.
pub type SlotChangeList = ItemList<SlotChange>;

/// What a command does: first the cut, then the touched places, then the slots.
#[derive(Drop)]
pub struct Effect {
    /// The node that the command changes.
    pub number: InoNo,
    /// Its new kind and size, `Unused` where it is removed. Height and pointer are not looked at.
    pub inode: Inode,
    /// The new number of blocks of a truncated file, 0 for a new or removed node, else none.
    pub cut_to: Option<Fbn>,
    /// Places of the node, at most 1,048,575, with whole blocks.
    pub touched: TouchedList,
    /// Slots of directories, each below 65,534.
    pub slots: SlotChangeList,
}
