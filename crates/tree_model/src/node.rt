//! Nodes of the tree.
use vol_numbers::{ByteList, InoNo, ItemList, Name};

/// Names from the root on, of any number: a rename may take a node deeper than a path of a command goes.
pub type NameList = ItemList<Name>;

/// What a node holds: a file its bytes, a directory its width, which is the greatest number of entries that it has had.
#[derive(Drop)]
pub enum Content {
    File(ByteList),
    Directory { width: u64 },
}

/// A node of the tree, with the number that it has in place of a name.
#[derive(Drop)]
pub struct Node {
    pub number: InoNo,
    pub content: Content,
}
