//! Lists that contracts see as lists. A list is made from a `Vec` and given back as one without memory.
ghost use Rattle.std.specs.Prelude.{◌≡◌, ◌↔◌, [], length, List, IsTrue};

use crate::{BlockNo, Change, Page, Run};
use std::alloc::Global;
use std::marker::Model;

/// A list of items, in order.
#[derive(Drop)]
pub struct ItemList<T> {
    items: Vec<T>,
}

/// Runs of blocks or of places.
pub type RunList = ItemList<Run>;

/// Blocks to be written, with their numbers.
pub type PageList = ItemList<Page>;

/// Places with their new blocks.
pub type ChangeList = ItemList<Change>;

/// Bytes of a file or a text.
pub type ByteList = ItemList<u8>;

/// Numbers of calls.
pub type CallList = ItemList<u64>;

/// Numbers of blocks.
pub type PointerList = ItemList<BlockNo>;

/// How many pointers lead to each block.
pub type CountList = ItemList<u32>;

impl<T> Model for ItemList<T> {
    ghost Value = { List T };

    ghost view = { λ l. l.items.items };
}

impl<T> ItemList<T> {
    /// The empty list, which takes no memory.
    pub fn new(alloc: Global) -> ItemList<T>
        ensures { result ≡ [] }
    {
        ItemList {
            items: Vec::new(alloc),
        }
    }

    pub fn from_vec(items: Vec<T>) -> ItemList<T>
        ensures { result ≡ items.items }
    {
        ItemList { items }
    }

    pub fn into_vec(self) -> Vec<T>
        ensures { result.items ≡ self }
    {
        self.items
    }

    pub fn as_slice(&self) -> &[T]
        ensures { result.now ≡ self.now }
    {
        self.items.as_slice()
    }

    pub fn len(&self) -> usize
        ensures { result ≡ length self.now }
    {
        self.items.len()
    }

    pub fn is_empty(&self) -> bool
        ensures { IsTrue result ↔ (self.now ≡ []) }
    {
        self.items.is_empty()
    }
}
