//! What the blocks of a volume spell: its root, index blocks, count blocks, inodes and slots.
#![tactic(auto)]

mod bytes;
mod counts;
mod fields;
mod homes;
mod index;
mod inode;
mod laws;
mod pointer;
mod root;
mod slot;
mod words;

pub use counts::{read_count, read_counts, write_count, write_counts};
pub use homes::HomeBits;
pub use index::{Index, read_index, write_index};
pub use inode::{Inode, blocks_of, height_of, read_any_inode, read_inode, write_inode};
pub use laws::{
    counts_of_block, heights_are_least, index_of_spelling, inode_of_spelling, inode_reads_back,
    root_of_spelling, same_counts, same_index, same_inode, same_root, same_slot, slot_of_spelling,
    slot_reads_back, spelling_reads_back,
};
pub use root::{RootBody, RootShape, read_root, write_root};
pub use slot::{Slot, read_slot, write_slot};
