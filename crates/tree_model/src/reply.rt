//! What a command is answered.
use crate::Refusal;
use vol_numbers::{BlockNo, ByteList, Fbn, InoNo, ItemList, Name};

/// What a node is.
#[derive(Clone, Copy, Debug, PartialEq, Eq)]
pub enum Kind {
    File,
    Directory,
}

/// A node as its directory lists it.
#[derive(Clone, Copy, Debug)]
pub struct Entry {
    pub kind: Kind,
    pub number: InoNo,
    pub name: Name,
}

/// Entries of a directory.
pub type EntryList = ItemList<Entry>;

/// Adjacent places of a file, at adjacent blocks of the volume or not yet written.
#[derive(Clone, Copy, Debug, PartialEq, Eq)]
pub enum Piece {
    Placed {
        place: Fbn,
        length: u32,
        block: BlockNo,
    },
    Dirty {
        place: Fbn,
        length: u32,
    },
}

/// Pieces of a file.
pub type PieceList = ItemList<Piece>;

/// The reply to a command: what was asked for, or why it was refused.
#[derive(Drop)]
pub enum Reply {
    Done,
    Data(ByteList),
    Entries(EntryList),
    Stat {
        kind: Kind,
        number: InoNo,
        size: u64,
    },
    Layout(PieceList),
    Space {
        free: u32,
        pending: u32,
        log: u32,
    },
    Refused(Refusal),
}
