//! What a change of the nodes was.
use vol_numbers::InoNo;

/// A change, as the numbers of nodes and the slots of directories that it touched.
#[derive(Clone, Copy, Debug, PartialEq, Eq)]
pub enum Change {
    /// A new node, in a slot of its directory.
    Made {
        parent: InoNo,
        slot: u32,
        number: InoNo,
    },
    /// A file that has so many bytes now.
    Sized {
        number: InoNo,
        size: u64,
    },
    /// A node that is gone, and the slot that it left.
    Removed {
        parent: InoNo,
        slot: u32,
        number: InoNo,
    },
    /// A node that left one slot and then came into another.
    Renamed {
        number: InoNo,
        from: InoNo,
        from_slot: u32,
        to: InoNo,
        to_slot: u32,
    },
}
