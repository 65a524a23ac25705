//! A directory with its number.
use dir_slots::Directory;
use vol_numbers::InoNo;

/// A directory with the number of its node.
#[derive(Drop)]
pub struct Held {
    pub number: InoNo,
    pub slots: Directory,
}
