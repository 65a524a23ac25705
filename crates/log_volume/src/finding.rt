//! What is wrong with an image that stands for nothing.

/// The first finding of the first phase that has one.
#[derive(Clone, Copy, Debug, PartialEq, Eq)]
pub enum Finding {
    /// There are no root slots, or the current one has no root.
    NoRoot,
    /// The root's numbers are outside their limits, or are not those of the disk.
    BadGeometry,
    /// What a format writes stands there no more.
    Unbuilt,
    /// The record of this index is no record, or is refused by the tree after those before it, or the records take fewer blocks than the
    /// root says.
    BadLog(u32),
}
