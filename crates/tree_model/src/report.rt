//! A reply with the report of the consistency point that came before it.
use crate::Reply;
use vol_numbers::{BlockNo, Fbn, InoNo, ItemList};

/// Whether a line tells of blocks that were written or of blocks that were shared.
#[derive(Clone, Copy, Debug, PartialEq, Eq)]
pub enum LineKind {
    Fresh,
    Share,
}

/// Adjacent places of a file that a point gave adjacent blocks.
#[derive(Clone, Copy, Debug, PartialEq, Eq)]
pub struct Line {
    pub kind: LineKind,
    pub number: InoNo,
    pub place: Fbn,
    pub length: u32,
    pub block: BlockNo,
}

/// Lines of a report.
pub type LineList = ItemList<Line>;

/// What a consistency point did: its number, how many blocks it wrote and shared, and how many are free after it.
#[derive(Drop)]
pub struct Report {
    pub number: u64,
    pub fresh: u32,
    pub shared: u32,
    pub free: u32,
    pub lines: LineList,
}

/// A reply, after the report of the point that its command brought about.
#[derive(Drop)]
pub struct Answer {
    pub report: Option<Report>,
    pub reply: Reply,
}
