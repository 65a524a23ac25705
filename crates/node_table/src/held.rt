//! What a table has of a node, and what it says of it.
ghost use Rattle.std.specs.Prelude.{◌≡◌};
ghost use Rattle.node_table.specs.Held.{info, is_directory};

use crate::counted::CountedDirectory;
use vol_numbers::InoNo;

/// A node without its bytes.
#[derive(Drop)]
pub(crate) enum HeldNode {
    File { size: u64 },
    Directory(CountedDirectory),
}

/// What is known of a node: of a file how many bytes it has, of a directory how many slots.
#[derive(Clone, Copy, Debug, PartialEq, Eq)]
pub enum NodeInfo {
    File { size: u64 },
    Directory { width: u32 },
}

/// A node that a path leads to.
#[derive(Clone, Copy, Debug, PartialEq, Eq)]
pub struct FoundNode {
    pub number: InoNo,
    pub info: NodeInfo,
}

impl NodeInfo {
    pub(crate) fn is_directory(&self) -> bool
        ensures { result ≡ is_directory self.now }
    {
        matches!(self, NodeInfo::Directory { .. })
    }
}

impl HeldNode {
    pub(crate) fn info(&self) -> NodeInfo
        ensures { result ≡ info self.now }
    {
        match self {
            HeldNode::File { size } => NodeInfo::File { size: *size },
            HeldNode::Directory(directory) => NodeInfo::Directory {
                width: directory.width(),
            },
        }
    }
}
