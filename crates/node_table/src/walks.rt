//! Where a path leads.
ghost use Rattle.std.specs.Prelude.{◌≡◌};
ghost use Rattle.std.specs.Option.{option_copied};
ghost use Rattle.node_table.specs.Held.{held};
ghost use Rattle.node_table.specs.Walks.{number_below, look, found_at};

use crate::held::{FoundNode, HeldNode};
use crate::table::NodeTable;
use tree_model::Refusal;
use vol_numbers::{InoNo, Name};

/// The number of the root.
pub(crate) const ROOT: InoNo = 1;

impl NodeTable {
    /// The node that a path leads to.
    pub(crate) fn look(&self, path: &[Name]) -> Result<FoundNode, Refusal>
        ensures { result ≡ look self.now path.now }
    {
        let mut number = ROOT;
        for name in path {
            number = self.number_below(number, name)?;
        }
        self.found_at(number)
    }

    /// The number of the node of this name in a directory.
    fn number_below(&self, number: InoNo, name: &Name) -> Result<InoNo, Refusal>
        ensures { result ≡ number_below (held self.now number) name.now }
    {
        match self.held(number) {
            None => Err(Refusal::NotFound),
            Some(HeldNode::File { .. }) => Err(Refusal::NotADirectory),
            Some(HeldNode::Directory(directory)) => {
                directory.find(name).ok_or(Refusal::NotFound)
            }
        }
    }

    /// What is known of the node of this number.
    fn found_at(&self, number: InoNo) -> Result<FoundNode, Refusal>
        ensures { result ≡ found_at (held self.now number) number }
    {
        match self.held(number) {
            None => Err(Refusal::NotFound),
            Some(node) => Ok(FoundNode {
                number,
                info: node.info(),
            }),
        }
    }

    /// The node of this number.
    pub(crate) fn held(&self, number: InoNo) -> Option<&HeldNode>
        ensures { option_copied result ≡ held self.now number }
    {
        match self.nodes.get(number as usize) {
            Some(Some(node)) => Some(node),
            _ => None,
        }
    }
}
