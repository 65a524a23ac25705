//! What is staged of a node, and of all nodes.
ghost use Rattle.std.specs.Prelude.{◌≡◌, IfOk, OnOk, OnErr, IsSome};
ghost use Rattle.std.specs.Ordering.{nat_cmp};
ghost use Rattle.std.specs.FinMap.{find, put};
ghost use Rattle.dirty_store.specs.Overlay.{least_cut, lower_cut, node_after};
ghost use Rattle.dirty_store.specs.Undo.{node_back};

use block_format::Inode;
use std::alloc::AllocError;
use std::collections::BTreeMap;
use vol_numbers::{Fbn, InoNo};

/// How many blocks a node has at most.
const MOST_BLOCKS: Fbn = 1_048_576;

/// What is staged of a node.
#[derive(Clone, Copy, Debug, PartialEq, Eq)]
pub struct NodeChange {
    /// The kind and size staged last, `Unused` where the node was removed.
    pub inode: Inode,
    /// The least number of blocks that a cut has named, 1,048,576 where there was none.
    pub cut_to: Fbn,
}

/// What is staged of each node.
pub(crate) type Nodes = BTreeMap<InoNo, NodeChange>;

/// The least number of blocks that a cut has named.
pub(crate) fn least_cut(node: Option<NodeChange>) -> Fbn
    ensures { result ≡ least_cut node }
{
    match node {
        Some(node) => node.cut_to,
        None => MOST_BLOCKS,
    }
}

/// The same with one more cut, where there is one.
fn lower_cut(node: Option<NodeChange>, cut_to: Option<Fbn>) -> Fbn
    ensures { result ≡ lower_cut node cut_to }
{
    match cut_to {
        Some(blocks) => least_cut(node).min(blocks),
        None => least_cut(node),
    }
}

/// What is staged of a node.
pub(crate) fn node_of(nodes: &Nodes, number: InoNo) -> Option<NodeChange>
    ensures { result ≡ find nat_cmp number nodes.now.entries }
{
    nodes.get(&number).copied()
}

/// Stages a node, and gives what was staged of it before.
pub(crate) fn stage_node(
    nodes: &mut Nodes,
    number: InoNo,
    inode: Inode,
    cut_to: Option<Fbn>,
) -> Result<Option<NodeChange>, AllocError>
    ensures staged { OnOk result (nodes.new.entries ≡ put nat_cmp number (node_after inode cut_to (find nat_cmp number nodes.old.entries)) nodes.old.entries) }
    ensures was { IfOk result (λ was. was ≡ find nat_cmp number nodes.old.entries) }
    ensures unchanged { OnErr result (nodes.new.entries ≡ nodes.old.entries) }
{
    let was = node_of(nodes, number);
    let cut_to = lower_cut(was, cut_to);
    nodes.insert(number, NodeChange { inode, cut_to })?;
    Ok(was)
}

/// Puts back what was staged of a node that is staged, or nothing. It takes no memory.
pub(crate) fn node_back(nodes: &mut Nodes, number: InoNo, was: Option<NodeChange>)
    requires { IsSome (find nat_cmp number nodes.old.entries) }
    ensures { nodes.new.entries ≡ node_back number was nodes.old.entries }
{
    match was {
        Some(node) => {
            let _ = nodes.insert(number, node);
        }
        None => {
            nodes.remove(&number);
        }
    }
}
