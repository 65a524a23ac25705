//! The table of all nodes.
ghost use Rattle.std.specs.Prelude.{◌≡◌, ℕ, ◌≤◌, Some, None, [], IfOk, OnOk, OnErr, length, slice_index_or};
ghost use Rattle.std.specs.FinSet as set;
ghost use Rattle.std.specs.Option.{option_map};
ghost use Rattle.tree_model.specs.Shape.{IsTree};
ghost use Rattle.tree_model.specs.Step.{walk};
ghost use Rattle.tree_model.specs.Tree.{Tree, new_tree};
ghost use Rattle.node_table.specs.Changes.{IsSet};
ghost use Rattle.node_table.specs.Found.{found};
ghost use Rattle.node_table.specs.Held.{HoldsNodes, held, info};

use crate::counted::{CountedDirectory, empty_directory};
use crate::held::{FoundNode, HeldNode, NodeInfo};
use crate::walks::ROOT;
use dir_slots::Directory;
use number_set::NumberSet;
use std::alloc::{AllocError, Global};
use std::marker::Model;
use tree_model::{Path, Refusal};
use vol_numbers::InoNo;

/// How many numbers there are, with 0.
const NUMBERS: usize = 65_536;

/// All nodes by their numbers, without the bytes of files. Whoever puts nodes into it one by one sees to it that they make a tree.
#[derive(Drop)]
pub struct NodeTable {
    /// The node of each number up to 65,535.
    pub(crate) nodes: Vec<Option<HeldNode>>,
    /// The numbers of nodes, and 0, which is no node's.
    pub(crate) used: NumberSet,
}

impl Model for NodeTable {
    ghost use Rattle.node_table.specs.Held.{Nodes};
    ghost use Rattle.node_table.specs.Kept.{IsKept};

    ghost Value = { Nodes };

    ghost view = { λ t. t.nodes.items };

    ghost invariant = { λ t. IsKept t.nodes.items t.used };
}

impl NodeTable {
    /// The table of the tree with the root alone.
    pub fn new(alloc: Global) -> Result<NodeTable, AllocError>
        ensures { IfOk result (λ table. HoldsNodes table new_tree) }
    {
        let nodes = no_nodes(alloc)?;
        let used = no_numbers(alloc)?;
        let root = empty_directory(alloc)?;
        let mut table = NodeTable { nodes, used };
        table.put(ROOT, HeldNode::Directory(root));
        Ok(table)
    }

    /// Puts a file of this size under a number, whatever had it.
    pub fn put_file(&mut self, number: InoNo, size: u64)
        requires at_least { 1 ≤ number }
        requires at_most { number ≤ 65535 }
        ensures { IsSet self.old number (Some (HeldNode.File size)) self.new }
    {
        self.put(number, HeldNode::File { size });
    }

    /// Puts a directory under a number, whatever had it. Its entries are counted once.
    pub fn put_directory(&mut self, number: InoNo, directory: Directory) -> Result<(), AllocError>
        requires at_least { 1 ≤ number }
        requires at_most { number ≤ 65535 }
        ensures put { OnOk result (IsSet self.old number (Some (HeldNode.Directory directory)) self.new) }
        ensures unchanged { OnErr result (self.new ≡ self.old) }
    {
        let alloc = *self.nodes.allocator();
        let counted = CountedDirectory::new(alloc, directory)?;
        let _width = counted.width();
        self.put(number, HeldNode::Directory(counted));
        Ok(())
    }

    /// The node that a path leads to, or why there is none.
    pub fn find(&self, path: &Path) -> Result<FoundNode, Refusal>
        ensures { (tree : Tree) → IsTree tree → HoldsNodes self.now tree → result ≡ found (walk tree path.now) }
    {
        self.look(path.names())
    }

    /// What is known of the node of a number, if it has one.
    pub fn info(&self, number: InoNo) -> Option<NodeInfo>
        ensures { result ≡ option_map info (held self.now number) }
    {
        match self.held(number) {
            Some(node) => Some(node.info()),
            None => None,
        }
    }
}

/// A place for each number, with no node.
fn no_nodes(alloc: Global) -> Result<Vec<Option<HeldNode>>, AllocError>
    ensures places { IfOk result (λ nodes. length nodes.items ≡ 65536) }
    ensures none { IfOk result (λ nodes. (k : ℕ) → slice_index_or nodes.items k None ≡ None) }
{
    let mut nodes = Vec::with_capacity(alloc, NUMBERS)?;
    for _number in 0..NUMBERS {
        nodes.push(None)?;
    }
    Ok(nodes)
}

/// The set with 0 alone.
fn no_numbers(alloc: Global) -> Result<NumberSet, AllocError>
    ensures { IfOk result (λ numbers. numbers ≡ set.insert set.empty 0) }
{
    let mut used = NumberSet::new(alloc)?;
    used.put(0);
    Ok(used)
}
