//! The tree kept plainly, as a list of its nodes in the order of their paths.
ghost use Rattle.std.specs.Prelude.{◌≡◌, OnErr, IfOk, IsTrue};
ghost use Rattle.tree_model.specs.Step.{step, refusal_of, is_plain};
ghost use Rattle.tree_model.specs.Tree.{new_tree};

use crate::plain_step::{StepFault, attempt};
use crate::refusals::refusal;
use std::alloc::{AllocError, Global};
use std::marker::Model;
use tree_model::{Command, Content, NameList, Node, Refusal, Reply};

/// The tree, kept plainly.
#[derive(Drop)]
pub struct PlainTree {
    nodes: Vec<(NameList, Node)>,
}

impl Model for PlainTree {
    ghost use Rattle.tree_model.specs.Tree.{Tree};

    ghost Value = { Tree };

    ghost view = { λ t. t.nodes.items };
}

impl PlainTree {
    /// The tree with the root alone.
    pub fn new(alloc: Global) -> Result<PlainTree, AllocError>
        ensures { IfOk result (λ tree. tree ≡ new_tree) }
    {
        let mut nodes = Vec::new(alloc);
        let root = Node {
            number: 1,
            content: Content::Directory { width: 0 },
        };
        nodes.push((NameList::new(alloc), root))?;
        Ok(PlainTree { nodes })
    }

    /// Why the command would be refused, if it would be. Takes no memory and copies no bytes.
    pub fn refusal(&self, command: &Command) -> Option<Refusal>
        requires { IsTrue (is_plain command.now) }
        ensures { result ≡ refusal_of self.now command.now }
    {
        refusal(&self.nodes, command)
    }

    /// Does a command, and answers it. Want of memory leaves the tree as it is.
    #[tactic(auto, unfolding(tree_model::specs::Step::step))]
    pub fn step(&mut self, command: &Command) -> Result<Reply, AllocError>
        requires { IsTrue (is_plain command.now) }
        ensures ok { IfOk result (λ reply. step self.old command.now ≡ (reply, self.new)) }
        ensures err { OnErr result (self.new ≡ self.old) }
    {
        let alloc = *self.nodes.allocator();
        match attempt(alloc, &mut self.nodes, command) {
            Ok(reply) => Ok(reply),
            Err(StepFault::Refused(refusal)) => Ok(Reply::Refused(refusal)),
            Err(StepFault::Memory) => Err(AllocError),
        }
    }
}
