//! Answers the commands for which neither the bytes of files nor the disk are needed.
ghost use Rattle.std.specs.Prelude.{◌≡◌, true};
ghost use Rattle.node_table.specs.Held.{HoldsNodes};
ghost use Rattle.tree_model.specs.Shape.{IsTree};
ghost use Rattle.tree_model.specs.Tree.{Tree};
ghost use Rattle.volume_core.specs.Answers.{IsTold, only_tells, space_of};

use crate::Volume;
use std::alloc::{AllocError, Global};
use tree_model::{Command, Refusal, Reply};

impl Volume {
    /// Answers `space`.
    pub(crate) fn space(&self) -> Reply
        ensures { result ≡ space_of self.now }
    {
        Reply::Space {
            free: self.free,
            pending: self.pending,
            log: self.state.current.body.log_used,
        }
    }

    /// Answers what the nodes alone tell.
    pub(crate) fn tell(&self, alloc: Global, command: &Command) -> Reply
        requires { only_tells command.now ≡ true }
        ensures { (tree : Tree) → IsTree tree → HoldsNodes self.now.nodes tree → IsTold tree command.now result }
    {
        if let Some(refusal) = self.nodes.refusal(command) {
            return Reply::Refused(refusal);
        }
        match command {
            Command::List { path } => match self.nodes.entries(alloc, path) {
                Ok(entries) => Reply::Entries(entries),
                Err(AllocError) => Reply::Refused(Refusal::OutOfMemory),
            },
            Command::Stat { path } => match self.nodes.stat(path) {
                Ok(reply) => reply,
                Err(refusal) => Reply::Refused(refusal),
            },
            _ => Reply::Done,
        }
    }
}
