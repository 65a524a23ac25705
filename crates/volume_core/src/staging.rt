//! Stages an accepted change.
ghost use Rattle.std.specs.Prelude.{◌≡◌, true, None, OnOk, OnErr, IsTrue};
ghost use Rattle.block_tree.specs.Causes.{HasTreeCause, IfTreeDamaged};
ghost use Rattle.disk_model.specs.Past.{Adds};
ghost use Rattle.node_table.specs.Held.{HoldsNodes};
ghost use Rattle.tree_model.specs.Shape.{IsTree};
ghost use Rattle.tree_model.specs.Step.{is_change, refusal_of};
ghost use Rattle.tree_model.specs.Tree.{Tree};
ghost use Rattle.volume_model.specs.Machine.{Machine, Rules};
ghost use Rattle.volume_core.specs.Memory.{IsFitting};
ghost use Rattle.volume_core.specs.Staging.{HoldsNow, IsStaged};

use crate::Volume;
use block_tree::TreeFault;
use command_effect::{effect_of, staging_fits};
use disk_model::Disk;
use point_model::{built_is_of_change, staging_holds, table_holds_tree};
use std::alloc::{AllocError, Global};
use tree_model::Command;

impl Volume {
    /// Stages a change that the tree doesn't refuse: its effect comes over the last point, and the table has the nodes after it. A fault or want
    /// of memory leaves all as it was. Nothing is written.
    pub(crate) fn stage<D: Disk>(
        &mut self,
        alloc: Global,
        disk: &mut D,
        command: &Command,
    ) -> Result<(), TreeFault>
        requires fits { IsFitting (D.fixed disk.old).size self.old }
        requires change { is_change command.now ≡ true }
        requires accepted { (tree : Tree) → IsTree tree → HoldsNodes self.old.nodes tree → refusal_of tree command.now ≡ None }
        // Image and memory hold the machine after the command.
        ensures staged { OnOk result (IsTrue D.tells → (r : Rules) (m : Machine) → HoldsNow r m (D.state disk.old).contents self.old → IsStaged m command.now (D.state disk.old).contents self.new) }
        ensures fits { IsFitting (D.fixed disk.old).size self.new }
        ensures rest { self.new ≡ record self.old { state = record self.old.state { dirty = self.new.state.dirty }; nodes = self.new.nodes } }
        ensures unstaged { OnErr result (self.new.state.dirty.overlay ≡ self.old.state.dirty.overlay) }
        ensures table { OnErr result (self.new.nodes ≡ self.old.nodes) }
        // Over contents that stand for something no block is damaged.
        ensures sound { IsTrue D.tells → (r : Rules) (m : Machine) → HoldsNow r m (D.state disk.old).contents self.old → IfTreeDamaged result (λ b. ⊥) }
        ensures same { IsTrue D.tells → D.state disk.new ≡ D.state disk.old }
        ensures moments { IsTrue D.tells → Adds (D.past disk.old) (D.past disk.new) (λ s. s ≡ D.state disk.old) }
        ensures fixed { D.fixed disk.new ≡ D.fixed disk.old }
        ensures cause { HasTreeCause (D.faults disk.old) (D.faults disk.new) result }
    {
        // The effect is that of the change, so that what is staged holds the machine after it, and fits.
        table_holds_tree();
        built_is_of_change();
        staging_holds();
        staging_fits();
        let state = &mut self.state;
        let change = self.nodes.plan(command);
        let effect = effect_of(
            alloc,
            disk,
            &state.geometry,
            &state.inodes,
            &state.dirty,
            &self.nodes,
            command,
            &change,
        )?;
        let Ok(staged) = state.dirty.stage(alloc, effect) else {
            return Err(TreeFault::OutOfMemory);
        };
        if let Err(AllocError) = self.nodes.change(command) {
            state.dirty.undo(staged);
            return Err(TreeFault::OutOfMemory);
        }
        Ok(())
    }
}
