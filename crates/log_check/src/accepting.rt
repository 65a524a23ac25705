//! Does the commands of records in turn, as long as they are accepted.
ghost use Rattle.std.specs.Prelude.{◌≡◌, ◌≤◌, ◌↔◌, ◌+◌, ℕ, All, true, length, IfOk, OnOk, IsTrue};
ghost use Rattle.op_log.specs.Record.{HasRecord};
ghost use Rattle.space_account.specs.Charge.{need};
ghost use Rattle.tree_model.specs.Step.{is_change};
ghost use Rattle.log_check.specs.Accepting.{HoldsATree, TakesEach, TakesNext, TakesNot, IsRefusedAt};
ghost use Rattle.log_check.specs.Cause.{IfFound, HasCheckCause};

use crate::LogCheckFault;
use node_table::NodeTable;
use space_account::{charge, fits, reserve};
use std::alloc::AllocError;
use tree_model::Command;

/// Does commands in turn, up to the first that the tree refuses or that doesn't fit into what is free.
pub(crate) fn accept_each(
    commands: &[Command],
    nodes: &mut NodeTable,
    free: u32,
) -> Result<(), LogCheckFault>
    requires have_records { All HasRecord commands.now }
    requires few { length commands.now ≤ 4096 }
    requires holds { HoldsATree nodes.old }
    ensures takes { OnOk result (TakesEach free nodes.old commands.now nodes.new) }
    ensures refused { IfFound result (IsRefusedAt free nodes.old commands.now) }
    ensures still { HoldsATree nodes.new }
    ensures no_fault { (count : ℕ) → HasCheckCause count count result }
{
    let mut charged = 0;
    for (i, command) in commands.iter().enumerate() {
        if !accept(command, nodes, free, charged)? {
            return Err(LogCheckFault::Found(i as u32));
        }
        charged += charge(command);
    }
    Ok(())
}

/// Does a command, if the tree doesn't refuse it and its charge and its reserve fit beside what is charged. Says whether it did.
fn accept(
    command: &Command,
    nodes: &mut NodeTable,
    free: u32,
    charged: u32,
) -> Result<bool, AllocError>
    requires change { is_change command.now ≡ true }
    requires holds { HoldsATree nodes.old }
    ensures takes { IfOk result (λ is. IsTrue is → TakesNext free charged nodes.old command.now nodes.new) }
    ensures refused { IfOk result (λ is. ¬ IsTrue is → TakesNot free charged nodes.old command.now) }
    ensures still { HoldsATree nodes.new }
{
    if nodes.refusal(command).is_some() {
        return Ok(false);
    }
    if !has_room(command, free, charged) {
        return Ok(false);
    }
    nodes.change(command)?;
    Ok(true)
}

/// Whether a command's charge and its reserve fit beside what is charged.
fn has_room(command: &Command, free: u32, charged: u32) -> bool
    requires change { is_change command.now ≡ true }
    ensures { IsTrue result ↔ (charged + need command.now ≤ free) }
{
    fits(free, charged, charge(command), reserve(command))
}
