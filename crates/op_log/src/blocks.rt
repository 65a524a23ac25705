//! Which commands are logged, and how many blocks their records take.
ghost use Rattle.std.specs.Prelude.{◌≡◌, ◌≤◌, ◌<◌, ◌↔◌, ◌+◌, ◌^◌, All, IsTrue, true, length};
ghost use Rattle.tree_model.specs.Step.{is_change};
ghost use Rattle.op_log.specs.Log.{blocks_of};
ghost use Rattle.op_log.specs.Record.{IsLogged, HasRecord, fields_of, record_blocks};

use crate::CommandList;
use tree_model::Command;

/// Whether a command is logged: it may change the tree, and each of its paths has a name.
pub fn is_logged(command: &Command) -> bool
    ensures { IsTrue result ↔ IsLogged command.now }
{
    match command {
        Command::Mkdir { path }
        | Command::Create { path }
        | Command::Truncate { path, .. }
        | Command::Remove { path } => !path.names().is_empty(),
        Command::Write { path, bytes, .. } => {
            !path.names().is_empty() && !bytes.as_slice().is_empty()
        }
        Command::Rename { from, to } => !from.names().is_empty() && !to.names().is_empty(),
        _ => false,
    }
}

/// How many blocks of the log the records of these commands take together.
pub fn blocks_of(commands: &CommandList) -> u32
    requires records { All HasRecord commands.now }
    requires fits { blocks_of commands.now < 2 ^ 32 }
    ensures { result ≡ blocks_of commands.now }
{
    let mut blocks = 0;
    for command in commands.as_slice() {
        blocks += record_blocks(command);
    }
    blocks
}

/// How many blocks of the log the record of a changing command takes.
pub fn record_blocks(command: &Command) -> u32
    requires { is_change command.now ≡ true }
    ensures is { result ≡ record_blocks command.now }
    ensures some { 1 ≤ result }
    ensures at_most { result ≤ 17 }
{
    text_len(command).div_ceil(4_096)
}

/// How many bytes the record has, up to the zeros at its end. Paths and data are counted, whatever they name.
fn text_len(command: &Command) -> u32
    requires { is_change command.now ≡ true }
    ensures is { result ≡ 24 + length (fields_of command.now).path + length (fields_of command.now).rest }
    ensures some { 24 ≤ result }
    ensures at_most { result ≤ 66584 }
{
    match command {
        Command::Mkdir { path }
        | Command::Create { path }
        | Command::Truncate { path, .. }
        | Command::Remove { path } => 24 + path.length() as u32,
        Command::Write { path, bytes, .. } => {
            24 + path.length() as u32 + bytes.as_slice().len() as u32
        }
        Command::Rename { from, to } => 24 + from.length() as u32 + to.length() as u32,
        _ => unreachable!(),
    }
}
