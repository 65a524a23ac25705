//! The charge and the reserve of a command, and whether they fit into what is free.
ghost use Rattle.std.specs.Prelude.{◌≡◌, ◌≤◌, ◌↔◌, ◌+◌, IsTrue, true};
ghost use Rattle.space_account.specs.Charge.{charge, reserve, places_under};
ghost use Rattle.tree_model.specs.Step.{is_change};

use tree_model::Command;
use vol_numbers::BLOCK_SIZE;

/// How many bytes a place of a file has.
const PLACE_SIZE: u32 = BLOCK_SIZE as u32;

/// How many blocks the command may cost, until the next point has been taken.
pub fn charge(c: &Command) -> u32
    requires { is_change c.now ≡ true }
    ensures is { result ≡ charge c.now }
    ensures at_most { result ≤ 25 }
{
    match c {
        Command::Mkdir { .. } | Command::Create { .. } | Command::Remove { .. } => 12,
        Command::Rename { .. } => 20,
        Command::Truncate { .. } => 9,
        Command::Write { offset, bytes, .. } => {
            places_under(*offset, bytes.as_slice().len() as u32) + 8
        }
        _ => 0,
    }
}

/// How many blocks must be free beside the charge.
pub fn reserve(c: &Command) -> u32
    requires { is_change c.now ≡ true }
    ensures is { result ≡ reserve c.now }
    ensures at_most { result ≤ 16 }
{
    match c {
        Command::Mkdir { .. } | Command::Create { .. } | Command::Rename { .. } => 16,
        Command::Truncate { .. } | Command::Write { .. } => 16,
        _ => 0,
    }
}

/// Whether what is pending, a charge and a reserve are together at most what is free.
pub fn fits(free: u32, pending: u32, charge: u32, reserve: u32) -> bool
    ensures { IsTrue result ↔ (pending + charge + reserve ≤ free) }
{
    u64::from(pending) + u64::from(charge) + u64::from(reserve) <= u64::from(free)
}

/// How many places so many bytes from an offset on lie in.
fn places_under(offset: u64, len: u32) -> u32
    requires some { 1 ≤ len }
    requires at_most { len ≤ 65536 }
    ensures is { result ≡ places_under offset len }
    ensures at_most { result ≤ 17 }
{
    let within = (offset % u64::from(PLACE_SIZE)) as u32;
    (within + len - 1) / PLACE_SIZE + 1
}
