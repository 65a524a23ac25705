//! A log on a disk in memory: what the tests of records write and read.
ghost use Rattle.std.specs.Prelude.{◌≤◌, All, IfOk};
ghost use Rattle.block_format.specs.Root.{root_of, HasGeometry};
ghost use Rattle.op_log.specs.Log.{blocks_of};
ghost use Rattle.op_log.specs.Record.{HasRecord};

use crate::acts::{Act, command};
use block_format::{HomeBits, RootBody, read_root, write_root};
use disk_model::Disk;
use mem_disk::MemDisk;
use op_log::{CommandList, LogFault, append, is_logged, read_all, record_blocks};
use std::alloc::Global;
use std::test::Fail;
use tree_model::Command;
use vol_numbers::{Block, Geometry};

/// A root of the least volume, whose log begins at block 5 behind the selector, two slots and two homes of one count block.
pub(crate) fn root(records: u32, log_used: u32) -> Result<RootBody, Fail>
    ensures { IfOk result (λ body. HasGeometry (root_of body)) }
{
    let body = RootBody {
        geometry: Geometry::new(165, 64)?,
        point: 0,
        inode_index: 102,
        records,
        log_used,
        homes: HomeBits::zero(),
    };
    let mut block = Block::zero();
    write_root(&body, &mut block);
    Ok(read_root(&block)?)
}

/// The records of a root on a disk of its size.
pub(crate) fn read(
    alloc: Global,
    disk: &mut MemDisk,
    body: &RootBody,
) -> Result<CommandList, LogFault>
    requires { HasGeometry (root_of body.now) }
    ensures have_records { IfOk result (All HasRecord) }
    ensures within { IfOk result (λ commands. blocks_of commands ≤ 4096) }
{
    if disk.blocks() != body.geometry.blocks() {
        return Err(LogFault::Device);
    }
    read_all(alloc, disk, body)
}

/// What comes of reading: so many records, or why there are none.
#[derive(Clone, Copy, PartialEq, Eq)]
pub(crate) enum Outcome {
    Records(usize),
    Fault(LogFault),
}

fn outcome_of(read: Result<CommandList, LogFault>) -> Outcome {
    match read {
        Ok(commands) => Outcome::Records(commands.len()),
        Err(fault) => Outcome::Fault(fault),
    }
}

pub(crate) fn outcome_with(
    alloc: Global,
    disk: &mut MemDisk,
    records: u32,
    log_used: u32,
) -> Result<Outcome, Fail> {
    let body = root(records, log_used)?;
    Ok(outcome_of(read(alloc, disk, &body)))
}

/// Writes a record, where it is logged, the log has room and the disk does not fail, and answers how many blocks it takes.
fn put(disk: &mut MemDisk, at: u32, command: &Command) -> Option<u32> {
    let Ok(g) = Geometry::new(165, 64) else {
        return None;
    };
    if !is_logged(command) || disk.blocks() != 165 || at > 64 {
        return None;
    }
    if at + record_blocks(command) > 64 {
        return None;
    }
    append(disk, &g, at, command).ok()
}

/// Writes the commands behind one another, and answers how many blocks they took.
pub(crate) fn put_all(disk: &mut MemDisk, commands: &[Command]) -> Option<u32> {
    let mut at: u32 = 0;
    for command in commands {
        at = at.saturating_add(put(disk, at, command)?);
    }
    Some(at)
}

pub(crate) fn commands(alloc: Global, acts: &[Act]) -> Result<Vec<Command>, Fail> {
    let mut commands = Vec::new(alloc);
    for act in acts {
        commands.push(command(alloc, *act)?)?;
    }
    Ok(commands)
}

/// The same of acts.
pub(crate) fn put_acts(
    alloc: Global,
    disk: &mut MemDisk,
    acts: &[Act],
) -> Result<Option<u32>, Fail> {
    let commands = commands(alloc, acts)?;
    Ok(put_all(disk, &commands))
}

pub(crate) fn block_at(disk: &mut MemDisk, at: u32) -> Result<Block, Fail> {
    let mut block = Block::zero();
    if at < disk.blocks() {
        disk.read_block(at, &mut block)?;
    }
    Ok(block)
}

pub(crate) fn put_block(disk: &mut MemDisk, at: u32, block: &Block) -> Result<(), Fail> {
    if at < disk.blocks() {
        disk.write_block(at, block)?;
    }
    Ok(())
}

/// A block of these bytes and then of one more.
pub(crate) fn block_of(bytes: &[u8], more: u8) -> Block {
    let mut block = Block::filled(more);
    for (at, byte) in bytes.iter().enumerate() {
        if at < 4_096 {
            block.bytes[at] = *byte;
        }
    }
    block
}

// ---- commands of every kind

/// Commands of every kind, with records of one block each but for the last, which takes 17: 24 + 2 + 65,536 bytes are 16 blocks and 26 bytes more.
pub(crate) const ACTS: &[Act<'static>] = &[
    Act::Create(b"a"),
    Act::Write(b"a", 8_192, b"xyz"),
    Act::Mkdir(b"de"),
    Act::Truncate(b"a", 18_446_744_073_709_551_615),
    Act::Remove(b"de"),
    Act::Rename(b"a", b"df"),
    Act::Fill(b"a", 1, 0x5a, 65_536),
];

/// How many blocks they take, and the first block behind them.
pub(crate) const USED: u32 = 23;

pub(crate) const BEHIND: u32 = 28;
