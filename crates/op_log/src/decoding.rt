//! The command in the bytes of a record: its fields are read whatever they are, and the command that they make is spelled and compared.
ghost use Rattle.std.specs.Prelude.{◌≡◌, ◌≢◌, ◌≤◌, ◌<◌, ◌↔◌, ◌+◌, ◌*◌, [], length, take, drop, Some, IfOk, IfSome, IfNone, IsTrue};
ghost use Rattle.tree_model.specs.Path.{Path as PathOf};
ghost use Rattle.tree_model.specs.declared.command.Command.{Command as CommandOf};
ghost use Rattle.op_log.specs.Record.{IsLogged, IsLogPath, HasRecord, fields_of, path_bytes};
ghost use Rattle.op_log.specs.Reading.{head_in, blocks_in, Spells};
ghost use Rattle.tree_model.specs.declared.command.Command.TheVariants.{Write, Rename};

use crate::head::Head;
use crate::names::path_of;
use crate::record_blocks;
use crate::spelling::Spelling;
use std::alloc::{AllocError, Global};
use tree_model::{Command, Path, Payload};
use vol_numbers::{BLOCK_SIZE, Block, ByteList};

/// The command whose record these bytes are, if they are a record.
pub(crate) fn decode(alloc: Global, bytes: &[u8]) -> Result<Option<Command>, AllocError>
    requires { length bytes.now ≡ 4096 * blocks_in (head_in bytes.now) }
    ensures found { IfOk result (λ found. IfSome found (λ c. HasRecord c × Spells c bytes.now)) }
    ensures none { IfOk result (λ found. IfNone found ((c : CommandOf) → HasRecord c → Spells c bytes.now → ⊥)) }
{
    let head = Head::read(bytes);
    let path_end = 24 + head.path_len as usize;
    let path = &bytes[24..path_end];
    let rest = &bytes[path_end..path_end + head.rest_len as usize];
    let Some(command) = command_of(alloc, head.kind, head.number, path, rest)? else {
        return Ok(None);
    };
    Ok(if_spelled(command, bytes))
}

/// The command, if these bytes are those of its record.
fn if_spelled(command: Command, bytes: &[u8]) -> Option<Command>
    requires { IsLogged command }
    ensures found { IfSome result (λ c. HasRecord c × Spells c bytes.now) }
    ensures none { IfNone result (Spells command bytes.now → ⊥) }
{
    spells(&command, bytes).then_some(command)
}

/// The command that these fields make, if they make one that is logged.
fn command_of(
    alloc: Global,
    kind: u8,
    number: u64,
    path: &[u8],
    rest: &[u8],
) -> Result<Option<Command>, AllocError>
    ensures logged { IfOk result (λ found. IfSome found IsLogged) }
    ensures is { IfOk result (λ found. (c : CommandOf) → HasRecord c → fields_of c ≡ record { kind = kind; number = number; path = path.now; rest = rest.now } → found ≡ Some c) }
{
    let Some(path) = path_of(alloc, path)? else {
        return Ok(None);
    };
    match kind {
        1 => Ok(Some(Command::Mkdir { path })),
        2 => Ok(Some(Command::Create { path })),
        3 => write_of(alloc, path, number, rest),
        4 => Ok(Some(Command::Truncate { path, size: number })),
        5 => Ok(Some(Command::Remove { path })),
        6 => rename_of(alloc, path, rest),
        _ => Ok(None),
    }
}

/// The write of these bytes, if they can be its data.
fn write_of(
    alloc: Global,
    path: Path,
    offset: u64,
    bytes: &[u8],
) -> Result<Option<Command>, AllocError>
    requires { path ≢ [] }
    ensures logged { IfOk result (λ found. IfSome found IsLogged) }
    ensures is { IfOk result (λ found. 1 ≤ length bytes.now → length bytes.now ≤ 65536 → found ≡ Some (Write path offset bytes.now)) }
{
    match payload_of(alloc, bytes)? {
        Some(bytes) => Ok(Some(Command::Write {
            path,
            offset,
            bytes,
        })),
        None => Ok(None),
    }
}

/// These bytes as the data of a write, if they are neither none nor too many.
fn payload_of(alloc: Global, bytes: &[u8]) -> Result<Option<Payload>, AllocError>
    ensures some { IfOk result (λ found. IfSome found (λ payload. payload ≢ [])) }
    ensures is { IfOk result (λ found. 1 ≤ length bytes.now → length bytes.now ≤ 65536 → found ≡ Some bytes.now) }
{
    if bytes.is_empty() {
        return Ok(None);
    }
    let bytes = ByteList::from_vec(Vec::from_slice(alloc, bytes)?);
    Ok(Payload::new(bytes).ok())
}

/// The rename to the path that these bytes spell, if they spell one.
fn rename_of(alloc: Global, from: Path, bytes: &[u8]) -> Result<Option<Command>, AllocError>
    requires { from ≢ [] }
    ensures logged { IfOk result (λ found. IfSome found IsLogged) }
    ensures is { IfOk result (λ found. (to : PathOf) → IsLogPath to → path_bytes to ≡ bytes.now → found ≡ Some (Rename from to)) }
{
    match path_of(alloc, bytes)? {
        Some(to) => Ok(Some(Command::Rename { from, to })),
        None => Ok(None),
    }
}

/// Whether these bytes are those of the record of a command.
fn spells(command: &Command, bytes: &[u8]) -> bool
    requires { IsLogged command.now }
    ensures is { IsTrue result ↔ Spells command.now bytes.now }
    ensures has_record { HasRecord command.now }
{
    let count = record_blocks(command);
    let spelling = Spelling::of(command);
    if bytes.len() != BLOCK_SIZE * count as usize {
        return false;
    }
    for i in 0..count {
        if !is_block(&spelling.block(i), i, bytes) {
            return false;
        }
    }
    true
}

/// Whether this is the i-th block of these bytes.
fn is_block(block: &Block, i: u32, bytes: &[u8]) -> bool
    requires { 4096 * i + 4096 ≤ length bytes.now }
    ensures { IsTrue result ↔ (take 4096 (drop (4096 * i) bytes.now) ≡ block.now.bytes) }
{
    is_same(part(bytes, i), &block.bytes)
}

/// The bytes of the i-th block.
fn part(bytes: &[u8], i: u32) -> &[u8]
    requires { 4096 * i + 4096 ≤ length bytes.now }
    ensures { result.now ≡ take 4096 (drop (4096 * i) bytes.now) }
{
    let from = BLOCK_SIZE * i as usize;
    &bytes[from..from + BLOCK_SIZE]
}

fn is_same(a: &[u8], b: &[u8]) -> bool
    ensures { IsTrue result ↔ (a.now ≡ b.now) }
{
    a == b
}
