//! Reads one record.
ghost use Rattle.std.specs.Prelude.{◌≡◌, ◌<◌, ◌≤◌, ◌+◌, ◌*◌, [], ◌∷◌, ◌++◌, IfOk, OnOk, IfSome, IfNone, IsTrue, Some, length, take, drop, slice_get};
ghost use Rattle.disk_model.specs.Past.{Adds};
ghost use Rattle.op_log.specs.Fault.{HasReadCause};
ghost use Rattle.op_log.specs.Log.{RecordStands};
ghost use Rattle.op_log.specs.Reading.{head_in, blocks_in, AreBlocks, IsWhole, NoRecordStands, GainsRecord};
ghost use Rattle.op_log.specs.Record.{HasRecord, record_blocks};

use crate::decoding::decode;
use crate::fault::ReadFault;
use crate::head::Head;
use crate::record_blocks;
use disk_model::{Disk, DiskFault};
use std::alloc::{AllocError, Global};
use tree_model::Command;
use vol_numbers::{Block, BlockNo};

/// Reads the record that stands from a block on, if one stands there that takes at most so many blocks: its command comes behind the others, and
/// how many blocks it takes is answered.
pub(crate) fn push_next<D: Disk>(
    alloc: Global,
    disk: &mut D,
    at: BlockNo,
    left: u32,
    commands: &mut Vec<Command>,
) -> Result<Option<u32>, ReadFault>
    requires room { at + left ≤ (D.fixed disk.old).size }
    requires fits { at + left ≤ 65536 }
    ensures gained { IfOk result (λ found. IfSome found (GainsRecord D.tells (D.state disk.old).contents at left commands.old.items commands.new.items)) }
    ensures none { IfOk result (λ found. IfNone found (IsTrue D.tells → NoRecordStands (D.state disk.old).contents at left)) }
    ensures reads { IfOk result (λ found. IfSome found (λ count. (D.given disk.new).count ≤ (D.given disk.old).count + count)) }
    ensures reads_none { IfOk result (λ found. IfNone found ((D.given disk.new).count ≤ (D.given disk.old).count + left)) }
    ensures same { IsTrue D.tells → D.state disk.new ≡ D.state disk.old }
    ensures moments { IsTrue D.tells → Adds (D.past disk.old) (D.past disk.new) (λ s. s ≡ D.state disk.old) }
    ensures fixed { D.fixed disk.new ≡ D.fixed disk.old }
    ensures cause { HasReadCause (D.faults disk.old) (D.faults disk.new) result }
{
    let command = match next_record(alloc, disk, at, left) {
        Ok(Some(command)) => command,
        Ok(None) => return Ok(None),
        Err(fault) => return Err(fault),
    };
    match push(commands, command) {
        Ok(count) => Ok(Some(count)),
        Err(AllocError) => Err(ReadFault::OutOfMemory),
    }
}

/// Puts a command behind the others, and answers how many blocks its record takes.
fn push(commands: &mut Vec<Command>, command: Command) -> Result<u32, AllocError>
    requires { HasRecord command }
    ensures count { IfOk result (λ count. count ≡ record_blocks command) }
    ensures pushed { OnOk result (commands.new.items ≡ commands.old.items ++ command ∷ []) }
{
    let count = record_blocks(&command);
    commands.push(command)?;
    Ok(count)
}

/// The command whose record stands from a block on, if one stands there that takes at most so many blocks.
fn next_record<D: Disk>(
    alloc: Global,
    disk: &mut D,
    at: BlockNo,
    left: u32,
) -> Result<Option<Command>, ReadFault>
    requires room { at + left ≤ (D.fixed disk.old).size }
    requires fits { at + left ≤ 65536 }
    ensures has_record { IfOk result (λ found. IfSome found HasRecord) }
    ensures within { IfOk result (λ found. IfSome found (λ c. record_blocks c ≤ left)) }
    ensures stands { IfOk result (λ found. IfSome found (λ c. IsTrue D.tells → RecordStands (D.state disk.old).contents at c)) }
    ensures none { IfOk result (λ found. IfNone found (IsTrue D.tells → NoRecordStands (D.state disk.old).contents at left)) }
    ensures reads { IfOk result (λ found. IfSome found (λ c. (D.given disk.new).count ≤ (D.given disk.old).count + record_blocks c)) }
    ensures reads_none { IfOk result (λ found. IfNone found ((D.given disk.new).count ≤ (D.given disk.old).count + left)) }
    ensures same { IsTrue D.tells → D.state disk.new ≡ D.state disk.old }
    ensures moments { IsTrue D.tells → Adds (D.past disk.old) (D.past disk.new) (λ s. s ≡ D.state disk.old) }
    ensures fixed { D.fixed disk.new ≡ D.fixed disk.old }
    ensures cause { HasReadCause (D.faults disk.old) (D.faults disk.new) result }
{
    let bytes = match record_bytes(alloc, disk, at, left) {
        Ok(Some(bytes)) => bytes,
        Ok(None) => return Ok(None),
        Err(fault) => return Err(fault),
    };
    match decode(alloc, &bytes) {
        Ok(found) => Ok(found),
        Err(AllocError) => Err(ReadFault::OutOfMemory),
    }
}

/// The bytes of the blocks that a record takes by its first ones, if these are at most so many.
fn record_bytes<D: Disk>(
    alloc: Global,
    disk: &mut D,
    at: BlockNo,
    left: u32,
) -> Result<Option<Vec<u8>>, ReadFault>
    requires room { at + left ≤ (D.fixed disk.old).size }
    requires fits { at + left ≤ 65536 }
    ensures whole { IfOk result (λ found. IfSome found (λ bytes. IsWhole bytes.items left)) }
    ensures are_blocks { IfOk result (λ found. IfSome found (λ bytes. IsTrue D.tells → AreBlocks (D.state disk.old).contents at (blocks_in (head_in bytes.items)) bytes.items)) }
    ensures none { IfOk result (λ found. IfNone found (IsTrue D.tells → NoRecordStands (D.state disk.old).contents at left)) }
    ensures reads { IfOk result (λ found. IfSome found (λ bytes. (D.given disk.new).count ≤ (D.given disk.old).count + blocks_in (head_in bytes.items))) }
    ensures reads_none { IfOk result (λ found. IfNone found ((D.given disk.new).count ≤ (D.given disk.old).count + left)) }
    ensures same { IsTrue D.tells → D.state disk.new ≡ D.state disk.old }
    ensures moments { IsTrue D.tells → Adds (D.past disk.old) (D.past disk.new) (λ s. s ≡ D.state disk.old) }
    ensures fixed { D.fixed disk.new ≡ D.fixed disk.old }
    ensures cause { HasReadCause (D.faults disk.old) (D.faults disk.new) result }
{
    if left == 0 {
        return Ok(None);
    }
    let mut bytes = Vec::new(alloc);
    if let Err(fault) = read_up_to(disk, at, 0, 1, &mut bytes) {
        return Err(fault);
    }
    let Some(count) = Head::read(&bytes).blocks() else {
        return Ok(None);
    };
    if count > left {
        return Ok(None);
    }
    match read_up_to(disk, at, 1, count, &mut bytes) {
        Ok(()) => Ok(Some(bytes)),
        Err(fault) => Err(fault),
    }
}

/// Goes on reading the blocks from one on, of which some were read, until there are so many.
fn read_up_to<D: Disk>(
    disk: &mut D,
    at: BlockNo,
    done: u32,
    count: u32,
    bytes: &mut Vec<u8>,
) -> Result<(), ReadFault>
    requires room { at + count ≤ (D.fixed disk.old).size }
    requires fits { at + count ≤ 65536 }
    requires some { done ≤ count }
    requires long { length bytes.old.items ≡ 4096 * done }
    requires blocks { IsTrue D.tells → AreBlocks (D.state disk.old).contents at done bytes.old.items }
    ensures long { OnOk result (length bytes.new.items ≡ 4096 * count) }
    ensures front { OnOk result (take (4096 * done) bytes.new.items ≡ bytes.old.items) }
    ensures blocks { OnOk result (IsTrue D.tells → AreBlocks (D.state disk.old).contents at count bytes.new.items) }
    ensures reads { OnOk result ((D.given disk.new).count + done ≤ (D.given disk.old).count + count) }
    ensures same { IsTrue D.tells → D.state disk.new ≡ D.state disk.old }
    ensures moments { IsTrue D.tells → Adds (D.past disk.old) (D.past disk.new) (λ s. s ≡ D.state disk.old) }
    ensures fixed { D.fixed disk.new ≡ D.fixed disk.old }
    ensures cause { HasReadCause (D.faults disk.old) (D.faults disk.new) result }
{
    for i in done..count {
        if let Err(fault) = read_onto(disk, at + i, bytes) {
            return Err(fault);
        }
    }
    Ok(())
}

/// Reads a block behind other bytes.
fn read_onto<D: Disk>(disk: &mut D, at: BlockNo, bytes: &mut Vec<u8>) -> Result<(), ReadFault>
    requires { at < (D.fixed disk.old).size }
    ensures long { OnOk result (length bytes.new.items ≡ length bytes.old.items + 4096) }
    ensures front { OnOk result (take (length bytes.old.items) bytes.new.items ≡ bytes.old.items) }
    ensures block { OnOk result (IsTrue D.tells → slice_get (D.state disk.old).contents at ≡ Some (record { bytes = drop (length bytes.old.items) bytes.new.items })) }
    ensures reads { OnOk result ((D.given disk.new).count ≤ (D.given disk.old).count + 1) }
    ensures same { IsTrue D.tells → D.state disk.new ≡ D.state disk.old }
    ensures moments { IsTrue D.tells → Adds (D.past disk.old) (D.past disk.new) (λ s. s ≡ D.state disk.old) }
    ensures fixed { D.fixed disk.new ≡ D.fixed disk.old }
    ensures cause { HasReadCause (D.faults disk.old) (D.faults disk.new) result }
{
    let mut block = Block::zero();
    if let Err(DiskFault) = disk.read_block(at, &mut block) {
        return Err(ReadFault::Device);
    }
    match bytes.extend_from_slice(&block.bytes) {
        Ok(()) => Ok(()),
        Err(AllocError) => Err(ReadFault::OutOfMemory),
    }
}
