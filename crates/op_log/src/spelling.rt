//! A record as it is written, block by block.
ghost use Rattle.std.specs.Prelude.{◌≡◌, ◌≢◌, ◌≤◌, ◌+◌, ◌-◌, ◌*◌, ◌++◌, [], length, take, drop};
ghost use Rattle.byteorder.specs.Endian.{little_bytes};
ghost use Rattle.vol_numbers.specs.Name.{IsName};
ghost use Rattle.tree_model.specs.Path.{IsPath};
ghost use Rattle.op_log.specs.Record.{IsLogged, IsLogPath, HasRecord, header, path_bytes, record_text, record_blocks, record_block, text_block, filled};

use arrayvec::ArrayVec;
use byteorder::{ByteOrder, LittleEndian};
use tree_model::{Command, Path};
use vol_numbers::{BLOCK_SIZE, Block};

/// What a record has before its data: 24 bytes, and at most two paths of 1,024 bytes each. It takes no memory.
pub(crate) type HeadBytes = ArrayVec<u8, 2_072>;

/// What stands before the data of a write, and that data. Of any other command there is no data.
#[derive(Drop)]
pub(crate) struct Spelling<'a> {
    pub(crate) head: HeadBytes,
    pub(crate) payload: &'a [u8],
}

impl<'a> Spelling<'a> {
    /// The spelling of a command.
    pub(crate) fn of(command: &'a Command) -> Spelling<'a>
        requires { IsLogged command.now }
        ensures text { result.head.items ++ result.payload.now ≡ record_text command.now }
        ensures has_record { HasRecord command.now }
    {
        match command {
            Command::Mkdir { path } => Spelling::without_payload(head(1, 0, path, 0)),
            Command::Create { path } => Spelling::without_payload(head(2, 0, path, 0)),
            Command::Write {
                path,
                offset,
                bytes,
            } => {
                let payload = bytes.as_slice();
                Spelling {
                    head: head(3, *offset, path, payload.len() as u32),
                    payload,
                }
            }
            Command::Truncate { path, size } => Spelling::without_payload(head(4, *size, path, 0)),
            Command::Remove { path } => Spelling::without_payload(head(5, 0, path, 0)),
            Command::Rename { from, to } => Spelling::without_payload(rename_head(from, to)),
            _ => unreachable!(),
        }
    }

    fn without_payload(head: HeadBytes) -> Spelling<'a>
        ensures head { result.head ≡ head }
        ensures payload { result.payload.now ≡ [] }
    {
        Spelling { head, payload: &[] }
    }

    /// The i-th block.
    pub(crate) fn block(&self, i: u32) -> Block
        ensures { result.bytes ≡ filled (take 4096 (drop (4096 * i) (self.now.head.items ++ self.now.payload.now))) }
    {
        if i == 0 {
            first_block(self.head.as_slice(), self.payload)
        } else {
            later_block(self.head.len(), self.payload, i)
        }
    }
}

/// The block that begins with what stands before the data.
fn first_block(head: &[u8], payload: &[u8]) -> Block
    requires { length head.now ≤ 4096 }
    ensures { result.bytes ≡ filled (take 4096 (head.now ++ payload.now)) }
{
    let room = BLOCK_SIZE - head.len();
    block_of(head, &payload[..room.min(payload.len())])
}

/// A block behind the first one, which has a part of the data.
fn later_block(head_len: usize, payload: &[u8], i: u32) -> Block
    requires short { head_len ≤ 4096 }
    requires later { 1 ≤ i }
    ensures { result.bytes ≡ filled (take 4096 (drop (4096 * i - head_len) payload.now)) }
{
    let from = (BLOCK_SIZE * i as usize - head_len).min(payload.len());
    let part = &payload[from..];
    block_of(&[], &part[..BLOCK_SIZE.min(part.len())])
}

/// A block of these bytes and those, with zeros behind them.
fn block_of(front: &[u8], rest: &[u8]) -> Block
    requires { length front.now + length rest.now ≤ 4096 }
    ensures { result.bytes ≡ filled (front.now ++ rest.now) }
{
    let at = front.len();
    let mut bytes = [0; BLOCK_SIZE];
    bytes[..at].copy_from_slice(front);
    bytes[at..at + rest.len()].copy_from_slice(rest);
    Block { bytes }
}

/// What a record has before data of so many bytes.
fn head(kind: u8, number: u64, path: &Path, rest_len: u32) -> HeadBytes
    ensures is { result.items ≡ header kind (length (path_bytes path.now)) number rest_len ++ path_bytes path.now }
    ensures short { length result.items ≤ 1048 }
    ensures path { path.now ≢ [] → IsLogPath path.now }
{
    let mut head = header(kind, path.length() as u32, number, rest_len);
    put_path(&mut head, path);
    head
}

/// What a record has before its path.
fn header(kind: u8, path_len: u32, number: u64, rest_len: u32) -> HeadBytes
    ensures is { result.items ≡ header kind path_len number rest_len }
    ensures short { length result.items ≡ 24 }
{
    let mut head = HeadBytes::new();
    put(&mut head, &[kind, 0, 0, 0]);
    put_u32(&mut head, path_len);
    put_u64(&mut head, number);
    put_u32(&mut head, rest_len);
    put(&mut head, &[0; 4]);
    head
}

/// All of the record of a rename.
fn rename_head(from: &Path, to: &Path) -> HeadBytes
    ensures is { result.items ≡ header 6 (length (path_bytes from.now)) 0 (length (path_bytes to.now)) ++ path_bytes from.now ++ path_bytes to.now }
    ensures from { from.now ≢ [] → IsLogPath from.now }
    ensures to { to.now ≢ [] → IsLogPath to.now }
{
    let mut head = head(6, 0, from, to.length() as u32);
    put_path(&mut head, to);
    head
}

/// Writes the names of a path, each behind a slash.
fn put_path(head: &mut HeadBytes, path: &Path)
    requires { length head.old.items ≤ 1048 }
    ensures is { head.new.items ≡ head.old.items ++ path_bytes path.now }
    ensures short { length (path_bytes path.now) ≤ 1024 }
    ensures path { path.now ≢ [] → IsLogPath path.now }
{
    for name in path.names() {
        put(head, b"/");
        put(head, name.as_bytes());
    }
}

fn put_u32(head: &mut HeadBytes, number: u32)
    requires { length head.old.items + 4 ≤ 2072 }
    ensures { head.new.items ≡ head.old.items ++ little_bytes 4 number }
{
    let mut bytes = [0; 4];
    LittleEndian::write_u32(&mut bytes, number);
    put(head, &bytes);
}

fn put_u64(head: &mut HeadBytes, number: u64)
    requires { length head.old.items + 8 ≤ 2072 }
    ensures { head.new.items ≡ head.old.items ++ little_bytes 8 number }
{
    let mut bytes = [0; 8];
    LittleEndian::write_u64(&mut bytes, number);
    put(head, &bytes);
}

/// Writes these bytes behind the others.
fn put(head: &mut HeadBytes, more: &[u8])
    requires { length head.old.items + length more.now ≤ 2072 }
    ensures { head.new.items ≡ head.old.items ++ more.now }
{
    let Ok(()) = head.try_extend_from_slice(more) else {
        unreachable!()
    };
}
