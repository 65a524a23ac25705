//! Nodes of no bytes that have a pointer nevertheless.
ghost use Rattle.std.specs.Prelude.{◌≡◌, ◌↔◌, IsTrue, length};
ghost use Rattle.block_format.specs.Inode.{node_bytes};
ghost use Rattle.image_walk.specs.Inodes.{stray_at, stray_of};

use block_format::Inode;
use byteorder::{ByteOrder, LittleEndian};
use vol_numbers::BlockNo;

/// The inode of these bytes, if nothing is wrong with it but that it has a pointer and no bytes.
pub(crate) fn stray_in(bytes: &[u8]) -> Option<Inode>
    requires { length bytes.now ≡ 64 }
    ensures { result ≡ stray_at bytes.now }
{
    let ptr = LittleEndian::read_u32(&bytes[4..]);
    if ptr == 0 {
        return None;
    }
    if !is_same(bytes, &stray_bytes(bytes[0], ptr)) {
        return None;
    }
    stray_of(bytes[0], ptr)
}

/// Such an inode of a kind.
fn stray_of(kind: u8, ptr: BlockNo) -> Option<Inode>
    ensures { result ≡ stray_of kind ptr }
{
    match kind {
        1 => Some(Inode::File {
            size: 0,
            height: 0,
            ptr,
        }),
        2 => Some(Inode::Directory {
            width: 0,
            height: 0,
            ptr,
        }),
        _ => None,
    }
}

/// The bytes of such an inode.
fn stray_bytes(kind: u8, ptr: BlockNo) -> [u8; 64]
    ensures { result ≡ node_bytes kind 0 ptr 0 }
{
    let mut bytes = [0; 64];
    bytes[0] = kind;
    LittleEndian::write_u32(&mut bytes[4..], ptr);
    bytes
}

/// Whether these are the same bytes.
fn is_same(a: &[u8], b: &[u8]) -> bool
    ensures { IsTrue result ↔ (a.now ≡ b.now) }
{
    a == b
}
