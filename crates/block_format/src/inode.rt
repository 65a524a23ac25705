//! An inode: a file's or a directory's size, the height of its tree of blocks, and the pointer to that tree.
ghost use Rattle.std.specs.Prelude.{◌≡◌, ◌≢◌, ◌≤◌, ◌<◌, ◌+◌, ◌*◌, ◌^◌, ◌/◌, ◌++◌, ℕ, IsTrue, IsFalse, IfSome, IfNone, length, take, drop};
ghost use Rattle.block_format.specs.Index.{IsPointer};
ghost use Rattle.block_format.specs.Inode.{IsInode, SpellsInode, inode_bytes, inode_part, node_bytes, inode_shape, node_fits, pointer_of, inode_in, inode_at, blocks_of, height_of};
ghost use Rattle.vol_numbers.specs.Geometry.{layout_of};

use crate::bytes::{is_same, put};
use crate::pointer::is_pointer;
use byteorder::{ByteOrder, LittleEndian};
use vol_numbers::{Block, BlockNo, Geometry};

/// How many bytes an inode has.
const INODE_SIZE: usize = 64;

/// What a node's number stands for. A node's blocks hang on a pointer: at height 0 it is that of its one block, else that of an index block.
#[derive(Clone, Copy, Debug, PartialEq, Eq)]
pub enum Inode {
    /// The number is of no node.
    Unused,
    File {
        size: u64,
        height: u32,
        ptr: BlockNo,
    },
    Directory {
        /// How many slots it has.
        width: u32,
        height: u32,
        ptr: BlockNo,
    },
}

impl Inode {
    /// Whether the size is within its limits, the height is that of the size, and a node of size 0 has the pointer 0.
    pub fn has_shape(&self) -> bool
        ensures { result ≡ inode_shape self.now }
    {
        match *self {
            Inode::Unused => true,
            Inode::File { size, height, ptr } => {
                size <= 4_294_967_296 && node_fits(size, height, ptr)
            }
            Inode::Directory { width, height, ptr } => {
                width <= 65_534 && node_fits(256 * u64::from(width), height, ptr)
            }
        }
    }

    /// The pointer to its blocks, 0 where there is none.
    pub fn pointer(&self) -> BlockNo
        ensures { result ≡ pointer_of self.now }
    {
        match *self {
            Inode::Unused => 0,
            Inode::File { ptr, .. } => ptr,
            Inode::Directory { ptr, .. } => ptr,
        }
    }

    /// What the fields of these bytes say. None only where no inode in shape has such fields.
    #[tactic(auto, unfolding(crate::specs::Inode::inode_in))]
    fn read(bytes: &[u8]) -> Option<Inode>
        requires { length bytes.now ≡ 64 }
        ensures found { IfSome result (λ inode. inode ≡ inode_in bytes.now) }
        ensures none { IfNone result (IsFalse (inode_shape (inode_in bytes.now))) }
    {
        let height = u32::from(bytes[1]);
        let ptr = LittleEndian::read_u32(&bytes[4..]);
        let size = LittleEndian::read_u64(&bytes[8..]);
        match bytes[0] {
            1 => Some(Inode::File { size, height, ptr }),
            2 if size <= 4_294_967_296 => Some(Inode::Directory {
                width: (size / 256) as u32,
                height,
                ptr,
            }),
            2 => None,
            _ => Some(Inode::Unused),
        }
    }

    /// Its bytes.
    pub(crate) fn spelled(&self) -> [u8; INODE_SIZE]
        requires { IsTrue (inode_shape self.now) }
        ensures spelled { result ≡ inode_bytes self.now }
        ensures number { pointer_of self.now < 2 ^ 32 }
    {
        match *self {
            Inode::Unused => [0; INODE_SIZE],
            Inode::File { size, height, ptr } => node(1, height, ptr, size),
            Inode::Directory { width, height, ptr } => node(2, height, ptr, 256 * u64::from(width)),
        }
    }
}

/// The inode k of a block. None exactly where it is outside the grammar.
pub fn read_inode(from: &Block, k: u32, g: &Geometry) -> Option<Inode>
    requires { k < 64 }
    ensures found { IfSome result (λ inode. SpellsInode (layout_of g.now) inode (inode_part k from.now.bytes)) }
    ensures fields { IfSome result (λ inode. inode ≡ inode_in (inode_part k from.now.bytes)) }
    ensures none { IfNone result ((inode : _) → SpellsInode (layout_of g.now) inode (inode_part k from.now.bytes) → ⊥) }
{
    let inode = read_any_inode(from, k)?;
    if is_pointer(inode.pointer(), g) {
        Some(inode)
    } else {
        None
    }
}

/// The inode k of a block, whichever block it points to. None exactly where its bytes break a rule other than that of the pointer's place.
pub fn read_any_inode(from: &Block, k: u32) -> Option<Inode>
    requires { k < 64 }
    ensures found { IfSome result (λ inode. IsInode inode (inode_part k from.now.bytes)) }
    ensures fields { IfSome result (λ inode. inode ≡ inode_in (inode_part k from.now.bytes)) }
    ensures none { IfNone result ((inode : _) → IsInode inode (inode_part k from.now.bytes) → ⊥) }
    ensures exact { result ≡ inode_at (inode_part k from.now.bytes) }
{
    let at = INODE_SIZE * k as usize;
    inode_of(&from.bytes[at..at + INODE_SIZE])
}

/// Puts an inode in shape into its place in a block. All other bytes stay.
pub fn write_inode(inode: &Inode, k: u32, into: &mut Block)
    requires k { k < 64 }
    requires shape { IsTrue (inode_shape inode.now) }
    ensures bytes { into.new.bytes ≡ take (64 * k) into.old.bytes ++ inode_bytes inode.now ++ drop (64 * k + 64) into.old.bytes }
    ensures spelled { inode_part k into.new.bytes ≡ inode_bytes inode.now }
    ensures reads_back { inode_in (inode_part k into.new.bytes) ≡ inode.now }
    ensures others { (j : ℕ) → j ≢ k → inode_part j into.new.bytes ≡ inode_part j into.old.bytes }
{
    put(&inode.spelled(), INODE_SIZE * k as usize, &mut into.bytes);
}

/// How many blocks so many bytes take.
pub fn blocks_of(size: u64) -> u64
    requires { size ≤ 4294967296 }
    ensures { result ≡ blocks_of size }
{
    size.div_ceil(4_096)
}

/// The least height at which a tree of blocks has places for so many.
pub fn height_of(blocks: u64) -> u32
    ensures { result ≡ height_of blocks }
{
    if blocks <= 1 {
        0
    } else if blocks <= 1_024 {
        1
    } else {
        2
    }
}

/// The inode that the bytes spell, wherever it points to.
fn inode_of(bytes: &[u8]) -> Option<Inode>
    requires { length bytes.now ≡ 64 }
    ensures found { IfSome result (λ inode. IsInode inode bytes.now) }
    ensures fields { IfSome result (λ inode. inode ≡ inode_in bytes.now) }
    ensures none { IfNone result ((inode : _) → IsInode inode bytes.now → ⊥) }
    ensures exact { result ≡ inode_at bytes.now }
{
    let inode = Inode::read(bytes)?;
    if !inode.has_shape() {
        return None;
    }
    if !is_same(&inode.spelled(), bytes) {
        return None;
    }
    Some(inode)
}

/// Whether a height is that of a size, and a size of 0 has no pointer.
fn node_fits(size: u64, height: u32, ptr: BlockNo) -> bool
    requires { size ≤ 4294967296 }
    ensures { result ≡ node_fits size height ptr }
{
    height == height_of(blocks_of(size)) && (size > 0 || ptr == 0)
}

/// The bytes of a node that is used.
fn node(kind: u8, height: u32, ptr: BlockNo, size: u64) -> [u8; INODE_SIZE]
    requires { height < 256 }
    ensures spelled { result ≡ node_bytes kind height ptr size }
    ensures number { ptr < 2 ^ 32 }
{
    let mut bytes = [0; INODE_SIZE];
    bytes[0] = kind;
    bytes[1] = height as u8;
    LittleEndian::write_u32(&mut bytes[4..], ptr);
    LittleEndian::write_u64(&mut bytes[8..], size);
    bytes
}
