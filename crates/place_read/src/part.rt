//! The bytes of files as they are now.
ghost use Rattle.std.specs.Prelude.{◌≡◌, ◌<◌, ◌≤◌, ◌+◌, ◌-◌, ◌++◌, ℕ, min, length, take, drop, slice_range, slice_index_or, IfOk, OnOk, IsTrue};
ghost use Rattle.vol_numbers.specs.Geometry.{layout_of};
ghost use Rattle.disk_model.specs.Past.{Adds};
ghost use Rattle.block_tree.specs.Causes.{HasTreeCause, IsTreeDamage, IfTreeDamaged};
ghost use Rattle.block_tree.specs.Tree.{blocks_in};
ghost use Rattle.inode_file.specs.Loading.{IsWithin};
ghost use Rattle.volume_model.specs.Machine.{Machine, Rules, bytes_numbered};
ghost use Rattle.place_read.specs.Holding.{HoldsFiles};
ghost use Rattle.place_read.specs.Part.{end_of};

use crate::place::read_place;
use block_tree::TreeFault;
use dirty_store::DirtyStore;
use disk_model::Disk;
use inode_file::InodeFile;
use std::alloc::{AllocError, Global};
use vol_numbers::{Block, ByteList, Geometry, InoNo};

/// What is asked for of a file: from an offset on at most so many bytes. The size is that of the file, in bytes.
#[derive(Clone, Copy, Debug, PartialEq, Eq)]
pub struct FilePart {
    pub number: InoNo,
    pub size: u64,
    pub offset: u64,
    pub length: u32,
}

impl FilePart {
    /// Where it ends: at the file's end, if that comes first.
    fn end(&self) -> u64
        requires { self.now.size ≤ 4294967296 }
        ensures { result ≡ end_of self.now }
    {
        self.size
            .min(self.offset.saturating_add(u64::from(self.length)))
    }
}

/// The bytes of a part of a file as it is now: from its offset on at most so many, up to the file's end.
///
/// Each of its places is read once, and no other. Nothing is read where the part begins at or past the end.
pub fn read_bytes<D: Disk>(
    alloc: Global,
    disk: &mut D,
    g: &Geometry,
    inodes: &InodeFile,
    dirty: &DirtyStore,
    part: &FilePart,
) -> Result<ByteList, TreeFault>
    requires size { (layout_of g.now).blocks ≡ (D.fixed disk.old).size }
    requires within { IsWithin (layout_of g.now) inodes.now }
    requires number { part.now.number ≤ 65535 }
    requires largest { part.now.size ≤ 4294967296 }
    ensures read { IfOk result (λ bytes. IsTrue D.tells → (r : Rules) (m : Machine) → HoldsFiles r m (D.state disk.old).contents inodes.now dirty.now.overlay
        → length (bytes_numbered part.now.number m.tree) ≡ part.now.size → bytes ≡ take part.now.length (drop part.now.offset (bytes_numbered part.now.number m.tree))) }
    ensures damaged { IsTreeDamage (layout_of g.now) D.tells (blocks_in (D.state disk.new).contents) (D.given disk.old) (D.given disk.new) result }
    // Over contents that stand for something no block is damaged.
    ensures sound { IsTrue D.tells → (r : Rules) (m : Machine) → HoldsFiles r m (D.state disk.old).contents inodes.now dirty.now.overlay → m.layout ≡ layout_of g.now → IfTreeDamaged result (λ b. ⊥) }
    ensures same { IsTrue D.tells → D.state disk.new ≡ D.state disk.old }
    ensures moments { IsTrue D.tells → Adds (D.past disk.old) (D.past disk.new) (λ s. s ≡ D.state disk.old) }
    ensures fixed { D.fixed disk.new ≡ D.fixed disk.old }
    ensures cause { HasTreeCause (D.faults disk.old) (D.faults disk.new) result }
{
    let mut bytes = Vec::new(alloc);
    if part.offset < part.end() {
        push_places(disk, g, inodes, dirty, part, &mut bytes)?;
    }
    Ok(ByteList::from_vec(bytes))
}

/// Adds the bytes of all places of a part, place by place.
fn push_places<D: Disk>(
    disk: &mut D,
    g: &Geometry,
    inodes: &InodeFile,
    dirty: &DirtyStore,
    part: &FilePart,
    bytes: &mut Vec<u8>,
) -> Result<(), TreeFault>
    requires size { (layout_of g.now).blocks ≡ (D.fixed disk.old).size }
    requires within { IsWithin (layout_of g.now) inodes.now }
    requires number { part.now.number ≤ 65535 }
    requires largest { part.now.size ≤ 4294967296 }
    requires some { part.now.offset < end_of part.now }
    requires empty { length bytes.old.items ≡ 0 }
    ensures many { OnOk result (length bytes.new.items ≡ end_of part.now - part.now.offset) }
    ensures read { OnOk result (IsTrue D.tells → (r : Rules) (m : Machine) → HoldsFiles r m (D.state disk.old).contents inodes.now dirty.now.overlay
        → (i : ℕ) → i < length bytes.new.items → slice_index_or bytes.new.items i 0 ≡ slice_index_or (bytes_numbered part.now.number m.tree) (part.now.offset + i) 0) }
    ensures damaged { IsTreeDamage (layout_of g.now) D.tells (blocks_in (D.state disk.new).contents) (D.given disk.old) (D.given disk.new) result }
    // Over contents that stand for something no block is damaged.
    ensures sound { IsTrue D.tells → (r : Rules) (m : Machine) → HoldsFiles r m (D.state disk.old).contents inodes.now dirty.now.overlay → m.layout ≡ layout_of g.now → IfTreeDamaged result (λ b. ⊥) }
    ensures same { IsTrue D.tells → D.state disk.new ≡ D.state disk.old }
    ensures moments { IsTrue D.tells → Adds (D.past disk.old) (D.past disk.new) (λ s. s ≡ D.state disk.old) }
    ensures fixed { D.fixed disk.new ≡ D.fixed disk.old }
    ensures cause { HasTreeCause (D.faults disk.old) (D.faults disk.new) result }
{
    let end = part.end();
    bytes.reserve((end - part.offset) as usize)?;
    let mut block = Block::zero();
    for place in part.offset / 4_096..end.div_ceil(4_096) {
        read_place(
            disk,
            g,
            inodes,
            dirty,
            part.number,
            place as u32,
            &mut block,
        )?;
        let start = part.offset.saturating_sub(4_096 * place);
        let stop = (end - 4_096 * place).min(4_096);
        push_piece(bytes, &block, start as usize, stop as usize)?;
    }
    Ok(())
}

/// Adds some bytes of a block.
fn push_piece(
    bytes: &mut Vec<u8>,
    block: &Block,
    start: usize,
    stop: usize,
) -> Result<(), AllocError>
    requires start { start ≤ stop }
    requires stop { stop ≤ 4096 }
    ensures pushed { OnOk result (bytes.new.items ≡ bytes.old.items ++ slice_range block.now.bytes start stop) }
    ensures many { OnOk result (length bytes.new.items ≡ length bytes.old.items + (stop - start)) }
{
    bytes.extend_from_slice(&block.bytes[start..stop])
}
