//! A small volume, and checked calls.

use block_format::{Index, Inode, write_index, write_inode};
use block_tree::TreeFault;
use disk_model::Disk;
use inode_file::InodeFile;
use run_allocator::FreeMap;
use std::alloc::Global;
use vol_numbers::{Block, BlockNo, CountList, Geometry, InoNo};

/// A volume of 2,048 blocks has two count blocks, so its area begins at 3 + 2 * 2 + 64 + 32.
pub(crate) const BLOCKS: u32 = 2_048;

/// Where a format puts the inode block of the first numbers.
pub(crate) const FIRST_BLOCK: BlockNo = 103;

/// Where a format puts the inode index.
pub(crate) const FIRST_INDEX: BlockNo = 104;

/// The root directory of a fresh volume.
pub(crate) const ROOT: Inode = Inode::Directory {
    width: 0,
    height: 0,
    ptr: 0,
};

/// A file of no bytes.
pub(crate) const EMPTY: Inode = Inode::File {
    size: 0,
    height: 0,
    ptr: 0,
};

/// Why inodes aren't there.
#[derive(Clone, Copy, PartialEq, Eq)]
pub(crate) enum Miss {
    /// The test itself is wrong.
    Test,
    Load(TreeFault),
}

/// Writes a block, and says whether that was done.
pub(crate) fn write<D: Disk>(disk: &mut D, at: BlockNo, block: &Block) -> bool {
    if at >= disk.blocks() {
        return false;
    }
    disk.write_block(at, block).is_ok()
}

/// The inode block in which 1 is the root directory.
pub(crate) fn first_block() -> Block {
    let mut block = Block::zero();
    if ROOT.has_shape() {
        write_inode(&ROOT, 1, &mut block);
    }
    block
}

/// The inode index that points to it.
pub(crate) fn first_index() -> Block {
    let mut index = Index { ptrs: [0; 1024] };
    index.ptrs[0] = FIRST_BLOCK;
    let mut block = Block::zero();
    write_index(&index, &mut block);
    block
}

/// Writes the two, as a format does.
pub(crate) fn write_fresh<D: Disk>(disk: &mut D) -> bool {
    if !write(disk, FIRST_BLOCK, &first_block()) {
        return false;
    }
    write(disk, FIRST_INDEX, &first_index())
}

/// The inodes of the volume, from the block of its inode index.
pub(crate) fn load<D: Disk>(
    alloc: Global,
    disk: &mut D,
    g: &Geometry,
    index: BlockNo,
) -> Result<InodeFile, Miss> {
    if disk.blocks() != g.blocks() {
        return Err(Miss::Test);
    }
    if index < g.area_start() || index >= g.blocks() {
        return Err(Miss::Test);
    }
    match InodeFile::load(alloc, disk, index, g) {
        Ok(file) => Ok(file),
        Err(fault) => Err(Miss::Load(fault)),
    }
}

/// Gives a number an inode, and says whether that may be done.
pub(crate) fn set(file: &mut InodeFile, n: InoNo, inode: Inode) -> bool {
    if n == 0 || n > 65_535 || !inode.has_shape() {
        return false;
    }
    file.set(n, inode);
    true
}

/// Counts of the volume's blocks: 0 from one on.
fn counts_from(alloc: Global, lowest: BlockNo) -> Option<CountList> {
    let mut counts = Vec::new(alloc);
    for b in 0..BLOCKS {
        counts.push(u32::from(b < lowest)).ok()?;
    }
    Some(CountList::from_vec(counts))
}

/// The blocks from one on, free.
pub(crate) fn free_from(alloc: Global, g: &Geometry, lowest: BlockNo) -> Option<FreeMap> {
    let counts = counts_from(alloc, lowest)?;
    if counts.len() < g.blocks() as usize {
        return None;
    }
    FreeMap::of(alloc, &counts, g).ok()
}

/// The volume's geometry.
pub(crate) fn geometry() -> Option<Geometry> {
    Geometry::new(BLOCKS, 64).ok()
}
