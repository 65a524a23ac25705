//! The blocks of a fresh volume.
ghost use Rattle.std.specs.Prelude.{◌≡◌, ◌<◌, ◌≤◌};
ghost use Rattle.vol_numbers.specs.Layout.{count_blocks};
ghost use Rattle.vol_numbers.specs.Geometry.{layout_of};
ghost use Rattle.block_format.specs.Index.{index_bytes};
ghost use Rattle.block_tree.specs.Planned.{pointers_of};
ghost use Rattle.image_model.specs.Fresh.{fresh_count};
ghost use Rattle.volume_format.specs.Blocks.{count_block, index_block, inode_block, root_block};

use block_format::{HomeBits, RootBody, write_root};
use byteorder::{ByteOrder, LittleEndian};
use vol_numbers::{Block, BlockNo, Geometry};

/// How many numbers a block of counts or pointers has.
const WORDS: usize = 1_024;

/// The block that spells these numbers.
fn block_of_words(words: &[u32; 1024]) -> Block
    ensures { result.bytes ≡ index_bytes words.now }
{
    let mut bytes = [0; 4096];
    LittleEndian::write_u32_into(words, &mut bytes);
    Block { bytes }
}

/// The i-th count block of a fresh volume.
pub fn count_block(g: &Geometry, i: u32) -> Block
    requires { i < count_blocks (layout_of g.now) }
    ensures { result ≡ count_block (layout_of g.now) i }
{
    block_of_words(&fresh_counts(g, 1_024 * i))
}

/// The counts of 1,024 blocks of a fresh volume, from a block on.
fn fresh_counts(g: &Geometry, first: BlockNo) -> [u32; 1024]
    requires { first ≤ 65536 }
    ensures { result ≡ pointers_of (fresh_count (layout_of g.now)) first 1024 }
{
    let mut counts = [0; WORDS];
    for (k, count) in counts.iter_mut().enumerate() {
        *count = fresh_count(g, first + k as u32);
    }
    counts
}

/// How many pointers of a fresh volume lead to a block.
fn fresh_count(g: &Geometry, b: BlockNo) -> u32
    ensures { result ≡ fresh_count (layout_of g.now) b }
{
    if b == g.area_start() || b == g.area_start() + 1 {
        1
    } else {
        0
    }
}

/// The inode index of a fresh volume.
pub fn index_block(g: &Geometry) -> Block
    ensures { result ≡ index_block (layout_of g.now) }
{
    let mut pointers = [0; WORDS];
    pointers[0] = g.area_start();
    block_of_words(&pointers)
}

/// The inode block of a fresh volume: number 1 is an empty directory.
pub fn inode_block() -> Block
    ensures { result ≡ inode_block }
{
    let mut bytes = [0; 4096];
    bytes[64] = 2;
    Block { bytes }
}

/// The root of a fresh volume.
pub(crate) fn root_block(g: &Geometry) -> Block
    ensures { result ≡ root_block (layout_of g.now) }
{
    let body = RootBody {
        geometry: *g,
        point: 0,
        inode_index: g.area_start() + 1,
        records: 0,
        log_used: 0,
        homes: HomeBits::zero(),
    };
    let mut block = Block::zero();
    write_root(&body, &mut block);
    block
}
