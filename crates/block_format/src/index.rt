//! An index block: 1,024 pointers.
ghost use Rattle.std.specs.Prelude.{◌≡◌, ◌≤◌, ℕ, IsTrue, ◌↔◌, All, IfSome, IfNone, length};
ghost use Rattle.block_format.specs.Index.{IsPointer, SpellsIndex, index_bytes};
ghost use Rattle.block_format.specs.Words.{words};
ghost use Rattle.vol_numbers.specs.Layout.{IsValid};
ghost use Rattle.vol_numbers.specs.Geometry.{layout_of};

use crate::pointer::is_zero_or_within;
use crate::words::{bytes_of, numbers_in};
use vol_numbers::{Block, BlockNo, Geometry};

/// The pointers of an index block: numbers of blocks, or 0 where there is none.
#[derive(Clone, Copy, Debug, PartialEq, Eq)]
pub struct Index {
    pub ptrs: [BlockNo; 1024],
}

/// The pointers that a block spells. None exactly where one of them is neither 0 nor the number of a block of the area.
pub fn read_index(from: &Block, g: &Geometry) -> Option<Index>
    ensures found { IfSome result (λ index. SpellsIndex (layout_of g.now) index.ptrs from.now.bytes) }
    ensures words { IfSome result (λ index. index.ptrs ≡ words from.now.bytes) }
    ensures none { IfNone result ((ptrs : _) → SpellsIndex (layout_of g.now) ptrs from.now.bytes → ⊥) }
{
    let ptrs = numbers_in(&from.bytes);
    if are_pointers(&ptrs, g) {
        Some(Index { ptrs })
    } else {
        None
    }
}

/// Writes the one block that spells these pointers.
pub fn write_index(index: &Index, into: &mut Block)
    ensures spelled { into.new.bytes ≡ index_bytes index.now.ptrs }
    ensures reads_back { words into.new.bytes ≡ index.now.ptrs }
{
    into.bytes = bytes_of(&index.ptrs);
}

/// Whether each of these is 0 or the number of a block of the area.
fn are_pointers(ptrs: &[BlockNo], g: &Geometry) -> bool
    ensures each { IsTrue result ↔ All (IsPointer (layout_of g.now)) ptrs.now }
    ensures valid { IsValid (layout_of g.now) }
{
    let start = g.area_start();
    let end = g.blocks();
    ptrs.iter().all(|ptr| is_zero_or_within(*ptr, start, end))
}
