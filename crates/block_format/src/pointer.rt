//! Pointers to blocks of the area.
ghost use Rattle.std.specs.Prelude.{◌≡◌, ◌≤◌, ◌<◌, ◌⊎◌, ◌↔◌, IsTrue};
ghost use Rattle.block_format.specs.Index.{IsPointer};
ghost use Rattle.vol_numbers.specs.Geometry.{layout_of};

use vol_numbers::{BlockNo, Geometry};

/// Whether a number is 0 or that of a block of the area.
pub(crate) fn is_pointer(ptr: BlockNo, g: &Geometry) -> bool
    ensures { IsTrue result ↔ IsPointer (layout_of g.now) ptr }
{
    is_zero_or_within(ptr, g.area_start(), g.blocks())
}

/// Whether a number is 0, or from `start` on and below `end`.
pub(crate) fn is_zero_or_within(ptr: BlockNo, start: BlockNo, end: BlockNo) -> bool
    ensures { IsTrue result ↔ ((ptr ≡ 0) ⊎ ((start ≤ ptr) × (ptr < end))) }
{
    ptr == 0 || (start <= ptr && ptr < end)
}
