//! How many blocks are metadata.
ghost use Rattle.std.specs.Prelude.{◌≡◌, List, length};
ghost use Rattle.vol_numbers.specs.Geometry.{layout_of};
ghost use Rattle.image_model.specs.Met.{Met, metas};
ghost use Rattle.image_model.specs.Sound.{AllGood};
ghost use Rattle.image_walk.specs.Marks.{Says, mark_of};

use crate::Marks;
use vol_numbers::{BlockNo, Geometry};

/// How many blocks of the area were reached as metadata: where each has one pointer, as in an image in which nothing is wrong, these are all that the
/// walk has met.
pub fn count_metadata(marks: &Marks, g: &Geometry) -> u32
    ensures { (ms : List Met) → Says marks.now ms → AllGood (layout_of g.now) ms ms → result ≡ length (metas ms) }
{
    let mut count = 0;
    for block in g.area_start()..g.blocks() {
        if is_metadata(marks, block) {
            count += 1;
        }
    }
    count
}

/// Whether the block was reached as metadata.
fn is_metadata(marks: &Marks, block: BlockNo) -> bool
    ensures { result ≡ (mark_of marks.now block).is_metadata }
{
    marks.get(block).is_metadata
}
