//! Blocks that are metadata and a file's.
ghost use Rattle.std.specs.Prelude.{◌≡◌, List};
ghost use Rattle.vol_numbers.specs.Geometry.{layout_of};
ghost use Rattle.image_model.specs.Met.{Met};
ghost use Rattle.image_model.specs.Findings.{mixed_finding};
ghost use Rattle.image_walk.specs.Marks.{Says, mark_of};
ghost use Rattle.std.specs.Prelude.{◌&&◌};

use crate::Marks;
use image_model::Finding;
use vol_numbers::{BlockNo, Geometry};

/// The least block that was reached both as metadata and as a file's data.
pub fn mixed(marks: &Marks, g: &Geometry) -> Option<Finding>
    ensures { (ms : List Met) → Says marks.now ms → result ≡ mixed_finding ms 0 (layout_of g.now).blocks }
{
    for block in 0..g.blocks() {
        if is_mixed(marks, block) {
            return Some(Finding::MixedBlock(block));
        }
    }
    None
}

/// Whether the block is both.
fn is_mixed(marks: &Marks, block: BlockNo) -> bool
    ensures { result ≡ ((mark_of marks.now block).is_metadata && (mark_of marks.now block).is_content) }
{
    let mark = marks.get(block);
    mark.is_metadata && mark.is_content
}
