//! Blocks that are metadata and a file's too.
ghost use Rattle.std.specs.Prelude.{◌≡◌, ℕ};
ghost use Rattle.vol_numbers.specs.Geometry.{layout_of};
ghost use Rattle.block_tree.specs.Tree.{Blocks};
ghost use Rattle.image_model.specs.Findings.{mixed_finding};
ghost use Rattle.image_model.specs.Met.{Met};
ghost use Rattle.std.specs.Prelude.{List};
ghost use Rattle.image_walk.specs.Marks.{Says};
ghost use Rattle.fs_check.specs.Cause.{HasFsCause};
ghost use Rattle.fs_check.specs.Phases.{IsPhase};

use crate::CheckFault;
use image_walk::{Marks, mixed};
use vol_numbers::Geometry;

/// No block is both.
pub(crate) fn unmixed(marks: &Marks, g: &Geometry) -> Result<(), CheckFault>
    ensures found { (ms : List Met) → Says marks.now ms → IsPhase (mixed_finding ms 0 (layout_of g.now).blocks) result }
    ensures cause { (count : ℕ) → HasFsCause count count result }
{
    match mixed(marks, g) {
        Some(finding) => Err(CheckFault::Found(finding)),
        None => Ok(()),
    }
}
