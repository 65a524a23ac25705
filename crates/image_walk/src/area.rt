//! The area of the volume.
ghost use Rattle.std.specs.Prelude.{◌≡◌};
ghost use Rattle.vol_numbers.specs.Geometry.{layout_of};
ghost use Rattle.image_model.specs.Findings.{is_in_area};

use vol_numbers::{BlockNo, Geometry};

/// Whether it is the number of a block of the area.
pub(crate) fn is_in_area(block: BlockNo, g: &Geometry) -> bool
    ensures { result ≡ is_in_area (layout_of g.now) block }
{
    g.area_start() <= block && block < g.blocks()
}
