//! Laws of plans that are put together.
ghost use Rattle.point_plan.specs.PlacedFresh.{ShortPoints};
ghost use Rattle.point_plan.specs.PutTogether.{PutTogetherIsPlan};
ghost use Rattle.point_plan.specs.Room.{GatheredIsCounted};

use image_model::free_is_counted;
use point_model::planned_stands;
use point_space::{
    dirty_get_blocks, inode_blocks_are, metadata_is_counted, new_metadata_is, old_inode_blocks_are,
    rough_needs, short_where, some_numbers,
};

/// What is put together is the plan of a point.
pub(crate) fn put_together_is_plan()
    ensures { PutTogetherIsPlan }
{
    planned_stands();
}

/// What was gathered counts the metadata after the point.
pub(crate) fn gathered_is_counted()
    ensures { GatheredIsCounted }
{
    dirty_get_blocks();
    new_metadata_is();
    old_inode_blocks_are();
    inode_blocks_are();
    metadata_is_counted();
    some_numbers();
    free_is_counted();
}

/// A point is short where its dirty places or its nodes lack blocks.
pub(crate) fn short_points()
    ensures { ShortPoints }
{
    dirty_get_blocks();
    new_metadata_is();
    rough_needs();
    short_where();
    free_is_counted();
}
