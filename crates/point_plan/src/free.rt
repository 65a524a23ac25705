//! The law of the blocks that a point may take.
ghost use Rattle.point_plan.specs.Free.{FreeNowIsFree};

/// What the counts in memory call free is free in the image of the last point, each block once, and no place had one of them.
pub fn free_now_is_free()
    ensures { FreeNowIsFree }
{}
