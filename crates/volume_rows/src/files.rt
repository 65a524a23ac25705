//! Rows on files: what is written, cut, removed and read.
ghost use Rattle.volume_rows.specs.Files.{FormatRow, OneFileRows, NotFreshRows, OneBlockRow, CutRows, EvenRows, GrownRows, NoBytesRows, RemovedRows, MadeAgainRows, AtRestRows};

/// A fresh volume has all of its area free but two blocks.
pub fn a_format_leaves_all_free()
    ensures { FormatRow }
{}

/// A file of eight blocks is written, and a point stores it.
pub fn one_file_is_stored()
    ensures { OneFileRows }
{}

/// Blocks that may not be fresh: one twice, one of the last point, one outside the area, or too few.
pub fn which_blocks_may_be_fresh()
    ensures { NotFreshRows }
{}

/// One block written over gets one fresh block.
pub fn one_block_is_written_over()
    ensures { OneBlockRow }
{}

/// A block that is cut in two is dirty, and what is cut off comes back as zeros.
pub fn a_cut_block_is_written_afresh()
    ensures { CutRows }
{}

/// A file that is cut between two blocks touches no place.
pub fn a_cut_between_blocks_touches_nothing()
    ensures { EvenRows }
{}

/// A file that grows keeps its blocks.
pub fn a_grown_file_keeps_its_blocks()
    ensures { GrownRows }
{}

/// A write of no bytes changes and records nothing.
pub fn a_write_of_nothing()
    ensures { NoBytesRows }
{}

/// What a removed file shared stays.
pub fn a_removed_file_leaves_shared_blocks()
    ensures { RemovedRows }
{}

/// A file that is removed and made again between two points keeps no place, and may share what it had.
pub fn a_file_is_removed_and_made_again()
    ensures { MadeAgainRows }
{}

/// A point with nothing pending changes the number alone.
pub fn a_point_at_rest()
    ensures { AtRestRows }
{}
