//! Rows on space and on the log.
ghost use Rattle.volume_rows.specs.Space.{FilledRows, FullRows, AskedTwiceRows, TreeFirstRows, JustEnoughRows, FreedRows, DueRows, FullLogRows, ShortRows};

/// A small volume is filled by two points.
pub fn a_volume_is_filled()
    ensures { FilledRows }
{}

/// A write that needs just what is free has space, and one that needs a block more hasn't.
pub fn just_enough_is_enough()
    ensures { JustEnoughRows }
{}

/// A write is refused with what is free and what it needs.
pub fn a_full_volume_refuses()
    ensures { FullRows }
{}

/// A full volume that is asked twice answers the same.
pub fn a_full_volume_answers_the_same()
    ensures { AskedTwiceRows }
{}

/// What the tree refuses is refused so on a full volume too.
pub fn the_trees_refusal_comes_first()
    ensures { TreeFirstRows }
{}

/// A remove has space, and the point behind it frees its blocks.
pub fn a_remove_frees_its_blocks()
    ensures { FreedRows }
{}

/// A point is due where the charges and the reserve are more than what is free.
pub fn charges_make_a_point_due()
    ensures { DueRows }
{}

/// A point is due where a record has no room in the log.
pub fn a_full_log_makes_a_point_due()
    ensures { FullLogRows }
{}

/// Points that lack blocks by the formula.
pub fn a_point_lacks_blocks()
    ensures { ShortRows }
{}
