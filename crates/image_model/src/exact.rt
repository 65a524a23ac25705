//! Laws of what is found in an image.
ghost use Rattle.image_model.specs.Exact.{RootsAreFound, NoneFound, NoneFoundStands, NoneFoundShows, NoneFoundEarly, StandingHasNone, OneFinding, StandsOrFinds};

/// The phases of the root find nothing exactly where there is a root that fits the image.
pub fn roots_are_found()
    ensures { RootsAreFound }
{}

/// Where what is seen is sound, nothing is found before the log.
pub fn none_found_early()
    ensures { NoneFoundEarly }
{}

/// What is seen of an image in which nothing is found is sound.
pub fn none_found()
    ensures { NoneFound }
{}

/// An image in which nothing is found stands for a tree, where its records are accepted.
pub fn none_found_stands()
    ensures { NoneFoundStands }
{}

/// An image in which nothing is found before the log shows a tree that is held node by node, and has as many free blocks as are counted.
pub fn none_found_shows()
    ensures { NoneFoundShows }
{}

/// An image that stands for something has no finding.
pub fn standing_has_none()
    ensures { StandingHasNone }
{}

/// An image has at most one finding.
pub fn one_finding()
    ensures { OneFinding }
{}

/// There is no image that has no finding and stands for nothing. It doesn't say what one without a finding stands for.
pub fn stands_or_finds()
    ensures { StandsOrFinds }
{}
