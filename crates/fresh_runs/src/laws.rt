//! Laws of fresh blocks, each on a function whose contract it is.
ghost use Rattle.fresh_runs.specs.Laws.{ChangesAreOfPlaces, FreshIsReported, NothingIsShared, StagedHaveDirty};

/// The numbers that `DirtyStore::numbers` lists are good for `place_fresh`.
pub fn staged_have_dirty()
    ensures { StagedHaveDirty }
{}

/// Where nothing is shared, lines of the dirty places at unused blocks make a report of a point, which tells of these blocks.
pub fn fresh_is_reported()
    ensures { FreshIsReported }
{}

/// Where the cache is empty, a point shares nothing.
pub fn nothing_is_shared()
    ensures { NothingIsShared }
{}

/// The changes of a file are its dirty places, each with the block that it has after the point.
pub fn changes_are_of_places()
    ensures { ChangesAreOfPlaces }
{}
