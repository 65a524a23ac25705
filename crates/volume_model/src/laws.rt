//! Laws of the definitions, each on a function whose contract it is.
ghost use Rattle.volume_model.specs.Laws.{OneSelection, SelectedIs, UseKeeps, MountedStores, IsAlwaysWhole, PointFits};
ghost use Rattle.volume_model.specs.Laws.{FreshLinesAre, FreshAreUnused, PointsExist, OnePoint, PiecesAre, LegalIs, ExcusesAreFew, SomeIsLegal, DoneHasRoom, RepliesAreTheTrees, NextTree, NextStored};

/// There is one selection of the sequences that are shared.
pub fn one_selection()
    ensures { OneSelection }
{}

/// What is shared of a file is the selection among its dirty places.
pub fn selected_is()
    ensures { SelectedIs }
{}

/// A use leaves each block once in the cache list, and no more pairs than its capacity.
pub fn use_keeps()
    ensures { UseKeeps }
{}

/// What a mounted volume stores is what it was mounted with.
pub fn mounted_stores()
    ensures { MountedStores }
{}

/// In every state the places are in order, what is kept is of the last point and not dirty, and each cached block is one of
/// the last point.
pub fn always_whole()
    ensures { IsAlwaysWhole }
{}

/// A point that isn't short leaves 16 blocks free.
pub fn point_fits()
    ensures { PointFits }
{}

/// The fresh lines of a report have each of their places once, in the longest stretches.
pub fn fresh_lines_are()
    ensures { FreshLinesAre }
{}

/// The fresh blocks of a point are all different, lie in the area, and no place had one of them at the last point.
pub fn fresh_are_unused()
    ensures { FreshAreUnused }
{}

/// Blocks that may be fresh make a report of a point, which tells of them.
pub fn points_exist()
    ensures { PointsExist }
{}

/// Reports of a point that tell of the same fresh blocks are one.
pub fn one_point()
    ensures { OnePoint }
{}

/// The pieces of a file's layout are its kept and dirty places, by place, in the longest stretches.
pub fn pieces_are()
    ensures { PiecesAre }
{}

/// A legal answer that is no excuse is determined by its fresh blocks.
pub fn legal_is()
    ensures { LegalIs }
{}

/// `space` and `end` always have their reply, a checkpoint that tells of a point is done, and a point that was due and isn't told
/// of has an excuse.
pub fn excuses_are_few()
    ensures { ExcusesAreFew }
{}

/// Where a point is due any blocks that may be fresh make a legal answer, and where none is due there is one with no point.
pub fn some_is_legal()
    ensures { SomeIsLegal }
{}

/// A change that is answered as done has room: for its charge and its reserve beside what is pending, and for its record in the log.
pub fn done_has_room()
    ensures { DoneHasRoom }
{}

/// A legal answer that is no excuse has the tree's reply to a command of the tree, or says that there is no space.
pub fn replies_are_the_trees()
    ensures { RepliesAreTheTrees }
{}

/// The tree after an answer is that of the tree's rules where a change is done, and else the tree stays.
pub fn next_tree()
    ensures { NextTree }
{}

/// What is stored after an answer is what the point before it stored, if there was one, and the record of a change that is done.
pub fn next_stored()
    ensures { NextStored }
{}
