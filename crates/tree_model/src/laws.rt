//! Laws of the definition of the tree, each on a function whose contract it is.
ghost use Rattle.tree_model.specs.Laws.{KeepsOrder, SameTree, PutAt, RefusedLeaves, RefusalTells, ChangesAreDone, ReadingLeaves, GivesLeast, KeepsTree, RenamesMove, NodesFollow, TouchesOnly, TouchesWritten, WidthsNeverFall, WidthsAreGreatest, NewDirectoriesAreEmpty, EntriesAre};

/// A command leaves the tree in the order of its paths, each path once.
pub fn keeps_order()
    ensures { KeepsOrder }
{}

/// Trees in order that have the same nodes are one tree.
pub fn same_tree()
    ensures { SameTree }
{}

/// What is put at a path is there, and nothing else changes.
pub fn put_at()
    ensures { PutAt }
{}

/// A refused command leaves the tree.
pub fn refused_leaves()
    ensures { RefusedLeaves }
{}

/// A command is answered by a refusal exactly where it has one, and by that one.
pub fn refusal_tells()
    ensures { RefusalTells }
{}

/// A change that has no refusal is answered as done.
pub fn changes_are_done()
    ensures { ChangesAreDone }
{}

/// Reads, lists, stats and writes of no bytes leave the tree.
pub fn reading_leaves()
    ensures { ReadingLeaves }
{}

/// A new node gets the least number that no node has, and is refused one only where all are had.
pub fn gives_least()
    ensures { GivesLeast }
{}

/// The tree with the root alone is a tree, and a command leaves a tree a tree: the root is directory 1, a directory is
/// in front of each path, a number is of one path, and widths and sizes have their limits.
pub fn keeps_tree()
    ensures { KeepsTree }
{}

/// A rename moves exactly the paths that begin with the one.
pub fn renames_move()
    ensures { RenamesMove }
{}

/// Each node of the tree after a command follows a node of before with its number, or is new.
pub fn nodes_follow()
    ensures { NodesFollow }
{}

/// No byte of a place that a command doesn't touch changes.
pub fn touches_only()
    ensures { TouchesOnly }
{}

/// A write touches exactly the places in which it has a byte.
pub fn touches_written()
    ensures { TouchesWritten }
{}

/// A width never falls.
pub fn widths_never_fall()
    ensures { WidthsNeverFall }
{}

/// A command makes a directory's width the greater of what it was and its number of entries.
pub fn widths_are_greatest()
    ensures { WidthsAreGreatest }
{}

/// A new directory has no entries, and width 0.
pub fn new_directories_are_empty()
    ensures { NewDirectoriesAreEmpty }
{}

/// The entries of a directory are exactly the nodes one name further, and their names rise by their bytes.
pub fn entries_are()
    ensures { EntriesAre }
{}
