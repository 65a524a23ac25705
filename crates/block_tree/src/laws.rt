//! Laws of trees of index blocks.
ghost use Rattle.block_tree.specs.Laws.{IndexCount, LeavesSpell, PairsAre, PointersAre};

/// A tree has as many index blocks as its places need.
pub fn index_count()
    ensures { IndexCount }
{}

/// Leaves that stand as a map has them have its pairs.
pub fn leaves_spell()
    ensures { LeavesSpell }
{}

/// The pairs of a tree are what it has at each place.
pub fn pairs_are()
    ensures { PairsAre }
{}

/// The pointers of a tree are as many as its index blocks and its pairs.
pub fn pointers_are()
    ensures { PointersAre }
{}
