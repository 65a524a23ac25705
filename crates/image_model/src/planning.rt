//! Laws of what a point plans and leaves.
ghost use Rattle.image_model.specs.Planning.{PointStands, AssembledStands, PlanLeads, FreshHasPoint};
ghost use Rattle.image_model.specs.Spelling.{InodesAreSeen, WalkIsSpelled};
ghost use Rattle.image_model.specs.Spelling.{CountsAreSpelled, DirectoryIsSeen, FileIsSeen, PlacesAreSeen, PlacesInOrder, SamePlaces};
ghost use Rattle.image_model.specs.Planning.{PointPlaces};
ghost use Rattle.image_model.specs.Spelling.{PointersAreListed};

/// After a point an image stands for the tree and the places that the point made.
pub fn point_stands()
    ensures { PointStands }
{}

/// An image whose parts are those of a tree stands for that tree.
pub fn assembled_stands()
    ensures { AssembledStands }
{}

/// What is planned number by number leads to blocks of before and to blocks that are taken.
pub fn plan_leads()
    ensures { PlanLeads }
{}

/// What a format leaves has all that a point owes, over itself.
pub fn fresh_has_point()
    ensures { FreshHasPoint }
{}

/// The inodes of a volume that is spelled are those that are seen, and no fault is met.
pub fn inodes_are_seen()
    ensures { InodesAreSeen }
{}

/// What the walk over a volume meets whose inodes and index blocks are spelled.
pub fn walk_is_spelled()
    ensures { WalkIsSpelled }
{}

/// The kept counts are those that stand in the homes.
pub fn counts_are_spelled()
    ensures { CountsAreSpelled }
{}

/// A directory that stands in the blocks below its inode is sound, and its names have the numbers that its slots say.
pub fn directory_is_seen()
    ensures { DirectoryIsSeen }
{}

/// A file that stands in the blocks below its inode is the file that is seen, and has no tail.
pub fn file_is_seen()
    ensures { FileIsSeen }
{}

/// The places that are seen of a file are those below its inode.
pub fn places_are_seen()
    ensures { PlacesAreSeen }
{}

/// The places that are seen are in order.
pub fn places_in_order()
    ensures { PlacesInOrder }
{}

/// Places in order that have the same blocks are the same.
pub fn same_places()
    ensures { SamePlaces }
{}

/// The places after a point are in order, and are those that are seen where each has its block.
pub fn point_places()
    ensures { PointPlaces }
{}

/// Where no fault is met, the pointers to a block are those to metadata and those of files.
pub fn pointers_are_listed()
    ensures { PointersAreListed }
{}
