//! Laws of planned points.
ghost use Rattle.point_model.specs.FreshPoint.{FreshPointIsPlanned};
ghost use Rattle.point_model.specs.Laws.{BlocksHoldBytes, CountsArePointers, PagesAreSpelled, PlannedHasPoint, PlannedIsSeen, PlannedStands};
ghost use Rattle.point_model.specs.NodeChanges.{BuiltIsOfChange, CleanNodesAre};
ghost use Rattle.point_model.specs.RootPlan.{SwitchedRootIsPlanned};
ghost use Rattle.point_model.specs.Staging.{AtRest, StagingHolds, TableHoldsTree};

/// An image in which a point is planned has all that a point owes.
pub fn planned_has_point()
    ensures { PlannedHasPoint }
{}

/// In an image in which a point is planned, the inodes that are planned are seen, and directories have the slots of now.
pub fn planned_is_seen()
    ensures { PlannedIsSeen }
{}

/// An image in which a point is planned stands for the state after the point.
pub fn planned_stands()
    ensures { PlannedStands }
{}

/// An image that a switch leaves has the root that is planned, where the body of the switch is the one for it.
pub fn switched_root_is_planned()
    ensures { SwitchedRootIsPlanned }
{}

/// Over a fresh volume with nothing pending a point may be taken, and is planned in an image with the next root.
pub fn fresh_point_is_planned()
    ensures { FreshPointIsPlanned }
{}

/// In an image that stands for something, each block of a file holds the bytes of its places.
pub fn blocks_hold_bytes()
    ensures { BlocksHoldBytes }
{}

/// In an image that stands for something, the pages of each directory are there, and spell its slots.
pub fn pages_are_spelled()
    ensures { PagesAreSpelled }
{}

/// Staging the effect of an accepted command keeps what an image and an overlay hold, and the table after the command is then theirs.
pub fn staging_holds()
    ensures { StagingHolds }
{}

/// A table that has the nodes of an image and an overlay holds the machine's tree.
pub fn table_holds_tree()
    ensures { TableHoldsTree }
{}

/// An effect that is built of a change of the nodes is the change's.
pub fn built_is_of_change()
    ensures { BuiltIsOfChange }
{}

/// Just after a point, and at a mount before the records are done, an image and a clean overlay hold what the machine does.
pub fn at_rest()
    ensures { AtRest }
{}

/// Where nothing is staged, each number has the node of its inode, with the slots that are seen up to its width.
pub fn clean_nodes_are()
    ensures { CleanNodesAre }
{}

/// In an image that stands for something, the count of each block is the number of pointers to it.
pub fn counts_are_pointers()
    ensures { CountsArePointers }
{}
