//! Laws of the definitions, each on a function whose contract it is.
ghost use Rattle.dirty_store.specs.Laws.{StagedBlocksAre, DirtyAreTheMachines, OneListOfRuns, StagedIsInOrder, StagedNodesAre, StagedSlotsAre};

/// After a staging a touched place has the block that it was touched with last, a place that was cut off and not touched is not dirty,
/// and any other is as before.
pub fn staged_blocks_are()
    ensures { StagedBlocksAre }
{}

/// After a staging the effect's node has its kind and size and the lower cut, and any other is as before.
pub fn staged_nodes_are()
    ensures { StagedNodesAre }
{}

/// After a staging a changed slot has the content that it was changed to last, a directory that was cut to no block keeps no other slot,
/// and any other is as before.
pub fn staged_slots_are()
    ensures { StagedSlotsAre }
{}

/// Staging an effect leaves an overlay in order, each number and spot once.
pub fn staged_is_in_order()
    ensures { StagedIsInOrder }
{}

/// Where the effects of the commands since a point are staged, the dirty places are those of the volume's model, in its order.
pub fn dirty_are_the_machines()
    ensures { DirtyAreTheMachines }
{}

/// The places of a node make one list of runs, so what `runs_of` answers is determined.
pub fn one_list_of_runs()
    ensures { OneListOfRuns }
{}
