//! Laws of what is planned.
ghost use Rattle.node_plan.specs.Laws.{UnstagedIsPlanned, DirectoryHolds};

/// A number of which nothing is staged is planned as it was, with nothing added, dropped or taken.
pub fn unstaged_is_planned()
    ensures { UnstagedIsPlanned }
{}

/// What has to hold of a directory to plan it does, where the old image stands for something.
pub fn directory_holds()
    ensures { DirectoryHolds }
{}
