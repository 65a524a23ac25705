//! Laws of what an image stands for, as a state that is mounted.
ghost use Rattle.image_states.specs.Laws.{StandingIsMountable, PlacesReadBlocks, StandingFits, MountingIsReached};

/// What an image stands for can be mounted.
pub fn standing_is_mountable()
    ensures { StandingIsMountable }
{}

/// In an image that stands for something, each place that has a block reads as its first 4,096 bytes.
pub fn places_read_blocks()
    ensures { PlacesReadBlocks }
{}

/// What an image stands for has a valid layout, and records of commands that have one, which fit into the log.
pub fn standing_fits()
    ensures { StandingFits }
{}

/// The state of a volume that was mounted from an image is one that is reached, and it stores what the image stands for.
pub fn mounting_is_reached()
    ensures { MountingIsReached }
{}
