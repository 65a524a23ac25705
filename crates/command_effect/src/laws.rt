//! Laws of what is staged.
ghost use Rattle.command_effect.specs.Laws.{StagingFits};

/// Staging the effect of a command keeps what is staged within the rules, whatever the disk.
pub fn staging_fits()
    ensures { StagingFits }
{}
