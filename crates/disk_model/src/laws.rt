//! What no single call says of disks in memory.
ghost use Rattle.disk_model.specs.Cuts.{EachImageIsPicked};

/// Each image of what a disk holds comes by `cut`, from some picks.
pub fn cut_reaches_each_image()
    ensures { EachImageIsPicked }
{}
