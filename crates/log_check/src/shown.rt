//! Law of what an image shows in which nothing is found before the log.
ghost use Rattle.log_check.specs.Shown.{EarlyImagesAreShown};

/// An image in which nothing is found before the log shows a tree. A table that holds what is held node by node holds it, and as many blocks are
/// free as are counted.
pub fn early_images_are_shown()
    ensures { EarlyImagesAreShown }
{}
