//! Laws of what can be read in the blocks of an image.
ghost use Rattle.image_model.specs.Reading.{DirectoriesStand, DirectoryIsTested, FilesStand, SeenIsSpelled};

/// An image has each file of the tree that it stands for.
pub fn files_stand()
    ensures { FilesStand }
{}

/// An image has each directory of the tree that it stands for.
pub fn directories_stand()
    ensures { DirectoriesStand }
{}

/// A directory isn't bad exactly where the blocks below its inode spell slots of its width.
pub fn directory_is_tested()
    ensures { DirectoryIsTested }
{}

/// An image that stands for something is spelled with the inodes that are seen.
pub fn seen_is_spelled()
    ensures { SeenIsSpelled }
{}
