//! What holds of directories, each on a function whose contract it is.
ghost use Rattle.dir_slots.specs.Laws.{NamesArePut, NamesAreRemoved, OneDirectory};

/// An entry of a new name in the least unused slot gives that name its number, and leaves all others.
pub fn names_are_put()
    ensures { NamesArePut }
{}

/// Without the slot of a name, that name has no number, and all others have what they had.
pub fn names_are_removed()
    ensures { NamesAreRemoved }
{}

/// Blocks spell one directory of a width.
pub fn one_directory()
    ensures { OneDirectory }
{}
