//! Laws of what is read.
ghost use Rattle.place_read.specs.Laws.{ReadIsData};

/// The bytes of a part of a file are what the command `read` is answered with.
pub fn read_is_data()
    ensures { ReadIsData }
{}
