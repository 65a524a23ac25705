//! Laws of calls that follow one another.
ghost use Rattle.wire_ends.specs.Laws.{TakesCompose, TakesWhole, PutsCompose, PartBehind, PartOfMore, PassesCompose, PassesWhole, PassesPart};

/// What two calls took in a row is one piece.
pub fn takes_compose()
    ensures { TakesCompose }
{}

/// Where nothing is left, all that a source had was taken.
pub fn takes_whole()
    ensures { TakesWhole }
{}

/// What two calls put in a row is put as one.
pub fn puts_compose()
    ensures { PutsCompose }
{}

/// Of a put that fails behind others a prefix of all their bytes stands.
pub fn part_behind()
    ensures { PartBehind }
{}

/// Where the rest isn't tried, a prefix of all the bytes stands as well.
pub fn part_of_more()
    ensures { PartOfMore }
{}

/// What goes through a buffer in two calls in a row goes through as one.
pub fn passes_compose()
    ensures { PassesCompose }
{}

/// Once an empty buffer is let out again, all that went through it was put.
pub fn passes_whole()
    ensures { PassesWhole }
{}

/// Of a put that fails in a buffer behind others a prefix of all their bytes stands.
pub fn passes_part()
    ensures { PassesPart }
{}
