//! Laws of counting, each on a function whose contract it is.
ghost use Rattle.place_words.specs.Laws.{DifferentIs, DifferentSame, DifferentPart, DistinctCount, TotalSame, AmongTimes, RisingFull, IndexRows};

/// Where all numbers lie in a span, the different ones are those of the span that are among them: so a table of counts has them.
pub fn different_is()
    ensures { DifferentIs }
{}

/// The same numbers are as many different ones, in any order and however often each is there.
pub fn different_same()
    ensures { DifferentSame }
{}

/// A part of the numbers has at most as many different ones.
pub fn different_part()
    ensures { DifferentPart }
{}

/// Numbers of which none stands twice are all different.
pub fn distinct_count()
    ensures { DistinctCount }
{}

/// What is summed over the same numbers, each there once, is the same in any order.
pub fn total_same()
    ensures { TotalSame }
{}

/// A number is among some exactly where it is there at least once.
pub fn among_times()
    ensures { AmongTimes }
{}

/// As many rising numbers as a span has, all in it, are the span.
pub fn rising_full()
    ensures { RisingFull }
{}

/// How many index blocks nodes of several sizes need.
pub fn index_rows()
    ensures { IndexRows }
{}
