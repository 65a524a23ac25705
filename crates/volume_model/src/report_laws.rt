//! Laws of the report of a point and of cache lists, each on a function whose contract it is.
ghost use Rattle.volume_model.specs.CacheLaws.{StaysACacheList, EightAtMost};
ghost use Rattle.volume_model.specs.ReportLaws.{EachPlaceOnce, LinesAreApart, ReportLinesAre, SharedBytesAreEqual, PlacesAreTold};

/// Each dirty place is in one line of a report, and no other place is in any.
pub fn each_place_once()
    ensures { EachPlaceOnce }
{}

/// No two lines of a report share a place.
pub fn lines_are_apart()
    ensures { LinesAreApart }
{}

/// The lines of a report are the share lines and the fresh lines, in the order of numbers and places.
pub fn report_lines_are()
    ensures { ReportLinesAre }
{}

/// The blocks of a share line are cached, and held the bytes of its places at the last point.
pub fn shared_bytes_are_equal()
    ensures { SharedBytesAreEqual }
{}

/// After a point each place of a line has its block, and each place that wasn't dirty has what was kept of it.
pub fn places_are_told()
    ensures { PlacesAreTold }
{}

/// What uses and points make of a cache list has each block once, and no more pairs than its capacity.
pub fn stays_a_cache_list()
    ensures { StaysACacheList }
{}

/// What uses and points make of a cache list has at most eight pairs of each fingerprint.
pub fn eight_at_most()
    ensures { EightAtMost }
{}
