//! Laws of the states that are reached from a mounted volume, each on a function whose contract it is.
ghost use Rattle.state_laws.specs.Laws.{AcceptedIsDone, AlwaysCoherent, BlocksHaveBytes, CacheListsAre, ChangesFollow, DirectoriesAreWide, FingerprintsAreTrue, FreshIsMountable, HolesRead, KeptStays, PlacesAreInFiles, StoredIsMountable, StoresItself};

/// A change is accepted exactly where the tree answers it as done.
pub fn accepted_is_done()
    ensures { AcceptedIsDone }
{}

/// What an accepted change cuts off reads as zeros, what it touches is a place of a file, and no other place changes.
pub fn changes_follow()
    ensures { ChangesFollow }
{}

/// What a format leaves can be mounted.
pub fn fresh_is_mountable()
    ensures { FreshIsMountable }
{}

/// A volume that was mounted is coherent, and each legal answer leaves it so.
pub fn always_coherent()
    ensures { AlwaysCoherent }
{}

/// What a state stores can be mounted.
pub fn stored_is_mountable()
    ensures { StoredIsMountable }
{}

/// Each kept or dirty place is a place of a file.
pub fn places_are_in_files()
    ensures { PlacesAreInFiles }
{}

/// A kept place has the bytes that it had at the last point.
pub fn kept_stays()
    ensures { KeptStays }
{}

/// A place that is neither kept nor dirty reads as zeros.
pub fn holes_read()
    ensures { HolesRead }
{}

/// Places that had the same block at the last point had the same bytes.
pub fn blocks_have_bytes()
    ensures { BlocksHaveBytes }
{}

/// The cache list has each block once, at most its capacity, and at most eight pairs of each fingerprint.
pub fn cache_lists_are()
    ensures { CacheListsAre }
{}

/// Each pair of the cache list has the fingerprint of the bytes that its block has.
pub fn fingerprints_are_true()
    ensures { FingerprintsAreTrue }
{}

/// A state is that of mounting what it stores, but for its cache list.
pub fn stores_itself()
    ensures { StoresItself }
{}

/// A directory is at least as wide as it has entries.
pub fn directories_are_wide()
    ensures { DirectoriesAreWide }
{}
