//! Rows on sharing.
ghost use Rattle.volume_rows.specs.Sharing.{SharedRow, BelowThresholdRow, AtThresholdRow, LongestRows, OnePointRows, LeastPlaceRows, OldBlocksRow, ForgottenRow, OneIsEnoughRows, NinthRows, OrderOfUseRows};

/// A second file of the same blocks shares them all.
pub fn a_file_shares_another()
    ensures { SharedRow }
{}

/// Three equal blocks are not shared at the threshold 4.
pub fn a_sequence_below_the_threshold()
    ensures { BelowThresholdRow }
{}

/// Four are.
pub fn a_sequence_at_the_threshold()
    ensures { AtThresholdRow }
{}

/// Of two sequences the longer one is taken.
pub fn the_longest_is_taken()
    ensures { LongestRows }
{}

/// Two files of one point don't share with each other.
pub fn files_of_one_point_stay_apart()
    ensures { OnePointRows }
{}

/// Of two sequences of the same length the one from the lesser place is taken.
pub fn the_least_place_is_taken()
    ensures { LeastPlaceRows }
{}

/// What a file had at the last point can be shared, also where it was written over since.
pub fn blocks_of_the_last_point_are_compared()
    ensures { OldBlocksRow }
{}

/// A block that is no longer the block of a place is not cached.
pub fn a_freed_block_is_forgotten()
    ensures { ForgottenRow }
{}

/// One block is shared at the threshold 1.
pub fn one_block_is_enough()
    ensures { OneIsEnoughRows }
{}

/// Of nine blocks with one fingerprint the one that was used first is no longer cached.
pub fn the_ninth_of_a_fingerprint()
    ensures { NinthRows }
{}

/// The pair that was used least recently leaves the cache list first.
pub fn the_least_recently_used_leaves_first()
    ensures { OrderOfUseRows }
{}
