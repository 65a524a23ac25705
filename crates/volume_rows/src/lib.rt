//! Worked rows of the volume's model: what it says of given commands, computed. Each is on a function whose contract it is.
#![tactic(auto)]

mod files;
mod sharing;
mod space;

pub use files::{
    a_cut_between_blocks_touches_nothing, a_cut_block_is_written_afresh,
    a_file_is_removed_and_made_again, a_format_leaves_all_free, a_grown_file_keeps_its_blocks,
    a_point_at_rest, a_removed_file_leaves_shared_blocks, a_write_of_nothing,
    one_block_is_written_over, one_file_is_stored, which_blocks_may_be_fresh,
};
pub use sharing::{
    a_file_shares_another, a_freed_block_is_forgotten, a_sequence_at_the_threshold,
    a_sequence_below_the_threshold, blocks_of_the_last_point_are_compared,
    files_of_one_point_stay_apart, one_block_is_enough, the_least_place_is_taken,
    the_least_recently_used_leaves_first, the_longest_is_taken, the_ninth_of_a_fingerprint,
};
pub use space::{
    a_full_log_makes_a_point_due, a_full_volume_answers_the_same, a_full_volume_refuses,
    a_point_lacks_blocks, a_remove_frees_its_blocks, a_volume_is_filled, charges_make_a_point_due,
    just_enough_is_enough, the_trees_refusal_comes_first,
};
