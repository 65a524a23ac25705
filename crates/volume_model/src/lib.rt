//! What a volume is, apart from any disk: its state, its consistency points, what it answers, and the space that it takes.
#![tactic(auto)]

mod laws;
mod report_laws;
mod sequence;

pub use laws::{
    always_whole, done_has_room, excuses_are_few, fresh_are_unused, fresh_lines_are, legal_is,
    mounted_stores, next_stored, next_tree, one_point, one_selection, pieces_are, point_fits,
    points_exist, replies_are_the_trees, selected_is, some_is_legal, use_keeps,
};
pub use report_laws::{
    each_place_once, eight_at_most, lines_are_apart, places_are_told, report_lines_are,
    shared_bytes_are_equal, stays_a_cache_list,
};
pub use sequence::Sequence;
