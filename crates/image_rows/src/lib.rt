//! Worked rows: images that are made from the grammar, and what is found in each.
#![tactic(auto)]

mod rows;

pub use rows::{
    bad_directory_rows, bad_geometry_rows, bad_inode_rows, bad_log_rows, bad_pointer_rows,
    bad_tail_rows, first_rows, fresh_is_met, limit_rows, mixed_block_rows, no_reserve_rows,
    no_root_rows, not_a_tree_rows, order_rows, point_is_met, record_is_met, sound_images,
    wrong_count_rows,
};
