//! What a volume holds between consistency points, and that a planned point has what a point owes.
#![tactic(auto)]

mod laws;

pub use laws::{
    at_rest, blocks_hold_bytes, built_is_of_change, clean_nodes_are, counts_are_pointers,
    fresh_point_is_planned, pages_are_spelled, planned_has_point, planned_is_seen, planned_stands,
    staging_holds, switched_root_is_planned, table_holds_tree,
};
