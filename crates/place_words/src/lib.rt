//! Words of counting: different numbers, spans, how often a number is there, and how many index blocks a node needs.
#![tactic(auto)]

mod laws;

pub use laws::{
    among_times, different_is, different_part, different_same, distinct_count, index_rows,
    rising_full, total_same,
};
