//! Rows for tests of a volume's check: images in memory, drawn number by number, and what a check answers.
#![tactic(auto)]

mod picture;
mod rows;

pub use picture::{Put, draw, image, set};
pub use rows::{BLOCKS, Row, SAMPLE, Want, answer, first_wrong};
