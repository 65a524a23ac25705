//! Tests that cross crates and that no row of `server_rows` can hold: power cuts and failures at each call, and the writes of an answer.
#![tactic(auto)]

#[cfg(test)]
mod checks;
#[cfg(test)]
mod cuts;
#[cfg(test)]
mod runs;
#[cfg(test)]
mod writes;
