//! Tests of the ends of a session and of its text: of what no contract says.
#![tactic(auto)]

#[cfg(test)]
mod answers;
#[cfg(test)]
mod limits;
#[cfg(test)]
mod mem_ends;
#[cfg(test)]
mod sessions;
#[cfg(test)]
mod std_ends;
#[cfg(test)]
mod writes;
