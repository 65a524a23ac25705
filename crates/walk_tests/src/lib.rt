//! Tests of the walk over an image: one that is sound, and damages of it.
#![tactic(auto)]

#[cfg(test)]
mod damages;
#[cfg(test)]
mod drawn;
#[cfg(test)]
mod image;
