//! Tests of the fresh blocks that a consistency point gives to dirty places.
#![tactic(auto)]

#[cfg(test)]
mod placing;
