//! Tests of what accepted commands stage: effects one after the other, some of them undone, and what is staged then.
#![tactic(auto)]

#[cfg(test)]
mod effects;
#[cfg(test)]
mod staging;
