//! Tests of the consistency point: a volume with effects that are staged by hand, and what a point makes of it.
#![tactic(auto)]

mod held;
mod loading;
mod quiet;
mod slots;

pub use held::staged;
pub use loading::fresh_state;
pub use quiet::Quiet;

#[cfg(test)]
mod acts;
#[cfg(test)]
mod again;
#[cfg(test)]
mod failing;
#[cfg(test)]
mod heights;
#[cfg(test)]
mod picture;
#[cfg(test)]
mod shorts;
#[cfg(test)]
mod small;
#[cfg(test)]
mod volume;
#[cfg(test)]
mod worked;
