//! Tests of a volume's check: images that are made to mislead it or to cost much, disks that fail, and damages of a volume in use.
#![tactic(auto)]

#[cfg(test)]
mod failing;
#[cfg(test)]
mod hostile;
#[cfg(test)]
mod order;
#[cfg(test)]
mod widest;
#[cfg(test)]
mod worked;
