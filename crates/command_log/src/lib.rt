//! Logs a command of a volume: writes its record behind the others, and switches to a root that counts it.
#![tactic(auto)]

mod logging;

pub use logging::log;
