//! A whole run of scripts on an arena: its passes given, run side by side, and taken back, and then the last loads.
#![tactic(auto)]

mod loads;
mod manned;
mod runs;
mod taken;
#[cfg(test)]
mod tests;
#[cfg(test)]
mod trials;
mod whole;

pub use whole::{ReadyRun, WholeRun, run_whole};
