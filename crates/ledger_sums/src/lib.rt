//! Last values that the order of calls can't change.
#![tactic(auto)]

mod families;
mod fixed;
pub mod laws;
mod tally;
#[cfg(test)]
mod tests;

pub use fixed::{Fixed, fixed_values};
