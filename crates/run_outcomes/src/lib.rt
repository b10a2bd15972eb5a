//! The outcomes of runs of scripts over a shape: every one of them, each once.
#![tactic(auto)]

mod ends;
mod search;
#[cfg(test)]
mod tests;

pub use ends::ends_all;
pub use search::{every_outcome, longest};
