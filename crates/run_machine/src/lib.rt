//! The machine of scripts over a shape, and every state that a run of them can reach.
#![tactic(auto)]

mod machine;
mod search;
#[cfg(test)]
mod tests;

pub use machine::Machine;
pub use search::every_state;
