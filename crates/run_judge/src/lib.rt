//! Whether a report of a run of scripts over a shape can be.
#![tactic(auto)]

mod agreeing;
mod judging;
mod reports;
#[cfg(test)]
mod tests;

pub use agreeing::Agreeing;
pub use judging::judge;
