//! Calls on an object's lane that wait for nobody: one step, or a look and one try.
#![tactic(auto)]

mod lane;
pub mod laws;
#[cfg(test)]
mod tests;
#[cfg(test)]
mod trials;

pub use lane::Lane;
