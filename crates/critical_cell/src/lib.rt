//! Calls on objects of a section: every call takes the section's lock.
#![tactic(auto)]

mod cell;
#[cfg(test)]
mod tests;
#[cfg(test)]
mod trials;

pub use cell::call;
