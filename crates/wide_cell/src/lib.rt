//! Calls on objects with parts: a load looks without the lock first, and every other call takes the lock.
#![tactic(auto)]

mod cell;
mod look;
mod once;
#[cfg(test)]
mod once_trials;
#[cfg(test)]
mod tests;
#[cfg(test)]
mod trials;

pub use cell::call;
pub use look::glance;
pub use once::try_call;
