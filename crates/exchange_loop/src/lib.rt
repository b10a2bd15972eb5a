//! Calls on an object's lane by a loop of tries.
#![tactic(auto)]

#[cfg(test)]
mod tests;
#[cfg(test)]
mod trials;
mod turns;

pub use turns::turn_until;
