//! Locks with stamps: the parts of an object under its lock, and glances at them without it.
#![tactic(auto)]

mod calls;
mod glances;
mod holds;
mod spreads;
#[cfg(test)]
mod tests;
#[cfg(test)]
mod trials;

pub use calls::{locked, try_locked};
pub use glances::{Missed, glance_begin, glance_end, glance_part};
pub use holds::{held_value, put_value, release, release_same, take, try_take};
pub use spreads::{Spread, spread_of};
