//! Waiting for a change of an arena's object, and what is made of it: permits and latches.
//!
//! ```
//! // On an arena whose object 0 is a u32 of 2, and whose bell all threads share, each thread with a pass of its own:
//! let permits = Permits::of(&arena, 0).ok_or("a u32")?;
//! let left = permits.take(&rt, &arena, &mut pass, &bell);
//! // .. at most two threads are here at a time ..
//! permits.give(&rt, &arena, &mut pass, &bell);
//! ```
//!
//! A waiter tests the number while it holds the bell's mutex, and a ring takes that mutex before it wakes; so no wake is
//! lost, as `bell` tells with the schedule that goes wrong without it. Every call that changes a number on which others wait
//! must be followed by a ring: `give` and `count_down` ring themselves.
#![tactic(auto)]

mod bell;
mod calls;
mod latch;
pub mod laws;
mod looks;
mod permits;
mod takes;
#[cfg(test)]
mod tests;
#[cfg(test)]
mod trials;
mod typed;
mod waits;

pub use bell::Bell;
pub use latch::Latch;
pub use looks::look;
pub use permits::Permits;
pub use takes::Zero;
pub use typed::AtomicWait;
pub use waits::{wait, wait_while};
