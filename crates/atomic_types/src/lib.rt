//! Calls on an arena's objects, by type or by number.
//!
//! ```
//! let name = Name::of(b"visits").ok_or("a name")?;
//! let objects = [Declared { name, kind: u64::KIND, start: 41 }];
//! let target = builtin(b"full64").ok_or("a target")?;
//! if !target_ok(&target) || !are_declared(&objects) {
//!     return Err(Fail::from("a valid target and objects"));
//! }
//! let shape = lay(rt.alloc(), &target, &objects).ok().ok_or("memory")?;
//! let (arena, mut root) = Arena::open(rt.alloc(), shape, 0).ok().ok_or("memory")?;
//! let mut pass = root.pass(&arena).ok().ok_or("a number is left")?;
//! let visits = AtomicU64::of(&arena, 0).ok_or("a u64")?;
//! assert_eq!(rt; visits.fetch_add(&rt, &arena, &mut pass, 1, Order::Relaxed), 41);
//! assert_eq!(rt; visits.load(&rt, &arena, &mut pass, LoadOrder::Acquire), 42);
//! ```
//!
//! `Atomic<V>` has a typed call for each method of portable-atomic's atomics; `Served` makes any call, given as a
//! `Call`. Both go the way that the arena's plan names.
//!
//! - **Lane.** An object that fits in a word of the target has a lane of a word. A call on it is one step where the
//!   target has a step that makes it there; each typed call says when. Else it is a loop: a look, and tries until one
//!   wins, with one try more for each change of the word that another call made meanwhile.
//! - **Parts.** A wider object has parts under a lock that it shares with some others. A call takes the lock, reads the
//!   parts and stores them; a load first reads them without it, and takes it only where a store fell between.
//! - **Section.** On a section target every call takes the one lock.
//!
//! A loop and a lock may wait for other threads. Every order is accepted and served sequentially consistent.
#![tactic(auto)]

mod aliases;
mod atomic;
mod integer;
mod kinds;
mod logic;
mod served;
#[cfg(test)]
mod tests;
#[cfg(test)]
mod trials;
#[cfg(test)]
mod type_tests;

pub use aliases::{
    AtomicBool, AtomicI8, AtomicI16, AtomicI32, AtomicI64, AtomicI128, AtomicIsize, AtomicU8,
    AtomicU16, AtomicU32, AtomicU64, AtomicU128, AtomicUsize,
};
pub use atomic::Atomic;
pub use served::Served;
