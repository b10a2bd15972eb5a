//! Pointers as handles: an item of a pool with a tag, in an arena's object.
//!
//! ```
//! let pool = three(rt.alloc()).ok_or("memory")?;
//! let (arena, mut root) = open::<Addr>(rt.alloc()).ok_or("it opens")?;
//! let mut pass = root.pass(&arena).ok().ok_or("a number is left")?;
//! let top = AtomicHandle::of(&arena, 0).ok_or("a pointer")?;
//! let first = pool.handle(0).ok_or("an item")?.with_tag(3);
//! let null = Handle::null();
//! let order = Order::AcqRel;
//! let pushed = top.compare_exchange(&rt, &arena, &mut pass, null, first, order, LoadOrder::Relaxed);
//! assert_eq!(rt; pushed, Ok(null));
//! let seen = top.load(&rt, &arena, &mut pass, LoadOrder::Acquire);
//! assert_eq!(rt; seen.tag(), 3);
//! assert_eq!(rt; pool.get(seen), Some(&65));
//! ```
//!
//! `three` makes a pool of 65, 66 and 67, and `open` an arena of one object, as `atomic_types` shows. Rust's pointers to
//! memory have no counterpart here: a handle is a number, and the pool that it is of has the item.
#![tactic(auto)]

mod atomic;
mod handle;
pub mod laws;
mod pool;
#[cfg(test)]
mod tests;

pub use atomic::AtomicHandle;
pub use handle::Handle;
pub use pool::Pool;
