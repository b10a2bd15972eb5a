//! What a waiter sleeps at.
//!
//! No wake is lost. A waiter looks at the number while it holds the bell's mutex, and goes to sleep with it: the mutex is
//! given up only once the waiter counts as a sleeper. A ring takes the mutex before it wakes. So a ring that follows a
//! change either takes the mutex before the waiter does, who then sees the change and doesn't sleep, or takes it once the
//! waiter sleeps, and wakes it. Without the mutex this goes wrong: the waiter looks and sees the old number; another thread
//! changes it and rings, and nobody sleeps yet; then the waiter sleeps, and no ring is left to wake it.

use std::sync::{Condvar, Mutex, MutexGuard, Wait};

/// A bell: threads sleep at it, and a ring wakes them all. One bell may serve many objects, and one object many bells. It
/// takes no memory.
#[derive(Drop)]
pub struct Bell {
    order: Mutex<()>,
    rung: Condvar,
}

impl Bell {
    /// A bell at which nobody sleeps.
    pub const fn new() -> Bell {
        Bell {
            order: Mutex::new(()),
            rung: Condvar::new(),
        }
    }

    /// Wakes all that sleep at the bell, to be called after a change. Each looks again, and sleeps again where its number
    /// hasn't changed. It may wait for the bell's mutex. C++20's `notify_all`; no clause says that a wake arrives.
    #[inline(always)]
    pub fn ring<R: Wait>(&self, rt: &R) {
        drop(self.order.lock(rt));
        self.rung.notify_all();
    }

    /// Holds the bell's mutex, so that no ring comes between a look and the sleep that follows.
    pub(crate) fn hold<R: Wait>(&self, rt: &R) -> MutexGuard<'_, ()> {
        self.order.lock(rt)
    }

    /// Gives the mutex up and sleeps until a ring, or for no reason not so long; then holds it again.
    pub(crate) fn sleep<'b, R: Wait>(
        &self,
        rt: &R,
        held: MutexGuard<'b, ()>,
    ) -> MutexGuard<'b, ()> {
        self.rung.wait(rt, held)
    }
}
