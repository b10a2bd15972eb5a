//! Waiting on an atomic of a type.

ghost use Rattle.std.specs.Prelude.{◌≡◌, ◌<◌, ℕ, IfSome, IfNone};
ghost use Rattle.op_table.specs.declared.call.Call.TheVariants.{Load};
ghost use Rattle.seat_views.specs.Trials.{IsReady};
ghost use Rattle.atomic_types.specs.Atomics.{HasAtomic};
ghost use Rattle.atomic_types.specs.Serving.{IsOne};
ghost use Rattle.wait_cell.specs.Waits.{Waits, Looks, LooksInVain};

use crate::bell::Bell;
use crate::looks::look;
use crate::waits::wait;
use atomic_types::{Atomic, Served};
use scalar_laws::Scalar;
use seat_views::{Arena, Pass};
use std::sync::Wait;

/// What an atomic of a type gains by this crate: each method is the call of its name, by values of the type.
pub trait AtomicWait<V: Scalar> {
    // The number of its object.
    ghost place: { Self → ℕ };

    /// Waits until the value isn't `expected` any more, and answers the value found. It may wait for ever. C++20's
    /// `std::atomic::wait`, which answers nothing.
    fn wait<R: Wait>(&self, rt: &R, arena: &Arena, pass: &mut Pass, expected: V, bell: &Bell) -> V
        requires ready { IsReady arena.now pass.old }
        requires atomic { HasAtomic arena.now.shape V.KIND (place self.now) }
        ensures waits { Waits arena.now.shape (place self.now) (V.bits expected) pass.old (V.bits result) pass.new }
        ensures ready { IsReady arena.now pass.new };

    /// Loads the value up to `turns` times, until it isn't `expected`, and answers the value found. None where it was
    /// `expected` at every load. It waits for nobody; one step loads the object.
    fn look(&self, arena: &Arena, pass: &mut Pass, expected: V, turns: u32) -> Option<V>
        requires ready { IsReady arena.now pass.old }
        requires atomic { HasAtomic arena.now.shape V.KIND (place self.now) }
        requires one { IsOne arena.now.shape (place self.now) Load }
        requires turns { 0 < turns }
        ensures some { IfSome result (λ v. Looks arena.now.shape (place self.now) (V.bits expected) turns pass.old (V.bits v) pass.new) }
        ensures none { IfNone result (LooksInVain arena.now.shape (place self.now) (V.bits expected) turns pass.old pass.new) }
        ensures ready { IsReady arena.now pass.new };
}

impl<V: Scalar> AtomicWait<V> for Atomic<V> {
    ghost place = { λ a. a };

    fn wait<R: Wait>(&self, rt: &R, arena: &Arena, pass: &mut Pass, expected: V, bell: &Bell) -> V {
        let served = Served {
            object: self.object(),
        };
        V::from_bits(wait(rt, arena, pass, served, expected.to_bits(), bell))
    }

    fn look(&self, arena: &Arena, pass: &mut Pass, expected: V, turns: u32) -> Option<V> {
        let served = Served {
            object: self.object(),
        };
        match look(arena, pass, served, expected.to_bits(), turns) {
            Some(found) => Some(V::from_bits(found)),
            None => None,
        }
    }
}
