//! Updates of typed atomics.

ghost use Rattle.std.specs.Prelude.{◌≡◌, ℕ, ◌-◌, Ok};
ghost use Rattle.op_table.specs.declared.kind.Kind.{Kind};
ghost use Rattle.op_table.specs.Kind.{values_of};
ghost use Rattle.seat_views.specs.Trials.{IsReady};
ghost use Rattle.atomic_types.specs.Atomics.{HasAtomic};
ghost use Rattle.update_table.specs.Updates.{Updates};
ghost use Rattle.update_table.specs.Values.{always, answers_as, ended_as};

use atomic_types::Atomic;
use crossbeam_utils::Backoff;
use op_table::{LoadOrder, Order};
use scalar_laws::Scalar;
use seat_views::{Arena, Pass};
use std::sync::Wait;

/// Atomics that are updated by a closure.
pub trait FetchUpdate {
    /// A value of the atomic.
    type Value: Copy;

    // The object, its kind, the number of a value, and the value of a number.
    ghost object: { Self → ℕ };

    ghost kind: { Kind };

    ghost bits: { Self.Value → ℕ };

    ghost of_bits: { ℕ → Self.Value };

    /// Loads the value, and exchanges it for what `f` answers at it, each time from the value that was found last: Ok of
    /// the value before where an exchange was done. Where `f` answers None nothing is stored: Err of that value. Any two
    /// orders, served as `SeqCst`. It may wait for other threads. portable-atomic's `fetch_update`.
    fn fetch_update<F: Fn(Self::Value) -> Option<Self::Value>, R: Wait>(
        &self,
        rt: &R,
        arena: &Arena,
        pass: &mut Pass,
        set_order: Order,
        fetch_order: LoadOrder,
        f: F,
    ) -> Result<Self::Value, Self::Value>
        requires ready { IsReady arena.now pass.old }
        requires atomic { HasAtomic arena.now.shape kind (object self.now) }
        requires callable { F.IsAlwaysCallable f }
        ensures updates { Updates arena.now.shape (object self.now) 0 (values_of kind - 1) (answers_as of_bits bits (F.post f)) pass.old (ended_as bits result) pass.new }
        ensures ready { IsReady arena.now pass.new };

    /// The same with a closure that always answers, and so always stores: the value before. std's `update`.
    fn update<F: Fn(Self::Value) -> Self::Value, R: Wait>(
        &self,
        rt: &R,
        arena: &Arena,
        pass: &mut Pass,
        set_order: Order,
        fetch_order: LoadOrder,
        f: F,
    ) -> Self::Value
        requires ready { IsReady arena.now pass.old }
        requires atomic { HasAtomic arena.now.shape kind (object self.now) }
        requires callable { F.IsAlwaysCallable f }
        ensures updates { Updates arena.now.shape (object self.now) 0 (values_of kind - 1) (answers_as of_bits bits (always (F.post f))) pass.old (Ok (bits result)) pass.new }
        ensures ready { IsReady arena.now pass.new };
}

/// Updates an atomic of a type.
#[inline(always)]
fn exchange_values<V: Scalar, F: Fn(V) -> Option<V>, R: Wait>(
    rt: &R,
    arena: &Arena,
    pass: &mut Pass,
    atomic: &Atomic<V>,
    f: F,
) -> Result<V, V>
    requires ready { IsReady arena.now pass.old }
    requires atomic { HasAtomic arena.now.shape V.KIND atomic.now }
    requires callable { F.IsAlwaysCallable f }
    ensures updates { Updates arena.now.shape atomic.now 0 (values_of V.KIND - 1) (answers_as V.of_bits V.bits (F.post f)) pass.old (ended_as V.bits result) pass.new }
    ensures ready { IsReady arena.now pass.new }
{
    // Only for its clause: what the pass has seen is legal.
    let _number = pass.number();
    let mut found = atomic.load(rt, arena, pass, LoadOrder::SeqCst);
    let pause = Backoff::new();
    for _ in rt.forever() {
        // Only for its clause: the number is one of the kind's. So below.
        let _from = found.to_bits();
        let Some(new) = f(found) else {
            return Err(found);
        };
        let _to = new.to_bits();
        match atomic.compare_exchange(
            rt,
            arena,
            pass,
            found,
            new,
            Order::SeqCst,
            LoadOrder::SeqCst,
        ) {
            Ok(_) => return Ok(found),
            Err(other) => found = other,
        }
        pause.spin();
    }
    unreachable!()
}

/// Updates an atomic of a type by a closure that always answers.
#[inline(always)]
fn exchange_always<V: Scalar, F: Fn(V) -> V, R: Wait>(
    rt: &R,
    arena: &Arena,
    pass: &mut Pass,
    atomic: &Atomic<V>,
    f: F,
) -> V
    requires ready { IsReady arena.now pass.old }
    requires atomic { HasAtomic arena.now.shape V.KIND atomic.now }
    requires callable { F.IsAlwaysCallable f }
    ensures updates { Updates arena.now.shape atomic.now 0 (values_of V.KIND - 1) (answers_as V.of_bits V.bits (always (F.post f))) pass.old (Ok (V.bits result)) pass.new }
    ensures ready { IsReady arena.now pass.new }
{
    // Only for its clause: what the pass has seen is legal.
    let _number = pass.number();
    let mut found = atomic.load(rt, arena, pass, LoadOrder::SeqCst);
    let pause = Backoff::new();
    for _ in rt.forever() {
        let new = f(found);
        // Only for their clauses: each number is one of the kind's.
        let _from = found.to_bits();
        let _to = new.to_bits();
        match atomic.compare_exchange(
            rt,
            arena,
            pass,
            found,
            new,
            Order::SeqCst,
            LoadOrder::SeqCst,
        ) {
            Ok(_) => return found,
            Err(other) => found = other,
        }
        pause.spin();
    }
    unreachable!()
}

impl<V: Scalar> FetchUpdate for Atomic<V> {
    type Value = V;

    ghost object = { λ a. a };

    ghost kind = { V.KIND };

    ghost bits = { V.bits };

    ghost of_bits = { V.of_bits };

    #[inline(always)]
    fn fetch_update<F: Fn(V) -> Option<V>, R: Wait>(
        &self,
        rt: &R,
        arena: &Arena,
        pass: &mut Pass,
        _set_order: Order,
        _fetch_order: LoadOrder,
        f: F,
    ) -> Result<V, V> {
        exchange_values(rt, arena, pass, self, f)
    }

    #[inline(always)]
    fn update<F: Fn(V) -> V, R: Wait>(
        &self,
        rt: &R,
        arena: &Arena,
        pass: &mut Pass,
        _set_order: Order,
        _fetch_order: LoadOrder,
        f: F,
    ) -> V {
        exchange_always(rt, arena, pass, self, f)
    }
}
