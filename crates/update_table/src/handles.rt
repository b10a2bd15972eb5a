//! Updates of atomic handles.

ghost use Rattle.std.specs.Prelude.{◌≡◌, ℕ, ◌-◌, ◌<◌, Ok};
ghost use Rattle.op_table.specs.Kind.{values_of};
ghost use Rattle.scalar_laws.specs.Kinds.{address};
ghost use Rattle.seat_views.specs.Trials.{IsReady};
ghost use Rattle.atomic_types.specs.Atomics.{HasAtomic};
ghost use Rattle.update_table.specs.HandleBits.{bits_of_handle, handle_of};
ghost use Rattle.update_table.specs.Updates.{Updates};
ghost use Rattle.update_table.specs.Values.{always, answers_as, ended_as};

use crossbeam_utils::Backoff;
use op_table::{LoadOrder, Order};
use ptr_handles::{AtomicHandle, Handle};
use seat_views::{Arena, Pass};
use std::sync::Wait;

/// Atomic handles that are updated by a closure.
pub trait FetchUpdateHandle {
    // The object.
    ghost object: { Self → ℕ };

    /// Loads the handle, and exchanges it for what `f` answers at it, each time from the handle that was found last: Ok of
    /// the handle before where an exchange was done. Where `f` answers None nothing is stored: Err of that handle. Any two
    /// orders, served as `SeqCst`. It may wait for other threads. portable-atomic's `AtomicPtr::fetch_update`.
    fn fetch_update<F: Fn(Handle) -> Option<Handle>, R: Wait>(
        &self,
        rt: &R,
        arena: &Arena,
        pass: &mut Pass,
        set_order: Order,
        fetch_order: LoadOrder,
        f: F,
    ) -> Result<Handle, Handle>
        requires ready { IsReady arena.now pass.old }
        requires atomic { HasAtomic arena.now.shape address (object self.now) }
        requires callable { F.IsAlwaysCallable f }
        ensures updates { Updates arena.now.shape (object self.now) 0 (values_of address - 1) (answers_as handle_of bits_of_handle (F.post f)) pass.old (ended_as bits_of_handle result) pass.new }
        ensures ready { IsReady arena.now pass.new };

    /// The same with a closure that always answers, and so always stores: the handle before. std's `AtomicPtr::update`.
    fn update<F: Fn(Handle) -> Handle, R: Wait>(
        &self,
        rt: &R,
        arena: &Arena,
        pass: &mut Pass,
        set_order: Order,
        fetch_order: LoadOrder,
        f: F,
    ) -> Handle
        requires ready { IsReady arena.now pass.old }
        requires atomic { HasAtomic arena.now.shape address (object self.now) }
        requires callable { F.IsAlwaysCallable f }
        ensures updates { Updates arena.now.shape (object self.now) 0 (values_of address - 1) (answers_as handle_of bits_of_handle (always (F.post f))) pass.old (Ok result.bits) pass.new }
        ensures ready { IsReady arena.now pass.new };
}

/// A handle's bits are those of an address.
#[inline(always)]
fn is_address(handle: Handle)
    ensures { handle.bits < values_of address }
{
    let _bits = handle.bits;
}

/// Updates an atomic handle.
#[inline(always)]
fn exchange_handles<F: Fn(Handle) -> Option<Handle>, R: Wait>(
    rt: &R,
    arena: &Arena,
    pass: &mut Pass,
    atomic: &AtomicHandle,
    f: F,
) -> Result<Handle, Handle>
    requires ready { IsReady arena.now pass.old }
    requires atomic { HasAtomic arena.now.shape address atomic.now }
    requires callable { F.IsAlwaysCallable f }
    ensures updates { Updates arena.now.shape atomic.now 0 (values_of address - 1) (answers_as handle_of bits_of_handle (F.post f)) pass.old (ended_as bits_of_handle result) pass.new }
    ensures ready { IsReady arena.now pass.new }
{
    // Only for its clause: what the pass has seen is legal.
    let _number = pass.number();
    let mut found = atomic.load(rt, arena, pass, LoadOrder::SeqCst);
    let pause = Backoff::new();
    for _ in rt.forever() {
        // Only for its clause.
        is_address(found);
        let Some(new) = f(found) else {
            return Err(found);
        };
        match atomic.compare_exchange(
            rt,
            arena,
            pass,
            found,
            new,
            Order::SeqCst,
            LoadOrder::SeqCst,
        ) {
            Ok(_) => return Ok(found),
            Err(other) => found = other,
        }
        pause.spin();
    }
    unreachable!()
}

/// Updates an atomic handle by a closure that always answers.
#[inline(always)]
fn exchange_handles_always<F: Fn(Handle) -> Handle, R: Wait>(
    rt: &R,
    arena: &Arena,
    pass: &mut Pass,
    atomic: &AtomicHandle,
    f: F,
) -> Handle
    requires ready { IsReady arena.now pass.old }
    requires atomic { HasAtomic arena.now.shape address atomic.now }
    requires callable { F.IsAlwaysCallable f }
    ensures updates { Updates arena.now.shape atomic.now 0 (values_of address - 1) (answers_as handle_of bits_of_handle (always (F.post f))) pass.old (Ok result.bits) pass.new }
    ensures ready { IsReady arena.now pass.new }
{
    // Only for its clause: what the pass has seen is legal.
    let _number = pass.number();
    let mut found = atomic.load(rt, arena, pass, LoadOrder::SeqCst);
    let pause = Backoff::new();
    for _ in rt.forever() {
        // Only for its clause.
        is_address(found);
        let new = f(found);
        match atomic.compare_exchange(
            rt,
            arena,
            pass,
            found,
            new,
            Order::SeqCst,
            LoadOrder::SeqCst,
        ) {
            Ok(_) => return found,
            Err(other) => found = other,
        }
        pause.spin();
    }
    unreachable!()
}

impl FetchUpdateHandle for AtomicHandle {
    ghost object = { λ a. a };

    #[inline(always)]
    fn fetch_update<F: Fn(Handle) -> Option<Handle>, R: Wait>(
        &self,
        rt: &R,
        arena: &Arena,
        pass: &mut Pass,
        _set_order: Order,
        _fetch_order: LoadOrder,
        f: F,
    ) -> Result<Handle, Handle> {
        exchange_handles(rt, arena, pass, self, f)
    }

    #[inline(always)]
    fn update<F: Fn(Handle) -> Handle, R: Wait>(
        &self,
        rt: &R,
        arena: &Arena,
        pass: &mut Pass,
        _set_order: Order,
        _fetch_order: LoadOrder,
        f: F,
    ) -> Handle {
        exchange_handles_always(rt, arena, pass, self, f)
    }
}
