//! Atomics of a type.

ghost use Rattle.std.specs.Prelude.{◌≡◌, MatchOption};
ghost use Rattle.op_table.specs.declared.call.Call.TheVariants.{Load, Store, Swap, Cas, CasWeak};
ghost use Rattle.op_table.specs.declared.call.Reply.TheVariants as reply;
ghost use Rattle.op_table.specs.Call.{CallFits};
ghost use Rattle.place_core.specs.Cells.{value_of};
ghost use Rattle.place_core.specs.Shapes.{cells_of_shape};
ghost use Rattle.seat_views.specs.declared.view.Flight.TheVariants.{Idle};
ghost use Rattle.seat_views.specs.States.{IsOf};
ghost use Rattle.atomic_types.specs.Atomics.{After, Before, Bit, Exchanged, HasAtomic, HasForm, Nothing, exchanged, form_of};
ghost use Rattle.atomic_types.specs.Serving.{Serves};

use crate::served::Served;
use op_table::{Call, LoadOrder, Order, Reply, StoreOrder};
use place_core::Shape;
use scalar_laws::Scalar;
use seat_views::{Arena, Pass};
use std::marker::{Model, PhantomData};
use std::sync::Wait;

/// An object of a type, as a number that may be copied: it names the object, and the arena has the value. Contracts see
/// it as the object's number. Each call says what it does on a lane; an object with parts, or of a section, is called
/// under a lock.
#[derive(Clone, Copy)]
pub struct Atomic<V: Scalar> {
    served: Served,
    scalar: PhantomData<V>,
}

impl<V: Scalar> Model for Atomic<V> {
    ghost use Rattle.std.specs.Prelude.{ℕ};

    ghost Value = { ℕ };

    ghost view = { λ a. a.served.object };

    ghost inverse = { λ n. record { served = record { object = n }; scalar = record {} } };
}

impl<V: Scalar> Atomic<V> {
    /// The atomic of an object. None where there is no such object, or its kind isn't the type's.
    pub fn of(arena: &Arena, object: u32) -> Option<Atomic<V>>
        ensures { MatchOption result (HasAtomic arena.now.shape V.KIND object → ⊥) (λ a. (a ≡ object) × HasAtomic arena.now.shape V.KIND object) }
    {
        let objects = &arena.shape().objects;
        if object as usize >= objects.len() || objects.at(object as usize).kind != V::KIND {
            return None;
        }
        Some(Atomic {
            served: Served { object },
            scalar: PhantomData,
        })
    }

    /// The object's number, counted from 0.
    #[inline(always)]
    pub fn object(&self) -> u32
        ensures { result ≡ self.now }
    {
        self.served.object
    }

    /// Makes a call, and tells that its reply has the form of the call's answers.
    #[inline(always)]
    fn reply<R: Wait>(&self, rt: &R, arena: &Arena, pass: &mut Pass, call: &Call) -> Reply
        requires arena { IsOf arena.now pass.old }
        requires atomic { HasAtomic arena.now.shape V.KIND self.now }
        requires fits { CallFits V.KIND call.now }
        requires rest { pass.old.flight ≡ Idle }
        ensures serves { Serves arena.now.shape self.now call.now pass.old result pass.new }
        ensures form { HasForm (form_of call.now) V.KIND result }
    {
        // Only for its clause: the shape is a valid one.
        let _shape = arena.shape();
        self.served.call_as::<V, R>(rt, arena, pass, call)
    }

    /// Makes a call that answers nothing.
    #[inline(always)]
    pub fn quiet<R: Wait>(&self, rt: &R, arena: &Arena, pass: &mut Pass, call: &Call)
        requires arena { IsOf arena.now pass.old }
        requires atomic { HasAtomic arena.now.shape V.KIND self.now }
        requires fits { CallFits V.KIND call.now }
        requires form { form_of call.now ≡ Nothing }
        requires rest { pass.old.flight ≡ Idle }
        ensures { Serves arena.now.shape self.now call.now pass.old reply.Unit pass.new }
    {
        match self.reply(rt, arena, pass, call) {
            Reply::Unit => {}
            _ => unreachable!(),
        }
    }

    /// Makes a call that answers the value before it.
    #[inline(always)]
    pub fn before<R: Wait>(&self, rt: &R, arena: &Arena, pass: &mut Pass, call: &Call) -> V
        requires arena { IsOf arena.now pass.old }
        requires atomic { HasAtomic arena.now.shape V.KIND self.now }
        requires fits { CallFits V.KIND call.now }
        requires form { form_of call.now ≡ Before }
        requires rest { pass.old.flight ≡ Idle }
        ensures { Serves arena.now.shape self.now call.now pass.old (reply.Value (V.bits result)) pass.new }
    {
        match self.reply(rt, arena, pass, call) {
            Reply::Value(bits) => V::from_bits(bits),
            _ => unreachable!(),
        }
    }

    /// Makes a call that answers the value after it, which the object has where the call's entry is the last.
    #[inline(always)]
    pub fn after<R: Wait>(&self, rt: &R, arena: &Arena, pass: &mut Pass, call: &Call) -> V
        requires arena { IsOf arena.now pass.old }
        requires atomic { HasAtomic arena.now.shape V.KIND self.now }
        requires fits { CallFits V.KIND call.now }
        requires form { form_of call.now ≡ After }
        requires rest { pass.old.flight ≡ Idle }
        ensures serves { Serves arena.now.shape self.now call.now pass.old (reply.Value (V.bits result)) pass.new }
        ensures left { value_of (cells_of_shape arena.now.shape) pass.new.seen self.now ≡ V.bits result }
    {
        match self.reply(rt, arena, pass, call) {
            Reply::Value(bits) => V::from_bits(bits),
            _ => unreachable!(),
        }
    }

    /// Makes a call that answers whether a bit was 1.
    #[inline(always)]
    pub fn bit<R: Wait>(&self, rt: &R, arena: &Arena, pass: &mut Pass, call: &Call) -> bool
        requires arena { IsOf arena.now pass.old }
        requires atomic { HasAtomic arena.now.shape V.KIND self.now }
        requires fits { CallFits V.KIND call.now }
        requires form { form_of call.now ≡ Bit }
        requires rest { pass.old.flight ≡ Idle }
        ensures { Serves arena.now.shape self.now call.now pass.old (reply.Bit result) pass.new }
    {
        match self.reply(rt, arena, pass, call) {
            Reply::Bit(bit) => bit,
            _ => unreachable!(),
        }
    }

    /// Makes an exchange: Ok of the value before it where it was made, and else Err of it.
    #[inline(always)]
    pub fn exchange<R: Wait>(
        &self,
        rt: &R,
        arena: &Arena,
        pass: &mut Pass,
        call: &Call,
    ) -> Result<V, V>
        requires arena { IsOf arena.now pass.old }
        requires atomic { HasAtomic arena.now.shape V.KIND self.now }
        requires fits { CallFits V.KIND call.now }
        requires form { form_of call.now ≡ Exchanged }
        requires rest { pass.old.flight ≡ Idle }
        ensures { Serves arena.now.shape self.now call.now pass.old (exchanged V.bits result) pass.new }
    {
        match self.reply(rt, arena, pass, call) {
            Reply::Done(bits) => Ok(V::from_bits(bits)),
            Reply::Failed(bits) => Err(V::from_bits(bits)),
            _ => unreachable!(),
        }
    }

    /// Loads the value. Any order, served as `SeqCst`. On a lane: one step on every target. portable-atomic's `load`;
    /// C11 7.17.7.2; `__atomic_load`.
    #[inline(always)]
    pub fn load<R: Wait>(&self, rt: &R, arena: &Arena, pass: &mut Pass, _order: LoadOrder) -> V
        requires arena { IsOf arena.now pass.old }
        requires atomic { HasAtomic arena.now.shape V.KIND self.now }
        requires rest { pass.old.flight ≡ Idle }
        ensures { Serves arena.now.shape self.now Load pass.old (reply.Value (V.bits result)) pass.new }
    {
        self.before(rt, arena, pass, &Call::Load)
    }

    /// Stores `v`, and answers nothing. Any order, served as `SeqCst`. On a lane: one step where the object is alone in
    /// its word, else a loop. portable-atomic's `store`; C11 7.17.7.1; `__atomic_store`.
    #[inline(always)]
    pub fn store<R: Wait>(&self, rt: &R, arena: &Arena, pass: &mut Pass, v: V, _order: StoreOrder)
        requires arena { IsOf arena.now pass.old }
        requires atomic { HasAtomic arena.now.shape V.KIND self.now }
        requires rest { pass.old.flight ≡ Idle }
        ensures { Serves arena.now.shape self.now (Store (V.bits v)) pass.old reply.Unit pass.new }
    {
        self.quiet(rt, arena, pass, &Call::Store(v.to_bits()))
    }

    /// Stores `v`, and answers the value before. Any order, served as `SeqCst`. On a lane: one step where the object is
    /// alone in its word and the target swaps words, else a loop. portable-atomic's `swap`; C11 7.17.7.3;
    /// `__atomic_exchange`.
    #[inline(always)]
    pub fn swap<R: Wait>(&self, rt: &R, arena: &Arena, pass: &mut Pass, v: V, _order: Order) -> V
        requires arena { IsOf arena.now pass.old }
        requires atomic { HasAtomic arena.now.shape V.KIND self.now }
        requires rest { pass.old.flight ≡ Idle }
        ensures { Serves arena.now.shape self.now (Swap (V.bits v)) pass.old (reply.Value (V.bits result)) pass.new }
    {
        self.before(rt, arena, pass, &Call::Swap(v.to_bits()))
    }

    /// Stores `new` where the value is `current`: Ok of the value before. Else it stores nothing: Err of the value. It
    /// never fails where the value is `current`. Any two orders; the one for a failure may be the stronger. Any order,
    /// served as `SeqCst`. On a lane: one step where the object is alone in its word, else a loop. portable-atomic's
    /// `compare_exchange`; C11 7.17.7.4 (strong); `__atomic_compare_exchange`.
    #[inline(always)]
    pub fn compare_exchange<R: Wait>(
        &self,
        rt: &R,
        arena: &Arena,
        pass: &mut Pass,
        current: V,
        new: V,
        _success: Order,
        _failure: LoadOrder,
    ) -> Result<V, V>
        requires arena { IsOf arena.now pass.old }
        requires atomic { HasAtomic arena.now.shape V.KIND self.now }
        requires rest { pass.old.flight ≡ Idle }
        ensures { Serves arena.now.shape self.now (Cas (V.bits current) (V.bits new)) pass.old (exchanged V.bits result) pass.new }
    {
        self.exchange(
            rt,
            arena,
            pass,
            &Call::Cas(current.to_bits(), new.to_bits()),
        )
    }

    /// As `compare_exchange`, but where its plan is a loop it is tried once, and may answer Err of `current` where
    /// another call changed the word meanwhile. Any two orders. Both are served as `SeqCst`. On a lane: one step
    /// where the object is alone in its word, else a look and one try. portable-atomic's `compare_exchange_weak`; C11
    /// 7.17.7.4 (weak); `__atomic_compare_exchange` (weak).
    #[inline(always)]
    pub fn compare_exchange_weak<R: Wait>(
        &self,
        rt: &R,
        arena: &Arena,
        pass: &mut Pass,
        current: V,
        new: V,
        _success: Order,
        _failure: LoadOrder,
    ) -> Result<V, V>
        requires arena { IsOf arena.now pass.old }
        requires atomic { HasAtomic arena.now.shape V.KIND self.now }
        requires rest { pass.old.flight ≡ Idle }
        ensures { Serves arena.now.shape self.now (CasWeak (V.bits current) (V.bits new)) pass.old (exchanged V.bits result) pass.new }
    {
        self.exchange(
            rt,
            arena,
            pass,
            &Call::CasWeak(current.to_bits(), new.to_bits()),
        )
    }
}
