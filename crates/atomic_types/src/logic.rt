//! The logic calls, which every type but `Addr` has.

ghost use Rattle.std.specs.Prelude.{◌≡◌, true, false};
ghost use Rattle.op_table.specs.declared.call.Call.TheVariants.{And, AndFetch, Nand, NandFetch, Not, Or, OrFetch, Xor, XorFetch};
ghost use Rattle.op_table.specs.declared.call.Reply.TheVariants as reply;
ghost use Rattle.place_core.specs.Cells.{value_of};
ghost use Rattle.place_core.specs.Shapes.{cells_of_shape};
ghost use Rattle.seat_views.specs.declared.view.Flight.TheVariants.{Idle};
ghost use Rattle.seat_views.specs.States.{IsOf};
ghost use Rattle.atomic_types.specs.Atomics.{HasAtomic};
ghost use Rattle.atomic_types.specs.Serving.{Serves};

use crate::atomic::Atomic;
use op_table::{Call, Order};
use scalar_laws::LogicScalar;
use seat_views::{Arena, Pass};
use std::sync::Wait;

impl<V: LogicScalar> Atomic<V> {
    /// Keeps the bits that `v` has, and answers the value before. Any order, served as `SeqCst`. On a lane: one step
    /// where the target has bit steps, else a loop. portable-atomic's `fetch_and`; C11 7.17.7.5; `__atomic_fetch_and`.
    #[inline(always)]
    pub fn fetch_and<R: Wait>(
        &self,
        rt: &R,
        arena: &Arena,
        pass: &mut Pass,
        v: V,
        _order: Order,
    ) -> V
        requires arena { IsOf arena.now pass.old }
        requires atomic { HasAtomic arena.now.shape V.KIND self.now }
        requires rest { pass.old.flight ≡ Idle }
        ensures { Serves arena.now.shape self.now (And (V.bits v) false) pass.old (reply.Value (V.bits result)) pass.new }
    {
        self.before(rt, arena, pass, &Call::And(v.to_bits(), false))
    }

    /// Keeps the bits that `v` has and flips them all, and answers the value before. Any order, served as `SeqCst`. On
    /// a lane: a loop on every target. portable-atomic's `fetch_nand`; `__atomic_fetch_nand`.
    #[inline(always)]
    pub fn fetch_nand<R: Wait>(
        &self,
        rt: &R,
        arena: &Arena,
        pass: &mut Pass,
        v: V,
        _order: Order,
    ) -> V
        requires arena { IsOf arena.now pass.old }
        requires atomic { HasAtomic arena.now.shape V.KIND self.now }
        requires rest { pass.old.flight ≡ Idle }
        ensures { Serves arena.now.shape self.now (Nand (V.bits v)) pass.old (reply.Value (V.bits result)) pass.new }
    {
        self.before(rt, arena, pass, &Call::Nand(v.to_bits()))
    }

    /// Sets the bits that `v` has, and answers the value before. Any order, served as `SeqCst`. On a lane: one step
    /// where the target has bit steps, else a loop. portable-atomic's `fetch_or`; C11 7.17.7.5; `__atomic_fetch_or`.
    #[inline(always)]
    pub fn fetch_or<R: Wait>(
        &self,
        rt: &R,
        arena: &Arena,
        pass: &mut Pass,
        v: V,
        _order: Order,
    ) -> V
        requires arena { IsOf arena.now pass.old }
        requires atomic { HasAtomic arena.now.shape V.KIND self.now }
        requires rest { pass.old.flight ≡ Idle }
        ensures { Serves arena.now.shape self.now (Or (V.bits v) false) pass.old (reply.Value (V.bits result)) pass.new }
    {
        self.before(rt, arena, pass, &Call::Or(v.to_bits(), false))
    }

    /// Flips the bits that `v` has, and answers the value before. Any order, served as `SeqCst`. On a lane: one step
    /// where the target has bit steps, else a loop. portable-atomic's `fetch_xor`; C11 7.17.7.5; `__atomic_fetch_xor`.
    #[inline(always)]
    pub fn fetch_xor<R: Wait>(
        &self,
        rt: &R,
        arena: &Arena,
        pass: &mut Pass,
        v: V,
        _order: Order,
    ) -> V
        requires arena { IsOf arena.now pass.old }
        requires atomic { HasAtomic arena.now.shape V.KIND self.now }
        requires rest { pass.old.flight ≡ Idle }
        ensures { Serves arena.now.shape self.now (Xor (V.bits v) false) pass.old (reply.Value (V.bits result)) pass.new }
    {
        self.before(rt, arena, pass, &Call::Xor(v.to_bits(), false))
    }

    /// Keeps the bits that `v` has, and answers the new value. Any order, served as `SeqCst`. On a lane: one step where
    /// the target has bit steps, else a loop. GCC's `__atomic_and_fetch`.
    #[inline(always)]
    pub fn and_fetch<R: Wait>(
        &self,
        rt: &R,
        arena: &Arena,
        pass: &mut Pass,
        v: V,
        _order: Order,
    ) -> V
        requires arena { IsOf arena.now pass.old }
        requires atomic { HasAtomic arena.now.shape V.KIND self.now }
        requires rest { pass.old.flight ≡ Idle }
        ensures serves { Serves arena.now.shape self.now (AndFetch (V.bits v)) pass.old (reply.Value (V.bits result)) pass.new }
        ensures left { value_of (cells_of_shape arena.now.shape) pass.new.seen self.now ≡ V.bits result }
    {
        self.after(rt, arena, pass, &Call::AndFetch(v.to_bits()))
    }

    /// Keeps the bits that `v` has and flips them all, and answers the new value. Any order, served as `SeqCst`. On a
    /// lane: a loop on every target. GCC's `__atomic_nand_fetch`.
    #[inline(always)]
    pub fn nand_fetch<R: Wait>(
        &self,
        rt: &R,
        arena: &Arena,
        pass: &mut Pass,
        v: V,
        _order: Order,
    ) -> V
        requires arena { IsOf arena.now pass.old }
        requires atomic { HasAtomic arena.now.shape V.KIND self.now }
        requires rest { pass.old.flight ≡ Idle }
        ensures serves { Serves arena.now.shape self.now (NandFetch (V.bits v)) pass.old (reply.Value (V.bits result)) pass.new }
        ensures left { value_of (cells_of_shape arena.now.shape) pass.new.seen self.now ≡ V.bits result }
    {
        self.after(rt, arena, pass, &Call::NandFetch(v.to_bits()))
    }

    /// Sets the bits that `v` has, and answers the new value. Any order, served as `SeqCst`. On a lane: one step where
    /// the target has bit steps, else a loop. GCC's `__atomic_or_fetch`.
    #[inline(always)]
    pub fn or_fetch<R: Wait>(
        &self,
        rt: &R,
        arena: &Arena,
        pass: &mut Pass,
        v: V,
        _order: Order,
    ) -> V
        requires arena { IsOf arena.now pass.old }
        requires atomic { HasAtomic arena.now.shape V.KIND self.now }
        requires rest { pass.old.flight ≡ Idle }
        ensures serves { Serves arena.now.shape self.now (OrFetch (V.bits v)) pass.old (reply.Value (V.bits result)) pass.new }
        ensures left { value_of (cells_of_shape arena.now.shape) pass.new.seen self.now ≡ V.bits result }
    {
        self.after(rt, arena, pass, &Call::OrFetch(v.to_bits()))
    }

    /// Flips the bits that `v` has, and answers the new value. Any order, served as `SeqCst`. On a lane: one step where
    /// the target has bit steps, else a loop. GCC's `__atomic_xor_fetch`.
    #[inline(always)]
    pub fn xor_fetch<R: Wait>(
        &self,
        rt: &R,
        arena: &Arena,
        pass: &mut Pass,
        v: V,
        _order: Order,
    ) -> V
        requires arena { IsOf arena.now pass.old }
        requires atomic { HasAtomic arena.now.shape V.KIND self.now }
        requires rest { pass.old.flight ≡ Idle }
        ensures serves { Serves arena.now.shape self.now (XorFetch (V.bits v)) pass.old (reply.Value (V.bits result)) pass.new }
        ensures left { value_of (cells_of_shape arena.now.shape) pass.new.seen self.now ≡ V.bits result }
    {
        self.after(rt, arena, pass, &Call::XorFetch(v.to_bits()))
    }

    /// As `fetch_and`, and answers nothing. Any order, served as `SeqCst`. On a lane: one step where the target has bit
    /// steps, else a loop. portable-atomic's `and`.
    #[inline(always)]
    pub fn and<R: Wait>(&self, rt: &R, arena: &Arena, pass: &mut Pass, v: V, _order: Order)
        requires arena { IsOf arena.now pass.old }
        requires atomic { HasAtomic arena.now.shape V.KIND self.now }
        requires rest { pass.old.flight ≡ Idle }
        ensures { Serves arena.now.shape self.now (And (V.bits v) true) pass.old reply.Unit pass.new }
    {
        self.quiet(rt, arena, pass, &Call::And(v.to_bits(), true))
    }

    /// As `fetch_or`, and answers nothing. Any order, served as `SeqCst`. On a lane: one step where the target has bit
    /// steps, else a loop. portable-atomic's `or`.
    #[inline(always)]
    pub fn or<R: Wait>(&self, rt: &R, arena: &Arena, pass: &mut Pass, v: V, _order: Order)
        requires arena { IsOf arena.now pass.old }
        requires atomic { HasAtomic arena.now.shape V.KIND self.now }
        requires rest { pass.old.flight ≡ Idle }
        ensures { Serves arena.now.shape self.now (Or (V.bits v) true) pass.old reply.Unit pass.new }
    {
        self.quiet(rt, arena, pass, &Call::Or(v.to_bits(), true))
    }

    /// As `fetch_xor`, and answers nothing. Any order, served as `SeqCst`. On a lane: one step where the target has bit
    /// steps, else a loop. portable-atomic's `xor`.
    #[inline(always)]
    pub fn xor<R: Wait>(&self, rt: &R, arena: &Arena, pass: &mut Pass, v: V, _order: Order)
        requires arena { IsOf arena.now pass.old }
        requires atomic { HasAtomic arena.now.shape V.KIND self.now }
        requires rest { pass.old.flight ≡ Idle }
        ensures { Serves arena.now.shape self.now (Xor (V.bits v) true) pass.old reply.Unit pass.new }
    {
        self.quiet(rt, arena, pass, &Call::Xor(v.to_bits(), true))
    }

    /// Flips every bit, and answers the value before. Any order, served as `SeqCst`. On a lane: one step where the
    /// target has bit steps, else a loop. portable-atomic's `fetch_not`.
    #[inline(always)]
    pub fn fetch_not<R: Wait>(&self, rt: &R, arena: &Arena, pass: &mut Pass, _order: Order) -> V
        requires arena { IsOf arena.now pass.old }
        requires atomic { HasAtomic arena.now.shape V.KIND self.now }
        requires rest { pass.old.flight ≡ Idle }
        ensures { Serves arena.now.shape self.now (Not false) pass.old (reply.Value (V.bits result)) pass.new }
    {
        self.before(rt, arena, pass, &Call::Not(false))
    }

    /// As `fetch_not`, and answers nothing. Any order, served as `SeqCst`. On a lane: one step where the target has bit
    /// steps, else a loop. portable-atomic's `not`.
    #[inline(always)]
    pub fn not<R: Wait>(&self, rt: &R, arena: &Arena, pass: &mut Pass, _order: Order)
        requires arena { IsOf arena.now pass.old }
        requires atomic { HasAtomic arena.now.shape V.KIND self.now }
        requires rest { pass.old.flight ≡ Idle }
        ensures { Serves arena.now.shape self.now (Not true) pass.old reply.Unit pass.new }
    {
        self.quiet(rt, arena, pass, &Call::Not(true))
    }
}
