//! The calls that integers have besides.

ghost use Rattle.std.specs.Prelude.{◌≡◌, true, false};
ghost use Rattle.op_table.specs.declared.call.Call.TheVariants.{Add, AddFetch, BitClear, BitSet, BitToggle, Max, Min, Neg, Sub, SubFetch};
ghost use Rattle.op_table.specs.declared.call.Reply.TheVariants as reply;
ghost use Rattle.place_core.specs.Cells.{value_of};
ghost use Rattle.place_core.specs.Shapes.{cells_of_shape};
ghost use Rattle.seat_views.specs.declared.view.Flight.TheVariants.{Idle};
ghost use Rattle.seat_views.specs.States.{IsOf};
ghost use Rattle.atomic_types.specs.Atomics.{HasAtomic};
ghost use Rattle.atomic_types.specs.Serving.{Serves};

use crate::atomic::Atomic;
use op_table::{Call, Order};
use scalar_laws::IntScalar;
use seat_views::{Arena, Pass};
use std::sync::Wait;

impl<V: IntScalar> Atomic<V> {
    /// Adds `v`, and answers the value before. It wraps, for signed types too. Any order, served as `SeqCst`. On a
    /// lane: one step where the lane ends with its word and the target adds words, else a loop. portable-atomic's
    /// `fetch_add`; C11 7.17.7.5; `__atomic_fetch_add`.
    #[inline(always)]
    pub fn fetch_add<R: Wait>(
        &self,
        rt: &R,
        arena: &Arena,
        pass: &mut Pass,
        v: V,
        _order: Order,
    ) -> V
        requires arena { IsOf arena.now pass.old }
        requires atomic { HasAtomic arena.now.shape V.KIND self.now }
        requires rest { pass.old.flight ≡ Idle }
        ensures { Serves arena.now.shape self.now (Add (V.bits v) false) pass.old (reply.Value (V.bits result)) pass.new }
    {
        self.before(rt, arena, pass, &Call::Add(v.to_bits(), false))
    }

    /// Subtracts `v`, and answers the value before. It wraps, for signed types too. Any order, served as `SeqCst`. On a
    /// lane: one step where the lane ends with its word and the target adds words, else a loop. portable-atomic's
    /// `fetch_sub`; C11 7.17.7.5; `__atomic_fetch_sub`.
    #[inline(always)]
    pub fn fetch_sub<R: Wait>(
        &self,
        rt: &R,
        arena: &Arena,
        pass: &mut Pass,
        v: V,
        _order: Order,
    ) -> V
        requires arena { IsOf arena.now pass.old }
        requires atomic { HasAtomic arena.now.shape V.KIND self.now }
        requires rest { pass.old.flight ≡ Idle }
        ensures { Serves arena.now.shape self.now (Sub (V.bits v) false) pass.old (reply.Value (V.bits result)) pass.new }
    {
        self.before(rt, arena, pass, &Call::Sub(v.to_bits(), false))
    }

    /// Adds `v`, and answers the new value. It wraps, for signed types too. Any order, served as `SeqCst`. On a lane:
    /// one step where the lane ends with its word and the target adds words, else a loop. GCC's `__atomic_add_fetch`.
    #[inline(always)]
    pub fn add_fetch<R: Wait>(
        &self,
        rt: &R,
        arena: &Arena,
        pass: &mut Pass,
        v: V,
        _order: Order,
    ) -> V
        requires arena { IsOf arena.now pass.old }
        requires atomic { HasAtomic arena.now.shape V.KIND self.now }
        requires rest { pass.old.flight ≡ Idle }
        ensures serves { Serves arena.now.shape self.now (AddFetch (V.bits v)) pass.old (reply.Value (V.bits result)) pass.new }
        ensures left { value_of (cells_of_shape arena.now.shape) pass.new.seen self.now ≡ V.bits result }
    {
        self.after(rt, arena, pass, &Call::AddFetch(v.to_bits()))
    }

    /// Subtracts `v`, and answers the new value. It wraps, for signed types too. Any order, served as `SeqCst`. On a
    /// lane: one step where the lane ends with its word and the target adds words, else a loop. GCC's
    /// `__atomic_sub_fetch`.
    #[inline(always)]
    pub fn sub_fetch<R: Wait>(
        &self,
        rt: &R,
        arena: &Arena,
        pass: &mut Pass,
        v: V,
        _order: Order,
    ) -> V
        requires arena { IsOf arena.now pass.old }
        requires atomic { HasAtomic arena.now.shape V.KIND self.now }
        requires rest { pass.old.flight ≡ Idle }
        ensures serves { Serves arena.now.shape self.now (SubFetch (V.bits v)) pass.old (reply.Value (V.bits result)) pass.new }
        ensures left { value_of (cells_of_shape arena.now.shape) pass.new.seen self.now ≡ V.bits result }
    {
        self.after(rt, arena, pass, &Call::SubFetch(v.to_bits()))
    }

    /// Stores the greater of the value and `v`, in the type's order, and answers the value before. Any order, served as
    /// `SeqCst`. On a lane: one step for an unsigned type whose object is alone in its word, with a lane that ends with
    /// it, where the target has word maxima and minima, else a loop. portable-atomic's `fetch_max`.
    #[inline(always)]
    pub fn fetch_max<R: Wait>(
        &self,
        rt: &R,
        arena: &Arena,
        pass: &mut Pass,
        v: V,
        _order: Order,
    ) -> V
        requires arena { IsOf arena.now pass.old }
        requires atomic { HasAtomic arena.now.shape V.KIND self.now }
        requires rest { pass.old.flight ≡ Idle }
        ensures { Serves arena.now.shape self.now (Max (V.bits v)) pass.old (reply.Value (V.bits result)) pass.new }
    {
        self.before(rt, arena, pass, &Call::Max(v.to_bits()))
    }

    /// Stores the less of the value and `v`, in the type's order, and answers the value before. Any order, served as
    /// `SeqCst`. On a lane: one step for an unsigned type whose object is alone in its word, with a lane that ends with
    /// it, where the target has word maxima and minima, else a loop. portable-atomic's `fetch_min`.
    #[inline(always)]
    pub fn fetch_min<R: Wait>(
        &self,
        rt: &R,
        arena: &Arena,
        pass: &mut Pass,
        v: V,
        _order: Order,
    ) -> V
        requires arena { IsOf arena.now pass.old }
        requires atomic { HasAtomic arena.now.shape V.KIND self.now }
        requires rest { pass.old.flight ≡ Idle }
        ensures { Serves arena.now.shape self.now (Min (V.bits v)) pass.old (reply.Value (V.bits result)) pass.new }
    {
        self.before(rt, arena, pass, &Call::Min(v.to_bits()))
    }

    /// As `fetch_add`, and answers nothing. Any order, served as `SeqCst`. On a lane: one step where the lane ends with
    /// its word and the target adds words, else a loop. portable-atomic's `add`.
    #[inline(always)]
    pub fn add<R: Wait>(&self, rt: &R, arena: &Arena, pass: &mut Pass, v: V, _order: Order)
        requires arena { IsOf arena.now pass.old }
        requires atomic { HasAtomic arena.now.shape V.KIND self.now }
        requires rest { pass.old.flight ≡ Idle }
        ensures { Serves arena.now.shape self.now (Add (V.bits v) true) pass.old reply.Unit pass.new }
    {
        self.quiet(rt, arena, pass, &Call::Add(v.to_bits(), true))
    }

    /// As `fetch_sub`, and answers nothing. Any order, served as `SeqCst`. On a lane: one step where the lane ends with
    /// its word and the target adds words, else a loop. portable-atomic's `sub`.
    #[inline(always)]
    pub fn sub<R: Wait>(&self, rt: &R, arena: &Arena, pass: &mut Pass, v: V, _order: Order)
        requires arena { IsOf arena.now pass.old }
        requires atomic { HasAtomic arena.now.shape V.KIND self.now }
        requires rest { pass.old.flight ≡ Idle }
        ensures { Serves arena.now.shape self.now (Sub (V.bits v) true) pass.old reply.Unit pass.new }
    {
        self.quiet(rt, arena, pass, &Call::Sub(v.to_bits(), true))
    }

    /// Negates the value, and answers the value before. It wraps: the least value of a signed type stays. Any order,
    /// served as `SeqCst`. On a lane: a loop on every target. portable-atomic's `fetch_neg`.
    #[inline(always)]
    pub fn fetch_neg<R: Wait>(&self, rt: &R, arena: &Arena, pass: &mut Pass, _order: Order) -> V
        requires arena { IsOf arena.now pass.old }
        requires atomic { HasAtomic arena.now.shape V.KIND self.now }
        requires rest { pass.old.flight ≡ Idle }
        ensures { Serves arena.now.shape self.now (Neg false) pass.old (reply.Value (V.bits result)) pass.new }
    {
        self.before(rt, arena, pass, &Call::Neg(false))
    }

    /// As `fetch_neg`, and answers nothing. Any order, served as `SeqCst`. On a lane: a loop on every target.
    /// portable-atomic's `neg`.
    #[inline(always)]
    pub fn neg<R: Wait>(&self, rt: &R, arena: &Arena, pass: &mut Pass, _order: Order)
        requires arena { IsOf arena.now pass.old }
        requires atomic { HasAtomic arena.now.shape V.KIND self.now }
        requires rest { pass.old.flight ≡ Idle }
        ensures { Serves arena.now.shape self.now (Neg true) pass.old reply.Unit pass.new }
    {
        self.quiet(rt, arena, pass, &Call::Neg(true))
    }

    /// Sets the bit at a position, counted from the lowest and modulo the width, and answers whether it was 1. Any
    /// order, served as `SeqCst`. On a lane: one step where the target has bit steps, else a loop. portable-atomic's
    /// `bit_set`.
    #[inline(always)]
    pub fn bit_set<R: Wait>(
        &self,
        rt: &R,
        arena: &Arena,
        pass: &mut Pass,
        bit: u32,
        _order: Order,
    ) -> bool
        requires arena { IsOf arena.now pass.old }
        requires atomic { HasAtomic arena.now.shape V.KIND self.now }
        requires rest { pass.old.flight ≡ Idle }
        ensures { Serves arena.now.shape self.now (BitSet bit) pass.old (reply.Bit result) pass.new }
    {
        self.bit(rt, arena, pass, &Call::BitSet(bit))
    }

    /// Clears the bit at a position, counted from the lowest and modulo the width, and answers whether it was 1. Any
    /// order, served as `SeqCst`. On a lane: one step where the target has bit steps, else a loop. portable-atomic's
    /// `bit_clear`.
    #[inline(always)]
    pub fn bit_clear<R: Wait>(
        &self,
        rt: &R,
        arena: &Arena,
        pass: &mut Pass,
        bit: u32,
        _order: Order,
    ) -> bool
        requires arena { IsOf arena.now pass.old }
        requires atomic { HasAtomic arena.now.shape V.KIND self.now }
        requires rest { pass.old.flight ≡ Idle }
        ensures { Serves arena.now.shape self.now (BitClear bit) pass.old (reply.Bit result) pass.new }
    {
        self.bit(rt, arena, pass, &Call::BitClear(bit))
    }

    /// Flips the bit at a position, counted from the lowest and modulo the width, and answers whether it was 1. Any
    /// order, served as `SeqCst`. On a lane: one step where the target has bit steps, else a loop. portable-atomic's
    /// `bit_toggle`.
    #[inline(always)]
    pub fn bit_toggle<R: Wait>(
        &self,
        rt: &R,
        arena: &Arena,
        pass: &mut Pass,
        bit: u32,
        _order: Order,
    ) -> bool
        requires arena { IsOf arena.now pass.old }
        requires atomic { HasAtomic arena.now.shape V.KIND self.now }
        requires rest { pass.old.flight ≡ Idle }
        ensures { Serves arena.now.shape self.now (BitToggle bit) pass.old (reply.Bit result) pass.new }
    {
        self.bit(rt, arena, pass, &Call::BitToggle(bit))
    }
}
