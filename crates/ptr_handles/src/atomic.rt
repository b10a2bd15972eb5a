//! Atomic handles.

ghost use Rattle.std.specs.Prelude.{◌≡◌, ◌*◌, ◌%◌, ◌^◌, MatchOption, false};
ghost use Rattle.op_table.specs.declared.call.Call.TheVariants.{Add, And, BitClear, BitSet, BitToggle, Cas, CasWeak, Load, Or, Store, Sub, Swap, Xor};
ghost use Rattle.op_table.specs.declared.call.Reply.TheVariants as reply;
ghost use Rattle.op_table.specs.Call.{CallFits};
ghost use Rattle.scalar_laws.specs.Kinds.{address};
ghost use Rattle.seat_views.specs.declared.view.Flight.TheVariants.{Idle};
ghost use Rattle.seat_views.specs.States.{IsOf};
ghost use Rattle.atomic_types.specs.Atomics.{Before, Exchanged, HasAtomic, exchanged, form_of};
ghost use Rattle.atomic_types.specs.Serving.{Serves};

use crate::handle::{Handle, ITEM};
use atomic_types::Atomic;
use op_table::{Call, LoadOrder, Order, StoreOrder};
use scalar_laws::Addr;
use seat_views::{Arena, Pass};
use std::marker::Model;
use std::sync::Wait;

/// An object that holds a handle, as a number that may be copied: it names the object, and the arena has the handle.
/// Contracts see it as the object's number.
#[derive(Clone, Copy)]
pub struct AtomicHandle {
    address: Atomic<Addr>,
}

impl Model for AtomicHandle {
    ghost use Rattle.std.specs.Prelude.{ℕ};

    ghost Value = { ℕ };

    ghost view = { λ a. a.address };

    ghost inverse = { λ n. record { address = n } };
}

impl AtomicHandle {
    /// The atomic handle of an object. None where there is no such object, or it isn't a pointer.
    pub fn of(arena: &Arena, object: u32) -> Option<AtomicHandle>
        ensures { MatchOption result (HasAtomic arena.now.shape address object → ⊥) (λ a. (a ≡ object) × HasAtomic arena.now.shape address object) }
    {
        let address = Atomic::<Addr>::of(arena, object)?;
        Some(AtomicHandle { address })
    }

    /// The object's number, counted from 0.
    pub fn object(&self) -> u32
        ensures { result ≡ self.now }
    {
        self.address.object()
    }

    /// Makes a call that answers the handle before it.
    #[inline(always)]
    fn before<R: Wait>(&self, rt: &R, arena: &Arena, pass: &mut Pass, call: &Call) -> Handle
        requires arena { IsOf arena.now pass.old }
        requires atomic { HasAtomic arena.now.shape address self.now }
        requires fits { CallFits address call.now }
        requires form { form_of call.now ≡ Before }
        requires rest { pass.old.flight ≡ Idle }
        ensures { Serves arena.now.shape self.now call.now pass.old (reply.Value result.bits) pass.new }
    {
        let Addr(bits) = self.address.before(rt, arena, pass, call);
        Handle { bits }
    }

    /// Makes an exchange: Ok of the handle before it where it was made, and else Err of it.
    #[inline(always)]
    fn exchange<R: Wait>(
        &self,
        rt: &R,
        arena: &Arena,
        pass: &mut Pass,
        call: &Call,
    ) -> Result<Handle, Handle>
        requires arena { IsOf arena.now pass.old }
        requires atomic { HasAtomic arena.now.shape address self.now }
        requires fits { CallFits address call.now }
        requires form { form_of call.now ≡ Exchanged }
        requires rest { pass.old.flight ≡ Idle }
        ensures { Serves arena.now.shape self.now call.now pass.old (exchanged (λ h. h.bits) result) pass.new }
    {
        match self.address.exchange(rt, arena, pass, call) {
            Ok(Addr(bits)) => Ok(Handle { bits }),
            Err(Addr(bits)) => Err(Handle { bits }),
        }
    }

    /// Loads the handle. Any order, served as `SeqCst`. On a lane: one step on every target. portable-atomic's
    /// `AtomicPtr::load`; C11 7.17.7.2.
    #[inline(always)]
    pub fn load<R: Wait>(&self, rt: &R, arena: &Arena, pass: &mut Pass, _order: LoadOrder) -> Handle
        requires arena { IsOf arena.now pass.old }
        requires atomic { HasAtomic arena.now.shape address self.now }
        requires rest { pass.old.flight ≡ Idle }
        ensures { Serves arena.now.shape self.now Load pass.old (reply.Value result.bits) pass.new }
    {
        self.before(rt, arena, pass, &Call::Load)
    }

    /// Stores `v`, and answers nothing. Any order, served as `SeqCst`. On a lane: one step where the object is alone in
    /// its word, else a loop. portable-atomic's `AtomicPtr::store`; C11 7.17.7.1.
    #[inline(always)]
    pub fn store<R: Wait>(
        &self,
        rt: &R,
        arena: &Arena,
        pass: &mut Pass,
        v: Handle,
        _order: StoreOrder,
    )
        requires arena { IsOf arena.now pass.old }
        requires atomic { HasAtomic arena.now.shape address self.now }
        requires rest { pass.old.flight ≡ Idle }
        ensures { Serves arena.now.shape self.now (Store v.bits) pass.old reply.Unit pass.new }
    {
        self.address
            .quiet(rt, arena, pass, &Call::Store(v.bits as u128))
    }

    /// Stores `v`, and answers the handle before. Any order, served as `SeqCst`. On a lane: one step where the object
    /// is alone in its word and the target swaps words, else a loop. portable-atomic's `AtomicPtr::swap`; C11 7.17.7.3.
    #[inline(always)]
    pub fn swap<R: Wait>(
        &self,
        rt: &R,
        arena: &Arena,
        pass: &mut Pass,
        v: Handle,
        _order: Order,
    ) -> Handle
        requires arena { IsOf arena.now pass.old }
        requires atomic { HasAtomic arena.now.shape address self.now }
        requires rest { pass.old.flight ≡ Idle }
        ensures { Serves arena.now.shape self.now (Swap v.bits) pass.old (reply.Value result.bits) pass.new }
    {
        self.before(rt, arena, pass, &Call::Swap(v.bits as u128))
    }

    /// Stores `new` where the handle is `current`, with its tag: Ok of the handle before. Else it stores nothing: Err
    /// of the handle. Any two orders, served as `SeqCst`. On a lane: one step where the object is alone in its word,
    /// else a loop. portable-atomic's `AtomicPtr::compare_exchange`; C11 7.17.7.4 (strong).
    #[inline(always)]
    pub fn compare_exchange<R: Wait>(
        &self,
        rt: &R,
        arena: &Arena,
        pass: &mut Pass,
        current: Handle,
        new: Handle,
        _success: Order,
        _failure: LoadOrder,
    ) -> Result<Handle, Handle>
        requires arena { IsOf arena.now pass.old }
        requires atomic { HasAtomic arena.now.shape address self.now }
        requires rest { pass.old.flight ≡ Idle }
        ensures { Serves arena.now.shape self.now (Cas current.bits new.bits) pass.old (exchanged (λ h. h.bits) result) pass.new }
    {
        self.exchange(
            rt,
            arena,
            pass,
            &Call::Cas(current.bits as u128, new.bits as u128),
        )
    }

    /// As `compare_exchange`, but where its plan is a loop it is tried once, and may answer Err of `current` where
    /// another call changed the word meanwhile. Any two orders, served as `SeqCst`. On a lane: one step where the
    /// object is alone in its word, else a look and one try. portable-atomic's `AtomicPtr::compare_exchange_weak`; C11
    /// 7.17.7.4 (weak).
    #[inline(always)]
    pub fn compare_exchange_weak<R: Wait>(
        &self,
        rt: &R,
        arena: &Arena,
        pass: &mut Pass,
        current: Handle,
        new: Handle,
        _success: Order,
        _failure: LoadOrder,
    ) -> Result<Handle, Handle>
        requires arena { IsOf arena.now pass.old }
        requires atomic { HasAtomic arena.now.shape address self.now }
        requires rest { pass.old.flight ≡ Idle }
        ensures { Serves arena.now.shape self.now (CasWeak current.bits new.bits) pass.old (exchanged (λ h. h.bits) result) pass.new }
    {
        self.exchange(
            rt,
            arena,
            pass,
            &Call::CasWeak(current.bits as u128, new.bits as u128),
        )
    }

    /// Goes `n` items up, by 16 times `n`; it wraps, and answers the handle before. Any order, served as `SeqCst`. On a
    /// lane: one step where the target adds words, else a loop. portable-atomic's `AtomicPtr::fetch_ptr_add`.
    #[inline(always)]
    pub fn fetch_ptr_add<R: Wait>(
        &self,
        rt: &R,
        arena: &Arena,
        pass: &mut Pass,
        n: u64,
        _order: Order,
    ) -> Handle
        requires arena { IsOf arena.now pass.old }
        requires atomic { HasAtomic arena.now.shape address self.now }
        requires rest { pass.old.flight ≡ Idle }
        ensures { Serves arena.now.shape self.now (Add (16 * n % 2 ^ 64) false) pass.old (reply.Value result.bits) pass.new }
    {
        self.before(
            rt,
            arena,
            pass,
            &Call::Add(ITEM.wrapping_mul(n) as u128, false),
        )
    }

    /// Goes `n` items down, by 16 times `n`; it wraps, and answers the handle before. Any order, served as `SeqCst`. On
    /// a lane: one step where the target adds words, else a loop. portable-atomic's `AtomicPtr::fetch_ptr_sub`.
    #[inline(always)]
    pub fn fetch_ptr_sub<R: Wait>(
        &self,
        rt: &R,
        arena: &Arena,
        pass: &mut Pass,
        n: u64,
        _order: Order,
    ) -> Handle
        requires arena { IsOf arena.now pass.old }
        requires atomic { HasAtomic arena.now.shape address self.now }
        requires rest { pass.old.flight ≡ Idle }
        ensures { Serves arena.now.shape self.now (Sub (16 * n % 2 ^ 64) false) pass.old (reply.Value result.bits) pass.new }
    {
        self.before(
            rt,
            arena,
            pass,
            &Call::Sub(ITEM.wrapping_mul(n) as u128, false),
        )
    }

    /// Adds `n` to the handle's bits; it wraps, and answers the handle before. Any order, served as `SeqCst`. On a
    /// lane: one step where the target adds words, else a loop. portable-atomic's `AtomicPtr::fetch_byte_add`.
    #[inline(always)]
    pub fn fetch_byte_add<R: Wait>(
        &self,
        rt: &R,
        arena: &Arena,
        pass: &mut Pass,
        n: u64,
        _order: Order,
    ) -> Handle
        requires arena { IsOf arena.now pass.old }
        requires atomic { HasAtomic arena.now.shape address self.now }
        requires rest { pass.old.flight ≡ Idle }
        ensures { Serves arena.now.shape self.now (Add n false) pass.old (reply.Value result.bits) pass.new }
    {
        self.before(rt, arena, pass, &Call::Add(n as u128, false))
    }

    /// Subtracts `n` from the handle's bits; it wraps, and answers the handle before. Any order, served as `SeqCst`. On
    /// a lane: one step where the target adds words, else a loop. portable-atomic's `AtomicPtr::fetch_byte_sub`.
    #[inline(always)]
    pub fn fetch_byte_sub<R: Wait>(
        &self,
        rt: &R,
        arena: &Arena,
        pass: &mut Pass,
        n: u64,
        _order: Order,
    ) -> Handle
        requires arena { IsOf arena.now pass.old }
        requires atomic { HasAtomic arena.now.shape address self.now }
        requires rest { pass.old.flight ≡ Idle }
        ensures { Serves arena.now.shape self.now (Sub n false) pass.old (reply.Value result.bits) pass.new }
    {
        self.before(rt, arena, pass, &Call::Sub(n as u128, false))
    }

    /// Keeps the bits that `n` has, and answers the handle before. Any order, served as `SeqCst`. On a lane: one step
    /// where the target has bit steps, else a loop. portable-atomic's `AtomicPtr::fetch_and`.
    #[inline(always)]
    pub fn fetch_and<R: Wait>(
        &self,
        rt: &R,
        arena: &Arena,
        pass: &mut Pass,
        n: u64,
        _order: Order,
    ) -> Handle
        requires arena { IsOf arena.now pass.old }
        requires atomic { HasAtomic arena.now.shape address self.now }
        requires rest { pass.old.flight ≡ Idle }
        ensures { Serves arena.now.shape self.now (And n false) pass.old (reply.Value result.bits) pass.new }
    {
        self.before(rt, arena, pass, &Call::And(n as u128, false))
    }

    /// Sets the bits that `n` has, and answers the handle before. Any order, served as `SeqCst`. On a lane: one step
    /// where the target has bit steps, else a loop. portable-atomic's `AtomicPtr::fetch_or`.
    #[inline(always)]
    pub fn fetch_or<R: Wait>(
        &self,
        rt: &R,
        arena: &Arena,
        pass: &mut Pass,
        n: u64,
        _order: Order,
    ) -> Handle
        requires arena { IsOf arena.now pass.old }
        requires atomic { HasAtomic arena.now.shape address self.now }
        requires rest { pass.old.flight ≡ Idle }
        ensures { Serves arena.now.shape self.now (Or n false) pass.old (reply.Value result.bits) pass.new }
    {
        self.before(rt, arena, pass, &Call::Or(n as u128, false))
    }

    /// Flips the bits that `n` has, and answers the handle before. Any order, served as `SeqCst`. On a lane: one step
    /// where the target has bit steps, else a loop. portable-atomic's `AtomicPtr::fetch_xor`.
    #[inline(always)]
    pub fn fetch_xor<R: Wait>(
        &self,
        rt: &R,
        arena: &Arena,
        pass: &mut Pass,
        n: u64,
        _order: Order,
    ) -> Handle
        requires arena { IsOf arena.now pass.old }
        requires atomic { HasAtomic arena.now.shape address self.now }
        requires rest { pass.old.flight ≡ Idle }
        ensures { Serves arena.now.shape self.now (Xor n false) pass.old (reply.Value result.bits) pass.new }
    {
        self.before(rt, arena, pass, &Call::Xor(n as u128, false))
    }

    /// Sets the bit at a position, counted from the lowest and modulo 64, and answers whether it was 1. Any order,
    /// served as `SeqCst`. On a lane: one step where the target has bit steps, else a loop. portable-atomic's
    /// `AtomicPtr::bit_set`.
    #[inline(always)]
    pub fn bit_set<R: Wait>(
        &self,
        rt: &R,
        arena: &Arena,
        pass: &mut Pass,
        bit: u32,
        _order: Order,
    ) -> bool
        requires arena { IsOf arena.now pass.old }
        requires atomic { HasAtomic arena.now.shape address self.now }
        requires rest { pass.old.flight ≡ Idle }
        ensures { Serves arena.now.shape self.now (BitSet bit) pass.old (reply.Bit result) pass.new }
    {
        self.address.bit(rt, arena, pass, &Call::BitSet(bit))
    }

    /// Clears the bit at a position, counted from the lowest and modulo 64, and answers whether it was 1. Any order,
    /// served as `SeqCst`. On a lane: one step where the target has bit steps, else a loop. portable-atomic's
    /// `AtomicPtr::bit_clear`.
    #[inline(always)]
    pub fn bit_clear<R: Wait>(
        &self,
        rt: &R,
        arena: &Arena,
        pass: &mut Pass,
        bit: u32,
        _order: Order,
    ) -> bool
        requires arena { IsOf arena.now pass.old }
        requires atomic { HasAtomic arena.now.shape address self.now }
        requires rest { pass.old.flight ≡ Idle }
        ensures { Serves arena.now.shape self.now (BitClear bit) pass.old (reply.Bit result) pass.new }
    {
        self.address.bit(rt, arena, pass, &Call::BitClear(bit))
    }

    /// Flips the bit at a position, counted from the lowest and modulo 64, and answers whether it was 1. Any order,
    /// served as `SeqCst`. On a lane: one step where the target has bit steps, else a loop. portable-atomic's
    /// `AtomicPtr::bit_toggle`.
    #[inline(always)]
    pub fn bit_toggle<R: Wait>(
        &self,
        rt: &R,
        arena: &Arena,
        pass: &mut Pass,
        bit: u32,
        _order: Order,
    ) -> bool
        requires arena { IsOf arena.now pass.old }
        requires atomic { HasAtomic arena.now.shape address self.now }
        requires rest { pass.old.flight ≡ Idle }
        ensures { Serves arena.now.shape self.now (BitToggle bit) pass.old (reply.Bit result) pass.new }
    {
        self.address.bit(rt, arena, pass, &Call::BitToggle(bit))
    }
}
