//! Each typed call on each type that has it, at the edges of the type.

ghost use Rattle.std.specs.Prelude.{IfSome, true};
ghost use Rattle.op_table.specs.declared.kind.Width.TheVariants.{W16};
ghost use Rattle.scalar_laws.specs.Kinds.{integer};
ghost use Rattle.seat_views.specs.Trials.{IsReady};
ghost use Rattle.atomic_types.specs.Atomics.{HasAtomic};

use crate::trials::{give, object_of, open};
use crate::{Atomic, AtomicI16, AtomicU16};
use op_table::{LoadOrder, Order, StoreOrder};
use scalar_laws::{Addr, IntScalar, LogicScalar, Scalar};
use seat_views::{Arena, Pass};
use std::alloc::Global;
use std::process::Abort;
use std::sync::Wait;
use std::test::*;

const ORDER: Order = Order::AcqRel;

const FAILURE: LoadOrder = LoadOrder::SeqCst;

/// What an exchange answered, as bits.
fn bits_of<V: Scalar>(answer: Result<V, V>) -> Result<u128, u128> {
    match answer {
        Ok(v) => Ok(v.to_bits()),
        Err(v) => Err(v.to_bits()),
    }
}

/// The arena of one object of the type on `word64`, and a pass; None where there is no memory.
fn bench_of<V: Scalar>(alloc: Global, start: V) -> Option<(Arena, Pass)>
    ensures { IfSome result (λ b. IsReady b.0 b.1) }
{
    let (arena, mut root) = open(alloc, b"word64", &[object_of(V::KIND, start.to_bits())?])?;
    let pass = give(&arena, &mut root)?;
    Some((arena, pass))
}

/// A load, a store and a swap, from the value `low`; `low` is left.
fn loads_and_swaps<V: Scalar, R: Abort + Wait>(
    rt: &R,
    arena: &Arena,
    p: &mut Pass,
    it: Atomic<V>,
    low: V,
    high: V,
)
    requires ready { IsReady arena.now p.old }
    requires atomic { HasAtomic arena.now.shape V.KIND it }
    ensures { IsReady arena.now p.new }
{
    let loaded = it.load(rt, arena, p, LoadOrder::Acquire);
    assert_eq!(rt; loaded.to_bits(), low.to_bits());
    it.store(rt, arena, p, high, StoreOrder::Release);
    let swapped = it.swap(rt, arena, p, low, ORDER);
    assert_eq!(rt; swapped.to_bits(), high.to_bits());
}

/// Exchanges from the value `low`, one that fails among them; `low` is left.
fn exchanges<V: Scalar, R: Abort + Wait>(
    rt: &R,
    arena: &Arena,
    p: &mut Pass,
    it: Atomic<V>,
    low: V,
    high: V,
)
    requires ready { IsReady arena.now p.old }
    requires atomic { HasAtomic arena.now.shape V.KIND it }
    ensures { IsReady arena.now p.new }
{
    let done = it.compare_exchange(rt, arena, p, low, high, ORDER, FAILURE);
    assert_eq!(rt; bits_of(done), Ok(low.to_bits()));
    let failed = it.compare_exchange(rt, arena, p, low, high, ORDER, FAILURE);
    assert_eq!(rt; bits_of(failed), Err(high.to_bits()));
    let weak = it.compare_exchange_weak(rt, arena, p, high, low, ORDER, FAILURE);
    assert_eq!(rt; bits_of(weak), Ok(high.to_bits()));
}

/// The calls of every type, from the value `low`; None where there is no memory.
fn scalar_calls<V: Scalar, R: Abort + Wait>(rt: &R, alloc: Global, low: V, high: V) -> Option<()> {
    let (arena, mut pass) = bench_of(alloc, low)?;
    let it = Atomic::<V>::of(&arena, 0)?;
    loads_and_swaps(rt, &arena, &mut pass, it, low, high);
    exchanges(rt, &arena, &mut pass, it, low, high);
    loads_and_swaps(rt, &arena, &mut pass, it, low, high);
    Some(())
}

/// The logic calls that answer the value before, from no bit set to none.
fn loud_logic<V: LogicScalar, R: Abort + Wait>(
    rt: &R,
    arena: &Arena,
    p: &mut Pass,
    it: Atomic<V>,
    none: V,
    ones: V,
)
    requires ready { IsReady arena.now p.old }
    requires atomic { HasAtomic arena.now.shape V.KIND it }
    ensures { IsReady arena.now p.new }
{
    let or = it.fetch_or(rt, arena, p, ones, ORDER);
    assert_eq!(rt; or.to_bits(), none.to_bits());
    let and = it.fetch_and(rt, arena, p, ones, ORDER);
    assert_eq!(rt; and.to_bits(), ones.to_bits());
    let xor = it.fetch_xor(rt, arena, p, ones, ORDER);
    assert_eq!(rt; xor.to_bits(), ones.to_bits());
}

/// `fetch_nand` and `fetch_not`, from no bit set to none.
fn loud_negations<V: LogicScalar, R: Abort + Wait>(
    rt: &R,
    arena: &Arena,
    p: &mut Pass,
    it: Atomic<V>,
    none: V,
    ones: V,
)
    requires ready { IsReady arena.now p.old }
    requires atomic { HasAtomic arena.now.shape V.KIND it }
    ensures { IsReady arena.now p.new }
{
    let nand = it.fetch_nand(rt, arena, p, none, ORDER);
    assert_eq!(rt; nand.to_bits(), none.to_bits());
    let not = it.fetch_not(rt, arena, p, ORDER);
    assert_eq!(rt; not.to_bits(), ones.to_bits());
}

/// The logic calls that answer the new value, from no bit set to none.
fn new_logic<V: LogicScalar, R: Abort + Wait>(
    rt: &R,
    arena: &Arena,
    p: &mut Pass,
    it: Atomic<V>,
    none: V,
    ones: V,
)
    requires ready { IsReady arena.now p.old }
    requires atomic { HasAtomic arena.now.shape V.KIND it }
    ensures { IsReady arena.now p.new }
{
    let or = it.or_fetch(rt, arena, p, ones, ORDER);
    assert_eq!(rt; or.to_bits(), ones.to_bits());
    let and = it.and_fetch(rt, arena, p, ones, ORDER);
    assert_eq!(rt; and.to_bits(), ones.to_bits());
    let nand = it.nand_fetch(rt, arena, p, none, ORDER);
    assert_eq!(rt; nand.to_bits(), ones.to_bits());
    let xor = it.xor_fetch(rt, arena, p, ones, ORDER);
    assert_eq!(rt; xor.to_bits(), none.to_bits());
}

/// The logic calls that answer nothing, from no bit set to all; a swap at the end tells what they left.
fn quiet_logic<V: LogicScalar, R: Abort + Wait>(
    rt: &R,
    arena: &Arena,
    p: &mut Pass,
    it: Atomic<V>,
    none: V,
    ones: V,
)
    requires ready { IsReady arena.now p.old }
    requires atomic { HasAtomic arena.now.shape V.KIND it }
    ensures { IsReady arena.now p.new }
{
    it.not(rt, arena, p, ORDER);
    it.and(rt, arena, p, none, ORDER);
    it.xor(rt, arena, p, ones, ORDER);
    let swapped = it.swap(rt, arena, p, none, ORDER);
    assert_eq!(rt; swapped.to_bits(), ones.to_bits());
}

/// `or` and a swap, from no bit set to none.
fn quiet_or<V: LogicScalar, R: Abort + Wait>(
    rt: &R,
    arena: &Arena,
    p: &mut Pass,
    it: Atomic<V>,
    none: V,
    ones: V,
)
    requires ready { IsReady arena.now p.old }
    requires atomic { HasAtomic arena.now.shape V.KIND it }
    ensures { IsReady arena.now p.new }
{
    it.or(rt, arena, p, ones, ORDER);
    let swapped = it.swap(rt, arena, p, none, ORDER);
    assert_eq!(rt; swapped.to_bits(), ones.to_bits());
}

/// The logic calls, from no bit set; `ones` has every bit set.
fn logic_calls<V: LogicScalar, R: Abort + Wait>(
    rt: &R,
    alloc: Global,
    none: V,
    ones: V,
) -> Option<()> {
    let (arena, mut pass) = bench_of(alloc, none)?;
    let it = Atomic::<V>::of(&arena, 0)?;
    loud_logic(rt, &arena, &mut pass, it, none, ones);
    loud_negations(rt, &arena, &mut pass, it, none, ones);
    new_logic(rt, &arena, &mut pass, it, none, ones);
    quiet_logic(rt, &arena, &mut pass, it, none, ones);
    quiet_or(rt, &arena, &mut pass, it, none, ones);
    Some(())
}

/// Sums and bounds that answer the value before, from the greatest value to it.
fn loud_sums<V: IntScalar, R: Abort + Wait>(
    rt: &R,
    arena: &Arena,
    p: &mut Pass,
    it: Atomic<V>,
    least: V,
    greatest: V,
    one: V,
)
    requires ready { IsReady arena.now p.old }
    requires atomic { HasAtomic arena.now.shape V.KIND it }
    ensures { IsReady arena.now p.new }
{
    let added = it.fetch_add(rt, arena, p, one, ORDER);
    assert_eq!(rt; added.to_bits(), greatest.to_bits());
    let taken = it.fetch_sub(rt, arena, p, one, ORDER);
    assert_eq!(rt; taken.to_bits(), least.to_bits());
}

/// Sums that answer the new value, from the greatest value to it.
fn new_sums<V: IntScalar, R: Abort + Wait>(
    rt: &R,
    arena: &Arena,
    p: &mut Pass,
    it: Atomic<V>,
    least: V,
    greatest: V,
    one: V,
)
    requires ready { IsReady arena.now p.old }
    requires atomic { HasAtomic arena.now.shape V.KIND it }
    ensures { IsReady arena.now p.new }
{
    let added = it.add_fetch(rt, arena, p, one, ORDER);
    assert_eq!(rt; added.to_bits(), least.to_bits());
    let taken = it.sub_fetch(rt, arena, p, one, ORDER);
    assert_eq!(rt; taken.to_bits(), greatest.to_bits());
}

/// The least of a value and the greatest of one, from the greatest value to it.
fn loud_bounds<V: IntScalar, R: Abort + Wait>(
    rt: &R,
    arena: &Arena,
    p: &mut Pass,
    it: Atomic<V>,
    least: V,
    greatest: V,
)
    requires ready { IsReady arena.now p.old }
    requires atomic { HasAtomic arena.now.shape V.KIND it }
    ensures { IsReady arena.now p.new }
{
    let low = it.fetch_min(rt, arena, p, least, ORDER);
    assert_eq!(rt; low.to_bits(), greatest.to_bits());
    let high = it.fetch_max(rt, arena, p, greatest, ORDER);
    assert_eq!(rt; high.to_bits(), least.to_bits());
}

/// Sums that answer nothing, from the greatest value to it. The least value is its own negative.
fn quiet_sums<V: IntScalar, R: Abort + Wait>(
    rt: &R,
    arena: &Arena,
    p: &mut Pass,
    it: Atomic<V>,
    least: V,
    one: V,
)
    requires ready { IsReady arena.now p.old }
    requires atomic { HasAtomic arena.now.shape V.KIND it }
    ensures { IsReady arena.now p.new }
{
    it.add(rt, arena, p, one, ORDER);
    it.neg(rt, arena, p, ORDER);
    let negated = it.fetch_neg(rt, arena, p, ORDER);
    assert_eq!(rt; negated.to_bits(), least.to_bits());
    it.sub(rt, arena, p, one, ORDER);
}

/// Bits, from the greatest value, which is odd, to it. Every width divides 128, so that position is the lowest bit.
fn bits<V: IntScalar, R: Abort + Wait>(rt: &R, arena: &Arena, p: &mut Pass, it: Atomic<V>)
    requires ready { IsReady arena.now p.old }
    requires atomic { HasAtomic arena.now.shape V.KIND it }
    ensures { IsReady arena.now p.new }
{
    let cleared = it.bit_clear(rt, arena, p, 128, ORDER);
    assert!(rt; cleared);
    let set = it.bit_set(rt, arena, p, 0, ORDER);
    assert!(rt; !set);
    let toggled = it.bit_toggle(rt, arena, p, 0, ORDER);
    assert!(rt; toggled);
    let again = it.bit_toggle(rt, arena, p, 128, ORDER);
    assert!(rt; !again);
}

/// The calls of integers, from the greatest value, which is odd.
fn integer_calls<V: IntScalar, R: Abort + Wait>(
    rt: &R,
    alloc: Global,
    least: V,
    greatest: V,
    one: V,
) -> Option<()> {
    let (arena, mut pass) = bench_of(alloc, greatest)?;
    let it = Atomic::<V>::of(&arena, 0)?;
    loud_sums(rt, &arena, &mut pass, it, least, greatest, one);
    new_sums(rt, &arena, &mut pass, it, least, greatest, one);
    loud_bounds(rt, &arena, &mut pass, it, least, greatest);
    quiet_sums(rt, &arena, &mut pass, it, least, one);
    bits(rt, &arena, &mut pass, it);
    loads_and_swaps(rt, &arena, &mut pass, it, greatest, least);
    Some(())
}

#[test]
fn every_type_is_loaded_stored_and_exchanged(rt: HostRuntime) -> Result<(), Fail> {
    scalar_calls(&rt, rt.alloc(), false, true).ok_or("bool")?;
    scalar_calls(&rt, rt.alloc(), i8::MIN, i8::MAX).ok_or("i8")?;
    scalar_calls(&rt, rt.alloc(), i16::MIN, i16::MAX).ok_or("i16")?;
    scalar_calls(&rt, rt.alloc(), i32::MIN, i32::MAX).ok_or("i32")?;
    scalar_calls(&rt, rt.alloc(), i64::MIN, i64::MAX).ok_or("i64")?;
    scalar_calls(&rt, rt.alloc(), i128::MIN, i128::MAX).ok_or("i128")?;
    scalar_calls(&rt, rt.alloc(), 0, u8::MAX).ok_or("u8")?;
    scalar_calls(&rt, rt.alloc(), 0, u16::MAX).ok_or("u16")?;
    scalar_calls(&rt, rt.alloc(), 0, u32::MAX).ok_or("u32")?;
    scalar_calls(&rt, rt.alloc(), 0, u64::MAX).ok_or("u64")?;
    scalar_calls(&rt, rt.alloc(), 0, u128::MAX).ok_or("u128")?;
    scalar_calls(&rt, rt.alloc(), Addr(0), Addr(u64::MAX)).ok_or("an address")?;
    Ok(())
}

#[test]
fn every_type_but_addresses_has_logic(rt: HostRuntime) -> Result<(), Fail> {
    logic_calls(&rt, rt.alloc(), false, true).ok_or("bool")?;
    logic_calls(&rt, rt.alloc(), 0, -1i8).ok_or("i8")?;
    logic_calls(&rt, rt.alloc(), 0, -1i16).ok_or("i16")?;
    logic_calls(&rt, rt.alloc(), 0, -1i32).ok_or("i32")?;
    logic_calls(&rt, rt.alloc(), 0, -1i64).ok_or("i64")?;
    logic_calls(&rt, rt.alloc(), 0, -1i128).ok_or("i128")?;
    logic_calls(&rt, rt.alloc(), 0, u8::MAX).ok_or("u8")?;
    logic_calls(&rt, rt.alloc(), 0, u16::MAX).ok_or("u16")?;
    logic_calls(&rt, rt.alloc(), 0, u32::MAX).ok_or("u32")?;
    logic_calls(&rt, rt.alloc(), 0, u64::MAX).ok_or("u64")?;
    logic_calls(&rt, rt.alloc(), 0, u128::MAX).ok_or("u128")?;
    Ok(())
}

#[test]
fn integers_wrap_at_their_edges(rt: HostRuntime) -> Result<(), Fail> {
    integer_calls(&rt, rt.alloc(), i8::MIN, i8::MAX, 1).ok_or("i8")?;
    integer_calls(&rt, rt.alloc(), i16::MIN, i16::MAX, 1).ok_or("i16")?;
    integer_calls(&rt, rt.alloc(), i32::MIN, i32::MAX, 1).ok_or("i32")?;
    integer_calls(&rt, rt.alloc(), i64::MIN, i64::MAX, 1).ok_or("i64")?;
    integer_calls(&rt, rt.alloc(), i128::MIN, i128::MAX, 1).ok_or("i128")?;
    integer_calls(&rt, rt.alloc(), 0, u8::MAX, 1).ok_or("u8")?;
    integer_calls(&rt, rt.alloc(), 0, u16::MAX, 1).ok_or("u16")?;
    integer_calls(&rt, rt.alloc(), 0, u32::MAX, 1).ok_or("u32")?;
    integer_calls(&rt, rt.alloc(), 0, u64::MAX, 1).ok_or("u64")?;
    integer_calls(&rt, rt.alloc(), 0, u128::MAX, 1).ok_or("u128")?;
    Ok(())
}

/// From -5 to 4: signed order, and an exchange that is done and one that fails.
fn signed_order<R: Abort + Wait>(rt: &R, arena: &Arena, p: &mut Pass, it: AtomicI16)
    requires ready { IsReady arena.now p.old }
    requires atomic { HasAtomic arena.now.shape (integer W16 true) it }
    ensures { IsReady arena.now p.new }
{
    let before = it.fetch_max(rt, arena, p, 3, ORDER);
    assert_eq!(rt; before, -5);
    let done = it.compare_exchange(rt, arena, p, 3, 4, ORDER, FAILURE);
    assert_eq!(rt; done, Ok(3));
    let failed = it.compare_exchange(rt, arena, p, 3, 9, ORDER, FAILURE);
    assert_eq!(rt; failed, Err(4));
}

/// From 4 to 0.
fn last_bit<R: Abort + Wait>(rt: &R, arena: &Arena, p: &mut Pass, it: AtomicI16)
    requires ready { IsReady arena.now p.old }
    requires atomic { HasAtomic arena.now.shape (integer W16 true) it }
    ensures { IsReady arena.now p.new }
{
    let was = it.bit_toggle(rt, arena, p, 2, ORDER);
    assert!(rt; was);
    let left = it.load(rt, arena, p, FAILURE);
    assert_eq!(rt; left, 0);
}

#[test]
fn signed_order_and_bits(rt: HostRuntime) -> Result<(), Fail> {
    let (arena, mut pass) = bench_of::<i16>(rt.alloc(), -5).ok_or("it opens")?;
    assert!(rt; AtomicU16::of(&arena, 0).is_none());
    assert!(rt; AtomicI16::of(&arena, 1).is_none());
    let it = AtomicI16::of(&arena, 0).ok_or("it is there")?;
    signed_order(&rt, &arena, &mut pass, it);
    last_bit(&rt, &arena, &mut pass, it);
    Ok(())
}
