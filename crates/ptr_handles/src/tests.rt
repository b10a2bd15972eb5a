//! Handles to a pool of three items.

ghost use Rattle.std.specs.Prelude.{IfSome};
ghost use Rattle.scalar_laws.specs.Kinds.{address};
ghost use Rattle.seat_views.specs.Trials.{IsReady, IsReadyRoot};
ghost use Rattle.atomic_types.specs.Atomics.{HasAtomic};

use crate::{AtomicHandle, Handle, Pool};
use layout_plan::{are_declared, lay};
use op_table::{LoadOrder, Order, StoreOrder};
use place_core::{Declared, Name};
use scalar_laws::{Addr, Scalar};
use seat_views::{Arena, Pass, Root};
use std::alloc::Global;
use std::process::Abort;
use std::sync::Wait;
use std::test::*;
use target_desc::{builtin, target_ok};

const ORDER: Order = Order::AcqRel;

const FAILURE: LoadOrder = LoadOrder::SeqCst;

/// The arena of one object of a type's kind, at 0; None where there is no memory.
fn open<V: Scalar>(alloc: Global) -> Option<(Arena, Root)>
    ensures { IfSome result (λ r. IsReadyRoot r.0 r.1) }
{
    let name = Name::of(b"top")?;
    let objects = [Declared {
        name,
        kind: V::KIND,
        start: 0,
    }];
    let target = builtin(b"word64")?;
    if !target_ok(&target) || !are_declared(&objects) {
        return None;
    }
    let shape = lay(alloc, &target, &objects).ok()?;
    Arena::open(alloc, shape, 0).ok()
}

/// A pool of three items.
fn three(alloc: Global) -> Option<Pool<u8>> {
    let mut items = Vec::new(alloc);
    items.push(65).ok()?;
    items.push(66).ok()?;
    items.push(67).ok()?;
    if items.len() > 1000 {
        return None;
    }
    Some(Pool::of(items))
}

// The example of the crate's documentation.
#[test]
fn handle_is_pushed_with_a_tag(rt: HostRuntime) -> Result<(), Fail> {
    let pool = three(rt.alloc()).ok_or("memory")?;
    let (arena, mut root) = open::<Addr>(rt.alloc()).ok_or("it opens")?;
    let mut pass = root.pass(&arena).ok().ok_or("a number is left")?;
    let top = AtomicHandle::of(&arena, 0).ok_or("a pointer")?;
    let first = pool.handle(0).ok_or("an item")?.with_tag(3);
    let null = Handle::null();
    let order = Order::AcqRel;
    let pushed = top.compare_exchange(
        &rt,
        &arena,
        &mut pass,
        null,
        first,
        order,
        LoadOrder::Relaxed,
    );
    assert_eq!(rt; pushed, Ok(null));
    let seen = top.load(&rt, &arena, &mut pass, LoadOrder::Acquire);
    assert_eq!(rt; seen.tag(), 3);
    assert_eq!(rt; pool.get(seen), Some(&65));
    Ok(())
}

#[test]
fn items_have_handles(rt: HostRuntime) -> Result<(), Fail> {
    let pool = three(rt.alloc()).ok_or("memory")?;
    assert_eq!(rt; pool.handle(0), Some(Handle { bits: 16 }));
    assert_eq!(rt; pool.handle(2), Some(Handle { bits: 48 }));
    assert_eq!(rt; pool.handle(3), None);
    assert_eq!(rt; pool.get(Handle::null()), None);
    let tagged = Handle { bits: 19 };
    assert_eq!(rt; (pool.get(tagged), tagged.tag()), (Some(&65), 3));
    assert_eq!(rt; tagged.with_tag(0), Handle { bits: 16 });
    assert_eq!(rt; pool.get(Handle { bits: 63 }), Some(&67));
    assert_eq!(rt; pool.get(Handle { bits: 64 }), None);
    assert_eq!(rt; pool.get(Handle { bits: u64::MAX }), None);
    Ok(())
}

/// An arena of a pointer at null, and a pass of it; None where there is no memory.
fn bench_of(alloc: Global) -> Option<(Arena, Pass)>
    ensures { IfSome result (λ b. IsReady b.0 b.1) }
{
    let (arena, mut root) = open::<Addr>(alloc)?;
    let pass = root.pass(&arena).ok()?;
    Some((arena, pass))
}

/// An item forth from null, and 17 bytes back, which wraps.
fn forth_and_back<R: Abort + Wait>(rt: &R, arena: &Arena, p: &mut Pass, top: AtomicHandle)
    requires ready { IsReady arena.now p.old }
    requires pointer { HasAtomic arena.now.shape address top }
    ensures { IsReady arena.now p.new }
{
    let null = top.fetch_ptr_add(rt, arena, p, 1, ORDER);
    assert_eq!(rt; null, Handle::null());
    let first = top.fetch_byte_sub(rt, arena, p, 17, ORDER);
    assert_eq!(rt; first.bits, 16);
    let wrapped = top.load(rt, arena, p, FAILURE);
    assert_eq!(rt; wrapped.bits, 18446744073709551615);
}

/// 18 bytes forth from the last number, and an item back.
fn on_and_back<R: Abort + Wait>(rt: &R, arena: &Arena, p: &mut Pass, top: AtomicHandle)
    requires ready { IsReady arena.now p.old }
    requires pointer { HasAtomic arena.now.shape address top }
    ensures { IsReady arena.now p.new }
{
    let last = top.fetch_byte_add(rt, arena, p, 18, ORDER);
    assert_eq!(rt; last.bits, u64::MAX);
    let over = top.fetch_ptr_sub(rt, arena, p, 1, ORDER);
    assert_eq!(rt; over.bits, 17);
    let left = top.load(rt, arena, p, FAILURE);
    assert_eq!(rt; left.bits, 1);
}

#[test]
fn sums_go_by_items_and_by_bytes(rt: HostRuntime) -> Result<(), Fail> {
    let (arena, mut pass) = bench_of(rt.alloc()).ok_or("it opens")?;
    let top = AtomicHandle::of(&arena, 0).ok_or("a pointer")?;
    forth_and_back(&rt, &arena, &mut pass, top);
    on_and_back(&rt, &arena, &mut pass, top);
    Ok(())
}

/// A tagged handle is stored, and a weak exchange that expects it without its tag fails.
fn store_with_tag<R: Abort + Wait>(rt: &R, arena: &Arena, p: &mut Pass, top: AtomicHandle)
    requires ready { IsReady arena.now p.old }
    requires pointer { HasAtomic arena.now.shape address top }
    ensures { IsReady arena.now p.new }
{
    let (tagged, plain) = (Handle { bits: 53 }, Handle { bits: 48 });
    top.store(rt, arena, p, tagged, StoreOrder::Release);
    let weak = top.compare_exchange_weak(rt, arena, p, plain, Handle::null(), ORDER, FAILURE);
    assert_eq!(rt; weak, Err(tagged));
}

/// The logic calls, from the number 53 to 49.
fn logic<R: Abort + Wait>(rt: &R, arena: &Arena, p: &mut Pass, top: AtomicHandle)
    requires ready { IsReady arena.now p.old }
    requires pointer { HasAtomic arena.now.shape address top }
    ensures { IsReady arena.now p.new }
{
    let and = top.fetch_and(rt, arena, p, 0xF0, ORDER);
    assert_eq!(rt; and.bits, 53);
    let or = top.fetch_or(rt, arena, p, 2, ORDER);
    assert_eq!(rt; or.bits, 48);
    let xor = top.fetch_xor(rt, arena, p, 3, ORDER);
    assert_eq!(rt; xor.bits, 50);
}

/// The calls of bits, from the number 49 to null; positions 64 and 66 are those of the bits 0 and 2.
fn bits<R: Abort + Wait>(rt: &R, arena: &Arena, p: &mut Pass, top: AtomicHandle)
    requires ready { IsReady arena.now p.old }
    requires pointer { HasAtomic arena.now.shape address top }
    ensures { IsReady arena.now p.new }
{
    let cleared = top.bit_clear(rt, arena, p, 64, ORDER);
    assert!(rt; cleared);
    let set = top.bit_set(rt, arena, p, 2, ORDER);
    assert!(rt; !set);
    let toggled = top.bit_toggle(rt, arena, p, 66, ORDER);
    assert!(rt; toggled);
    let swapped = top.swap(rt, arena, p, Handle::null(), ORDER);
    assert_eq!(rt; swapped.bits, 48);
}

#[test]
fn tags_and_bits(rt: HostRuntime) -> Result<(), Fail> {
    let (arena, mut pass) = bench_of(rt.alloc()).ok_or("it opens")?;
    let top = AtomicHandle::of(&arena, 0).ok_or("a pointer")?;
    store_with_tag(&rt, &arena, &mut pass, top);
    logic(&rt, &arena, &mut pass, top);
    bits(&rt, &arena, &mut pass, top);
    Ok(())
}

#[test]
fn pointers_alone_have_handles(rt: HostRuntime) -> Result<(), Fail> {
    let (pointers, _) = open::<Addr>(rt.alloc()).ok_or("it opens")?;
    assert!(rt; AtomicHandle::of(&pointers, 1).is_none());
    let (numbers, _) = open::<u64>(rt.alloc()).ok_or("it opens")?;
    assert!(rt; AtomicHandle::of(&numbers, 0).is_none());
    Ok(())
}
