//! Calls by each path.

ghost use Rattle.std.specs.Prelude.{◌≡◌, false};
ghost use Rattle.op_table.specs.declared.kind.Width.TheVariants.{W64};
ghost use Rattle.scalar_laws.specs.Kinds.{integer};
ghost use Rattle.seat_views.specs.declared.view.Flight.TheVariants.{Idle};
ghost use Rattle.seat_views.specs.States.{IsOf};
ghost use Rattle.atomic_types.specs.Atomics.{HasAtomic};

use crate::AtomicU64;
use crate::trials::{give, make, make_now, object, open};
use layout_plan::{are_declared, lay};
use op_table::{Call, LoadOrder, Order, Reply, Width};
use place_core::{Declared, Name};
use scalar_laws::Scalar;
use seat_views::{Arena, Pass};
use std::process::Abort;
use std::sync::Wait;
use std::test::*;
use target_desc::{builtin, target_ok};

/// One more visit after 41.
fn count<R: Abort + Wait>(rt: &R, arena: &Arena, pass: &mut Pass, visits: AtomicU64)
    requires arena { IsOf arena.now pass.old }
    requires atomic { HasAtomic arena.now.shape (integer W64 false) visits }
    requires rest { pass.old.flight ≡ Idle }
{
    let before = visits.fetch_add(rt, arena, pass, 1, Order::Relaxed);
    assert_eq!(rt; before, 41);
    let visited = visits.load(rt, arena, pass, LoadOrder::Acquire);
    assert_eq!(rt; visited, 42);
}

// The example of the crate's documentation.
#[test]
fn visits_are_counted(rt: HostRuntime) -> Result<(), Fail> {
    let name = Name::of(b"visits").ok_or("a name")?;
    let objects = [Declared {
        name,
        kind: u64::KIND,
        start: 41,
    }];
    let target = builtin(b"full64").ok_or("a target")?;
    if !target_ok(&target) || !are_declared(&objects) {
        return Err(Fail::from("a valid target and objects"));
    }
    let shape = lay(rt.alloc(), &target, &objects).ok().ok_or("memory")?;
    let (arena, mut root) = Arena::open(rt.alloc(), shape, 0).ok().ok_or("memory")?;
    let mut pass = root.pass(&arena).ok().ok_or("a number is left")?;
    let visits = AtomicU64::of(&arena, 0).ok_or("a u64")?;
    count(&rt, &arena, &mut pass, visits);
    Ok(())
}

#[test]
fn section_makes_nothing_at_once(rt: HostRuntime) -> Result<(), Fail> {
    let byte = object(Width::W8, 250).ok_or("an object")?;
    let (arena, mut root) = open(rt.alloc(), b"section32", &[byte]).ok_or("it opens")?;
    let mut p = give(&arena, &mut root).ok_or("a number is left")?;
    assert_eq!(rt;
        make(&rt, &arena, &mut p, 0, Call::Store(9)),
        Some(Reply::Unit),
        "make(0, Call::Store(9))"
    );
    assert_eq!(rt;
        make(&rt, &arena, &mut p, 0, Call::Load),
        Some(Reply::Value(9)),
        "make(0, Call::Load)"
    );
    assert_eq!(rt;
        make_now(&arena, &mut p, 0, Call::Load),
        Some(None),
        "make_now(0, Call::Load)"
    );
    Ok(())
}

#[test]
fn one_step_is_made_at_once_and_no_loop(rt: HostRuntime) -> Result<(), Fail> {
    let a = object(Width::W8, 250).ok_or("an object")?;
    let b = object(Width::W8, 7).ok_or("an object")?;
    let (arena, mut root) = open(rt.alloc(), b"word64", &[a, b]).ok_or("it opens")?;
    let mut p = give(&arena, &mut root).ok_or("a number is left")?;
    assert_eq!(rt;
        make_now(&arena, &mut p, 0, Call::Add(10, false)),
        Some(None),
        "make_now(0, Call::Add(10, false))"
    );
    assert_eq!(rt;
        make_now(&arena, &mut p, 0, Call::Load),
        Some(Some(Reply::Value(250))),
        "make_now(0, Call::Load)"
    );
    assert_eq!(rt;
        make_now(&arena, &mut p, 0, Call::Or(4, false)),
        Some(Some(Reply::Value(250))),
        "make_now(0, Call::Or(4, false))"
    );
    assert_eq!(rt;
        make_now(&arena, &mut p, 0, Call::Load),
        Some(Some(Reply::Value(254))),
        "make_now(0, Call::Load)"
    );
    assert!(rt; make_now(&arena, &mut p, 2, Call::Load).is_none());
    Ok(())
}

#[test]
fn loop_keeps_a_neighbour(rt: HostRuntime) -> Result<(), Fail> {
    let a = object(Width::W8, 250).ok_or("an object")?;
    let b = object(Width::W8, 7).ok_or("an object")?;
    let (arena, mut root) = open(rt.alloc(), b"word64", &[a, b]).ok_or("it opens")?;
    let mut p = give(&arena, &mut root).ok_or("a number is left")?;
    let add = Call::Add(10, false);
    assert_eq!(rt;
        make(&rt, &arena, &mut p, 0, add),
        Some(Reply::Value(250)),
        "make(0, add)"
    );
    assert_eq!(rt;
        make(&rt, &arena, &mut p, 0, Call::CasWeak(4, 5)),
        Some(Reply::Done(4)),
        "make(0, Call::CasWeak(4, 5))"
    );
    assert_eq!(rt;
        make(&rt, &arena, &mut p, 0, Call::CasWeak(4, 6)),
        Some(Reply::Failed(5)),
        "make(0, Call::CasWeak(4, 6))"
    );
    assert_eq!(rt;
        make(&rt, &arena, &mut p, 1, Call::Load),
        Some(Reply::Value(7)),
        "make(1, Call::Load)"
    );
    Ok(())
}

#[test]
fn parts_carry(rt: HostRuntime) -> Result<(), Fail> {
    let wide = object(Width::W128, u64::MAX as u128).ok_or("an object")?;
    let (arena, mut root) = open(rt.alloc(), b"full64", &[wide]).ok_or("it opens")?;
    let mut p = give(&arena, &mut root).ok_or("a number is left")?;
    assert_eq!(rt;
        make_now(&arena, &mut p, 0, Call::Load),
        Some(None),
        "make_now(0, Call::Load)"
    );
    let add = Call::Add(1, false);
    assert_eq!(rt;
        make(&rt, &arena, &mut p, 0, add),
        Some(Reply::Value(18446744073709551615)),
        "make(0, add)"
    );
    assert!(rt;
        make(&rt, &arena, &mut p, 0, Call::Load) == Some(Reply::Value(18446744073709551616))
    );
    Ok(())
}

#[test]
fn new_values_are_answered(rt: HostRuntime) -> Result<(), Fail> {
    let a = object(Width::W8, 250).ok_or("an object")?;
    let b = object(Width::W8, 7).ok_or("an object")?;
    let wide = object(Width::W128, u128::MAX).ok_or("an object")?;
    let (arena, mut root) = open(rt.alloc(), b"word32", &[a, b, wide]).ok_or("it opens")?;
    let mut p = give(&arena, &mut root).ok_or("a number is left")?;
    assert_eq!(rt;
        make(&rt, &arena, &mut p, 0, Call::AddFetch(10)),
        Some(Reply::Value(4)),
        "make(0, Call::AddFetch(10))"
    );
    assert_eq!(rt;
        make(&rt, &arena, &mut p, 1, Call::SubFetch(8)),
        Some(Reply::Value(255)),
        "make(1, Call::SubFetch(8))"
    );
    assert_eq!(rt;
        make(&rt, &arena, &mut p, 0, Call::Load),
        Some(Reply::Value(4)),
        "make(0, Call::Load)"
    );
    assert_eq!(rt;
        make(&rt, &arena, &mut p, 1, Call::NandFetch(10)),
        Some(Reply::Value(245)),
        "make(1, Call::NandFetch(10))"
    );
    assert_eq!(rt;
        make(&rt, &arena, &mut p, 0, Call::XorFetch(6)),
        Some(Reply::Value(2)),
        "make(0, Call::XorFetch(6))"
    );
    assert_eq!(rt;
        make(&rt, &arena, &mut p, 2, Call::AddFetch(1)),
        Some(Reply::Value(0)),
        "make(2, Call::AddFetch(1))"
    );
    Ok(())
}
