//! Calls on u128s, by number.

use crate::once_trials::{
    glance_and_stop, load, load_once, open_three, open_two, store, store_once, take_and_stop,
};
use crate::trials::{give, hold_beside, look, look_beside, make, open_wide};
use op_table::{Call, Reply};
use seq_lock::Missed;
use std::test::*;

#[test]
fn store_brings_the_last_stamp(rt: HostRuntime) -> Result<(), Fail> {
    let (arena, mut root) = open_wide(rt.alloc(), 5, 64, 18446744073709551612)?.ok_or("it opens")?;
    let mut p = give(&arena, &mut root).ok_or("a number is left")?;
    assert_eq!(rt; look(&arena, &mut p), Ok(5), "look()");
    assert_eq!(rt;
        make(&rt, &arena, &mut p, Call::Store(6)),
        Some(Reply::Unit),
        "make(Call::Store(6))"
    );
    assert_eq!(rt; look(&arena, &mut p), Err(Missed::Last), "look()");
    assert_eq!(rt;
        make(&rt, &arena, &mut p, Call::Load),
        Some(Reply::Value(6)),
        "make(Call::Load)"
    );
    assert_eq!(rt; look(&arena, &mut p), Err(Missed::Last), "look()");
    Ok(())
}

#[test]
fn glance_is_held_off_and_moved(rt: HostRuntime) -> Result<(), Fail> {
    let (arena, mut root) = open_wide(rt.alloc(), 5, 64, 0)?.ok_or("it opens")?;
    let mut p = give(&arena, &mut root).ok_or("a number is left")?;
    let mut q = give(&arena, &mut root).ok_or("a number is left")?;
    let (seen, value, reply) = hold_beside(&rt, &arena, &mut p, &mut q);
    assert_eq!(rt; seen, Err(Missed::Held), "seen");
    assert_eq!(rt; value, 5, "value");
    assert_eq!(rt; reply, Reply::Value(5), "reply");
    let (stamp, seen) = look_beside(&rt, &arena, &mut q, &mut p, Call::Store(9));
    assert_eq!(rt; stamp, Ok(0), "stamp");
    let moved = Missed::Moved {
        first: 0,
        second: 2,
    };
    assert_eq!(rt; seen, Err(moved), "seen");
    assert_eq!(rt; look(&arena, &mut q), Ok(9), "look()");
    Ok(())
}

#[test]
fn carry_goes_through_four_parts(rt: HostRuntime) -> Result<(), Fail> {
    let (arena, mut root) = open_wide(rt.alloc(), u128::MAX, 32, 0)?.ok_or("it opens")?;
    let mut p = give(&arena, &mut root).ok_or("a number is left")?;
    let add = Call::Add(1, false);
    assert_eq!(rt;
        make(&rt, &arena, &mut p, add),
        Some(Reply::Value(u128::MAX)),
        "make(add)"
    );
    assert_eq!(rt;
        make(&rt, &arena, &mut p, Call::Load),
        Some(Reply::Value(0)),
        "make(Call::Load)"
    );
    Ok(())
}

#[test]
fn exchange_that_fails_keeps_the_stamp(rt: HostRuntime) -> Result<(), Fail> {
    let (arena, mut root) = open_wide(rt.alloc(), 7, 32, 2)?.ok_or("it opens")?;
    let mut p = give(&arena, &mut root).ok_or("a number is left")?;
    let mut q = give(&arena, &mut root).ok_or("a number is left")?;
    let weak = Call::CasWeak(8, 9);
    assert_eq!(rt;
        make(&rt, &arena, &mut p, weak),
        Some(Reply::Failed(7)),
        "make(weak)"
    );
    let (stamp, seen) = look_beside(&rt, &arena, &mut q, &mut p, Call::Cas(8, 9));
    assert_eq!(rt; stamp, Ok(2), "stamp");
    assert_eq!(rt; seen, Ok(7), "seen");
    assert_eq!(rt;
        make(&rt, &arena, &mut p, Call::CasWeak(7, 7)),
        Some(Reply::Done(7)),
        "make(Call::CasWeak(7, 7))"
    );
    assert_eq!(rt;
        look_beside(&rt, &arena, &mut q, &mut p, Call::Load).0,
        Ok(4),
        "look_beside(Call::Load).0"
    );
    Ok(())
}

const LAST: u64 = 18446744073709551614;

#[test]
fn lock_keeps_the_last_stamp(rt: HostRuntime) -> Result<(), Fail> {
    let (arena, mut root) = open_two(rt.alloc(), 5, LAST)?.ok_or("it opens")?;
    let mut p = give(&arena, &mut root).ok_or("a number is left")?;
    assert_eq!(rt; load(&rt, &arena, &mut p), Reply::Value(5), "load()");
    assert_eq!(rt; store(&rt, &arena, &mut p, 6), Reply::Unit, "store(6)");
    assert_eq!(rt; load(&rt, &arena, &mut p), Reply::Value(6), "load()");
    assert_eq!(rt; look(&arena, &mut p), Err(Missed::Last), "look()");
    Ok(())
}

#[test]
fn calls_at_the_last_stamp_take_once(rt: HostRuntime) -> Result<(), Fail> {
    let (arena, mut root) = open_two(rt.alloc(), 5, LAST)?.ok_or("it opens")?;
    let mut p = give(&arena, &mut root).ok_or("a number is left")?;
    assert_eq!(rt;
        load_once(&arena, &mut p, 0),
        Some(Reply::Value(5)),
        "load_once(0)"
    );
    assert_eq!(rt;
        store_once(&arena, &mut p, 0, 6),
        Some(Reply::Unit),
        "store_once(0, 6)"
    );
    assert_eq!(rt;
        load_once(&arena, &mut p, 0),
        Some(Reply::Value(6)),
        "load_once(0)"
    );
    assert_eq!(rt; look(&arena, &mut p), Err(Missed::Last), "look()");
    Ok(())
}

#[test]
fn stopped_holder_is_told(rt: HostRuntime) -> Result<(), Fail> {
    let (arena, mut root) = open_three(rt.alloc())?.ok_or("it opens")?;
    let p = give(&arena, &mut root).ok_or("a number is left")?;
    let mut q = give(&arena, &mut root).ok_or("a number is left")?;
    assert!(rt; take_and_stop(&arena, p, 0));
    assert!(rt; store_once(&arena, &mut q, 1, 1).is_none());
    assert_eq!(rt;
        store_once(&arena, &mut q, 2, 1),
        Some(Reply::Unit),
        "store_once(2, 1)"
    );
    assert!(rt; load_once(&arena, &mut q, 0).is_none());
    Ok(())
}

#[test]
fn stopped_glance_holds_nobody_off(rt: HostRuntime) -> Result<(), Fail> {
    let (arena, mut root) = open_wide(rt.alloc(), 5, 64, 0)?.ok_or("it opens")?;
    let p = give(&arena, &mut root).ok_or("a number is left")?;
    let mut q = give(&arena, &mut root).ok_or("a number is left")?;
    assert_eq!(rt; glance_and_stop(&arena, p), Ok(0), "glance_and_stop(p)");
    assert_eq!(rt;
        make(&rt, &arena, &mut q, Call::Store(6)),
        Some(Reply::Unit),
        "make(Call::Store(6))"
    );
    assert_eq!(rt; look(&arena, &mut q), Ok(6), "look()");
    Ok(())
}
