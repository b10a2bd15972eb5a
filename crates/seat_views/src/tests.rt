//! Passes of one arena, step by step.

ghost use Rattle.seat_views.specs.Trials.{IsReady, IsReadyRoot};

use crate::trials::{
    add_at_once, attempt, begin, end, end_both, give, give_many, glance, glance_at, hear_at_once,
    load_wide, look, one, open_bytes, open_counter, open_held, open_quarters, open_wide, read_both,
    release_loaded, see_both, store_wide, take, wide_shape,
};
use op_table::{Call, Reply};
use std::test::*;

#[test]
fn note_tells_of_a_call(rt: HostRuntime) -> Result<(), Fail> {
    let (arena, mut root) = open_counter(rt.alloc())?.ok_or("it opens")?;
    let mut p = give(&arena, &mut root).ok_or("a number is left")?;
    let mut q = give(&arena, &mut root).ok_or("a number is left")?;
    assert_eq!(rt;
        one(&arena, &mut p, 0, Call::Add(1, false)),
        Some(Reply::Value(0)),
        "one(0, Call::Add(1, false))"
    );
    let note = p.note(&arena);
    q.meet(&arena, note);
    assert_eq!(rt;
        one(&arena, &mut q, 0, Call::Load),
        Some(Reply::Value(1)),
        "one(0, Call::Load)"
    );
    end_both(&arena, &mut root, p, q);
    assert_eq!(rt;
        one(&arena, root.as_pass(), 0, Call::Load),
        Some(Reply::Value(1)),
        "one(root.as_pass(), 0, Call::Load)"
    );
    Ok(())
}

#[test]
fn only_65535_numbers_are_given(rt: HostRuntime) -> Result<(), Fail> {
    let (arena, mut root) = open_counter(rt.alloc())?.ok_or("it opens")?;
    assert_eq!(rt; give_many(&arena, &mut root, 65535), 65535);
    assert_eq!(rt; give_many(&arena, &mut root, 1), 0);
    Ok(())
}

const WEAK: Call = Call::CasWeak(7, 8);

#[test]
fn neighbour_changes_after_a_look(rt: HostRuntime) -> Result<(), Fail> {
    let (arena, mut root) = open_bytes(rt.alloc())?.ok_or("it opens")?;
    let mut p = give(&arena, &mut root).ok_or("a number is left")?;
    let mut q = give(&arena, &mut root).ok_or("a number is left")?;
    assert_eq!(rt;
        look(&arena, &mut q, 1, WEAK),
        Some(Err(0x07FA)),
        "look(1, WEAK)"
    );
    let add = Call::Add(10, false);
    assert_eq!(rt;
        look(&arena, &mut p, 0, add),
        Some(Err(0x07FA)),
        "look(0, add)"
    );
    assert_eq!(rt;
        attempt(&arena, &mut p, 0, add, 0x07FA),
        Some(Ok(Reply::Value(250))),
        "attempt(0, add, 0x07FA)"
    );
    assert_eq!(rt;
        attempt(&arena, &mut q, 1, WEAK, 0x07FA),
        Some(Ok(Reply::Failed(7))),
        "attempt(1, WEAK, 0x07FA)"
    );
    assert_eq!(rt;
        attempt(&arena, &mut q, 1, WEAK, 0x0704),
        Some(Ok(Reply::Done(7))),
        "attempt(1, WEAK, 0x0704)"
    );
    assert_eq!(rt;
        look(&arena, &mut q, 1, add),
        Some(Err(0x0804)),
        "look(1, add)"
    );
    Ok(())
}

#[test]
fn lost_try_of_an_addition_tells_the_word(rt: HostRuntime) -> Result<(), Fail> {
    let (arena, mut root) = open_bytes(rt.alloc())?.ok_or("it opens")?;
    let mut p = give(&arena, &mut root).ok_or("a number is left")?;
    let add = Call::Add(1, true);
    assert_eq!(rt;
        attempt(&arena, &mut p, 0, add, 0x0700),
        Some(Err(0x07FA)),
        "attempt(0, add, 0x0700)"
    );
    assert!(rt;
        attempt(&arena, &mut p, 0, Call::Cas(1, 2), 0x0701) == Some(Ok(Reply::Failed(250)))
    );
    assert_eq!(rt;
        attempt(&arena, &mut p, 0, add, 0x07FA),
        Some(Ok(Reply::Unit)),
        "attempt(0, add, 0x07FA)"
    );
    assert_eq!(rt;
        look(&arena, &mut p, 0, Call::Load),
        Some(Ok(Reply::Value(251))),
        "look(0, Call::Load)"
    );
    Ok(())
}

#[test]
fn call_that_changes_nothing_loses_no_try(rt: HostRuntime) -> Result<(), Fail> {
    let (arena, mut root) = open_bytes(rt.alloc())?.ok_or("it opens")?;
    let mut p = give(&arena, &mut root).ok_or("a number is left")?;
    let mut q = give(&arena, &mut root).ok_or("a number is left")?;
    assert_eq!(rt;
        look(&arena, &mut q, 1, WEAK),
        Some(Err(0x07FA)),
        "look(1, WEAK)"
    );
    assert_eq!(rt;
        one(&arena, &mut p, 0, Call::Or(2, false)),
        Some(Reply::Value(250)),
        "one(0, Call::Or(2, false))"
    );
    assert_eq!(rt;
        attempt(&arena, &mut q, 1, WEAK, 0x07FA),
        Some(Ok(Reply::Done(7))),
        "attempt(1, WEAK, 0x07FA)"
    );
    Ok(())
}

#[test]
fn root_takes_a_lock_at_once(rt: HostRuntime) -> Result<(), Fail> {
    let (_arena, _root, won) = open_held(rt.alloc(), wide_shape(rt.alloc(), 5)?, 6).ok_or(
        "it opens",
    )?;
    assert!(rt; won);
    Ok(())
}

#[test]
fn store_brings_the_last_stamp(rt: HostRuntime) -> Result<(), Fail> {
    let (arena, mut root) = open_wide(rt.alloc(), 5, 18446744073709551612)?.ok_or("it opens")?;
    let mut p = give(&arena, &mut root).ok_or("a number is left")?;
    assert_eq!(rt; glance(&arena, &mut p), Ok(5), "glance()");
    assert_eq!(rt;
        store_wide(&arena, &mut p, 6),
        Some(Reply::Unit),
        "store_wide(6)"
    );
    assert_eq!(rt;
        glance(&arena, &mut p),
        Err(18446744073709551614),
        "glance()"
    );
    assert_eq!(rt;
        store_wide(&arena, &mut p, 1 << 64),
        Some(Reply::Unit),
        "store_wide(1 << 64)"
    );
    assert_eq!(rt;
        glance(&arena, &mut p),
        Err(18446744073709551614),
        "glance()"
    );
    assert_eq!(rt;
        load_wide(&arena, &mut p),
        Some(Reply::Value(1 << 64)),
        "load_wide()"
    );
    Ok(())
}

#[test]
fn take_finds_the_lock_held(rt: HostRuntime) -> Result<(), Fail> {
    let (arena, mut root) = open_wide(rt.alloc(), 5, 0)?.ok_or("it opens")?;
    let mut p = give(&arena, &mut root).ok_or("a number is left")?;
    let mut q = give(&arena, &mut root).ok_or("a number is left")?;
    assert!(rt; take(&arena, &mut p));
    read_both(&arena, &mut p);
    assert!(rt; store_wide(&arena, &mut q, 9).is_none());
    assert_eq!(rt; glance(&arena, &mut q), Err(1), "glance()");
    assert_eq!(rt;
        release_loaded(&arena, &mut p),
        Reply::Value(5),
        "release_loaded()"
    );
    assert_eq!(rt; glance(&arena, &mut q), Ok(5), "glance()");
    Ok(())
}

#[test]
fn match_tells_of_a_store(rt: HostRuntime) -> Result<(), Fail> {
    let (arena, mut root) = open_wide(rt.alloc(), 5, 0)?.ok_or("it opens")?;
    let mut p = give(&arena, &mut root).ok_or("a number is left")?;
    let mut q = give(&arena, &mut root).ok_or("a number is left")?;
    let (stamp, began) = begin(&arena, &mut q);
    assert!(rt; began, "a glance began");
    assert_eq!(rt; stamp, 0, "stamp");
    assert_eq!(rt;
        store_wide(&arena, &mut p, 9),
        Some(Reply::Unit),
        "store_wide(9)"
    );
    see_both(&arena, &mut q);
    assert_eq!(rt; end(&arena, &mut q), Err(2), "end()");
    assert_eq!(rt; glance(&arena, &mut q), Ok(9), "glance()");
    Ok(())
}

#[test]
fn glance_is_dropped(rt: HostRuntime) -> Result<(), Fail> {
    let (arena, mut root) = open_wide(rt.alloc(), 5, 0)?.ok_or("it opens")?;
    let mut p = give(&arena, &mut root).ok_or("a number is left")?;
    let (_, began) = begin(&arena, &mut p);
    assert!(rt; began);
    p.drop_glance(&arena);
    assert_eq!(rt;
        store_wide(&arena, &mut p, 7),
        Some(Reply::Unit),
        "store_wide(7)"
    );
    assert_eq!(rt; glance(&arena, &mut p), Ok(7), "glance()");
    Ok(())
}

#[test]
fn two_threads_add(rt: HostRuntime) -> Result<(), Fail> {
    let (arena, mut root) = open_counter(rt.alloc())?.ok_or("it opens")?;
    let p = give(&arena, &mut root).ok_or("a number is left")?;
    let q = give(&arena, &mut root).ok_or("a number is left")?;
    let (p, q) = add_at_once(&rt, &arena, p, q, 1000);
    end_both(&arena, &mut root, p, q);
    assert_eq!(rt;
        one(&arena, root.as_pass(), 0, Call::Load),
        Some(Reply::Value(2000)),
        "one(root.as_pass(), 0, Call::Load)"
    );
    Ok(())
}

#[test]
fn root_and_note_are_sent(rt: HostRuntime) -> Result<(), Fail> {
    let (arena, mut root) = open_counter(rt.alloc())?.ok_or("it opens")?;
    let mut p = give(&arena, &mut root).ok_or("a number is left")?;
    let q = give(&arena, &mut root).ok_or("a number is left")?;
    assert_eq!(rt;
        one(&arena, &mut p, 0, Call::Add(1, false)),
        Some(Reply::Value(0)),
        "one(0, Call::Add(1, false))"
    );
    let note = p.note(&arena);
    let (mut root, mut q) = hear_at_once(&rt, &arena, root, q, note);
    assert_eq!(rt;
        one(&arena, &mut q, 0, Call::Load),
        Some(Reply::Value(1)),
        "one(0, Call::Load)"
    );
    end_both(&arena, &mut root, p, q);
    Ok(())
}

#[test]
fn glances_at_parts_of_32_bits(rt: HostRuntime) -> Result<(), Fail> {
    let start = 340282366920938463463374607431768211450;
    let (arena, mut root) = open_quarters(rt.alloc(), start)?.ok_or("it opens")?;
    let mut p = give(&arena, &mut root).ok_or("a number is left")?;
    assert_eq!(rt;
        glance_at(&arena, &mut p, 1),
        Some(Ok(start)),
        "glance_at(1)"
    );
    assert_eq!(rt;
        glance_at(&arena, &mut p, 0),
        Some(Ok(4294967301)),
        "glance_at(0)"
    );
    assert!(rt; glance_at(&arena, &mut p, 2).is_none());
    Ok(())
}
