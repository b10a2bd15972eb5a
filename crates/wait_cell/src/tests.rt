//! Waiting, by one thread and by many.

ghost use Rattle.std.specs.Prelude.{IfSome};
ghost use Rattle.seat_views.specs.Trials.{IsReady};

use crate::trials::{
    Bells, Part, at_least, count_out, count_twice, counts_nothing, crowd, give, give_many, look_at,
    look_typed, make, meet, object, open, take_and_give, take_give_take, to_and_fro, wake_all,
};
use crate::{Bell, Zero};
use op_table::{Call, Reply, Width};
use seat_views::{Arena, Pass};
use std::alloc::Global;
use std::process::Abort;
use std::sync::Wait;
use std::test::*;
use std::thread::Threads;
use std::time::Clock;

const MOST_U8: u128 = 255;

const MOST_U32: u128 = 4_294_967_295;

const MOST_U64: u128 = 18_446_744_073_709_551_615;

/// What another thread's store of 7 tells a waiter, and then a look for 7 and one for 6, of three turns each.
type Told = (Option<u128>, Option<Option<u128>>, Option<Option<u128>>);

/// One thread waits for another number than 0, and another stores 7; then the host looks.
fn waits_and_looks<R: Threads + Wait + Sync>(rt: &R, alloc: Global) -> Option<Told> {
    let n = object(Width::W32, 0)?;
    let (arena, mut root) = open(alloc, b"full64", &[n])?;
    let (p, q) = (give(&arena, &mut root)?, give(&arena, &mut root)?);
    let mut after = give(&arena, &mut root)?;
    let found = meet(rt, &arena, p, q, Call::Store(7));
    let same = look_at(&arena, &mut after, 0, 7, 3);
    Some((found, same, look_at(&arena, &mut after, 0, 6, 3)))
}

#[test]
fn waiter_answers_what_another_stored(rt: HostRuntime) -> Result<(), Fail> {
    let told = waits_and_looks(&rt, rt.alloc());
    assert_eq!(rt; told, Some((Some(7), Some(None), Some(Some(7)))));
    Ok(())
}

/// Looks by the type for 7 and for 8 at a number that is 7.
fn looks_by_type(alloc: Global) -> Option<(Option<Option<u32>>, Option<Option<u32>>)> {
    let n = object(Width::W32, 7)?;
    let (arena, mut root) = open(alloc, b"full64", &[n])?;
    let mut p = give(&arena, &mut root)?;
    let same = look_typed(&arena, &mut p, 0, 7, 1);
    Some((same, look_typed(&arena, &mut p, 0, 8, 1)))
}

/// Waits until a number that is 7 is at least 7.
fn waits_for_least<R: Wait>(rt: &R, alloc: Global) -> Option<u128> {
    let n = object(Width::W32, 7)?;
    let (arena, mut root) = open(alloc, b"full64", &[n])?;
    let mut p = give(&arena, &mut root)?;
    let bell = Bell::new();
    at_least(rt, &arena, &mut p, 0, 7, &bell)
}

#[test]
fn typed_looks_and_closures_answer(rt: HostRuntime) -> Result<(), Fail> {
    assert_eq!(rt;
        looks_by_type(rt.alloc()),
        Some((Some(None), Some(Some(7))))
    );
    assert_eq!(rt; waits_for_least(&rt, rt.alloc()), Some(7));
    Ok(())
}

/// Two threads hand object 0, a number of the width, to and fro, each so many times.
fn goes_to_and_fro<R: Threads + Wait + Sync + Abort>(
    rt: &R,
    alloc: Global,
    target: &str,
    width: Width,
    most: u128,
    times: u32,
) -> Result<(), Fail> {
    let n = object(width, 1).ok_or("an object")?;
    let beside = object(Width::W8, 9).ok_or("an object")?;
    let (arena, mut root) = open(alloc, target.as_bytes(), &[n, beside]).ok_or("it opens")?;
    let p = give(&arena, &mut root).ok_or("a number is left")?;
    let q = give(&arena, &mut root).ok_or("a number is left")?;
    let (left, right) = to_and_fro(rt, &arena, p, q, most, times);
    let last = times as u128 * 2;
    assert_eq!(rt; left, Some(last & most), "the first, on {target}");
    assert_eq!(rt; right, Some((last + 1) & most), "the second, on {target}");
    Ok(())
}

#[test]
fn numbers_go_to_and_fro(rt: HostRuntime) -> Result<(), Fail> {
    let alloc = rt.alloc();
    goes_to_and_fro(&rt, alloc, "full64", Width::W64, MOST_U64, 50_000)?;
    goes_to_and_fro(&rt, alloc, "section32", Width::W32, MOST_U32, 50_000)?;
    goes_to_and_fro(&rt, alloc, "word64", Width::W8, MOST_U8, 1000)?;
    goes_to_and_fro(&rt, alloc, "word32", Width::W128, u128::MAX, 1000)
}

/// How many of the answers are this.
fn count_of(answers: &[Option<u32>], wanted: u32) -> usize {
    answers.iter().filter(|a| **a == Some(wanted)).count()
}

/// Sixty-four threads wait at one bell, and one ring after a change wakes them all; a hundred before it changed nothing.
fn one_ring_wakes<R: Threads + Wait + Clock + Sync + Abort>(
    rt: &R,
    alloc: Global,
    target: &str,
) -> Result<(), Fail> {
    let n = object(Width::W32, 0).ok_or("an object")?;
    let here = object(Width::W32, 0).ok_or("an object")?;
    let (arena, mut root) = open(alloc, target.as_bytes(), &[n, here]).ok_or("it opens")?;
    let p = give(&arena, &mut root).ok_or("a number is left")?;
    let waiters = give_many(alloc, &arena, &mut root, 64).ok_or("numbers are left")?;
    let found = wake_all(rt, &arena, waiters, p, 64).ok_or("memory")?;
    assert_eq!(rt; count_of(&found, 7), 64, "on {target}");
    Ok(())
}

#[test]
fn one_ring_wakes_all(rt: HostRuntime) -> Result<(), Fail> {
    one_ring_wakes(&rt, rt.alloc(), "full64")?;
    one_ring_wakes(&rt, rt.alloc(), "section32")
}

#[test]
fn four_threads_share_two_permits(rt: HostRuntime) -> Result<(), Fail> {
    let n = object(Width::W32, 2).ok_or("an object")?;
    let (arena, mut root) = open(rt.alloc(), b"full64", &[n]).ok_or("it opens")?;
    let mut host = give(&arena, &mut root).ok_or("a number is left")?;
    let passes = give_many(rt.alloc(), &arena, &mut root, 4).ok_or("numbers are left")?;
    let bells = Bells::new();
    let most = crowd(&rt, &arena, passes, &bells, Part::Lends).ok_or("memory")?;
    assert_eq!(rt;
        count_of(&most, 0).wrapping_add(count_of(&most, 1)),
        4,
        "each take left 0 or 1"
    );
    assert_eq!(rt;
        make(&rt, &arena, &mut host, 0, Call::Load),
        Some(Reply::Value(2)),
        "the last value"
    );
    Ok(())
}

#[test]
fn permit_comes_from_another_thread(rt: HostRuntime) -> Result<(), Fail> {
    let n = object(Width::W32, 0).ok_or("an object")?;
    let (arena, mut root) = open(rt.alloc(), b"section32", &[n]).ok_or("it opens")?;
    let p = give(&arena, &mut root).ok_or("a number is left")?;
    let q = give(&arena, &mut root).ok_or("a number is left")?;
    assert_eq!(rt; take_and_give(&rt, &arena, p, q), (Some(0), Some(0)));
    Ok(())
}

/// An arena of permits at 0, of a number of 64 bits, and of a latch at 1; and a pass.
fn three_objects(alloc: Global) -> Option<(Arena, Pass)>
    ensures { IfSome result (λ r. IsReady r.0 r.1) }
{
    let n = object(Width::W32, 0)?;
    let wide = object(Width::W64, 1)?;
    let latch = object(Width::W32, 1)?;
    let (arena, mut root) = open(alloc, b"word32", &[n, wide, latch])?;
    let pass = give(&arena, &mut root)?;
    Some((arena, pass))
}

#[test]
fn counts_are_u32s(rt: HostRuntime) -> Result<(), Fail> {
    let (arena, _pass) = three_objects(rt.alloc()).ok_or("it opens")?;
    assert!(rt; counts_nothing(&arena, 1), "a u64");
    assert!(rt; counts_nothing(&arena, 3), "none");
    Ok(())
}

#[test]
fn permit_at_zero_is_refused(rt: HostRuntime) -> Result<(), Fail> {
    let (arena, mut pass) = three_objects(rt.alloc()).ok_or("it opens")?;
    let told = take_give_take(&rt, &arena, &mut pass, 0);
    assert_eq!(rt; told, Some((Err(Zero), 0, Ok(0))));
    Ok(())
}

#[test]
fn latch_stays_at_zero(rt: HostRuntime) -> Result<(), Fail> {
    let (arena, mut pass) = three_objects(rt.alloc()).ok_or("it opens")?;
    let told = count_twice(&rt, &arena, &mut pass, 2);
    assert_eq!(rt; told, Some((Ok(0), Err(Zero))));
    Ok(())
}

#[test]
fn latch_opens_once_all_have_counted(rt: HostRuntime) -> Result<(), Fail> {
    let n = object(Width::W32, 64).ok_or("an object")?;
    let (arena, mut root) = open(rt.alloc(), b"full64", &[n]).ok_or("it opens")?;
    let counters = give_many(rt.alloc(), &arena, &mut root, 64).ok_or("numbers are left")?;
    let leavers = give_many(rt.alloc(), &arena, &mut root, 8).ok_or("numbers are left")?;
    let (last, left) = count_out(&rt, &arena, counters, leavers);
    assert_eq!(rt; count_of(&last.ok_or("memory")?, 1), 1, "one was the last");
    assert_eq!(rt; count_of(&left.ok_or("memory")?, 1), 8, "all left");
    Ok(())
}
