//! Updates of typed atomics and of handles by closures.

use crate::trials::open_one;
use crate::{FetchUpdate, FetchUpdateHandle};
use atomic_types::{Atomic, AtomicBool, AtomicI16, AtomicU8, AtomicU128};
use op_table::{LoadOrder, Order};
use ptr_handles::{AtomicHandle, Handle};
use scalar_laws::{Addr, Scalar};
use std::test::*;

const SET: Order = Order::AcqRel;

const FETCH: LoadOrder = LoadOrder::Acquire;

// The example of the crate's README: a count that stays at its highest.
#[test]
fn count_stays_at_its_highest(rt: HostRuntime) -> Result<(), Fail> {
    let (arena, mut pass) = open_one(rt.alloc(), b"word32", u8::KIND, 254).ok_or("it opens")?;
    let hits = AtomicU8::of(&arena, 0).ok_or("a u8")?;
    let up = hits.fetch_update(&rt, &arena, &mut pass, SET, FETCH, |v: u8| v.checked_add(1));
    assert_eq!(rt; up, Ok(254));
    let full = hits.fetch_update(&rt, &arena, &mut pass, SET, FETCH, |v: u8| v.checked_add(1));
    assert_eq!(rt; full, Err(255));
    Ok(())
}

// 65,531 is the pattern of -5.
#[test]
fn signed_number_is_halved_and_refused(rt: HostRuntime) -> Result<(), Fail> {
    let (arena, mut pass) = open_one(rt.alloc(), b"word64", i16::KIND, 65_531).ok_or("it opens")?;
    let low = AtomicI16::of(&arena, 0).ok_or("an i16")?;
    let was = low.update(&rt, &arena, &mut pass, SET, FETCH, |v: i16| v / 2);
    assert_eq!(rt; was, -5);
    let next = low.fetch_update(
        &rt,
        &arena,
        &mut pass,
        SET,
        FETCH,
        |v: i16| if v == -2 { None } else { Some(0) },
    );
    assert_eq!(rt; next, Err(-2));
    Ok(())
}

#[test]
fn truth_is_turned_round(rt: HostRuntime) -> Result<(), Fail> {
    let (arena, mut pass) = open_one(rt.alloc(), b"section32", bool::KIND, 1).ok_or("it opens")?;
    let open = AtomicBool::of(&arena, 0).ok_or("a bool")?;
    let was = open.update(&rt, &arena, &mut pass, SET, FETCH, |v: bool| !v);
    assert!(rt; was);
    let once = open.fetch_update(
        &rt,
        &arena,
        &mut pass,
        SET,
        FETCH,
        |v: bool| if v { Some(false) } else { None },
    );
    assert_eq!(rt; once, Err(false));
    Ok(())
}

#[test]
fn address_is_updated(rt: HostRuntime) -> Result<(), Fail> {
    let (arena, mut pass) = open_one(rt.alloc(), b"cas32", Addr::KIND, 8).ok_or("it opens")?;
    let top = Atomic::<Addr>::of(&arena, 0).ok_or("a pointer")?;
    let was = top.update(&rt, &arena, &mut pass, SET, FETCH, |a: Addr| Addr(a.0 | 7));
    assert_eq!(rt; was.0, 8);
    let full = top.fetch_update(&rt, &arena, &mut pass, SET, FETCH, |a: Addr| {
        if a.0 == 15 { None } else { Some(a) }
    });
    assert_eq!(rt; full.map_err(|a| a.0).map(|a| a.0), Err(15));
    Ok(())
}

// The highest number of 128 bits, by a closure that goes on from it at 0.
#[test]
fn wide_number_goes_round(rt: HostRuntime) -> Result<(), Fail> {
    let (arena, mut pass) = open_one(rt.alloc(), b"word64", u128::KIND, u128::MAX).ok_or(
        "it opens",
    )?;
    let wide = AtomicU128::of(&arena, 0).ok_or("a u128")?;
    let was = wide.update(
        &rt,
        &arena,
        &mut pass,
        SET,
        FETCH,
        |v: u128| v.wrapping_add(1),
    );
    assert_eq!(rt; was, u128::MAX);
    let none = wide.fetch_update(
        &rt,
        &arena,
        &mut pass,
        SET,
        FETCH,
        |v: u128| v.checked_sub(1),
    );
    assert_eq!(rt; none, Err(0));
    Ok(())
}

// A tag is set, and counted up until it is at its highest.
#[test]
fn handles_are_updated(rt: HostRuntime) -> Result<(), Fail> {
    let (arena, mut pass) = open_one(rt.alloc(), b"word64", Addr::KIND, 16).ok_or("it opens")?;
    let top = AtomicHandle::of(&arena, 0).ok_or("a pointer")?;
    let was = top.update(
        &rt,
        &arena,
        &mut pass,
        SET,
        FETCH,
        |h: Handle| h.with_tag(15),
    );
    assert_eq!(rt; was, Handle { bits: 16 });
    let full = top.fetch_update(&rt, &arena, &mut pass, SET, FETCH, |h: Handle| {
        if h.tag() < 15 {
            Some(h.with_tag(h.tag() + 1))
        } else {
            None
        }
    });
    assert_eq!(rt; full, Err(Handle { bits: 31 }));
    Ok(())
}
