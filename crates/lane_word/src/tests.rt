//! Calls on lanes.

use crate::Lane;
use crate::trials::{attempt, give, load, look, object, one, open, weak};
use op_table::{Call, Reply, Width};
use std::test::*;

#[test]
fn only_lanes_have_lanes(rt: HostRuntime) -> Result<(), Fail> {
    let byte = object(Width::W8, 250).ok_or("an object")?;
    let wide = object(Width::W128, 7).ok_or("an object")?;
    let (arena, _) = open(rt.alloc(), b"word64", &[byte, wide]).ok_or("it opens")?;
    let lane = Lane::of(arena.shape(), 0).ok_or("a lane")?;
    assert_eq!(rt; lane.object(), 0);
    assert!(rt; Lane::of(arena.shape(), 1).is_none());
    assert!(rt; Lane::of(arena.shape(), 2).is_none());
    assert!(rt; Lane::of(arena.shape(), 4294967295).is_none());
    Ok(())
}

#[test]
fn one_step_leaves_the_neighbour(rt: HostRuntime) -> Result<(), Fail> {
    let a = object(Width::W8, 250).ok_or("an object")?;
    let b = object(Width::W8, 7).ok_or("an object")?;
    let (arena, mut root) = open(rt.alloc(), b"word64", &[a, b]).ok_or("it opens")?;
    let mut p = give(&arena, &mut root).ok_or("a number is left")?;
    assert_eq!(rt; load(&arena, &mut p, 0), Some(250), "load(0)");
    assert_eq!(rt;
        one(&arena, &mut p, 0, Call::Xor(255, false)),
        Some(Reply::Value(250)),
        "one(0, Call::Xor(255, false))"
    );
    assert_eq!(rt;
        one(&arena, &mut p, 0, Call::BitSet(1)),
        Some(Reply::Bit(false)),
        "one(0, Call::BitSet(1))"
    );
    assert!(rt; one(&arena, &mut p, 0, Call::Add(10, false)).is_none());
    assert_eq!(rt; load(&arena, &mut p, 0), Some(7), "load(0)");
    assert_eq!(rt; load(&arena, &mut p, 1), Some(7), "load(1)");
    Ok(())
}

#[test]
fn weak_exchange_of_a_lane_alone_is_one_step(rt: HostRuntime) -> Result<(), Fail> {
    let alone = object(Width::W64, 5).ok_or("an object")?;
    let (arena, mut root) = open(rt.alloc(), b"full64", &[alone]).ok_or("it opens")?;
    let mut p = give(&arena, &mut root).ok_or("a number is left")?;
    assert_eq!(rt;
        weak(&arena, &mut p, 0, 5, 6),
        Some(Reply::Done(5)),
        "weak(0, 5, 6)"
    );
    assert_eq!(rt;
        weak(&arena, &mut p, 0, 5, 7),
        Some(Reply::Failed(6)),
        "weak(0, 5, 7)"
    );
    assert_eq!(rt;
        one(&arena, &mut p, 0, Call::Load),
        Some(Reply::Value(6)),
        "one(0, Call::Load)"
    );
    Ok(())
}

const WEAK: Call = Call::CasWeak(7, 8);

#[test]
fn weak_exchange_fails_after_a_neighbours_change(rt: HostRuntime) -> Result<(), Fail> {
    let a = object(Width::W8, 250).ok_or("an object")?;
    let b = object(Width::W8, 7).ok_or("an object")?;
    let (arena, mut root) = open(rt.alloc(), b"word64", &[a, b]).ok_or("it opens")?;
    let mut p = give(&arena, &mut root).ok_or("a number is left")?;
    let mut q = give(&arena, &mut root).ok_or("a number is left")?;
    assert_eq!(rt;
        look(&arena, &mut q, 1, WEAK),
        Some(Err(0x07FA)),
        "look(1, WEAK)"
    );
    assert_eq!(rt;
        one(&arena, &mut p, 0, Call::Xor(254, true)),
        Some(Reply::Unit),
        "one(0, Call::Xor(254, true))"
    );
    assert_eq!(rt;
        attempt(&arena, &mut q, 1, WEAK, 0x07FA),
        Some(Ok(Reply::Failed(7))),
        "attempt(1, WEAK, 0x07FA)"
    );
    assert_eq!(rt;
        weak(&arena, &mut q, 1, 7, 8),
        Some(Reply::Done(7)),
        "weak(1, 7, 8)"
    );
    assert_eq!(rt;
        weak(&arena, &mut q, 1, 7, 9),
        Some(Reply::Failed(8)),
        "weak(1, 7, 9)"
    );
    assert_eq!(rt;
        look(&arena, &mut q, 1, WEAK),
        Some(Ok(Reply::Failed(8))),
        "look(1, WEAK)"
    );
    assert_eq!(rt;
        look(&arena, &mut q, 0, Call::Add(1, false)),
        Some(Err(0x0804)),
        "look(0, Call::Add(1, false))"
    );
    Ok(())
}
