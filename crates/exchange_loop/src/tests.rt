//! Calls by loops, on two bytes of one word: 250, and above it 7.

use crate::trials::{add_at_once, attempt, give, load, look, object, open, turn, weak};
use op_table::{Call, Reply, Width};
use std::test::*;

#[test]
fn carry_stays_in_its_lane(rt: HostRuntime) -> Result<(), Fail> {
    let a = object(Width::W8, 250).ok_or("an object")?;
    let b = object(Width::W8, 7).ok_or("an object")?;
    let (arena, mut root) = open(rt.alloc(), b"word64", &[a, b]).ok_or("it opens")?;
    let mut p = give(&arena, &mut root).ok_or("a number is left")?;
    let add = turn(&rt, &arena, &mut p, 0, Call::Add(10, false));
    assert_eq!(rt; add, Some(Reply::Value(250)), "add");
    assert_eq!(rt; load(&arena, &mut p, 0), Some(4), "load(0)");
    assert_eq!(rt; load(&arena, &mut p, 1), Some(7), "load(1)");
    Ok(())
}

const WEAK: Call = Call::CasWeak(7, 8);

#[test]
fn weak_exchange_fails_after_a_neighbours_sum(rt: HostRuntime) -> Result<(), Fail> {
    let a = object(Width::W8, 250).ok_or("an object")?;
    let b = object(Width::W8, 7).ok_or("an object")?;
    let (arena, mut root) = open(rt.alloc(), b"word64", &[a, b]).ok_or("it opens")?;
    let mut p = give(&arena, &mut root).ok_or("a number is left")?;
    let mut q = give(&arena, &mut root).ok_or("a number is left")?;
    assert_eq!(rt;
        look(&arena, &mut q, 1, WEAK),
        Some(Err(0x07FA)),
        "look(1, WEAK)"
    );
    let add = turn(&rt, &arena, &mut p, 0, Call::Add(10, false));
    assert_eq!(rt; add, Some(Reply::Value(250)), "add");
    assert_eq!(rt;
        attempt(&arena, &mut q, 1, WEAK, 0x07FA),
        Some(Ok(Reply::Failed(7))),
        "attempt(1, WEAK, 0x07FA)"
    );
    assert_eq!(rt;
        weak(&arena, &mut q, 1, 7, 8),
        Some(Reply::Done(7)),
        "weak(1, 7, 8)"
    );
    assert_eq!(rt;
        look(&arena, &mut q, 0, Call::Add(1, false)),
        Some(Err(0x0804)),
        "look(0, Call::Add(1, false))"
    );
    Ok(())
}

#[test]
fn calls_of_several_kinds_by_loops(rt: HostRuntime) -> Result<(), Fail> {
    let a = object(Width::W8, 250).ok_or("an object")?;
    let b = object(Width::W8, 7).ok_or("an object")?;
    let (arena, mut root) = open(rt.alloc(), b"word64", &[a, b]).ok_or("it opens")?;
    let mut p = give(&arena, &mut root).ok_or("a number is left")?;
    let failed = turn(&rt, &arena, &mut p, 1, Call::Cas(8, 9));
    assert_eq!(rt; failed, Some(Reply::Failed(7)), "failed");
    let done = turn(&rt, &arena, &mut p, 1, Call::Cas(7, 9));
    assert_eq!(rt; done, Some(Reply::Done(7)), "done");
    let swap = turn(&rt, &arena, &mut p, 1, Call::Swap(200));
    assert_eq!(rt; swap, Some(Reply::Value(9)), "swap");
    let most = turn(&rt, &arena, &mut p, 1, Call::Max(100));
    assert_eq!(rt; most, Some(Reply::Value(200)), "most");
    let nand = turn(&rt, &arena, &mut p, 1, Call::Nand(15));
    assert_eq!(rt; nand, Some(Reply::Value(200)), "nand");
    assert_eq!(rt; load(&arena, &mut p, 1), Some(247), "load(1)");
    assert!(rt; turn(&rt, &arena, &mut p, 1, Call::Or(1, false)).is_none());
    assert!(rt; turn(&rt, &arena, &mut p, 1, WEAK).is_none());
    assert_eq!(rt; load(&arena, &mut p, 0), Some(250), "load(0)");
    Ok(())
}

#[test]
fn two_threads_add_to_neighbours(rt: HostRuntime) -> Result<(), Fail> {
    let a = object(Width::W8, 250).ok_or("an object")?;
    let b = object(Width::W8, 7).ok_or("an object")?;
    let (arena, mut root) = open(rt.alloc(), b"word64", &[a, b]).ok_or("it opens")?;
    let p = give(&arena, &mut root).ok_or("a number is left")?;
    let q = give(&arena, &mut root).ok_or("a number is left")?;
    let (mut p, _) = add_at_once(&rt, &arena, p, q, 1000);
    assert_eq!(rt; load(&arena, &mut p, 0), Some(226), "load(0)");
    assert_eq!(rt; load(&arena, &mut p, 1), Some(239), "load(1)");
    Ok(())
}
