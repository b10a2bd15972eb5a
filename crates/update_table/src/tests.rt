//! Updates by each rule, by tables, and by four threads.

ghost use Rattle.std.specs.Prelude.{◌≡◌};

use crate::crowd::{Saw, five_objects, four};
use crate::trials::{Row, Way, give, load, open, open_one, rows_hold, step_by};
use crate::{Cycle, Lower, PushFault, Raise, Rule, Stop, Stored, Table};
use atomic_types::Served;
use scalar_laws::Scalar;
use std::alloc::Global;
use std::sync::Wait;
use std::test::*;
use std::thread::Threads;

const HIGHEST: u128 = 340_282_366_920_938_463_463_374_607_431_768_211_455;

/// From the number 3 of 8 bits.
const NARROW: [Row; 11] = [
    (Way::Up(4), (0, 10), Ok(3), 7),
    (Way::Up(4), (0, 10), Err(Stop::Refused(7)), 7),
    (Way::Up(0), (0, 7), Ok(7), 7),
    (Way::Up(1), (0, 6), Err(Stop::Outside(7)), 7),
    (Way::Down(1), (8, 9), Err(Stop::Outside(7)), 7),
    (Way::Down(4), (3, 9), Ok(7), 3),
    (Way::Down(1), (3, 9), Err(Stop::Refused(3)), 3),
    (Way::Round, (1, 3), Ok(3), 1),
    (Way::Round, (1, 3), Ok(1), 2),
    (Way::Up(300), (0, 255), Err(Stop::Refused(2)), 2),
    (Way::Round, (2, 2), Ok(2), 2),
];

/// From the number 20 of 8 bits.
const OUTSIDE: [Row; 1] = [(Way::Up(4), (0, 10), Err(Stop::Outside(20)), 20)];

/// From the last number but one of 128 bits.
const WIDE: [Row; 7] = [
    (Way::Up(1), (0, HIGHEST), Ok(HIGHEST - 1), HIGHEST),
    (
        Way::Up(1),
        (0, HIGHEST),
        Err(Stop::Refused(HIGHEST)),
        HIGHEST,
    ),
    (
        Way::Up(HIGHEST),
        (0, HIGHEST),
        Err(Stop::Refused(HIGHEST)),
        HIGHEST,
    ),
    (Way::Round, (0, HIGHEST), Ok(HIGHEST), 0),
    (Way::Down(1), (0, HIGHEST), Err(Stop::Refused(0)), 0),
    (Way::Down(HIGHEST), (0, HIGHEST), Err(Stop::Refused(0)), 0),
    (Way::Up(HIGHEST), (0, HIGHEST), Ok(0), HIGHEST),
];

#[test]
fn each_rule_leads_and_stops(rt: HostRuntime) -> Result<(), Fail> {
    let (arena, mut pass) = open_one(rt.alloc(), b"full64", u8::KIND, 3).ok_or("it opens")?;
    rows_hold(&rt, &arena, &mut pass, &NARROW);
    let (arena, mut pass) = open_one(rt.alloc(), b"full64", u8::KIND, 20).ok_or("it opens")?;
    rows_hold(&rt, &arena, &mut pass, &OUTSIDE);
    Ok(())
}

#[test]
fn wide_ends_are_kept(rt: HostRuntime) -> Result<(), Fail> {
    let start = HIGHEST - 1;
    let (arena, mut pass) = open_one(rt.alloc(), b"word32", u128::KIND, start).ok_or("it opens")?;
    rows_hold(&rt, &arena, &mut pass, &WIDE);
    Ok(())
}

// An even number is halved, an odd one refused.
#[test]
fn closure_is_a_rule(rt: HostRuntime) -> Result<(), Fail> {
    let (arena, mut pass) = open_one(rt.alloc(), b"word64", u8::KIND, 12).ok_or("it opens")?;
    let half = Stored::of(
        0,
        100,
        |v: u128| -> Option<u128>
            requires { v ≡ v }
        { if v % 2 == 0 { Some(v / 2) } else { None } },
    );
    assert_eq!(rt; step_by(&rt, &arena, &mut pass, 0, &half), Some(Ok(12)));
    assert_eq!(rt; step_by(&rt, &arena, &mut pass, 0, &half), Some(Ok(6)));
    let odd = step_by(&rt, &arena, &mut pass, 0, &half);
    assert_eq!(rt; odd, Some(Err(Stop::Refused(3))));
    Ok(())
}

/// The objects that the threads leave on a target, in their order, and what the threads saw.
fn ends_on<R: Threads + Wait + Sync>(
    rt: &R,
    alloc: Global,
    target: &[u8],
) -> Option<(Saw, [Option<u128>; 5])> {
    let (arena, mut root) = open(alloc, target, &five_objects()?)?;
    let saw = four(rt, &arena, &mut root)?;
    let mut pass = give(&arena, &mut root)?;
    let (up, down) = (
        load(rt, &arena, &mut pass, 0),
        load(rt, &arena, &mut pass, 1),
    );
    let (round, full) = (
        load(rt, &arena, &mut pass, 2),
        load(rt, &arena, &mut pass, 3),
    );
    let held = load(rt, &arena, &mut pass, 4);
    Some((saw, [up, down, round, full, held]))
}

// 2,000 updates by each rule: up to the end, down to the end, and round from 0 to 2, of which 2,000 is 2 more than a
// multiple. The full count was raised 255 times, and nobody holds.
#[test]
fn four_threads_move_each_object_to_its_end(rt: HostRuntime) -> Result<(), Fail> {
    let saw = Saw {
        right: true,
        counted: 255,
    };
    let left = [Some(2_000), Some(0), Some(2), Some(255), Some(0)];
    let targets: [&[u8]; 5] = [b"full64", b"word64", b"word32", b"cas32", b"section32"];
    for target in targets {
        let ended = ends_on(&rt, rt.alloc(), target);
        assert_eq!(rt; ended, Some((saw, left)));
    }
    Ok(())
}

// A table of rules from 1 to 3, which gives another range's rule back.
#[test]
fn table_keeps_one_range(rt: HostRuntime) -> Result<(), Fail> {
    let mut table = Table::new(rt.alloc(), 1, 3);
    let other = Raise {
        lo: 0,
        hi: 3,
        by: 1,
    };
    match table.push(Box::new(rt.alloc(), other)?) {
        Err((back, PushFault::OtherRange)) => assert_eq!(rt; back.range(), (0, 3)),
        _ => return Err(Fail::from("another range is given back")),
    }
    assert_eq!(rt; table.len(), 0);
    let round = Cycle { lo: 1, hi: 3 };
    let first = table.push(Box::new(rt.alloc(), round)?).ok();
    assert_eq!(rt; (first, table.len()), (Some(0), 1));
    Ok(())
}

// Rule 0 goes round from 1 to 3, and rule 1 lowers by 2.
#[test]
fn table_updates_by_place(rt: HostRuntime) -> Result<(), Fail> {
    let (arena, mut pass) = open_one(rt.alloc(), b"full64", u8::KIND, 3).ok_or("it opens")?;
    let mut table = Table::new(rt.alloc(), 1, 3);
    let round = Cycle { lo: 1, hi: 3 };
    let down = Lower {
        lo: 1,
        hi: 3,
        by: 2,
    };
    let first = table
        .push(Box::new(rt.alloc(), round)?)
        .ok()
        .ok_or("memory")?;
    let second = table
        .push(Box::new(rt.alloc(), down)?)
        .ok()
        .ok_or("memory")?;
    if arena.shape().objects.len() != 1 || arena.shape().objects.at(0).kind != u8::KIND {
        return Err(Fail::from("one object"));
    }
    let served = Served { object: 0 };
    let ended = table.update(&rt, &arena, &mut pass, served, first);
    assert_eq!(rt; ended, Ok(3));
    let refused = table.update(&rt, &arena, &mut pass, served, second);
    assert_eq!(rt; refused, Err(Stop::Refused(1)));
    assert_eq!(rt; load(&rt, &arena, &mut pass, 0), Some(1));
    Ok(())
}
