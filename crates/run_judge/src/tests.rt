//! Reports of two threads on two bytes that begin with 0. Which of them can be was worked out by hand.

ghost use Rattle.std.specs.Prelude.{◌≡◌, true, IfOk, map};
ghost use Rattle.place_core.specs.Pieces.{script_lines};
ghost use Rattle.place_core.specs.Runs.{asked_of, HasCall, ScriptFits, ScriptsFit};
ghost use Rattle.place_core.specs.Shapes.{IsShape, cells_of_shape};

use super::*;
use op_table::{Call, Class, Kind, Order, Reply, StepSet, Width, call_fits};
use outcomes::SearchFault;
use place_core::{Line, Object, Objects, Place, Replies, Script, Shape, shape_ok};
use std::alloc::Global;
use std::process::Abort;
use std::test::Fail;

const U8: Kind = Kind {
    width: Width::W8,
    signed: false,
    class: Class::Int,
};

/// Two bytes, in one word or in two.
fn two_bytes(rt: &impl Abort, alloc: Global, shared: bool) -> Result<Shape, Fail>
    ensures { IfOk result (λ s. IsShape s) }
{
    let mut objects = Vec::new(alloc);
    for number in [0, 1] {
        let place = Place::Lane {
            word: if shared { 0 } else { number },
            shift: if shared { 32 * number } else { 0 },
            width: 8,
        };
        objects
            .push(Object {
                kind: U8,
                place,
                start: 0,
            })
            .map_err(|_| "memory")?;
    }
    let shape = Shape {
        word_bits: 64,
        steps: StepSet {
            swap: false,
            add: false,
            bits: false,
            order: false,
        },
        section: false,
        words: 2,
        locks: 1,
        objects: Objects::of(objects),
    };
    assert!(rt; shape_ok(&shape));
    Ok(shape)
}

/// Whether the object is there and has the call.
fn fits(shape: &Shape, line: &Line) -> bool
    requires { IsShape shape.now }
    ensures { result ≡ true → HasCall (cells_of_shape shape.now) (asked_of line.now) }
{
    let number = line.object as usize;
    number < shape.objects.len() && call_fits(shape.objects.at(number).kind, &line.call)
}

/// The script of some calls, each with its object's number.
fn script_of(alloc: Global, shape: &Shape, calls: &[(u32, Call)]) -> Result<Script, Fail>
    requires { IsShape shape.now }
    ensures { IfOk result (λ s. ScriptFits (cells_of_shape shape.now) (script_lines s)) }
{
    let mut script = Script::new(alloc);
    let mut rest = calls;
    'calls: while let [(object, call), after @ ..] = rest {
        let line = Line {
            object: *object,
            call: *call,
            success: Order::SeqCst,
            failure: None,
        };
        if !fits(shape, &line) || script.len() > 9 || script.pieces() > 9 {
            return Err(Fail::from("a call"));
        }
        script.push(line).map_err(|_| "memory")?;
        rest = after;
    }
    Ok(script)
}

/// A script for each thread.
fn scripts_of(alloc: Global, shape: &Shape, threads: &[&[(u32, Call)]]) -> Result<Vec<Script>, Fail>
    requires { IsShape shape.now }
    ensures { IfOk result (λ v. ScriptsFit (cells_of_shape shape.now) (map script_lines v.items)) }
{
    let mut scripts = Vec::new(alloc);
    let mut rest = threads;
    'threads: while let [calls, after @ ..] = rest {
        let script = script_of(alloc, shape, calls)?;
        scripts.push(script).map_err(|_| "memory")?;
        rest = after;
    }
    Ok(scripts)
}

/// Replies that are kept.
fn replies_of(alloc: Global, told: &[Reply]) -> Result<Replies, Fail> {
    if told.len() > 9 {
        return Err(Fail::from("replies"));
    }
    let mut replies = Replies::with_room(alloc, 9).map_err(|_| "memory")?;
    for reply in told {
        replies.push(*reply);
    }
    Ok(replies)
}

/// What is said of a report of two threads: the replies of the first, of the second, and of the last loads.
fn said(
    rt: &impl Abort,
    alloc: Global,
    shared: bool,
    threads: &[&[(u32, Call)]],
    report: [&[Reply]; 3],
    limit: usize,
) -> Result<Result<bool, SearchFault>, Fail> {
    let shape = two_bytes(rt, alloc, shared)?;
    let scripts = scripts_of(alloc, &shape, threads)?;
    assert!(rt; scripts.len() <= 64);
    let first = replies_of(alloc, report[0])?;
    let second = replies_of(alloc, report[1])?;
    let last = replies_of(alloc, report[2])?;
    let replies = [first, second];
    Ok(judge(alloc, &shape, &scripts, &replies, &last, limit))
}

const LOAD: Call = Call::Load;

const ONE: Call = Call::Store(1);

const WEAK: Call = Call::CasWeak(0, 5);

const V0: Reply = Reply::Value(0);

const V1: Reply = Reply::Value(1);

const V5: Reply = Reply::Value(5);

const UNIT: Reply = Reply::Unit;

const DONE: Reply = Reply::Done(0);

const FAILED: Reply = Reply::Failed(0);

#[test]
fn stores_and_loads(rt: HostRuntime) -> Result<(), Fail> {
    let alloc = rt.alloc();
    let threads: [&[(u32, Call)]; 2] = [&[(0, ONE), (1, LOAD)], &[(1, ONE), (0, LOAD)]];
    // store buffering: all but that both load 0, and the last values are both 1
    let cases: [([&[Reply]; 3], bool); 7] = [
        ([&[UNIT, V0], &[UNIT, V1], &[V1, V1]], true),
        ([&[UNIT, V1], &[UNIT, V0], &[V1, V1]], true),
        ([&[UNIT, V1], &[UNIT, V1], &[V1, V1]], true),
        ([&[UNIT, V0], &[UNIT, V0], &[V1, V1]], false),
        ([&[UNIT, V1], &[UNIT, V1], &[V1, V0]], false),
        ([&[UNIT], &[UNIT, V1], &[V1, V1]], false),
        ([&[UNIT, V1], &[UNIT, V1], &[V1]], false),
    ];
    for (report, wanted) in cases {
        let told = said(&rt, alloc, false, &threads, report, 100)?;
        assert_eq!(rt; told, Ok(wanted));
    }
    // the third report has seven states: none made, either store, both, and both with either load or with both
    let report: [&[Reply]; 3] = [&[UNIT, V1], &[UNIT, V1], &[V1, V1]];
    assert_eq!(rt; said(&rt, alloc, false, &threads, report, 7)?, Ok(true));
    assert_eq!(rt;
        said(&rt, alloc, false, &threads, report, 6)?,
        Err(SearchFault::TooManyStates)
    );
    Ok(())
}

#[test]
fn a_lost_exchange(rt: HostRuntime) -> Result<(), Fail> {
    let alloc = rt.alloc();
    let threads: [&[(u32, Call)]; 2] = [&[(0, LOAD), (0, WEAK)], &[(1, LOAD), (1, ONE)]];
    // behind a load it may fail with 0 only where the other byte lies in its word
    let cases: [([&[Reply]; 3], bool, bool); 4] = [
        ([&[V0, DONE], &[V0, UNIT], &[V5, V1]], true, true),
        ([&[V0, FAILED], &[V0, UNIT], &[V0, V1]], true, false),
        ([&[V0, FAILED], &[V0, UNIT], &[V5, V1]], false, false),
        ([&[V0, V0], &[V0, UNIT], &[V5, V1]], false, false),
    ];
    for (report, shared, apart) in cases {
        assert_eq!(rt; said(&rt, alloc, true, &threads, report, 100)?, Ok(shared));
        assert_eq!(rt; said(&rt, alloc, false, &threads, report, 100)?, Ok(apart));
    }
    Ok(())
}
