//! Litmus rows on two bytes that begin with 0. All outcomes were worked out by hand. Each is listed as its numbers: the
//! replies, two numbers each, of the first calls of all threads, then of the second ones, and so on; and both last values.
//! A reply is 1 0 (unit), 2 V (a value), 4 V (an exchange that was made) or 5 V (one that failed).

ghost use Rattle.std.specs.Prelude.{◌≡◌, true, IfOk, map};
ghost use Rattle.place_core.specs.Pieces.{script_lines};
ghost use Rattle.place_core.specs.Runs.{asked_of, HasCall, ScriptFits, ScriptsFit};
ghost use Rattle.place_core.specs.Shapes.{IsShape, cells_of_shape};

use super::*;
use op_table::{Call, Class, Kind, Order, StepSet, Width, call_fits};
use outcomes::SearchFault;
use place_core::{Line, Object, Objects, Place, Script, Shape, shape_ok};
use run_steps::State;
use std::alloc::Global;
use std::collections::BTreeSet;
use std::process::Abort;
use std::test::Fail;

const U8: Kind = Kind {
    width: Width::W8,
    signed: false,
    class: Class::Int,
};

/// Two bytes, in one word or in two.
fn two_bytes(rt: &impl Abort, alloc: Global, shared: bool) -> Result<Shape, Fail>
    ensures { IfOk result (λ s. IsShape s) }
{
    let mut objects = Vec::new(alloc);
    for number in [0, 1] {
        let place = Place::Lane {
            word: if shared { 0 } else { number },
            shift: if shared { 32 * number } else { 0 },
            width: 8,
        };
        objects
            .push(Object {
                kind: U8,
                place,
                start: 0,
            })
            .map_err(|_| "memory")?;
    }
    let shape = Shape {
        word_bits: 64,
        steps: StepSet {
            swap: false,
            add: false,
            bits: false,
            order: false,
        },
        section: false,
        words: 2,
        locks: 1,
        objects: Objects::of(objects),
    };
    assert!(rt; shape_ok(&shape));
    Ok(shape)
}

/// Whether the object is there and has the call.
fn fits(shape: &Shape, line: &Line) -> bool
    requires { IsShape shape.now }
    ensures { result ≡ true → HasCall (cells_of_shape shape.now) (asked_of line.now) }
{
    let number = line.object as usize;
    number < shape.objects.len() && call_fits(shape.objects.at(number).kind, &line.call)
}

/// The script of some calls, each with its object's number.
fn script_of(alloc: Global, shape: &Shape, calls: &[(u32, Call)]) -> Result<Script, Fail>
    requires { IsShape shape.now }
    ensures { IfOk result (λ s. ScriptFits (cells_of_shape shape.now) (script_lines s)) }
{
    let mut script = Script::new(alloc);
    let mut rest = calls;
    'calls: while let [(object, call), after @ ..] = rest {
        let line = Line {
            object: *object,
            call: *call,
            success: Order::SeqCst,
            failure: None,
        };
        if !fits(shape, &line) || script.len() > 9 || script.pieces() > 9 {
            return Err(Fail::from("a call"));
        }
        script.push(line).map_err(|_| "memory")?;
        rest = after;
    }
    Ok(script)
}

/// A script for each thread.
fn scripts_of(alloc: Global, shape: &Shape, threads: &[&[(u32, Call)]]) -> Result<Vec<Script>, Fail>
    requires { IsShape shape.now }
    ensures { IfOk result (λ v. ScriptsFit (cells_of_shape shape.now) (map script_lines v.items)) }
{
    let mut scripts = Vec::new(alloc);
    let mut rest = threads;
    'threads: while let [calls, after @ ..] = rest {
        let script = script_of(alloc, shape, calls)?;
        scripts.push(script).map_err(|_| "memory")?;
        rest = after;
    }
    Ok(scripts)
}

/// The outcomes of threads on two bytes, in one word or in two.
fn found(
    rt: &impl Abort,
    alloc: Global,
    shared: bool,
    threads: &[&[(u32, Call)]],
    limit: usize,
) -> Result<Result<BTreeSet<State>, SearchFault>, Fail> {
    let shape = two_bytes(rt, alloc, shared)?;
    let scripts = scripts_of(alloc, &shape, threads)?;
    assert!(rt; scripts.len() <= 64);
    Ok(every_outcome(alloc, &shape, &scripts, limit))
}

/// A list of numbers.
fn numbers(alloc: Global, wanted: &[u128]) -> Result<State, Fail> {
    let mut state = State::with_room(alloc, wanted.len()).map_err(|_| "memory")?;
    for number in wanted {
        state.push(*number).map_err(|_| "memory")?;
    }
    Ok(state)
}

/// The outcomes are these, and with one state less than there are `states` none are told.
fn told(
    rt: &impl Abort,
    alloc: Global,
    shared: bool,
    threads: &[&[(u32, Call)]],
    states: usize,
    wanted: &[&[u128]],
) -> Result<(), Fail> {
    assert!(rt; states > 0);
    let Ok(outcomes) = found(rt, alloc, shared, threads, states)? else {
        return Err(Fail::from("a fault"));
    };
    assert_eq!(rt; outcomes.len(), wanted.len());
    for outcome in wanted {
        let outcome = numbers(alloc, outcome)?;
        assert!(rt; outcomes.contains(&outcome));
    }
    assert!(rt; found(rt, alloc, shared, threads, states - 1)?.is_err());
    Ok(())
}

const LOAD: Call = Call::Load;

const ONE: Call = Call::Store(1);

const TWO: Call = Call::Store(2);

const MORE: Call = Call::Add(1, false);

const WEAK: Call = Call::CasWeak(0, 5);

#[test]
fn stores_and_loads(rt: HostRuntime) -> Result<(), Fail> {
    let alloc = rt.alloc();
    // store buffering: each stores and loads the other's. Not both load 0
    told(
        &rt,
        alloc,
        false,
        &[&[(0, ONE), (1, LOAD)], &[(1, ONE), (0, LOAD)]],
        13,
        &[
            &[1, 0, 1, 0, 2, 0, 2, 1, 1, 1],
            &[1, 0, 1, 0, 2, 1, 2, 0, 1, 1],
            &[1, 0, 1, 0, 2, 1, 2, 1, 1, 1],
        ],
    )?;
    // message passing: the flag, once seen, has its data behind it
    told(
        &rt,
        alloc,
        false,
        &[&[(0, ONE), (1, ONE)], &[(1, LOAD), (0, LOAD)]],
        13,
        &[
            &[1, 0, 2, 0, 1, 0, 2, 0, 1, 1],
            &[1, 0, 2, 0, 1, 0, 2, 1, 1, 1],
            &[1, 0, 2, 1, 1, 0, 2, 1, 1, 1],
        ],
    )?;
    // load buffering: not both load 1
    told(
        &rt,
        alloc,
        false,
        &[&[(1, LOAD), (0, ONE)], &[(0, LOAD), (1, ONE)]],
        13,
        &[
            &[2, 0, 2, 0, 1, 0, 1, 0, 1, 1],
            &[2, 0, 2, 1, 1, 0, 1, 0, 1, 1],
            &[2, 1, 2, 0, 1, 0, 1, 0, 1, 1],
        ],
    )?;
    Ok(())
}

#[test]
fn one_order(rt: HostRuntime) -> Result<(), Fail> {
    let alloc = rt.alloc();
    // coherence: loads of one object go with its stores' order
    told(
        &rt,
        alloc,
        false,
        &[&[(0, ONE), (0, TWO)], &[(0, LOAD), (0, LOAD)]],
        19,
        &[
            &[1, 0, 2, 0, 1, 0, 2, 0, 2, 0],
            &[1, 0, 2, 0, 1, 0, 2, 1, 2, 0],
            &[1, 0, 2, 0, 1, 0, 2, 2, 2, 0],
            &[1, 0, 2, 1, 1, 0, 2, 1, 2, 0],
            &[1, 0, 2, 1, 1, 0, 2, 2, 2, 0],
            &[1, 0, 2, 2, 1, 0, 2, 2, 2, 0],
        ],
    )?;
    // two additions: one finds 0 and one finds 1
    told(
        &rt,
        alloc,
        false,
        &[&[(0, MORE)], &[(0, MORE)]],
        5,
        &[&[2, 0, 2, 1, 2, 0], &[2, 1, 2, 0, 2, 0]],
    )?;
    Ok(())
}

#[test]
fn many_threads(rt: HostRuntime) -> Result<(), Fail> {
    let alloc = rt.alloc();
    // two write, two read in turned orders: never do the readers see the stores in two orders (1 0 and 1 0)
    told(
        &rt,
        alloc,
        false,
        &[
            &[(0, ONE)],
            &[(1, ONE)],
            &[(0, LOAD), (1, LOAD)],
            &[(1, LOAD), (0, LOAD)],
        ],
        97,
        &[
            &[1, 0, 1, 0, 2, 0, 2, 0, 0, 0, 0, 0, 2, 0, 2, 0, 1, 1],
            &[1, 0, 1, 0, 2, 0, 2, 0, 0, 0, 0, 0, 2, 0, 2, 1, 1, 1],
            &[1, 0, 1, 0, 2, 0, 2, 0, 0, 0, 0, 0, 2, 1, 2, 0, 1, 1],
            &[1, 0, 1, 0, 2, 0, 2, 0, 0, 0, 0, 0, 2, 1, 2, 1, 1, 1],
            &[1, 0, 1, 0, 2, 0, 2, 1, 0, 0, 0, 0, 2, 0, 2, 0, 1, 1],
            &[1, 0, 1, 0, 2, 0, 2, 1, 0, 0, 0, 0, 2, 0, 2, 1, 1, 1],
            &[1, 0, 1, 0, 2, 0, 2, 1, 0, 0, 0, 0, 2, 1, 2, 0, 1, 1],
            &[1, 0, 1, 0, 2, 0, 2, 1, 0, 0, 0, 0, 2, 1, 2, 1, 1, 1],
            &[1, 0, 1, 0, 2, 1, 2, 0, 0, 0, 0, 0, 2, 0, 2, 0, 1, 1],
            &[1, 0, 1, 0, 2, 1, 2, 0, 0, 0, 0, 0, 2, 0, 2, 1, 1, 1],
            &[1, 0, 1, 0, 2, 1, 2, 0, 0, 0, 0, 0, 2, 1, 2, 0, 1, 1],
            &[1, 0, 1, 0, 2, 1, 2, 0, 0, 0, 0, 0, 2, 1, 2, 1, 1, 1],
            &[1, 0, 1, 0, 2, 1, 2, 1, 0, 0, 0, 0, 2, 0, 2, 1, 1, 1],
            &[1, 0, 1, 0, 2, 1, 2, 1, 0, 0, 0, 0, 2, 1, 2, 0, 1, 1],
            &[1, 0, 1, 0, 2, 1, 2, 1, 0, 0, 0, 0, 2, 1, 2, 1, 1, 1],
        ],
    )?;
    Ok(())
}

#[test]
fn exchanges_and_locks(rt: HostRuntime) -> Result<(), Fail> {
    let alloc = rt.alloc();
    // a weak exchange behind a load: in a shared word it may fail with 0, where the other byte was changed behind the load
    told(
        &rt,
        alloc,
        true,
        &[&[(0, LOAD), (0, WEAK)], &[(1, LOAD), (1, ONE)]],
        11,
        &[
            &[2, 0, 2, 0, 4, 0, 1, 0, 5, 1],
            &[2, 0, 2, 0, 5, 0, 1, 0, 0, 1],
        ],
    )?;
    // in words of their own it may not
    told(
        &rt,
        alloc,
        false,
        &[&[(0, LOAD), (0, WEAK)], &[(1, LOAD), (1, ONE)]],
        9,
        &[&[2, 0, 2, 0, 4, 0, 1, 0, 5, 1]],
    )?;
    Ok(())
}

#[test]
fn ticket_lock(rt: HostRuntime) -> Result<(), Fail> {
    let alloc = rt.alloc();
    // each draws a ticket, looks which is served, and serves the next. With the first thread's ticket 0 its look finds 0,
    // or 1 where the second one served before; the rows are in turned order for the second thread's ticket 0
    let outcomes = found(
        &rt,
        alloc,
        false,
        &[
            &[(0, MORE), (1, LOAD), (1, MORE)],
            &[(0, MORE), (1, LOAD), (1, MORE)],
        ],
        1000,
    )?;
    let Ok(outcomes) = outcomes else {
        return Err(Fail::from("a fault"));
    };
    assert_eq!(rt; outcomes.len(), 8);
    let wanted: [&[u128]; 8] = [
        &[2, 0, 2, 1, 2, 0, 2, 1, 2, 0, 2, 1, 2, 2],
        &[2, 0, 2, 1, 2, 0, 2, 0, 2, 0, 2, 1, 2, 2],
        &[2, 0, 2, 1, 2, 0, 2, 0, 2, 1, 2, 0, 2, 2],
        &[2, 0, 2, 1, 2, 1, 2, 0, 2, 1, 2, 0, 2, 2],
        &[2, 1, 2, 0, 2, 1, 2, 0, 2, 1, 2, 0, 2, 2],
        &[2, 1, 2, 0, 2, 0, 2, 0, 2, 1, 2, 0, 2, 2],
        &[2, 1, 2, 0, 2, 0, 2, 0, 2, 0, 2, 1, 2, 2],
        &[2, 1, 2, 0, 2, 0, 2, 1, 2, 0, 2, 1, 2, 2],
    ];
    for outcome in wanted {
        let outcome = numbers(alloc, outcome)?;
        assert!(rt; outcomes.contains(&outcome));
    }
    Ok(())
}
