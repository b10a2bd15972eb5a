//! Two threads on two bytes that begin with 0. How many states and how many ends there are was worked out by hand.

ghost use Rattle.std.specs.Prelude.{◌≡◌, true, IfOk};
ghost use Rattle.place_core.specs.Pieces.{script_lines};
ghost use Rattle.place_core.specs.Runs.{asked_of, HasCall, ScriptFits};
ghost use Rattle.place_core.specs.Shapes.{IsShape, cells_of_shape};

use super::*;
use op_table::{Call, Class, Kind, Order, StepSet, Width, call_fits};
use outcomes::SearchFault;
use place_core::{Line, Object, Objects, Place, Script, Shape, shape_ok};
use std::alloc::Global;
use std::process::Abort;
use std::test::Fail;

const U8: Kind = Kind {
    width: Width::W8,
    signed: false,
    class: Class::Int,
};

/// Two bytes, in one word or in two.
fn two_bytes(rt: &impl Abort, alloc: Global, shared: bool) -> Result<Shape, Fail>
    ensures { IfOk result (λ s. IsShape s) }
{
    let mut objects = Vec::new(alloc);
    for number in [0, 1] {
        let place = Place::Lane {
            word: if shared { 0 } else { number },
            shift: if shared { 32 * number } else { 0 },
            width: 8,
        };
        objects
            .push(Object {
                kind: U8,
                place,
                start: 0,
            })
            .map_err(|_| "memory")?;
    }
    let shape = Shape {
        word_bits: 64,
        steps: StepSet {
            swap: false,
            add: false,
            bits: false,
            order: false,
        },
        section: false,
        words: 2,
        locks: 1,
        objects: Objects::of(objects),
    };
    assert!(rt; shape_ok(&shape));
    Ok(shape)
}

/// Whether the object is there and has the call.
fn fits(shape: &Shape, line: &Line) -> bool
    requires { IsShape shape.now }
    ensures { result ≡ true → HasCall (cells_of_shape shape.now) (asked_of line.now) }
{
    let number = line.object as usize;
    number < shape.objects.len() && call_fits(shape.objects.at(number).kind, &line.call)
}

/// The script of two calls, each with its object's number.
fn script_of(alloc: Global, shape: &Shape, calls: [(u32, Call); 2]) -> Result<Script, Fail>
    requires { IsShape shape.now }
    ensures { IfOk result (λ s. ScriptFits (cells_of_shape shape.now) (script_lines s)) }
{
    let mut script = Script::new(alloc);
    let mut i = 0;
    'calls: while i < 2 {
        let (object, call) = calls[i];
        let line = Line {
            object,
            call,
            success: Order::SeqCst,
            failure: None,
        };
        if !fits(shape, &line) {
            return Err(Fail::from("a call"));
        }
        script.push(line).map_err(|_| "memory")?;
        i += 1;
    }
    Ok(script)
}

/// How many states there are, and in how many of them both threads made both calls; or what was told in their place.
fn count(
    rt: &impl Abort,
    alloc: Global,
    shared: bool,
    calls: [[(u32, Call); 2]; 2],
    kept: u32,
    limit: usize,
) -> Result<Result<(usize, usize), SearchFault>, Fail> {
    let shape = two_bytes(rt, alloc, shared)?;
    let first = script_of(alloc, &shape, calls[0])?;
    let second = script_of(alloc, &shape, calls[1])?;
    let scripts = [first, second];
    let machine = Machine::new(alloc, &shape, &scripts, kept);
    let found = match every_state(alloc, &machine, limit) {
        Ok(found) => found,
        Err(fault) => return Ok(Err(fault)),
    };
    let mut ends = 0;
    for state in &found {
        assert!(rt; state.len() > 1);
        if state.at(0) == 2 && state.at(1) == 2 {
            assert!(rt; ends < 1000);
            ends += 1;
        }
    }
    Ok(Ok((found.len(), ends)))
}

const LOAD: Call = Call::Load;

const ONE: Call = Call::Store(1);

const NONE: Call = Call::Store(0);

const MORE: Call = Call::Add(1, false);

const WEAK: Call = Call::CasWeak(0, 5);

#[test]
fn each_state_is_found(rt: HostRuntime) -> Result<(), Fail> {
    let cases = [
        // store buffering, with its replies: 0 1, 1 0 and 1 1; and without them
        (
            false,
            [[(0, ONE), (1, LOAD)], [(1, ONE), (0, LOAD)]],
            2,
            13,
            3,
        ),
        (
            false,
            [[(0, ONE), (1, LOAD)], [(1, ONE), (0, LOAD)]],
            0,
            9,
            1,
        ),
        // load buffering: 0 0, 0 1 and 1 0
        (
            false,
            [[(1, LOAD), (0, ONE)], [(0, LOAD), (1, ONE)]],
            2,
            13,
            3,
        ),
        // message passing: 0 0, 0 1 and 1 1
        (
            false,
            [[(0, ONE), (1, ONE)], [(1, LOAD), (0, LOAD)]],
            2,
            13,
            3,
        ),
        // additions: the replies 0 1 and 2 3, 0 2 and 1 3, 0 3 and 1 2, and these with the threads exchanged
        (
            false,
            [[(0, MORE), (0, MORE)], [(0, MORE), (0, MORE)]],
            2,
            19,
            6,
        ),
        // a weak exchange behind a load: it fails with 0 where the other byte of its word was changed behind the load
        (
            true,
            [[(0, LOAD), (0, WEAK)], [(1, LOAD), (1, ONE)]],
            2,
            11,
            2,
        ),
        (
            false,
            [[(0, LOAD), (0, WEAK)], [(1, LOAD), (1, ONE)]],
            2,
            9,
            1,
        ),
        (
            true,
            [[(0, LOAD), (0, WEAK)], [(1, LOAD), (1, NONE)]],
            2,
            9,
            1,
        ),
    ];
    for (shared, calls, kept, states, ends) in cases {
        let told = count(&rt, rt.alloc(), shared, calls, kept, states)?;
        assert_eq!(rt; told, Ok((states, ends)));
        assert!(rt; states > 0);
        let told = count(&rt, rt.alloc(), shared, calls, kept, states - 1)?;
        assert_eq!(rt; told, Err(SearchFault::TooManyStates));
    }
    Ok(())
}
