//! Adds 1 to a u64 of an arena so many times, each time by one step, and writes the value: `bench/steps.py` times it.
#![tactic(auto)]

ghost use Rattle.std.specs.Prelude.{◌≡◌, true, IfSome};
ghost use Rattle.op_table.specs.Call.{CallFits};
ghost use Rattle.place_core.specs.Operations.{OpServes};
ghost use Rattle.op_table.specs.declared.call.Call.TheVariants.{Add};
ghost use Rattle.place_core.specs.Shapes.{kind_of};
ghost use Rattle.seat_views.specs.declared.view.Flight.TheVariants.{Idle};
ghost use Rattle.seat_views.specs.States.{IsOf};

use op_table::{Call, Class, Kind, Reply, StepSet, Width, call_fits};
use place_core::{Object, Objects, Path, Place, Shape, WordOp, shape_ok};
use seat_views::{Arena, Pass, Root};
use std::alloc::Global;
use std::process::ExitCode;

const COUNTER: Object = Object {
    kind: Kind {
        width: Width::W64,
        signed: false,
        class: Class::Int,
    },
    place: Place::Lane {
        word: 0,
        shift: 0,
        width: 64,
    },
    start: 0,
};

const ADD: Call = Call::Add(1, true);

/// An arena of one counter.
fn open(alloc: Global) -> Option<(Arena, Root)>
    ensures { IfSome result (λ r. IsOf r.0 r.1 × (r.1.flight ≡ Idle)) }
{
    let mut objects = Vec::new(alloc);
    objects.push(COUNTER).ok()?;
    let shape = Shape {
        word_bits: 64,
        steps: StepSet {
            swap: true,
            add: true,
            bits: true,
            order: true,
        },
        section: false,
        words: 1,
        locks: 1,
        objects: Objects::of(objects),
    };
    if !shape_ok(&shape) {
        return None;
    }
    Arena::open(alloc, shape, 0).ok()
}

/// Adds 1 so many times.
fn add(arena: &Arena, pass: &mut Pass, op: WordOp, times: u64)
    requires arena { IsOf arena.now pass.old }
    requires serves { OpServes arena.now.shape 0 (Add 1 true) op }
    requires fits { CallFits (kind_of arena.now.shape 0) (Add 1 true) }
    requires rest { pass.old.flight ≡ Idle }
    ensures arena { IsOf arena.now pass.new }
    ensures rest { pass.new.flight ≡ Idle }
{
    for _ in 0..times {
        pass.step_op(arena, 0, &ADD, op);
    }
}

/// The value after so many additions; None where memory is refused.
fn count(alloc: Global, times: u64) -> Option<u128> {
    let (arena, mut root) = open(alloc)?;
    if arena.shape().objects.len() == 0 || !call_fits(arena.shape().objects.at(0).kind, &ADD) {
        return None;
    }
    let Path::One(op) = arena.plan(0, &ADD) else {
        return None;
    };
    let pass = root.as_pass();
    add(&arena, pass, op, times);
    match pass.step_look(&arena, 0, &Call::Load) {
        Ok(Reply::Value(value)) => Some(value),
        _ => None,
    }
}

/// The number of additions that the command line asks for.
fn times(rt: &HostRuntime) -> Option<u64> {
    let word = std::env::args(rt).ok()?.nth(1)?;
    word.parse::<u64>().ok()
}

fn main(rt: HostRuntime) -> ExitCode {
    let Some(times) = times(&rt) else {
        let _ = eprintln!(rt; "usage: arena_times NUMBER");
        return ExitCode::from(2);
    };
    let Some(value) = count(rt.alloc(), times) else {
        return ExitCode::from(5);
    };
    match println!(rt; "{value}") {
        Ok(()) => ExitCode::from(0),
        Err(_) => ExitCode::from(4),
    }
}
