//! Helpers of the tests: shapes, scripts, and runs of them.

ghost use Rattle.std.specs.Prelude.{◌≡◌, ◌≤◌, true, length, map, IfSome};
ghost use Rattle.place_core.specs.Pieces.{script_lines};
ghost use Rattle.place_core.specs.Runs.{HasCall, ScriptFits, ScriptsFit, asked_of};
ghost use Rattle.place_core.specs.Shapes.{IsShape, cells_of_shape};
ghost use Rattle.seat_views.specs.Limits.{most_passes};

use crate::{WholeRun, run_whole};
use layout_plan::{are_declared, lay};
use op_table::{Call, Class, Kind, Order, Width, call_fits};
use place_core::{Declared, Line, MOST_IN_SHAPE, Name, OpenGate, Script, Shape};
use runner::Keep;
use std::alloc::Global;
use std::sync::Wait;
use std::thread::Threads;
use target_desc::{builtin, target_ok};

/// A u64 with this start.
pub(crate) fn counter(start: u128) -> Option<Declared> {
    let name = Name::of(b"n")?;
    Some(Declared {
        name,
        kind: Kind {
            width: Width::W64,
            signed: false,
            class: Class::Int,
        },
        start,
    })
}

/// The shape of objects on a target of 64 bits; None where they are none, or memory is refused.
fn laid(alloc: Global, objects: &[Declared]) -> Option<Shape>
    ensures { IfSome result (λ s. IsShape s) }
{
    let target = builtin(b"full64")?;
    if !target_ok(&target) || !are_declared(objects) || objects.len() > MOST_IN_SHAPE {
        return None;
    }
    lay(alloc, &target, objects).ok()
}

/// Whether the object is there and has the call.
fn fits(shape: &Shape, line: &Line) -> bool
    requires { IsShape shape.now }
    ensures { result ≡ true → HasCall (cells_of_shape shape.now) (asked_of line.now) }
{
    let number = line.object as usize;
    number < shape.objects.len() && call_fits(shape.objects.at(number).kind, &line.call)
}

/// The script of these calls on object 0; None where one doesn't fit, or memory is refused.
fn script_of(alloc: Global, shape: &Shape, calls: &[Call]) -> Option<Script>
    requires { IsShape shape.now }
    ensures { IfSome result (λ s. ScriptFits (cells_of_shape shape.now) (script_lines s)) }
{
    let mut script = Script::new(alloc);
    let mut i = 0;
    'calls: while i < calls.len() && i < 1000 {
        let line = Line {
            object: 0,
            call: calls[i],
            success: Order::SeqCst,
            failure: None,
        };
        if !fits(shape, &line) {
            return None;
        }
        script.push(line).ok()?;
        i += 1;
    }
    Some(script)
}

/// Two scripts of these calls on object 0.
fn two_of(alloc: Global, shape: &Shape, first: &[Call], second: &[Call]) -> Option<Vec<Script>>
    requires { IsShape shape.now }
    ensures fits { IfSome result (λ s. ScriptsFit (cells_of_shape shape.now) (map script_lines s.items)) }
    ensures count { IfSome result (λ s. length s.items ≤ most_passes) }
{
    let first = script_of(alloc, shape, first)?;
    let second = script_of(alloc, shape, second)?;
    let mut scripts = Vec::new(alloc);
    scripts.push(first).ok()?;
    scripts.push(second).ok()?;
    Some(scripts)
}

/// What two scripts of these calls on object 0 leave, and what is kept of them.
pub(crate) fn run_two<R: Threads + Wait + Sync>(
    rt: &R,
    alloc: Global,
    objects: &[Declared],
    first: &[Call],
    second: &[Call],
    keep: Keep,
) -> Option<WholeRun> {
    let shape = laid(alloc, objects)?;
    let scripts = two_of(alloc, &shape, first, second)?;
    run_whole(rt, alloc, shape, scripts, keep, &OpenGate).ok()
}

/// What no scripts leave.
pub(crate) fn run_none<R: Threads + Wait + Sync>(
    rt: &R,
    alloc: Global,
    objects: &[Declared],
) -> Option<WholeRun> {
    let shape = laid(alloc, objects)?;
    run_whole(rt, alloc, shape, Vec::new(alloc), Keep::Replies, &OpenGate).ok()
}
