//! A script, run by one pass.

ghost use Rattle.std.specs.Prelude.{◌≡◌, ◌≤◌, length};
ghost use Rattle.place_core.specs.Pieces.{script_lines};
ghost use Rattle.place_core.specs.Runs.{ScriptFits};
ghost use Rattle.place_core.specs.Shapes.{cells_of_shape};
ghost use Rattle.seat_views.specs.declared.view.Flight.TheVariants.{Idle};
ghost use Rattle.seat_views.specs.States.{IsOf};
ghost use Rattle.runner.specs.Scripts.{RunsLines, RunsUnkept};

use atomic_types::Served;
use place_core::{Gate, Replies, Script};
use seat_views::{Arena, Pass};
use std::sync::Wait;

/// Makes the calls of a script in order, each by its path, and keeps their replies. The gate is told of each call
/// before it and after, with the thread's number and the call's, counted from 1. A call takes no memory, and waits for
/// other threads only where its plan isn't one step, or where the gate does.
pub fn run_script<R: Wait, G: Gate>(
    rt: &R,
    arena: &Arena,
    pass: &mut Pass,
    script: &Script,
    replies: &mut Replies,
    thread: u32,
    gate: &G,
)
    requires arena { IsOf arena.now pass.old }
    requires fits { ScriptFits (cells_of_shape arena.now.shape) (script_lines script.now) }
    requires room { length (script_lines script.now) ≤ replies.old.spare }
    requires rest { pass.old.flight ≡ Idle }
    ensures { RunsLines arena.now.shape (script_lines script.now) pass.old replies.old replies.new pass.new }
{
    // A script with no calls ends with what the pass keeps, which any call on the pass tells.
    pass.number();
    let mut lines = script.lines();
    for done in 0..script.len() {
        let Some(line) = lines.next() else {
            unreachable!()
        };
        let call = done + 1;
        gate.before(thread, call);
        let served = Served {
            object: line.object,
        };
        let reply = served.call(rt, arena, pass, &line.call);
        replies.push(reply);
        gate.after(thread, call);
    }
}

/// Makes the calls of a script in order as `run_script` does, and lets their replies go.
pub(crate) fn run_unkept<R: Wait, G: Gate>(
    rt: &R,
    arena: &Arena,
    pass: &mut Pass,
    script: &Script,
    thread: u32,
    gate: &G,
)
    requires arena { IsOf arena.now pass.old }
    requires fits { ScriptFits (cells_of_shape arena.now.shape) (script_lines script.now) }
    requires rest { pass.old.flight ≡ Idle }
    ensures { RunsUnkept arena.now.shape (script_lines script.now) pass.old pass.new }
{
    // A script with no calls ends with what the pass keeps, which any call on the pass tells.
    pass.number();
    let mut lines = script.lines();
    for done in 0..script.len() {
        let Some(line) = lines.next() else {
            unreachable!()
        };
        let call = done + 1;
        gate.before(thread, call);
        let served = Served {
            object: line.object,
        };
        let _reply = served.call(rt, arena, pass, &line.call);
        gate.after(thread, call);
    }
}
