//! Helpers of the tests: arenas, workers, and a gate that holds a call back.

ghost use Rattle.std.specs.Prelude.{◌≡◌, ◌≤◌, true, length, IfSome};
ghost use Rattle.std.specs.List.{AllByRecursion};
ghost use Rattle.place_core.specs.Pieces.{script_lines};
ghost use Rattle.place_core.specs.Runs.{HasCall, ScriptFits, asked_of};
ghost use Rattle.place_core.specs.Shapes.{IsShape, cells_of_shape};
ghost use Rattle.seat_views.specs.Trials.{IsReadyRoot};
ghost use Rattle.runner.specs.Scripts.{IsReady};

use crate::Worker;
use layout_plan::{are_declared, lay};
use op_table::{Call, Class, Kind, Order, Width, call_fits};
use place_core::{Declared, Gate, Line, MOST_IN_SHAPE, Name, Replies, Script, Shape};
use seat_views::{Arena, Root};
use std::alloc::Global;
use std::sync::atomic::{AtomicBool, Ordering};
use target_desc::{builtin, target_ok};

/// An object of an unsigned kind.
pub(crate) fn object(width: Width, start: u128) -> Option<Declared> {
    let name = Name::of(b"o")?;
    Some(Declared {
        name,
        kind: Kind {
            width,
            signed: false,
            class: Class::Int,
        },
        start,
    })
}

/// The arena of objects on a target with a name; None where they are none, or memory is refused.
pub(crate) fn open(alloc: Global, target: &[u8], objects: &[Declared]) -> Option<(Arena, Root)>
    ensures { IfSome result (λ r. IsReadyRoot r.0 r.1) }
{
    let target = builtin(target)?;
    if !target_ok(&target) || !are_declared(objects) || objects.len() > MOST_IN_SHAPE {
        return None;
    }
    let shape = lay(alloc, &target, objects).ok()?;
    Arena::open(alloc, shape, 0).ok()
}

/// Whether the object is there and has the call.
fn fits(shape: &Shape, line: &Line) -> bool
    requires { IsShape shape.now }
    ensures { result ≡ true → HasCall (cells_of_shape shape.now) (asked_of line.now) }
{
    let number = line.object as usize;
    number < shape.objects.len() && call_fits(shape.objects.at(number).kind, &line.call)
}

/// The script of these calls, each with its object's number; None where one doesn't fit, or memory is refused.
fn script_of(alloc: Global, shape: &Shape, calls: &[(u32, Call)]) -> Option<Script>
    requires { IsShape shape.now }
    ensures { IfSome result (λ s. ScriptFits (cells_of_shape shape.now) (script_lines s)) }
{
    let mut script = Script::new(alloc);
    let mut i = 0;
    'calls: while i < calls.len() && i < 1000 {
        let (object, call) = calls[i];
        let line = Line {
            object,
            call,
            success: Order::SeqCst,
            failure: None,
        };
        if !fits(shape, &line) {
            return None;
        }
        script.push(line).ok()?;
        i += 1;
    }
    Some(script)
}

/// A worker with a new pass and the script of these calls.
pub(crate) fn worker(
    alloc: Global,
    arena: &Arena,
    root: &mut Root,
    calls: &[(u32, Call)],
) -> Option<Worker>
    requires { IsReadyRoot arena.now root.old }
    ensures root { IsReadyRoot arena.now root.new }
    ensures worker { IfSome result (λ w. IsReady arena.now w) }
{
    let script = script_of(alloc, arena.shape(), calls)?;
    let replies = Replies::with_room(alloc, script.len()).ok()?;
    let pass = root.pass(arena).ok()?;
    Some(Worker {
        pass,
        script,
        replies,
    })
}

/// A gate that holds one thread's first call until another's first call was answered, or for a hundred million turns.
#[derive(Drop)]
pub(crate) struct Held {
    pub held: u32,
    pub freed_by: u32,
    pub answered: AtomicBool,
}

impl Gate for Held {
    fn before(&self, thread: u32, call: u32) {
        if thread != self.held || call != 1 {
            return;
        }
        for _ in 0..100_000_000 {
            if self.answered.load(Ordering::SeqCst) {
                return;
            }
        }
    }

    fn after(&self, thread: u32, call: u32) {
        if thread == self.freed_by && call == 1 {
            self.answered.store(true, Ordering::SeqCst);
        }
    }
}
