//! Helpers of the tests: arenas, and calls on objects that may not be there.

ghost use Rattle.std.specs.Prelude.{IfSome};
ghost use Rattle.seat_views.specs.Trials.{IsReady, IsReadyRoot};

use crate::Served;
use layout_plan::{are_declared, lay};
use op_table::{Call, Class, Kind, Reply, Width, call_fits};
use place_core::{Declared, MOST_IN_SHAPE, Name};
use seat_views::{Arena, Pass, Root};
use std::alloc::Global;
use std::sync::Wait;
use target_desc::{builtin, target_ok};

/// An object of a kind.
pub(crate) fn object_of(kind: Kind, start: u128) -> Option<Declared> {
    let name = Name::of(b"o")?;
    Some(Declared { name, kind, start })
}

/// An object of an unsigned kind.
pub(crate) fn object(width: Width, start: u128) -> Option<Declared> {
    let kind = Kind {
        width,
        signed: false,
        class: Class::Int,
    };
    object_of(kind, start)
}

/// The arena of objects on a target with a name; None where they are none, or memory is refused.
pub(crate) fn open(alloc: Global, target: &[u8], objects: &[Declared]) -> Option<(Arena, Root)>
    ensures { IfSome result (λ r. IsReadyRoot r.0 r.1) }
{
    let target = builtin(target)?;
    if !target_ok(&target) || !are_declared(objects) || objects.len() > MOST_IN_SHAPE {
        return None;
    }
    let shape = lay(alloc, &target, objects).ok()?;
    Arena::open(alloc, shape, 0).ok()
}

/// A new pass.
pub(crate) fn give(arena: &Arena, root: &mut Root) -> Option<Pass>
    requires { IsReadyRoot arena.now root.old }
    ensures root { IsReadyRoot arena.now root.new }
    ensures pass { IfSome result (λ p. IsReady arena.now p) }
{
    root.pass(arena).ok()
}

/// Makes a call; None where there is no such object, or its kind hasn't the call.
pub(crate) fn make<R: Wait>(
    rt: &R,
    arena: &Arena,
    pass: &mut Pass,
    object: u32,
    call: Call,
) -> Option<Reply>
    requires { IsReady arena.now pass.old }
    ensures { IsReady arena.now pass.new }
{
    if object as usize >= arena.shape().objects.len() {
        return None;
    }
    if !call_fits(arena.shape().objects.at(object as usize).kind, &call) {
        return None;
    }
    Some(Served { object }.call(rt, arena, pass, &call))
}

/// Makes a call at once, where one step makes it; None where there is no such object, or its kind hasn't the call.
pub(crate) fn make_now(
    arena: &Arena,
    pass: &mut Pass,
    object: u32,
    call: Call,
) -> Option<Option<Reply>>
    requires { IsReady arena.now pass.old }
    ensures { IsReady arena.now pass.new }
{
    if object as usize >= arena.shape().objects.len() {
        return None;
    }
    if !call_fits(arena.shape().objects.at(object as usize).kind, &call) {
        return None;
    }
    Some(Served { object }.now(arena, pass, &call))
}
