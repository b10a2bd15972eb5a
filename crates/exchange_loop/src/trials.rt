//! Helpers of the tests: arenas, and calls on lanes that may not be there.

ghost use Rattle.std.specs.Prelude.{◌≡◌, IfSome};
ghost use Rattle.seat_views.specs.Trials.{IsReady, IsReadyRoot};

use crate::turn_until;
use lane_word::Lane;
use layout_plan::{are_declared, lay};
use op_table::{Call, Class, Kind, Reply, Width, after, call_fits, is_weak};
use place_core::{Declared, MOST_IN_SHAPE, Name, Path, Place, lane_bits};
use scalar_laws::Scalar;
use seat_views::{Arena, Pass, Root};
use std::alloc::Global;
use std::sync::Wait;
use std::thread::{Threads, join};
use target_desc::{builtin, target_ok};

/// An object of an unsigned kind.
pub(crate) fn object(width: Width, start: u128) -> Option<Declared> {
    let name = Name::of(b"o")?;
    Some(Declared {
        name,
        kind: Kind {
            width,
            signed: false,
            class: Class::Int,
        },
        start,
    })
}

/// The arena of objects on a target with a name; None where they are none, or memory is refused.
pub(crate) fn open(alloc: Global, target: &[u8], objects: &[Declared]) -> Option<(Arena, Root)>
    ensures { IfSome result (λ r. IsReadyRoot r.0 r.1) }
{
    let target = builtin(target)?;
    if !target_ok(&target) || !are_declared(objects) || objects.len() > MOST_IN_SHAPE {
        return None;
    }
    let shape = lay(alloc, &target, objects).ok()?;
    Arena::open(alloc, shape, 0).ok()
}

/// A new pass.
pub(crate) fn give(arena: &Arena, root: &mut Root) -> Option<Pass>
    requires { IsReadyRoot arena.now root.old }
    ensures root { IsReadyRoot arena.now root.new }
    ensures pass { IfSome result (λ p. IsReady arena.now p) }
{
    root.pass(arena).ok()
}

/// The value of a lane; None where there is no such lane.
pub(crate) fn load(arena: &Arena, pass: &mut Pass, object: u32) -> Option<u128>
    requires { IsReady arena.now pass.old }
    ensures { IsReady arena.now pass.new }
{
    let lane = Lane::of(arena.shape(), object)?;
    Some(lane.load(arena, pass))
}

/// A weak exchange; None where there is no such lane, or it has no such values.
pub(crate) fn weak(
    arena: &Arena,
    pass: &mut Pass,
    object: u32,
    expected: u128,
    new: u128,
) -> Option<Reply>
    requires { IsReady arena.now pass.old }
    ensures { IsReady arena.now pass.new }
{
    let lane = Lane::of(arena.shape(), object)?;
    let kind = arena.shape().objects.at(object as usize).kind;
    if !call_fits(kind, &Call::CasWeak(expected, new)) {
        return None;
    }
    Some(lane.cas_weak(arena, pass, expected, new))
}

/// A look at a lane; None where there is no such lane or call.
pub(crate) fn look(
    arena: &Arena,
    pass: &mut Pass,
    object: u32,
    call: Call,
) -> Option<Result<Reply, u64>>
    requires { IsReady arena.now pass.old }
    ensures { IsReady arena.now pass.new }
{
    let _lane = Lane::of(arena.shape(), object)?;
    if !call_fits(arena.shape().objects.at(object as usize).kind, &call) {
        return None;
    }
    Some(pass.step_look(arena, object, &call))
}

/// A try on a lane from a word found; None where there is no such lane or call.
#[tactic(auto, using(seat_views::proofs::Spots::lane_facts))]
pub(crate) fn attempt(
    arena: &Arena,
    pass: &mut Pass,
    object: u32,
    call: Call,
    found: u64,
) -> Option<Result<Reply, u64>>
    requires { IsReady arena.now pass.old }
    ensures { IsReady arena.now pass.new }
{
    let _lane = Lane::of(arena.shape(), object)?;
    let there = arena.shape().objects.at(object as usize);
    if !call_fits(there.kind, &call) {
        return None;
    }
    let Place::Lane { shift, width, .. } = there.place else {
        return None;
    };
    let new = after(there.kind, &call, lane_bits(found, shift, width));
    Some(pass.step_try(arena, object, &call, found, new))
}

/// A strong call by the loop on a byte's lane; None where there is no such lane, call or loop.
pub(crate) fn turn<R: Wait>(
    rt: &R,
    arena: &Arena,
    pass: &mut Pass,
    object: u32,
    call: Call,
) -> Option<Reply>
    requires { IsReady arena.now pass.old }
    ensures { IsReady arena.now pass.new }
{
    let lane = Lane::of(arena.shape(), object)?;
    let kind = arena.shape().objects.at(object as usize).kind;
    if kind != u8::KIND || !call_fits(kind, &call) || is_weak(&call) {
        return None;
    }
    match arena.plan(object, &call) {
        Path::Loop => Some(turn_until::<u8, R>(rt, arena, pass, lane, &call)),
        _ => None,
    }
}

/// Adds 1 to a byte so many times.
fn add_many<R: Wait>(rt: &R, arena: &Arena, pass: Pass, object: u32, times: u32) -> Pass
    requires { IsReady arena.now pass }
    ensures { IsReady arena.now result }
{
    let mut pass = pass;
    for _ in 0..times {
        turn(rt, arena, &mut pass, object, Call::Add(1, true));
    }
    pass
}

/// Two threads add, each to its own byte.
pub(crate) fn add_at_once<R: Threads + Wait + Sync>(
    rt: &R,
    arena: &Arena,
    p: Pass,
    q: Pass,
    times: u32,
) -> (Pass, Pass)
    requires { IsReady arena.now p × IsReady arena.now q }
    ensures { IsReady arena.now result.0 × IsReady arena.now result.1 }
{
    join(
        rt,
        move || add_many(rt, arena, p, 0, times),
        move || add_many(rt, arena, q, 1, times),
    )
}
