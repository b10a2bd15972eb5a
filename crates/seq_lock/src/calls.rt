//! A whole call under the lock of an object that has parts.

ghost use Rattle.std.specs.Prelude.{◌≡◌, ◌<◌, IfSome, IfNone};
ghost use Rattle.op_table.specs.Kind.{values_of};
ghost use Rattle.op_table.specs.Call.{CallFits, answer_of};
ghost use Rattle.place_core.specs.Shapes.{kind_of};
ghost use Rattle.seat_views.specs.declared.view.Flight.TheVariants.{Idle};
ghost use Rattle.seat_views.specs.Places.{HasParts};
ghost use Rattle.seat_views.specs.LockSteps.{HoldsClean};
ghost use Rattle.seat_views.specs.States.{IsOf};
ghost use Rattle.seq_lock.specs.Holds.{MakesHeld, MakesLocked};
ghost use Rattle.seq_lock.specs.Once.{FoundHeld, MakesLockedOnce};

use crate::holds::{held_value, put_value, release, release_same, take, try_take};
use op_table::{Call, Reply, answer, does_write};
use scalar_laws::Scalar;
use seat_views::{Arena, Pass};
use std::sync::Wait;

/// Makes a call under a lock that is held, gives it up, and answers the value that the call found. Nothing was written
/// yet.
#[inline(always)]
fn held_call<V: Scalar>(arena: &Arena, pass: &mut Pass, object: u32, call: &Call) -> u128
    requires arena { IsOf arena.now pass.old }
    requires object { HasParts arena.now.shape object }
    requires kind { V.KIND ≡ kind_of arena.now.shape object }
    requires fits { CallFits (kind_of arena.now.shape object) call.now }
    requires hold { HoldsClean object pass.old.flight }
    ensures fits { result < values_of (kind_of arena.now.shape object) }
    ensures made { MakesHeld arena.now.shape object call.now pass.old (answer_of (kind_of arena.now.shape object) call.now result) pass.new }
{
    let value = held_value(arena, pass, object);
    let (next, reply) = V::from_bits(value).apply(call);
    if does_write(call, &reply) {
        put_value(arena, pass, object, next.to_bits());
        release(arena, pass, object, call);
        return value;
    }
    release_same(arena, pass, object, call);
    value
}

/// Makes a call under the lock, and answers the value that it found. A number is handed on in registers, where a reply
/// would be copied through memory from one function to the next.
fn found_locked<V: Scalar, R: Wait>(
    rt: &R,
    arena: &Arena,
    pass: &mut Pass,
    object: u32,
    call: &Call,
) -> u128
    requires arena { IsOf arena.now pass.old }
    requires object { HasParts arena.now.shape object }
    requires kind { V.KIND ≡ kind_of arena.now.shape object }
    requires fits { CallFits (kind_of arena.now.shape object) call.now }
    requires rest { pass.old.flight ≡ Idle }
    ensures fits { result < values_of (kind_of arena.now.shape object) }
    ensures made { MakesLocked arena.now.shape object call.now pass.old (answer_of (kind_of arena.now.shape object) call.now result) pass.new }
{
    take(rt, arena, pass, object);
    held_call::<V>(arena, pass, object, call)
}

/// Makes a call under the lock: every part is read, and every part is stored where the call writes, also where the value
/// stays. A load and an exchange that fails store nothing, and give the lock its stamp back. A weak exchange is made as
/// a strong one, and so never fails with the value that it expects.
#[inline(always)]
pub fn locked<V: Scalar, R: Wait>(
    rt: &R,
    arena: &Arena,
    pass: &mut Pass,
    object: u32,
    call: &Call,
) -> Reply
    requires arena { IsOf arena.now pass.old }
    requires object { HasParts arena.now.shape object }
    requires kind { V.KIND ≡ kind_of arena.now.shape object }
    requires fits { CallFits (kind_of arena.now.shape object) call.now }
    requires rest { pass.old.flight ≡ Idle }
    ensures { MakesLocked arena.now.shape object call.now pass.old result pass.new }
{
    let found = found_locked::<V, R>(rt, arena, pass, object, call);
    answer(V::KIND, call, found)
}

/// Makes a call under the lock as `locked` does, but takes it only once, and waits for nobody. None where that take
/// found the lock held: then nothing is in flight, and no entry was made.
pub fn try_locked<V: Scalar>(
    arena: &Arena,
    pass: &mut Pass,
    object: u32,
    call: &Call,
) -> Option<Reply>
    requires arena { IsOf arena.now pass.old }
    requires object { HasParts arena.now.shape object }
    requires kind { V.KIND ≡ kind_of arena.now.shape object }
    requires fits { CallFits (kind_of arena.now.shape object) call.now }
    requires rest { pass.old.flight ≡ Idle }
    ensures made { IfSome result (λ r. MakesLockedOnce arena.now.shape object call.now pass.old r pass.new) }
    ensures held { IfNone result (FoundHeld arena.now.shape object pass.old pass.new) }
{
    if !try_take(arena, pass, object) {
        return None;
    }
    let found = held_call::<V>(arena, pass, object, call);
    Some(answer(V::KIND, call, found))
}
