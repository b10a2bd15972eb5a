//! The parts of an object under its lock.

ghost use Rattle.std.specs.Prelude.{◌≡◌, ◌<◌, MatchBool};
ghost use Rattle.op_table.specs.Kind.{values_of};
ghost use Rattle.op_table.specs.Call.{CallFits};
ghost use Rattle.place_core.specs.Shapes.{kind_of};
ghost use Rattle.seat_views.specs.declared.view.Flight.TheVariants.{Idle};
ghost use Rattle.seat_views.specs.Places.{HasParts, parts_of};
ghost use Rattle.seat_views.specs.LockSteps.{HoldsClean, HoldsRead, MayRelease};
ghost use Rattle.seat_views.specs.States.{IsOf};
ghost use Rattle.seat_views.specs.LockStates.{Releases};
ghost use Rattle.seq_lock.specs.Holds.{Took, ReadsAll, PutsAll, HoldsWritten};
ghost use Rattle.seq_lock.specs.Once.{TookOnce, FoundHeld};

use crate::spreads::spread_of;
use crossbeam_utils::Backoff;
use op_table::{Call, Reply};
use place_core::{part_at, with_part};
use seat_views::{Arena, Pass};
use std::sync::Wait;

/// Takes the lock of an object that has parts, as often as it finds it held. Nothing is in flight before, and after it
/// the lock is held.
#[inline]
pub fn take<R: Wait>(rt: &R, arena: &Arena, pass: &mut Pass, object: u32)
    requires arena { IsOf arena.now pass.old }
    requires object { HasParts arena.now.shape object }
    requires rest { pass.old.flight ≡ Idle }
    ensures { Took arena.now.shape object arena.now.first_stamp pass.old pass.new }
{
    let pause = Backoff::new();
    for _ in rt.forever() {
        if pass.step_take(arena, object) {
            return;
        }
        pause.snooze();
    }
    unreachable!()
}

/// Takes the lock of an object that has parts, once. True where the pass holds it now; else it was held, and nothing is
/// in flight.
pub fn try_take(arena: &Arena, pass: &mut Pass, object: u32) -> bool
    requires arena { IsOf arena.now pass.old }
    requires object { HasParts arena.now.shape object }
    requires rest { pass.old.flight ≡ Idle }
    ensures { MatchBool result
        (TookOnce arena.now.shape object arena.now.first_stamp pass.old pass.new)
        (FoundHeld arena.now.shape object pass.old pass.new) }
{
    pass.step_take(arena, object)
}

/// Reads every part of the object whose lock is held, from part 0 up, and answers the value. Nothing was written yet.
/// The value is the object's in the history where the entry of the release comes.
#[inline]
pub fn held_value(arena: &Arena, pass: &mut Pass, object: u32) -> u128
    requires arena { IsOf arena.now pass.old }
    requires object { HasParts arena.now.shape object }
    requires hold { HoldsClean object pass.old.flight }
    ensures { ReadsAll arena.now.shape object pass.old result pass.new }
{
    let spread = spread_of(arena, object);
    let mut value = 0;
    for part in 0..spread.parts {
        let number = pass.step_held(arena, object, part);
        value = with_part(spread.bits, part, value, number);
    }
    value
}

/// Stores every part of a value into the object whose lock is held, from part 0 up. Every part was read before, and the
/// value is one of the object's kind.
#[inline]
pub fn put_value(arena: &Arena, pass: &mut Pass, object: u32, new: u128)
    requires arena { IsOf arena.now pass.old }
    requires object { HasParts arena.now.shape object }
    requires hold { HoldsRead object (parts_of arena.now.shape object) pass.old.flight }
    requires new { new < values_of (kind_of arena.now.shape object) }
    ensures { PutsAll arena.now.shape object pass.old new pass.new }
{
    let spread = spread_of(arena, object);
    for part in 0..spread.parts {
        pass.step_put(arena, object, part, part_at(spread.bits, part, new));
    }
}

/// Gives up a lock after its parts were written, which makes the call: they are what it leaves of the value that was
/// read. The lock gets its stamp and two more, or its last stamp again.
#[inline(always)]
pub fn release(arena: &Arena, pass: &mut Pass, object: u32, call: &Call) -> Reply
    requires arena { IsOf arena.now pass.old }
    requires object { HasParts arena.now.shape object }
    requires fits { CallFits (kind_of arena.now.shape object) call.now }
    requires hold { MayRelease arena.now.shape object call.now pass.old.flight }
    requires wrote { HoldsWritten object pass.old.flight }
    ensures { Releases arena.now.shape object call.now pass.old result pass.new }
{
    pass.step_release(arena, object, call)
}

/// Gives up a lock under which nothing was written, which makes the call: it leaves the value that was read. The lock
/// gets its stamp back.
#[inline(always)]
pub fn release_same(arena: &Arena, pass: &mut Pass, object: u32, call: &Call) -> Reply
    requires arena { IsOf arena.now pass.old }
    requires object { HasParts arena.now.shape object }
    requires fits { CallFits (kind_of arena.now.shape object) call.now }
    requires hold { MayRelease arena.now.shape object call.now pass.old.flight }
    requires clean { HoldsClean object pass.old.flight }
    ensures { Releases arena.now.shape object call.now pass.old result pass.new }
{
    pass.step_release(arena, object, call)
}
