//! A call by the path that its plan names.

ghost use Rattle.std.specs.Prelude.{◌≡◌, ◌<◌, length, true, false, MatchOption};
ghost use Rattle.op_table.specs.Call.{CallFits};
ghost use Rattle.op_table.specs.CallTests.{is_weak};
ghost use Rattle.place_core.specs.declared.places.Path.TheVariants.{Loop, Locked};
ghost use Rattle.place_core.specs.Shapes.{kind_of};
ghost use Rattle.place_core.specs.Operations.{plan_of};
ghost use Rattle.layout_plan.specs.Laws.{HasLane};
ghost use Rattle.seat_views.specs.declared.view.Flight.TheVariants.{Idle};
ghost use Rattle.seat_views.specs.States.{IsOf};
ghost use Rattle.seat_views.specs.Makes.{MakesCall};
ghost use Rattle.lane_word.specs.LaneCalls.{MakesAtOnce};
ghost use Rattle.exchange_loop.specs.Turns.{Turns};
ghost use Rattle.atomic_types.specs.Serving.{IsOne, IsNotOne, Serves};

use crate::kinds::{at_any_kind, at_kind, at_word_kind, fits_in_word, kind_at};
use exchange_loop::turn_until;
use lane_word::Lane;
use op_table::{Call, Class, Reply, Width};
use place_core::Path;
use scalar_laws::{Addr, Scalar};
use seat_views::{Arena, Pass};
use std::sync::Wait;

/// An object by its number, counted from 0.
#[derive(Clone, Copy, Debug, PartialEq, Eq)]
pub struct Served {
    pub object: u32,
}

impl Served {
    /// Makes a call, by the path that its plan names: one step, a loop of tries, or under a lock. A weak exchange is
    /// tried once where its plan is a loop. Where the plan isn't one step it may wait for other threads.
    #[inline(always)]
    pub fn call<R: Wait>(&self, rt: &R, arena: &Arena, pass: &mut Pass, call: &Call) -> Reply
        requires arena { IsOf arena.now pass.old }
        requires object { self.now.object < length arena.now.shape.objects }
        requires fits { CallFits (kind_of arena.now.shape self.now.object) call.now }
        requires rest { pass.old.flight ≡ Idle }
        ensures { Serves arena.now.shape self.now.object call.now pass.old result pass.new }
    {
        match arena.plan(self.object, call) {
            Path::One(op) => pass.step_op(arena, self.object, call, op),
            // The call itself goes there, so that it stays in registers where one step makes it.
            Path::Loop => by_loop(rt, arena, pass, self.object, *call),
            Path::Locked => by_lock(rt, arena, pass, self.object, *call),
        }
    }

    /// The same on an object of the type `V`, whose kind need not be looked up.
    #[inline(always)]
    pub(crate) fn call_as<V: Scalar, R: Wait>(
        &self,
        rt: &R,
        arena: &Arena,
        pass: &mut Pass,
        call: &Call,
    ) -> Reply
        requires arena { IsOf arena.now pass.old }
        requires object { self.now.object < length arena.now.shape.objects }
        requires kind { V.KIND ≡ kind_of arena.now.shape self.now.object }
        requires fits { CallFits (kind_of arena.now.shape self.now.object) call.now }
        requires rest { pass.old.flight ≡ Idle }
        ensures { Serves arena.now.shape self.now.object call.now pass.old result pass.new }
    {
        match arena.plan(self.object, call) {
            Path::One(step) => pass.step_op(arena, self.object, call, step),
            Path::Loop => by_tries::<V, R>(rt, arena, pass, self.object, call),
            Path::Locked => under_lock::<V, R>(rt, arena, pass, self.object, *call),
        }
    }

    /// Makes a call where its plan is one step, and waits for nobody. None where it isn't; then nothing was done.
    #[inline(always)]
    pub fn now(&self, arena: &Arena, pass: &mut Pass, call: &Call) -> Option<Reply>
        requires arena { IsOf arena.now pass.old }
        requires object { self.now.object < length arena.now.shape.objects }
        requires fits { CallFits (kind_of arena.now.shape self.now.object) call.now }
        requires rest { pass.old.flight ≡ Idle }
        ensures { MatchOption result (IsNotOne arena.now.shape self.now.object call.now × (pass.new ≡ pass.old)) (λ r. IsOne arena.now.shape self.now.object call.now × MakesAtOnce arena.now.shape self.now.object call.now pass.old r pass.new) }
    {
        match arena.plan(self.object, call) {
            Path::One(op) => Some(pass.step_op(arena, self.object, call, op)),
            _ => None,
        }
    }
}

/// Makes a call whose plan is a loop, on an object of the type.
#[inline(always)]
fn by_tries<V: Scalar, R: Wait>(
    rt: &R,
    arena: &Arena,
    pass: &mut Pass,
    object: u32,
    call: &Call,
) -> Reply
    requires arena { IsOf arena.now pass.old }
    requires object { object < length arena.now.shape.objects }
    requires kind { V.KIND ≡ kind_of arena.now.shape object }
    requires fits { CallFits (kind_of arena.now.shape object) call.now }
    requires loops { plan_of arena.now.shape object call.now ≡ Loop }
    requires rest { pass.old.flight ≡ Idle }
    ensures { Serves arena.now.shape object call.now pass.old result pass.new }
{
    let Some(lane) = Lane::of(arena.shape(), object) else {
        unreachable!()
    };
    match call {
        Call::CasWeak(expected, new) => lane.cas_weak(arena, pass, *expected, *new),
        _ => turn_until::<V, R>(rt, arena, pass, lane, call),
    }
}

/// Makes a call whose plan is a loop, at the type of the object's kind.
#[inline(never)]
fn by_loop<R: Wait>(rt: &R, arena: &Arena, pass: &mut Pass, object: u32, call: Call) -> Reply
    requires arena { IsOf arena.now pass.old }
    requires object { object < length arena.now.shape.objects }
    requires fits { CallFits (kind_of arena.now.shape object) call }
    requires loops { plan_of arena.now.shape object call ≡ Loop }
    requires rest { pass.old.flight ≡ Idle }
    ensures { Serves arena.now.shape object call pass.old result pass.new }
{
    let Some(lane) = Lane::of(arena.shape(), object) else {
        unreachable!()
    };
    fits_in_word(arena, lane.object());
    let kind = kind_at(arena, object);
    at_word_kind!(kind, by_tries, R, (rt, arena, pass, object, &call))
}

/// Makes a call whose plan is a lock, on an object of the type: the section's lock, or that of the object's parts.
fn under_lock<V: Scalar, R: Wait>(
    rt: &R,
    arena: &Arena,
    pass: &mut Pass,
    object: u32,
    call: Call,
) -> Reply
    requires arena { IsOf arena.now pass.old }
    requires object { object < length arena.now.shape.objects }
    requires kind { V.KIND ≡ kind_of arena.now.shape object }
    requires fits { CallFits (kind_of arena.now.shape object) call }
    requires locked { plan_of arena.now.shape object call ≡ Locked }
    requires rest { pass.old.flight ≡ Idle }
    ensures { Serves arena.now.shape object call pass.old result pass.new }
{
    if arena.shape().section {
        return critical_cell::call::<V, R>(rt, arena, pass, object, &call);
    }
    wide_cell::call::<V, R>(rt, arena, pass, object, &call)
}

/// Makes a call whose plan is a lock, at the type of the object's kind.
#[inline(never)]
fn by_lock<R: Wait>(rt: &R, arena: &Arena, pass: &mut Pass, object: u32, call: Call) -> Reply
    requires arena { IsOf arena.now pass.old }
    requires object { object < length arena.now.shape.objects }
    requires fits { CallFits (kind_of arena.now.shape object) call }
    requires locked { plan_of arena.now.shape object call ≡ Locked }
    requires rest { pass.old.flight ≡ Idle }
    ensures { Serves arena.now.shape object call pass.old result pass.new }
{
    let kind = kind_at(arena, object);
    at_any_kind!(kind, under_lock, R, (rt, arena, pass, object, call))
}
