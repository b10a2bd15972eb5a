//! The three calls that waiting is made of, each with its answer as a number.

ghost use Rattle.std.specs.Prelude.{◌≡◌, ◌≢◌, ◌<◌, length, IfOk, IfErr};
ghost use Rattle.op_table.specs.declared.call.Call.TheVariants.{Load, Cas};
ghost use Rattle.op_table.specs.declared.call.Reply.TheVariants as reply;
ghost use Rattle.op_table.specs.Call.{CallFits};
ghost use Rattle.op_table.specs.Kind.{values_of};
ghost use Rattle.place_core.specs.Shapes.{kind_of};
ghost use Rattle.seat_views.specs.Makes.{MakesCall};
ghost use Rattle.seat_views.specs.Trials.{IsReady};
ghost use Rattle.atomic_types.specs.Atomics.{HasForm, form_of, exchanged};

use atomic_types::Served;
use op_table::{Call, Reply};
use seat_views::{Arena, Pass};
use std::sync::Wait;

/// Makes a call, and tells that its reply has the form of the call's answers.
#[inline(always)]
pub(crate) fn answer<R: Wait>(
    rt: &R,
    arena: &Arena,
    pass: &mut Pass,
    served: Served,
    call: &Call,
) -> Reply
    requires ready { IsReady arena.now pass.old }
    requires object { served.object < length arena.now.shape.objects }
    requires fits { CallFits (kind_of arena.now.shape served.object) call.now }
    ensures made { MakesCall arena.now.shape served.object call.now pass.old result pass.new }
    ensures form { HasForm (form_of call.now) (kind_of arena.now.shape served.object) result }
    ensures ready { IsReady arena.now pass.new }
{
    // Only for its clause: the shape is a valid one.
    let _shape = arena.shape();
    served.call(rt, arena, pass, call)
}

/// Loads an object's number.
#[inline(always)]
pub(crate) fn load<R: Wait>(rt: &R, arena: &Arena, pass: &mut Pass, served: Served) -> u128
    requires ready { IsReady arena.now pass.old }
    requires object { served.object < length arena.now.shape.objects }
    ensures made { MakesCall arena.now.shape served.object Load pass.old (reply.Value result) pass.new }
    ensures fits { result < values_of (kind_of arena.now.shape served.object) }
    ensures ready { IsReady arena.now pass.new }
{
    match answer(rt, arena, pass, served, &Call::Load) {
        Reply::Value(number) => number,
        _ => unreachable!(),
    }
}

/// Exchanges a number for another: Err of the number that was found in its place.
#[inline(always)]
#[tactic(auto, using(crate::proofs::Replies::done_is_expected))]
pub(crate) fn exchange<R: Wait>(
    rt: &R,
    arena: &Arena,
    pass: &mut Pass,
    served: Served,
    expected: u128,
    new: u128,
) -> Result<u128, u128>
    requires ready { IsReady arena.now pass.old }
    requires object { served.object < length arena.now.shape.objects }
    requires expected { expected < values_of (kind_of arena.now.shape served.object) }
    requires new { new < values_of (kind_of arena.now.shape served.object) }
    ensures made { MakesCall arena.now.shape served.object (Cas expected new) pass.old (exchanged (λ n. n) result) pass.new }
    ensures done { IfOk result (λ n. n ≡ expected) }
    ensures failed { IfErr result (λ n. n < values_of (kind_of arena.now.shape served.object)) }
    ensures ready { IsReady arena.now pass.new }
{
    match answer(rt, arena, pass, served, &Call::Cas(expected, new)) {
        Reply::Done(found) => Ok(found),
        Reply::Failed(found) => Err(found),
        _ => unreachable!(),
    }
}
