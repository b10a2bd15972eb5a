//! An update: a load, and exchanges until one is done.

ghost use Rattle.std.specs.Prelude.{◌≡◌, ◌<◌, ◌≤◌, length};
ghost use Rattle.op_table.specs.declared.call.Call.{Call};
ghost use Rattle.op_table.specs.declared.call.Call.TheVariants.{Load, Cas};
ghost use Rattle.op_table.specs.declared.call.Reply.TheVariants as reply;
ghost use Rattle.op_table.specs.Kind.{values_of};
ghost use Rattle.op_table.specs.Call.{CallFits};
ghost use Rattle.place_core.specs.Shapes.{kind_of};
ghost use Rattle.seat_views.specs.Trials.{IsReady};
ghost use Rattle.atomic_types.specs.Atomics.{HasForm, exchanged, form_of};
ghost use Rattle.atomic_types.specs.Serving.{Serves};
ghost use Rattle.update_table.specs.Rules.{AnswersWithin, InRange};
ghost use Rattle.update_table.specs.Updates.{Updates};

use crate::rule::Rule;
use atomic_types::Served;
use crossbeam_utils::Backoff;
use op_table::{Call, Reply};
use seat_views::{Arena, Pass};
use std::sync::Wait;

/// Why an update left the object as it was, with the number found last.
#[derive(Clone, Copy, Debug, PartialEq, Eq)]
pub enum Stop {
    /// The rule refused this number of its range.
    Refused(u128),
    /// This number isn't of the rule's range.
    Outside(u128),
}

/// Makes a call, and tells that its reply has the form of the call's answers.
#[inline(always)]
fn reply<R: Wait>(rt: &R, arena: &Arena, pass: &mut Pass, served: Served, call: &Call) -> Reply
    requires ready { IsReady arena.now pass.old }
    requires object { served.object < length arena.now.shape.objects }
    requires fits { CallFits (kind_of arena.now.shape served.object) call.now }
    ensures serves { Serves arena.now.shape served.object call.now pass.old result pass.new }
    ensures form { HasForm (form_of call.now) (kind_of arena.now.shape served.object) result }
    ensures ready { IsReady arena.now pass.new }
{
    // Only for its clause: the shape is a valid one.
    let _shape = arena.shape();
    served.call(rt, arena, pass, call)
}

/// Loads the number.
#[inline(always)]
fn load<R: Wait>(rt: &R, arena: &Arena, pass: &mut Pass, served: Served) -> u128
    requires ready { IsReady arena.now pass.old }
    requires object { served.object < length arena.now.shape.objects }
    ensures serves { Serves arena.now.shape served.object Load pass.old (reply.Value result) pass.new }
    ensures fits { result < values_of (kind_of arena.now.shape served.object) }
    ensures ready { IsReady arena.now pass.new }
{
    match reply(rt, arena, pass, served, &Call::Load) {
        Reply::Value(v) => v,
        _ => unreachable!(),
    }
}

/// Exchanges `v` for `new`: Ok of `v` where that was done, else Err of the number.
#[inline(always)]
fn exchange<R: Wait>(
    rt: &R,
    arena: &Arena,
    pass: &mut Pass,
    served: Served,
    v: u128,
    new: u128,
) -> Result<u128, u128>
    requires ready { IsReady arena.now pass.old }
    requires object { served.object < length arena.now.shape.objects }
    requires v { v < values_of (kind_of arena.now.shape served.object) }
    requires new { new < values_of (kind_of arena.now.shape served.object) }
    ensures serves { Serves arena.now.shape served.object (Cas v new) pass.old (exchanged (λ n. n) result) pass.new }
    ensures ready { IsReady arena.now pass.new }
{
    match reply(rt, arena, pass, served, &Call::Cas(v, new)) {
        Reply::Done(v) => Ok(v),
        Reply::Failed(v) => Err(v),
        _ => unreachable!(),
    }
}

/// Updates an object's number by a rule of a known type; else as `fetch_update`.
#[inline(always)]
pub fn fetch_update_by<U: Rule, R: Wait>(
    rt: &R,
    arena: &Arena,
    pass: &mut Pass,
    served: Served,
    rule: &U,
) -> Result<u128, Stop>
    requires ready { IsReady arena.now pass.old }
    requires object { served.object < length arena.now.shape.objects }
    requires fits { U.high rule.now < values_of (kind_of arena.now.shape served.object) }
    requires rule { U.is_rule rule.now }
    ensures updates { Updates arena.now.shape served.object (U.low rule.now) (U.high rule.now) (U.leads rule.now) pass.old result pass.new }
    ensures ready { IsReady arena.now pass.new }
{
    // Only for their clauses: the shape is a valid one, and what the pass has seen is legal.
    let (_shape, _number) = (arena.shape(), pass.number());
    let (lo, hi) = rule.range();
    let mut found = load(rt, arena, pass, served);
    let pause = Backoff::new();
    for _ in rt.forever() {
        if found < lo || found > hi {
            return Err(Stop::Outside(found));
        }
        let Some(new) = rule.next(found) else {
            return Err(Stop::Refused(found));
        };
        match exchange(rt, arena, pass, served, found, new) {
            Ok(_) => return Ok(found),
            Err(other) => found = other,
        }
        pause.spin();
    }
    unreachable!()
}

/// Updates an object's number by a rule: loads it, and exchanges it for what the rule leads it to, each time from the
/// number that was found last. It may wait for other threads. Ok has the number before; Err why nothing was stored.
pub fn fetch_update<R: Wait>(
    rt: &R,
    arena: &Arena,
    pass: &mut Pass,
    served: Served,
    rule: &dyn Rule,
) -> Result<u128, Stop>
    requires ready { IsReady arena.now pass.old }
    requires object { served.object < length arena.now.shape.objects }
    requires fits { high rule.now < values_of (kind_of arena.now.shape served.object) }
    requires rule { is_rule rule.now }
    ensures updates { Updates arena.now.shape served.object (low rule.now) (high rule.now) (leads rule.now) pass.old result pass.new }
    ensures ready { IsReady arena.now pass.new }
{
    fetch_update_by(rt, arena, pass, served, &rule)
}
