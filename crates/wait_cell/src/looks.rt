//! Looking for a change, for a while.

ghost use Rattle.std.specs.Prelude.{◌≡◌, ◌≢◌, ◌<◌, length, IfSome, IfNone};
ghost use Rattle.op_table.specs.declared.call.Call.TheVariants.{Load};
ghost use Rattle.op_table.specs.declared.call.Reply.TheVariants as reply;
ghost use Rattle.op_table.specs.Kind.{values_of};
ghost use Rattle.place_core.specs.Shapes.{kind_of};
ghost use Rattle.lane_word.specs.LaneCalls.{MakesAtOnce};
ghost use Rattle.seat_views.specs.Trials.{IsReady};
ghost use Rattle.atomic_types.specs.Atomics.{HasForm, form_of};
ghost use Rattle.atomic_types.specs.Serving.{IsOne};
ghost use Rattle.wait_cell.specs.Waits.{Looks, LooksInVain};

use atomic_types::Served;
use op_table::{Call, Reply};
use seat_views::{Arena, Pass};

/// Loads an object by one step, and tells that the reply has the form of a load's.
#[inline(always)]
fn reply_now(arena: &Arena, pass: &mut Pass, served: Served) -> Reply
    requires ready { IsReady arena.now pass.old }
    requires object { served.object < length arena.now.shape.objects }
    requires one { IsOne arena.now.shape served.object Load }
    ensures made { MakesAtOnce arena.now.shape served.object Load pass.old result pass.new }
    ensures form { HasForm (form_of Load) (kind_of arena.now.shape served.object) result }
    ensures ready { IsReady arena.now pass.new }
{
    // Only for its clause: the shape is a valid one.
    let _shape = arena.shape();
    match served.now(arena, pass, &Call::Load) {
        Some(reply) => reply,
        None => unreachable!(),
    }
}

/// Loads the number of an object that one step loads.
#[inline(always)]
fn load_now(arena: &Arena, pass: &mut Pass, served: Served) -> u128
    requires ready { IsReady arena.now pass.old }
    requires object { served.object < length arena.now.shape.objects }
    requires one { IsOne arena.now.shape served.object Load }
    ensures made { MakesAtOnce arena.now.shape served.object Load pass.old (reply.Value result) pass.new }
    ensures fits { result < values_of (kind_of arena.now.shape served.object) }
    ensures ready { IsReady arena.now pass.new }
{
    match reply_now(arena, pass, served) {
        Reply::Value(number) => number,
        _ => unreachable!(),
    }
}

/// Loads an object's number up to `turns` times, until it isn't `expected`, and answers the number found. None where it
/// was `expected` at every load. It sleeps nowhere and waits for nobody; the object is one that one step loads, as each on
/// a lane is.
#[inline(always)]
pub fn look(
    arena: &Arena,
    pass: &mut Pass,
    served: Served,
    expected: u128,
    turns: u32,
) -> Option<u128>
    requires ready { IsReady arena.now pass.old }
    requires object { served.object < length arena.now.shape.objects }
    requires one { IsOne arena.now.shape served.object Load }
    requires expected { expected < values_of (kind_of arena.now.shape served.object) }
    requires turns { 0 < turns }
    ensures some { IfSome result (λ v. Looks arena.now.shape served.object expected turns pass.old v pass.new) }
    ensures fits { IfSome result (λ v. v < values_of (kind_of arena.now.shape served.object)) }
    ensures none { IfNone result (LooksInVain arena.now.shape served.object expected turns pass.old pass.new) }
    ensures ready { IsReady arena.now pass.new }
{
    // Only for its clause: what the pass has seen is legal.
    let _number = pass.number();
    for _turn in 0..turns {
        let found = load_now(arena, pass, served);
        if found != expected {
            return Some(found);
        }
    }
    None
}
