//! A look, and tries until the call is made.

ghost use Rattle.std.specs.Prelude.{◌≡◌, ◌+◌, ◌<◌, ◌≤◌, false};
ghost use Rattle.op_table.specs.Kind.{bits_of};
ghost use Rattle.op_table.specs.Call.{CallFits, after_of};
ghost use Rattle.op_table.specs.CallTests.{is_weak};
ghost use Rattle.place_core.specs.declared.places.Path.TheVariants.{Loop};
ghost use Rattle.place_core.specs.Operations.{plan_of};
ghost use Rattle.place_core.specs.Shapes.{place_of, kind_of};
ghost use Rattle.layout_plan.specs.Laws.{HasLane};
ghost use Rattle.seat_views.specs.declared.view.Flight.TheVariants.{Idle};
ghost use Rattle.seat_views.specs.Places.{shift_in, width_in, lane_at};
ghost use Rattle.seat_views.specs.States.{IsOf};
ghost use Rattle.exchange_loop.specs.Turns.{Turns};

use crossbeam_utils::Backoff;
use lane_word::Lane;
use op_table::{Call, Reply};
use place_core::{Place, lane_bits};
use scalar_laws::Scalar;
use seat_views::{Arena, Pass};
use std::sync::Wait;

/// The lowest bit of a lane, and how many bits it has.
#[derive(Clone, Copy)]
struct Bits {
    shift: u32,
    width: u32,
}

/// Where a lane's bits are in its word.
#[tactic(auto, using(seat_views::proofs::Spots::lane_facts))]
fn bits_of_lane(arena: &Arena, lane: Lane) -> Bits
    requires { HasLane arena.now.shape lane }
    ensures shift { result.shift ≡ shift_in (place_of arena.now.shape lane) }
    ensures width { result.width ≡ width_in (place_of arena.now.shape lane) }
    ensures wide { (0 < result.width) × (result.shift + result.width ≤ 64) }
    ensures bits { bits_of (kind_of arena.now.shape lane).width ≡ result.width }
{
    let Place::Lane { shift, width, .. } = arena.shape().objects.at(lane.object() as usize).place
    else {
        unreachable!()
    };
    Bits { shift, width }
}

/// Makes a call whose plan is a loop, on an object of the type `V`: looks once, and tries until a try wins or the call
/// has failed. Each try goes from the word that was found last. It may wait for other threads.
#[inline(always)]
pub fn turn_until<V: Scalar, R: Wait>(
    rt: &R,
    arena: &Arena,
    pass: &mut Pass,
    lane: Lane,
    call: &Call,
) -> Reply
    requires arena { IsOf arena.now pass.old }
    requires lane { HasLane arena.now.shape lane }
    requires kind { V.KIND ≡ kind_of arena.now.shape lane }
    requires fits { CallFits (kind_of arena.now.shape lane) call.now }
    requires loops { plan_of arena.now.shape lane call.now ≡ Loop }
    requires strong { is_weak call.now ≡ false }
    requires rest { pass.old.flight ≡ Idle }
    ensures { Turns arena.now.shape lane call.now pass.old result pass.new }
{
    let object = lane.object();
    let bits = bits_of_lane(arena, lane);
    let mut found = match pass.step_look(arena, object, call) {
        Ok(reply) => return reply,
        Err(word) => word,
    };
    let pause = Backoff::new();
    for _ in rt.forever() {
        let (next, _) = V::from_bits(lane_bits(found, bits.shift, bits.width)).apply(call);
        match pass.step_try(arena, object, call, found, next.to_bits()) {
            Ok(reply) => return reply,
            Err(word) => found = word,
        }
        pause.spin();
    }
    unreachable!()
}
