//! The steps on a lane's word.

ghost use Rattle.std.specs.Prelude.{◌≡◌, ◌+◌, ◌<◌, ◌≤◌};
ghost use Rattle.op_table.specs.Kind.{bits_of, IsKind};
ghost use Rattle.place_core.specs.declared.places.WordOp.TheVariants as op;
ghost use Rattle.place_core.specs.Shapes.{kind_of};
ghost use Rattle.layout_plan.specs.Laws.{HasLane};
ghost use Rattle.seat_views.specs.declared.view.Role.TheVariants as role;
ghost use Rattle.seat_views.specs.declared.view.Flight.TheVariants.{Idle};
ghost use Rattle.seat_views.specs.Deciding.{look_settles, lost_try_settles};
ghost use Rattle.seat_views.specs.Spots.{IsSpot, HasCallThere, ServesThere, asked_at, MadeByOp};
ghost use Rattle.seat_views.specs.Spots.{MadeByLook, SeenByLook, ReplacesThere, MadeByWin, MadeByFailure, SeenByTry};

use crate::arena::Arena;
use crate::rule::{Asking, Look, Op, Try};
use crate::view::View;
use atomic_table::Seat;
use op_table::{Call, Kind, expects_another, is_load, is_weak};
use place_core::{Place, WordOp};

/// An object's kind and its lane.
#[derive(Clone, Copy)]
pub(crate) struct Spot {
    pub kind: Kind,
    pub word: u32,
    pub shift: u32,
    pub width: u32,
}

/// Where an object's lane is.
#[tactic(auto, using(crate::proofs::Spots::lane_facts))]
#[inline(always)]
pub(crate) fn lane_spot(arena: &Arena, object: u32) -> Spot
    requires { HasLane arena.now.shape object }
    ensures place { IsSpot arena.now.shape object result }
    ensures kind { kind_of arena.now.shape object ≡ result.kind }
    ensures valid { IsKind result.kind }
    ensures wide { (0 < result.width) × (result.shift + result.width ≤ 64) }
    ensures bits { bits_of result.kind.width ≡ result.width }
{
    let object = arena.shape().objects.at(object as usize);
    let Place::Lane { word, shift, width } = object.place else {
        unreachable!()
    };
    Spot {
        kind: object.kind,
        word,
        shift,
        width,
    }
}

/// Whether a look that finds this value makes the call.
#[inline(always)]
pub(crate) fn look_settles(call: &Call, v: u128) -> bool
    ensures { result ≡ look_settles call.now v }
{
    is_load(call) || expects_another(call, v)
}

/// Whether a lost try that finds this value makes the call, which then fails.
#[inline(always)]
pub(crate) fn lost_try_settles(call: &Call, v: u128) -> bool
    ensures { result ≡ lost_try_settles call.now v }
{
    is_weak(call) || expects_another(call, v)
}

/// Makes the call by the operation that serves it. Answers the number found, and at a store the number stored.
#[inline(always)]
pub(crate) fn op_as<J: Asking>(
    arena: &Arena,
    seat: &mut Seat<(), View>,
    object: u32,
    spot: Spot,
    call: &Call,
    op: WordOp,
) -> u64
    requires asked { J.ask ≡ asked_at spot object call.now op }
    requires arena { seat.old.table_id ≡ arena.now.id }
    requires object { IsSpot arena.now.shape object spot }
    requires kind { HasCallThere arena.now.shape object spot call.now }
    requires serves { ServesThere arena.now.shape spot call.now op }
    requires pass { (seat.old.me.0.role ≡ role.Pass) × (seat.old.me.0.flight ≡ Idle) }
    ensures same { (seat.new.table_id ≡ seat.old.table_id) × (seat.new.me.1 ≡ seat.old.me.1) }
    ensures made { MadeByOp spot object call.now op seat.old.me.0 result seat.new.me.0 }
{
    let word = 1 + spot.word as usize;
    let shared = &arena.table.shared;
    match op {
        WordOp::Load => shared.load::<Op<J>>(seat, word),
        WordOp::Store(k) => {
            shared.store::<Op<J>>(seat, word, k);
            k
        }
        WordOp::Swap(k) => shared.swap::<Op<J>>(seat, word, k),
        WordOp::Cas(e, k) => shared.compare_exchange::<Op<J>>(seat, word, e, k),
        WordOp::Add(k) => shared.fetch_add::<Op<J>>(seat, word, k),
        WordOp::Sub(k) => shared.fetch_sub::<Op<J>>(seat, word, k),
        WordOp::And(k) => shared.fetch_and::<Op<J>>(seat, word, k),
        WordOp::Or(k) => shared.fetch_or::<Op<J>>(seat, word, k),
        WordOp::Xor(k) => shared.fetch_xor::<Op<J>>(seat, word, k),
        WordOp::Max(k) => shared.fetch_max::<Op<J>>(seat, word, k),
        WordOp::Min(k) => shared.fetch_min::<Op<J>>(seat, word, k),
    }
}

/// Loads the lane's word.
#[inline(always)]
pub(crate) fn look_as<J: Asking>(
    arena: &Arena,
    seat: &mut Seat<(), View>,
    object: u32,
    spot: Spot,
    call: &Call,
) -> u64
    requires asked { J.ask ≡ asked_at spot object call.now op.Load }
    requires arena { seat.old.table_id ≡ arena.now.id }
    requires object { IsSpot arena.now.shape object spot }
    requires kind { HasCallThere arena.now.shape object spot call.now }
    requires pass { (seat.old.me.0.role ≡ role.Pass) × (seat.old.me.0.flight ≡ Idle) }
    ensures same { (seat.new.table_id ≡ seat.old.table_id) × (seat.new.me.1 ≡ seat.old.me.1) }
    ensures made { MadeByLook spot object call.now seat.old.me.0 result seat.new.me.0 }
    ensures sees { SeenByLook spot call.now seat.old.me.0 result seat.new.me.0 }
{
    arena
        .table
        .shared
        .load::<Look<J>>(seat, 1 + spot.word as usize)
}

/// Exchanges the lane's word from the number found to another.
#[inline(always)]
pub(crate) fn try_as<J: Asking>(
    arena: &Arena,
    seat: &mut Seat<(), View>,
    object: u32,
    spot: Spot,
    call: &Call,
    found: u64,
    next: u64,
) -> u64
    requires asked { J.ask ≡ asked_at spot object call.now op.Load }
    requires arena { seat.old.table_id ≡ arena.now.id }
    requires object { IsSpot arena.now.shape object spot }
    requires kind { HasCallThere arena.now.shape object spot call.now }
    requires pass { (seat.old.me.0.role ≡ role.Pass) × (seat.old.me.0.flight ≡ Idle) }
    requires next { ReplacesThere spot call.now found next }
    ensures same { (seat.new.table_id ≡ seat.old.table_id) × (seat.new.me.1 ≡ seat.old.me.1) }
    ensures won { MadeByWin spot object call.now found seat.old.me.0 result seat.new.me.0 }
    ensures failed { MadeByFailure spot object call.now found seat.old.me.0 result seat.new.me.0 }
    ensures lost { SeenByTry spot call.now found seat.old.me.0 result seat.new.me.0 }
{
    arena
        .table
        .shared
        .compare_exchange::<Try<J>>(seat, 1 + spot.word as usize, found, next)
}
