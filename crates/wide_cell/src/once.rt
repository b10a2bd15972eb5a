//! A call on an object with parts that waits for nobody. It is for a caller who must not wait: an interrupt handler,
//! which may have interrupted the lock's holder, or a thread whose partner may have stopped under the lock. C11 has no
//! such call, and libatomic's calls wait as long as a stopped thread holds their lock.

ghost use Rattle.std.specs.Prelude.{◌≡◌, false, IfSome, IfNone};
ghost use Rattle.op_table.specs.Call.{CallFits};
ghost use Rattle.place_core.specs.Shapes.{kind_of};
ghost use Rattle.seat_views.specs.declared.view.Flight.TheVariants.{Idle};
ghost use Rattle.seat_views.specs.Places.{HasParts};
ghost use Rattle.seat_views.specs.States.{IsOf};
ghost use Rattle.wide_cell.specs.Once.{MakesOnce, GivesUp};

use crate::look::glance;
use op_table::{Call, Reply, is_load};
use scalar_laws::Scalar;
use seat_views::{Arena, Pass};
use seq_lock::try_locked;

/// Makes a call on an object with parts as `call` does, but takes the lock at most once, and returns. A load glances
/// once, and takes only where the glance missed. None where the take found the lock held: then no entry was made and
/// nothing is in flight, so the pass may make any call next, this one again too.
pub fn try_call<V: Scalar>(
    arena: &Arena,
    pass: &mut Pass,
    object: u32,
    call: &Call,
) -> Option<Reply>
    requires arena { IsOf arena.now pass.old }
    requires object { HasParts arena.now.shape object }
    requires apart { arena.now.shape.section ≡ false }
    requires kind { V.KIND ≡ kind_of arena.now.shape object }
    requires fits { CallFits (kind_of arena.now.shape object) call.now }
    requires rest { pass.old.flight ≡ Idle }
    ensures made { IfSome result (λ r. MakesOnce arena.now.shape object call.now pass.old r pass.new) }
    ensures none { IfNone result (GivesUp arena.now.shape object call.now pass.old pass.new) }
{
    if is_load(call) {
        match glance(arena, pass, object) {
            Ok(value) => return Some(Reply::Value(value)),
            Err(_) => return try_locked::<V>(arena, pass, object, call),
        }
    }
    try_locked::<V>(arena, pass, object, call)
}
