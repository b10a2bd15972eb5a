//! A call on an object with parts.

ghost use Rattle.std.specs.Prelude.{◌≡◌, false};
ghost use Rattle.op_table.specs.Call.{CallFits};
ghost use Rattle.place_core.specs.Shapes.{kind_of};
ghost use Rattle.seat_views.specs.declared.view.Flight.TheVariants.{Idle};
ghost use Rattle.seat_views.specs.Places.{HasParts};
ghost use Rattle.seat_views.specs.States.{IsOf};
ghost use Rattle.seat_views.specs.Makes.{MakesCall};

use crate::look::glance;
use op_table::{Call, Reply, is_load};
use scalar_laws::Scalar;
use seat_views::{Arena, Pass};
use seq_lock::locked;
use std::sync::Wait;

/// Makes a call on an object with parts. A load glances once, and takes the lock only where the glance missed. Every
/// other call takes the lock. Under it every part is read. A load and an exchange that fails store nothing, and give
/// the lock its stamp back; every other call stores every part, also where the value stays. A weak exchange is made as
/// a strong one, and so never fails with the value that it expects.
pub fn call<V: Scalar, R: Wait>(
    rt: &R,
    arena: &Arena,
    pass: &mut Pass,
    object: u32,
    call: &Call,
) -> Reply
    requires arena { IsOf arena.now pass.old }
    requires object { HasParts arena.now.shape object }
    requires apart { arena.now.shape.section ≡ false }
    requires kind { V.KIND ≡ kind_of arena.now.shape object }
    requires fits { CallFits (kind_of arena.now.shape object) call.now }
    requires rest { pass.old.flight ≡ Idle }
    ensures { MakesCall arena.now.shape object call.now pass.old result pass.new }
{
    if is_load(call) {
        match glance(arena, pass, object) {
            Ok(value) => return Reply::Value(value),
            Err(_) => return locked::<V, R>(rt, arena, pass, object, call),
        }
    }
    locked::<V, R>(rt, arena, pass, object, call)
}
