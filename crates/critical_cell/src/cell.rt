//! A call on an object of a section.

ghost use Rattle.std.specs.Prelude.{◌≡◌, ◌<◌, length, true};
ghost use Rattle.op_table.specs.Call.{CallFits};
ghost use Rattle.place_core.specs.Shapes.{kind_of};
ghost use Rattle.seat_views.specs.declared.view.Flight.TheVariants.{Idle};
ghost use Rattle.seat_views.specs.Places.{HasParts};
ghost use Rattle.seat_views.specs.States.{IsOf};
ghost use Rattle.seat_views.specs.Makes.{MakesCall};

use op_table::{Call, Reply};
use scalar_laws::Scalar;
use seat_views::{Arena, Pass};
use seq_lock::locked;
use std::sync::Wait;

/// In a section every object has parts.
fn in_section(arena: &Arena, object: u32)
    requires section { arena.now.shape.section ≡ true }
    requires object { object < length arena.now.shape.objects }
    ensures { HasParts arena.now.shape object }
{
    let _shape = arena.shape();
}

/// Makes a call on an object of a section. Every call, also a load, takes the section's lock and reads every part. A
/// load and an exchange that fails store nothing, and give the lock its stamp back; every other call stores every part,
/// also where the value stays. A weak exchange is made as a strong one, and so never fails with the value that it
/// expects.
pub fn call<V: Scalar, R: Wait>(
    rt: &R,
    arena: &Arena,
    pass: &mut Pass,
    object: u32,
    call: &Call,
) -> Reply
    requires arena { IsOf arena.now pass.old }
    requires section { arena.now.shape.section ≡ true }
    requires object { object < length arena.now.shape.objects }
    requires kind { V.KIND ≡ kind_of arena.now.shape object }
    requires fits { CallFits (kind_of arena.now.shape object) call.now }
    requires rest { pass.old.flight ≡ Idle }
    ensures { MakesCall arena.now.shape object call.now pass.old result pass.new }
{
    in_section(arena, object);
    locked::<V, R>(rt, arena, pass, object, call)
}
