//! The last loads.

ghost use Rattle.std.specs.Prelude.{◌≡◌, ◌<◌, ◌≤◌, [], length};
ghost use Rattle.op_table.specs.declared.call.Call.TheVariants.{Load};
ghost use Rattle.place_core.specs.Runs.{loads_from};
ghost use Rattle.place_core.specs.Shapes.{cells_of_shape};
ghost use Rattle.seat_views.specs.declared.view.Flight.TheVariants.{Idle};
ghost use Rattle.seat_views.specs.States.{IsOf, IsKept};
ghost use Rattle.seat_views.specs.Makes.{MakesCall, MakesCalls};

use atomic_types::Served;
use op_table::{Call, Reply};
use place_core::Replies;
use seat_views::{Arena, Root};
use std::sync::Wait;

/// Loads an object.
fn load<R: Wait>(rt: &R, arena: &Arena, root: &mut Root, object: u32) -> Reply
    requires arena { IsOf arena.now root.old }
    requires object { object < length arena.now.shape.objects }
    requires rest { root.old.flight ≡ Idle }
    ensures { MakesCall arena.now.shape object Load root.old result root.new }
{
    Served { object }.call(rt, arena, root.as_pass(), &Call::Load)
}

/// Loads every object, in declared order, and keeps the replies. It takes no memory.
pub(crate) fn load_all<R: Wait>(rt: &R, arena: &Arena, root: &mut Root, replies: Replies) -> Replies
    requires arena { IsOf arena.now root.old }
    requires rest { root.old.flight ≡ Idle }
    requires kept { IsKept root.old }
    requires empty { replies.items ≡ [] }
    requires room { length arena.now.shape.objects ≤ replies.spare }
    ensures { MakesCalls arena.now.shape (loads_from 0 (cells_of_shape arena.now.shape)) root.old result.items root.new }
{
    let mut replies = replies;
    let count = arena.shape().objects.len() as u32;
    for object in 0..count {
        let reply = load(rt, arena, root, object);
        replies.push(reply);
    }
    replies
}
