//! The arena, and its one object.

ghost use Rattle.std.specs.Prelude.{IfSome};
ghost use Rattle.seat_views.specs.Trials.{IsReady, IsReadyRoot};

use layout_plan::{are_declared, lay};
use place_core::{Declared, Name};
use scalar_laws::Scalar;
use seat_views::{Arena, Pass, Root};
use std::alloc::Global;
use target_desc::{builtin, target_ok};

/// Opens an arena of a u32 that begins with this number, on the target whose words have 64 bits and that has every step.
/// None where memory is refused.
pub(crate) fn open(alloc: Global, start: u32) -> Option<(Arena, Root)>
    ensures { IfSome result (λ r. IsReadyRoot r.0 r.1) }
{
    let target = builtin(b"full64")?;
    let name = Name::of(b"number")?;
    let objects = [Declared {
        name,
        kind: u32::KIND,
        start: start as u128,
    }];
    if !target_ok(&target) || !are_declared(&objects) {
        return None;
    }
    let shape = lay(alloc, &target, &objects).ok()?;
    Arena::open(alloc, shape, 0).ok()
}

/// A new pass, with which one thread makes its calls. None where every number was given.
pub(crate) fn give(arena: &Arena, root: &mut Root) -> Option<Pass>
    requires { IsReadyRoot arena.now root.old }
    ensures root { IsReadyRoot arena.now root.new }
    ensures pass { IfSome result (λ p. IsReady arena.now p) }
{
    root.pass(arena).ok()
}
