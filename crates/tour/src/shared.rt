//! The arena, and the four objects on it.

ghost use Rattle.std.specs.Prelude.{IfSome};
ghost use Rattle.seat_views.specs.Trials.{IsReady, IsReadyRoot};
ghost use Rattle.tour.specs.Tour.{AreOn};

use atomic_types::{AtomicBool, AtomicU16, AtomicU128};
use layout_plan::{are_declared, lay};
use op_table::Kind;
use place_core::{Declared, Name};
use ptr_handles::AtomicHandle;
use scalar_laws::{Addr, Scalar};
use seat_views::{Arena, Pass, Root};
use std::alloc::Global;
use target_desc::{read_target, target_ok};

/// What the threads share: each field names an object of the arena, and may be copied.
#[derive(Clone, Copy)]
pub(crate) struct Shared {
    pub(crate) ready: AtomicBool,
    pub(crate) hits: AtomicU16,
    pub(crate) id: AtomicU128,
    pub(crate) next: AtomicHandle,
}

impl Shared {
    /// The objects of the arena. None where one isn't there, or is of another kind.
    pub(crate) fn of(arena: &Arena) -> Option<Shared>
        ensures { IfSome result (λ s. AreOn arena.now.shape s) }
    {
        let ready = AtomicBool::of(arena, 0)?;
        let hits = AtomicU16::of(arena, 1)?;
        let id = AtomicU128::of(arena, 2)?;
        let next = AtomicHandle::of(arena, 3)?;
        Some(Shared {
            ready,
            hits,
            id,
            next,
        })
    }
}

/// An object to declare. None where it can't have the name.
fn object(name: &[u8], kind: Kind, start: u128) -> Option<Declared> {
    let name = Name::of(name)?;
    Some(Declared { name, kind, start })
}

/// Opens an arena of the objects on a target. None where the text says no target, or memory is refused.
pub(crate) fn open(alloc: Global, target: &[u8]) -> Option<(Arena, Root)>
    ensures { IfSome result (λ r. IsReadyRoot r.0 r.1) }
{
    let target = read_target(target, 2).ok()?;
    let objects = [
        object(b"ready", bool::KIND, 0)?,
        object(b"hits", u16::KIND, 0)?,
        object(b"id", u128::KIND, 18446744073709551614)?,
        object(b"next", Addr::KIND, 0)?,
    ];
    if !target_ok(&target) || !are_declared(&objects) {
        return None;
    }
    let shape = lay(alloc, &target, &objects).ok()?;
    Arena::open(alloc, shape, 0).ok()
}

/// A new pass, with which one thread makes its calls. None where every number was given.
pub(crate) fn give(arena: &Arena, root: &mut Root) -> Option<Pass>
    requires { IsReadyRoot arena.now root.old }
    ensures root { IsReadyRoot arena.now root.new }
    ensures pass { IfSome result (λ p. IsReady arena.now p) }
{
    root.pass(arena).ok()
}
