//! The arena, and the three objects on it.

ghost use Rattle.std.specs.Prelude.{IfSome};
ghost use Rattle.seat_views.specs.Trials.{IsReady, IsReadyRoot};
ghost use Rattle.call_times.specs.Calls.{AreOn};

use atomic_types::{AtomicU8, AtomicU64, AtomicU128};
use layout_plan::{are_declared, lay};
use op_table::Kind;
use place_core::{Declared, Name};
use scalar_laws::Scalar;
use seat_views::{Arena, Pass, Root};
use std::alloc::Global;
use target_desc::{builtin, target_ok};

/// What the threads share: each field names an object of the arena.
#[derive(Clone, Copy)]
pub(crate) struct Shared {
    pub(crate) wide: AtomicU64,
    pub(crate) small: AtomicU8,
    pub(crate) pair: AtomicU128,
}

impl Shared {
    /// The objects of the arena. None where one isn't there, or is of another kind.
    pub(crate) fn of(arena: &Arena) -> Option<Shared>
        ensures { IfSome result (λ s. AreOn arena.now.shape s) }
    {
        let wide = AtomicU64::of(arena, 0)?;
        let small = AtomicU8::of(arena, 1)?;
        let pair = AtomicU128::of(arena, 2)?;
        Some(Shared { wide, small, pair })
    }
}

/// An object to declare. None where it can't have the name.
fn object(name: &[u8], kind: Kind) -> Option<Declared> {
    let name = Name::of(name)?;
    Some(Declared {
        name,
        kind,
        start: 0,
    })
}

/// Opens an arena of the objects, on the target whose words have 64 bits and that has every step. None where memory is
/// refused.
pub(crate) fn open(alloc: Global) -> Option<(Arena, Root)>
    ensures { IfSome result (λ r. IsReadyRoot r.0 r.1) }
{
    let target = builtin(b"full64")?;
    let objects = [
        object(b"wide", u64::KIND)?,
        object(b"small", u8::KIND)?,
        object(b"pair", u128::KIND)?,
    ];
    if !target_ok(&target) || !are_declared(&objects) {
        return None;
    }
    let shape = lay(alloc, &target, &objects).ok()?;
    Arena::open(alloc, shape, 0).ok()
}

/// A new pass, with which one thread makes its calls. None where every number was given.
pub(crate) fn give(arena: &Arena, root: &mut Root) -> Option<Pass>
    requires { IsReadyRoot arena.now root.old }
    ensures root { IsReadyRoot arena.now root.new }
    ensures pass { IfSome result (λ p. IsReady arena.now p) }
{
    root.pass(arena).ok()
}
