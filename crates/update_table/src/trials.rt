//! Helpers of the tests: arenas, and updates of objects that may not be there.

ghost use Rattle.std.specs.Prelude.{IfSome};
ghost use Rattle.seat_views.specs.Trials.{IsReady, IsReadyRoot};

use crate::{Cycle, Lower, Raise, Rule, Stop, fetch_update, fetch_update_by};
use atomic_types::Served;
use layout_plan::{are_declared, lay};
use op_table::{Call, Kind, Reply, call_fits};
use place_core::{Declared, MOST_IN_SHAPE, Name};
use seat_views::{Arena, Pass, Root};
use std::alloc::Global;
use std::process::Abort;
use std::sync::Wait;
use target_desc::{builtin, target_ok};

/// An object of a kind, to be declared.
pub(crate) fn named(name: &[u8], kind: Kind, start: u128) -> Option<Declared> {
    let name = Name::of(name)?;
    Some(Declared { name, kind, start })
}

/// The arena of objects on a target with a name; None where they are none, or memory is refused.
pub(crate) fn open(alloc: Global, target: &[u8], objects: &[Declared]) -> Option<(Arena, Root)>
    ensures { IfSome result (λ r. IsReadyRoot r.0 r.1) }
{
    let target = builtin(target)?;
    if !target_ok(&target) || !are_declared(objects) || objects.len() > MOST_IN_SHAPE {
        return None;
    }
    let shape = lay(alloc, &target, objects).ok()?;
    Arena::open(alloc, shape, 0).ok()
}

/// A new pass.
pub(crate) fn give(arena: &Arena, root: &mut Root) -> Option<Pass>
    requires { IsReadyRoot arena.now root.old }
    ensures root { IsReadyRoot arena.now root.new }
    ensures pass { IfSome result (λ p. IsReady arena.now p) }
{
    root.pass(arena).ok()
}

/// The arena of one object, and a pass of it; None where memory is refused.
pub(crate) fn open_one(
    alloc: Global,
    target: &[u8],
    kind: Kind,
    start: u128,
) -> Option<(Arena, Pass)>
    ensures { IfSome result (λ b. IsReady b.0 b.1) }
{
    let objects = [named(b"o", kind, start)?];
    let (arena, mut root) = open(alloc, target, &objects)?;
    let pass = give(&arena, &mut root)?;
    Some((arena, pass))
}

/// The number of an object; None where there is none.
pub(crate) fn load<R: Wait>(rt: &R, arena: &Arena, pass: &mut Pass, object: u32) -> Option<u128>
    requires { IsReady arena.now pass.old }
    ensures { IsReady arena.now pass.new }
{
    if object as usize >= arena.shape().objects.len() {
        return None;
    }
    match (Served { object }).call(rt, arena, pass, &Call::Load) {
        Reply::Value(v) => Some(v),
        _ => None,
    }
}

/// An update by a rule; None where there is no such object, or its kind hasn't the range.
pub(crate) fn step<R: Wait>(
    rt: &R,
    arena: &Arena,
    pass: &mut Pass,
    object: u32,
    rule: &dyn Rule,
) -> Option<Result<u128, Stop>>
    requires ready { IsReady arena.now pass.old }
    requires rule { is_rule rule.now }
    ensures { IsReady arena.now pass.new }
{
    let (_, hi) = rule.range();
    if object as usize >= arena.shape().objects.len() {
        return None;
    }
    if !call_fits(
        arena.shape().objects.at(object as usize).kind,
        &Call::Store(hi),
    ) {
        return None;
    }
    Some(fetch_update(rt, arena, pass, Served { object }, rule))
}

/// The same, by a rule of a known type.
pub(crate) fn step_by<U: Rule, R: Wait>(
    rt: &R,
    arena: &Arena,
    pass: &mut Pass,
    object: u32,
    rule: &U,
) -> Option<Result<u128, Stop>>
    requires ready { IsReady arena.now pass.old }
    requires rule { U.is_rule rule.now }
    ensures { IsReady arena.now pass.new }
{
    let (_, hi) = rule.range();
    if object as usize >= arena.shape().objects.len() {
        return None;
    }
    if !call_fits(
        arena.shape().objects.at(object as usize).kind,
        &Call::Store(hi),
    ) {
        return None;
    }
    Some(fetch_update_by(rt, arena, pass, Served { object }, rule))
}

/// A rule without its range: up or down by a number, or round.
#[derive(Clone, Copy, Debug, PartialEq, Eq)]
pub(crate) enum Way {
    Up(u128),
    Down(u128),
    Round,
}

/// An update by the rule of this way from `lo` to `hi`; None where these are none.
pub(crate) fn go<R: Wait>(
    rt: &R,
    arena: &Arena,
    pass: &mut Pass,
    object: u32,
    way: Way,
    range: (u128, u128),
) -> Option<Result<u128, Stop>>
    requires ready { IsReady arena.now pass.old }
    ensures { IsReady arena.now pass.new }
{
    let (lo, hi) = range;
    if lo > hi {
        return None;
    }
    match way {
        Way::Up(by) => step(rt, arena, pass, object, &Raise { lo, hi, by }),
        Way::Down(by) => step(rt, arena, pass, object, &Lower { lo, hi, by }),
        Way::Round => step(rt, arena, pass, object, &Cycle { lo, hi }),
    }
}

/// An update of object 0: the rule's way and range, how it ends, and the number that is left.
pub(crate) type Row = (Way, (u128, u128), Result<u128, Stop>, u128);

/// Updates one after another.
pub(crate) fn rows_hold<R: Abort + Wait>(rt: &R, arena: &Arena, pass: &mut Pass, rows: &[Row])
    requires ready { IsReady arena.now pass.old }
    ensures { IsReady arena.now pass.new }
{
    for row in rows {
        let (way, range, wanted, left) = *row;
        let ended = go(rt, arena, pass, 0, way, range);
        assert_eq!(rt; ended, Some(wanted), "{way:?}");
        let number = load(rt, arena, pass, 0);
        assert_eq!(rt; number, Some(left), "{way:?}");
    }
}
