//! Helpers of the tests: an arena, and calls on its object.

ghost use Rattle.std.specs.Prelude.{◌≡◌, IfOk, IfSome, MatchBool, MatchResult, ⊤};
ghost use Rattle.seat_views.specs.Places.{HasParts, parts_of};
ghost use Rattle.seat_views.specs.Trials.{IsReady, IsReadyRoot, SeesParts};
ghost use Rattle.wide_cell.specs.Trials.{IsWide};

use crate::{call, glance};
use op_table::{Call, Class, Kind, Reply, StepSet, Width, call_fits};
use place_core::{Object, Objects, Place, Shape, shape_ok};
use seat_views::{Arena, Pass, Root};
use seq_lock::{
    Missed, glance_begin, glance_end, glance_part, held_value, release_same, spread_of, take,
};
use std::alloc::{AllocError, Global};
use std::sync::Wait;

pub(crate) const WIDE: Kind = Kind {
    width: Width::W128,
    signed: false,
    class: Class::Int,
};

/// Whether an object is a u128 in parts, and not in a section.
pub(crate) fn is_wide(arena: &Arena, object: u32) -> bool
    ensures { MatchBool result (IsWide arena.now.shape object) ⊤ }
{
    if object as usize >= arena.shape().objects.len() || arena.shape().section {
        return false;
    }
    let there = arena.shape().objects.at(object as usize);
    match (there.kind, there.place) {
        (
            Kind {
                width: Width::W128,
                signed: false,
                class: Class::Int,
            },
            Place::Parts { .. },
        ) => true,
        _ => false,
    }
}

/// The arena of one u128 in parts of so many bits, unless there is none or memory is refused.
pub(crate) fn open_wide(
    alloc: Global,
    start: u128,
    bits: u32,
    stamp: u64,
) -> Result<Option<(Arena, Root)>, AllocError>
    ensures { IfOk result (λ r. IfSome r (λ t. IsReadyRoot t.0 t.1 × IsWide t.0.shape 0)) }
{
    let mut objects = Vec::new(alloc);
    objects.push(Object {
        kind: WIDE,
        place: Place::Parts {
            lock: 1,
            first: 0,
            parts: if bits == 32 { 4 } else { 2 },
            part_bits: bits,
        },
        start,
    })?;
    let shape = Shape {
        word_bits: bits,
        steps: StepSet {
            swap: true,
            add: true,
            bits: true,
            order: true,
        },
        section: false,
        words: 4,
        locks: 2,
        objects: Objects::of(objects),
    };
    if !shape_ok(&shape) || stamp % 2 != 0 {
        return Ok(None);
    }
    match Arena::open(alloc, shape, stamp) {
        Ok((arena, root)) if is_wide(&arena, 0) => Ok(Some((arena, root))),
        _ => Ok(None),
    }
}

/// A new pass.
pub(crate) fn give(arena: &Arena, root: &mut Root) -> Option<Pass>
    requires { IsReadyRoot arena.now root.old }
    ensures root { IsReadyRoot arena.now root.new }
    ensures pass { IfSome result (λ p. IsReady arena.now p) }
{
    root.pass(arena).ok()
}

/// Makes a call; None where the kind hasn't it.
pub(crate) fn make<R: Wait>(rt: &R, arena: &Arena, pass: &mut Pass, what: Call) -> Option<Reply>
    requires ready { IsReady arena.now pass.old }
    requires wide { IsWide arena.now.shape 0 }
    ensures { IsReady arena.now pass.new }
{
    let kind = arena.shape().objects.at(0).kind;
    if !call_fits(kind, &what) {
        return None;
    }
    Some(call::<u128, R>(rt, arena, pass, 0, &what))
}

/// A glance.
pub(crate) fn look(arena: &Arena, pass: &mut Pass) -> Result<u128, Missed>
    requires ready { IsReady arena.now pass.old }
    requires wide { IsWide arena.now.shape 0 }
    ensures { IsReady arena.now pass.new }
{
    glance(arena, pass, 0)
}

/// Loads the value under the lock, and lets another pass glance while the lock is held.
pub(crate) fn hold_beside<R: Wait>(
    rt: &R,
    arena: &Arena,
    pass: &mut Pass,
    other: &mut Pass,
) -> (Result<u128, Missed>, u128, Reply)
    requires ready { IsReady arena.now pass.old × IsReady arena.now other.old }
    requires wide { IsWide arena.now.shape 0 }
    ensures { IsReady arena.now pass.new × IsReady arena.now other.new }
{
    take(rt, arena, pass, 0);
    let seen = look(arena, other);
    let value = held_value(arena, pass, 0);
    let reply = release_same(arena, pass, 0, &Call::Load);
    (seen, value, reply)
}

/// Begins a glance.
fn begin(arena: &Arena, pass: &mut Pass) -> Result<u64, Missed>
    requires ready { IsReady arena.now pass.old }
    requires wide { IsWide arena.now.shape 0 }
    ensures { MatchResult result (λ _. SeesParts arena.now 0 0 pass.new) (λ _. IsReady arena.now pass.new) }
{
    glance_begin(arena, pass, 0)
}

/// Reads every part in a glance.
fn see_all(arena: &Arena, pass: &mut Pass)
    requires glance { SeesParts arena.now 0 0 pass.old }
    requires parts { HasParts arena.now.shape 0 }
    ensures { SeesParts arena.now 0 (parts_of arena.now.shape 0) pass.new }
{
    for part in 0..spread_of(arena, 0).parts {
        glance_part(arena, pass, 0, part);
    }
}

#[tactic(auto, using(seat_views::proofs::LockUses::sees_all, seat_views::proofs::LockUses::appended))]
/// Ends a glance.
fn end(arena: &Arena, pass: &mut Pass) -> Result<u128, Missed>
    requires glance { SeesParts arena.now 0 (parts_of arena.now.shape 0) pass.old }
    requires parts { HasParts arena.now.shape 0 }
    ensures { IsReady arena.now pass.new }
{
    glance_end(arena, pass, 0)
}

/// A glance in the midst of which another pass makes a call: the first stamp, and the glance's answer.
pub(crate) fn look_beside<R: Wait>(
    rt: &R,
    arena: &Arena,
    pass: &mut Pass,
    other: &mut Pass,
    what: Call,
) -> (Result<u64, Missed>, Result<u128, Missed>)
    requires ready { IsReady arena.now pass.old × IsReady arena.now other.old }
    requires wide { IsWide arena.now.shape 0 }
    ensures { IsReady arena.now pass.new × IsReady arena.now other.new }
{
    match begin(arena, pass) {
        Err(missed) => (Err(missed), Err(missed)),
        Ok(stamp) => {
            make(rt, arena, other, what);
            see_all(arena, pass);
            (Ok(stamp), end(arena, pass))
        }
    }
}
