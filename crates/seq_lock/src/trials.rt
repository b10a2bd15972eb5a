//! Helpers of the tests: an arena, and whole calls on its object.

ghost use Rattle.std.specs.Prelude.{◌≡◌, IfOk, IfSome, MatchBool, MatchResult, ⊤};
ghost use Rattle.op_table.specs.declared.call.Call.TheVariants.{Store};
ghost use Rattle.op_table.specs.Call.{CallFits};
ghost use Rattle.place_core.specs.Shapes.{kind_of};
ghost use Rattle.seat_views.specs.Places.{HasParts, parts_of};
ghost use Rattle.seat_views.specs.Trials.{IsReady, IsReadyRoot, SeesParts};

use crate::{
    Missed, glance_begin, glance_end, glance_part, held_value, put_value, release, release_same,
    spread_of, take,
};
use op_table::{Call, Class, Kind, Reply, StepSet, Width, call_fits};
use place_core::{Object, Objects, Place, Shape, shape_ok};
use seat_views::{Arena, Pass, Root};
use std::alloc::{AllocError, Global};
use std::sync::Wait;

/// Whether an object has parts.
fn has_parts(arena: &Arena, object: u32) -> bool
    ensures { MatchBool result (HasParts arena.now.shape object) ⊤ }
{
    if object as usize >= arena.shape().objects.len() {
        return false;
    }
    match arena.shape().objects.at(object as usize).place {
        Place::Parts { .. } => true,
        Place::Lane { .. } => false,
    }
}

/// The arena of one u128 in parts of so many bits, unless there is none or memory is refused.
pub(crate) fn open_wide(
    alloc: Global,
    start: u128,
    bits: u32,
    stamp: u64,
) -> Result<Option<(Arena, Root)>, AllocError>
    ensures { IfOk result (λ r. IfSome r (λ t. IsReadyRoot t.0 t.1 × HasParts t.0.shape 0)) }
{
    let mut objects = Vec::new(alloc);
    objects.push(Object {
        kind: Kind {
            width: Width::W128,
            signed: false,
            class: Class::Int,
        },
        place: Place::Parts {
            lock: 2,
            first: 1,
            parts: if bits == 32 { 4 } else { 2 },
            part_bits: bits,
        },
        start,
    })?;
    let shape = Shape {
        word_bits: bits,
        steps: StepSet {
            swap: true,
            add: true,
            bits: true,
            order: true,
        },
        section: false,
        words: 5,
        locks: 3,
        objects: Objects::of(objects),
    };
    if !shape_ok(&shape) || stamp % 2 != 0 {
        return Ok(None);
    }
    match Arena::open(alloc, shape, stamp) {
        Ok((arena, root)) if has_parts(&arena, 0) => Ok(Some((arena, root))),
        _ => Ok(None),
    }
}

/// A new pass.
pub(crate) fn give(arena: &Arena, root: &mut Root) -> Option<Pass>
    requires { IsReadyRoot arena.now root.old }
    ensures root { IsReadyRoot arena.now root.new }
    ensures pass { IfSome result (λ p. IsReady arena.now p) }
{
    root.pass(arena).ok()
}

#[tactic(auto, using(crate::proofs::LockedCalls::took_clean, seat_views::proofs::LockUses::loaded))]
/// Loads the value under the lock, beside another pass that begins a glance meanwhile.
pub(crate) fn load_beside<R: Wait>(
    rt: &R,
    arena: &Arena,
    pass: &mut Pass,
    other: &mut Pass,
) -> (Result<u64, Missed>, u128, Reply)
    requires ready { IsReady arena.now pass.old × IsReady arena.now other.old }
    requires parts { HasParts arena.now.shape 0 }
    ensures { IsReady arena.now pass.new }
{
    take(rt, arena, pass, 0);
    let seen = glance_begin(arena, other, 0);
    let value = held_value(arena, pass, 0);
    let reply = release_same(arena, pass, 0, &Call::Load);
    (seen, value, reply)
}

/// Stores a value under the lock; None where the kind hasn't the value.
pub(crate) fn store<R: Wait>(rt: &R, arena: &Arena, pass: &mut Pass, value: u128) -> Option<Reply>
    requires ready { IsReady arena.now pass.old }
    requires parts { HasParts arena.now.shape 0 }
    ensures { IsReady arena.now pass.new }
{
    let kind = arena.shape().objects.at(0).kind;
    if !call_fits(kind, &Call::Store(value)) {
        return None;
    }
    Some(store_fit(rt, arena, pass, value))
}

#[tactic(auto, using(crate::proofs::LockedCalls::took_clean, crate::proofs::LockedCalls::held_read, crate::proofs::LockedCalls::may_write, crate::proofs::LockedCalls::put_wrote, seat_views::proofs::LockUses::loaded))]
/// Stores a value of the kind under the lock.
fn store_fit<R: Wait>(rt: &R, arena: &Arena, pass: &mut Pass, value: u128) -> Reply
    requires ready { IsReady arena.now pass.old }
    requires parts { HasParts arena.now.shape 0 }
    requires fits { CallFits (kind_of arena.now.shape 0) (Store value) }
    ensures { IsReady arena.now pass.new }
{
    take(rt, arena, pass, 0);
    held_value(arena, pass, 0);
    put_value(arena, pass, 0, value);
    release(arena, pass, 0, &Call::Store(value))
}

/// Begins a glance.
pub(crate) fn begin(arena: &Arena, pass: &mut Pass) -> Result<u64, Missed>
    requires ready { IsReady arena.now pass.old }
    requires parts { HasParts arena.now.shape 0 }
    ensures { MatchResult result (λ _. SeesParts arena.now 0 0 pass.new) (λ _. IsReady arena.now pass.new) }
{
    glance_begin(arena, pass, 0)
}

/// Reads every part in a glance.
fn see_all(arena: &Arena, pass: &mut Pass)
    requires glance { SeesParts arena.now 0 0 pass.old }
    requires parts { HasParts arena.now.shape 0 }
    ensures { SeesParts arena.now 0 (parts_of arena.now.shape 0) pass.new }
{
    for part in 0..spread_of(arena, 0).parts {
        glance_part(arena, pass, 0, part);
    }
}

#[tactic(auto, using(seat_views::proofs::LockUses::sees_all, seat_views::proofs::LockUses::appended))]
/// Ends a glance.
fn end(arena: &Arena, pass: &mut Pass) -> Result<u128, Missed>
    requires glance { SeesParts arena.now 0 (parts_of arena.now.shape 0) pass.old }
    requires parts { HasParts arena.now.shape 0 }
    ensures { IsReady arena.now pass.new }
{
    glance_end(arena, pass, 0)
}

/// A whole glance, in the midst of which another pass may store a value.
pub(crate) fn glance_beside<R: Wait>(
    rt: &R,
    arena: &Arena,
    pass: &mut Pass,
    other: &mut Pass,
    value: Option<u128>,
) -> Result<u128, Missed>
    requires ready { IsReady arena.now pass.old × IsReady arena.now other.old }
    requires parts { HasParts arena.now.shape 0 }
    ensures { IsReady arena.now pass.new × IsReady arena.now other.new }
{
    match begin(arena, pass) {
        Err(missed) => Err(missed),
        Ok(_) => {
            if let Some(value) = value {
                store(rt, arena, other, value);
            }
            see_all(arena, pass);
            end(arena, pass)
        }
    }
}
