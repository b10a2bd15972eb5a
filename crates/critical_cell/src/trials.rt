//! Helpers of the tests: an arena of a section, and calls on its object.

ghost use Rattle.std.specs.Prelude.{◌≡◌, IfOk, IfSome, MatchBool, ⊤};
ghost use Rattle.seat_views.specs.Trials.{IsReady, IsReadyRoot};
ghost use Rattle.critical_cell.specs.Trials.{IsByte};

use crate::call;
use op_table::{Call, Class, Kind, Reply, StepSet, Width, call_fits};
use place_core::{Object, Objects, Place, Shape, shape_ok};
use seat_views::{Arena, Pass, Root};
use std::alloc::{AllocError, Global};
use std::sync::Wait;

const BYTE: Kind = Kind {
    width: Width::W8,
    signed: false,
    class: Class::Int,
};

/// Whether object 0 is a u8 of a section.
fn is_byte(arena: &Arena) -> bool
    ensures { MatchBool result (IsByte arena.now.shape) ⊤ }
{
    if arena.shape().objects.len() == 0 || !arena.shape().section {
        return false;
    }
    match arena.shape().objects.at(0).kind {
        Kind {
            width: Width::W8,
            signed: false,
            class: Class::Int,
        } => true,
        _ => false,
    }
}

/// The arena of a u8 at 0 in a section, unless there is none or memory is refused.
pub(crate) fn open_byte(alloc: Global) -> Result<Option<(Arena, Root)>, AllocError>
    ensures { IfOk result (λ r. IfSome r (λ t. IsReadyRoot t.0 t.1 × IsByte t.0.shape)) }
{
    let mut objects = Vec::new(alloc);
    objects.push(Object {
        kind: BYTE,
        place: Place::Parts {
            lock: 0,
            first: 0,
            parts: 1,
            part_bits: 32,
        },
        start: 0,
    })?;
    let shape = Shape {
        word_bits: 32,
        steps: StepSet {
            swap: false,
            add: false,
            bits: false,
            order: false,
        },
        section: true,
        words: 1,
        locks: 1,
        objects: Objects::of(objects),
    };
    if !shape_ok(&shape) {
        return Ok(None);
    }
    match Arena::open(alloc, shape, 0) {
        Ok((arena, root)) if is_byte(&arena) => Ok(Some((arena, root))),
        _ => Ok(None),
    }
}

/// A new pass.
pub(crate) fn give(arena: &Arena, root: &mut Root) -> Option<Pass>
    requires { IsReadyRoot arena.now root.old }
    ensures root { IsReadyRoot arena.now root.new }
    ensures pass { IfSome result (λ p. IsReady arena.now p) }
{
    root.pass(arena).ok()
}

/// Makes a call; None where the kind hasn't it.
pub(crate) fn make<R: Wait>(rt: &R, arena: &Arena, pass: &mut Pass, what: Call) -> Option<Reply>
    requires ready { IsReady arena.now pass.old }
    requires byte { IsByte arena.now.shape }
    ensures { IsReady arena.now pass.new }
{
    let kind = arena.shape().objects.at(0).kind;
    if !call_fits(kind, &what) {
        return None;
    }
    Some(call::<u8, R>(rt, arena, pass, 0, &what))
}
