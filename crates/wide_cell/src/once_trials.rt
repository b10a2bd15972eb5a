//! Helpers of the tests: calls on u128s in two parts, and the items that they add.

ghost use Rattle.std.specs.Prelude.{◌≡◌, IfOk, IfSome, IfNone, MatchBool, ⊤};
ghost use Rattle.op_table.specs.declared.call.Reply.TheVariants.{Unit};
ghost use Rattle.seat_views.specs.Limits.{last_stamp};
ghost use Rattle.seat_views.specs.Trials.{IsReady, IsReadyRoot};
ghost use Rattle.wide_cell.specs.Trials.{IsWide, IsWideOfTwo, BeginsWith, Adds, AddsTakesAnd};

use crate::trials::{WIDE, is_wide, open_wide};
use crate::{call, try_call};
use op_table::{Call, Reply, StepSet};
use place_core::{Object, Objects, Place, Shape, shape_ok};
use seat_views::{Arena, Pass, Root};
use seq_lock::{Missed, glance_begin, spread_of, try_take};
use std::alloc::{AllocError, Global};
use std::sync::Wait;

/// Whether an object is a u128 in two parts, and not in a section.
fn is_wide_of_two(arena: &Arena, object: u32) -> bool
    ensures { MatchBool result (IsWideOfTwo arena.now.shape object) ⊤ }
{
    is_wide(arena, object) && spread_of(arena, object).parts == 2
}

/// The arena of one u128 in two parts, unless there is none or memory is refused.
pub(crate) fn open_two(
    alloc: Global,
    start: u128,
    stamp: u64,
) -> Result<Option<(Arena, Root)>, AllocError>
    ensures { IfOk result (λ r. IfSome r (λ t. IsReadyRoot t.0 t.1 × IsWideOfTwo t.0.shape 0)) }
{
    match open_wide(alloc, start, 64, stamp)? {
        Some((arena, root)) if is_wide_of_two(&arena, 0) => Ok(Some((arena, root))),
        _ => Ok(None),
    }
}

/// A u128 in two parts.
fn two_at(lock: u32, first: u32, start: u128) -> Object {
    Object {
        kind: WIDE,
        place: Place::Parts {
            lock,
            first,
            parts: 2,
            part_bits: 64,
        },
        start,
    }
}

/// The arena of three u128s in two parts, the first two of them under one lock, unless there is none or memory is
/// refused.
pub(crate) fn open_three(alloc: Global) -> Result<Option<(Arena, Root)>, AllocError>
    ensures { IfOk result (λ r. IfSome r (λ t. IsReadyRoot t.0 t.1
        × IsWideOfTwo t.0.shape 0 × IsWideOfTwo t.0.shape 1 × IsWideOfTwo t.0.shape 2)) }
{
    let mut objects = Vec::new(alloc);
    objects.push(two_at(1, 0, 5))?;
    objects.push(two_at(1, 2, 6))?;
    objects.push(two_at(0, 4, 7))?;
    let shape = Shape {
        word_bits: 64,
        steps: StepSet {
            swap: true,
            add: true,
            bits: true,
            order: true,
        },
        section: false,
        words: 6,
        locks: 2,
        objects: Objects::of(objects),
    };
    if !shape_ok(&shape) {
        return Ok(None);
    }
    match Arena::open(alloc, shape, 0) {
        Ok((arena, root)) if are_wide_of_two(&arena) => Ok(Some((arena, root))),
        _ => Ok(None),
    }
}

/// Whether the first three objects are u128s in two parts.
fn are_wide_of_two(arena: &Arena) -> bool
    ensures { MatchBool result
        (IsWideOfTwo arena.now.shape 0 × IsWideOfTwo arena.now.shape 1 × IsWideOfTwo arena.now.shape 2) ⊤ }
{
    is_wide_of_two(arena, 0) && is_wide_of_two(arena, 1) && is_wide_of_two(arena, 2)
}

/// Loads. Where the last stamp is found first, that is four items besides the takes.
pub(crate) fn load<R: Wait>(rt: &R, arena: &Arena, pass: &mut Pass) -> Reply
    requires ready { IsReady arena.now pass.old }
    requires two { IsWideOfTwo arena.now.shape 0 }
    ensures ready { IsReady arena.now pass.new }
    ensures items { BeginsWith last_stamp pass.old pass.new → AddsTakesAnd 4 pass.old pass.new }
{
    call::<u128, R>(rt, arena, pass, 0, &Call::Load)
}

/// Stores. Where it is told that this was made, that is five items besides the takes.
pub(crate) fn store<R: Wait>(rt: &R, arena: &Arena, pass: &mut Pass, value: u128) -> Reply
    requires ready { IsReady arena.now pass.old }
    requires two { IsWideOfTwo arena.now.shape 0 }
    ensures ready { IsReady arena.now pass.new }
    ensures items { result ≡ Unit → AddsTakesAnd 5 pass.old pass.new }
{
    call::<u128, R>(rt, arena, pass, 0, &Call::Store(value))
}

/// Loads with at most one take. Where the last stamp is found first and the lock is got, that is five items; where 1 is
/// found first and then again, two.
pub(crate) fn load_once(arena: &Arena, pass: &mut Pass, object: u32) -> Option<Reply>
    requires ready { IsReady arena.now pass.old }
    requires two { IsWideOfTwo arena.now.shape object }
    ensures ready { IsReady arena.now pass.new }
    ensures made { IfSome result (λ r. BeginsWith last_stamp pass.old pass.new → Adds 5 pass.old pass.new) }
    ensures none { IfNone result (BeginsWith 1 pass.old pass.new → Adds 2 pass.old pass.new) }
{
    try_call::<u128>(arena, pass, object, &Call::Load)
}

/// Stores with one take: six items where the lock is got, and else the take alone.
pub(crate) fn store_once(arena: &Arena, pass: &mut Pass, object: u32, value: u128) -> Option<Reply>
    requires ready { IsReady arena.now pass.old }
    requires two { IsWideOfTwo arena.now.shape object }
    ensures ready { IsReady arena.now pass.new }
    ensures made { IfSome result (λ r. r ≡ Unit → Adds 6 pass.old pass.new) }
    ensures none { IfNone result (Adds 1 pass.old pass.new) }
{
    try_call::<u128>(arena, pass, object, &Call::Store(value))
}

/// Takes the lock of an object, and stops: the pass is dropped. Whether it got the lock.
pub(crate) fn take_and_stop(arena: &Arena, pass: Pass, object: u32) -> bool
    requires ready { IsReady arena.now pass }
    requires two { IsWideOfTwo arena.now.shape object }
{
    let mut pass = pass;
    try_take(arena, &mut pass, object)
}

/// Begins a glance at object 0, and stops: the pass is dropped. The stamp that it found.
pub(crate) fn glance_and_stop(arena: &Arena, pass: Pass) -> Result<u64, Missed>
    requires ready { IsReady arena.now pass }
    requires wide { IsWide arena.now.shape 0 }
{
    let mut pass = pass;
    glance_begin(arena, &mut pass, 0)
}
