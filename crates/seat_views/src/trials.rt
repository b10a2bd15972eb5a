//! Helpers of the tests: arenas, and whole calls of a few steps.

ghost use Rattle.std.specs.Prelude.{◌≡◌, [], false, length, IfOk, IfSome, MatchBool, ⊤};
ghost use Rattle.op_table.specs.declared.call.Call.TheVariants.{Store};
ghost use Rattle.op_table.specs.Call.{CallFits};
ghost use Rattle.place_core.specs.Shapes.{kind_of};
ghost use Rattle.seat_views.specs.Trials.{IsReady, IsReadyRoot, EndsBoth, HasTwoParts};
ghost use Rattle.seat_views.specs.Places.{parts_of};
ghost use Rattle.seat_views.specs.declared.view.Flight.TheVariants.{Idle, Hold};
ghost use Rattle.seat_views.specs.States.{IsNoteOf};
ghost use Rattle.seat_views.specs.Trials.{IsTaken, HasRead, HasWritten, IsGlanced, HasGlanced, SeesParts};

use crate::lanes::lane_spot;
use crate::{Arena, Note, Pass, Root};
use op_table::{Call, Class, Kind, Reply, StepSet, Width, after, call_fits};
use place_core::{Object, Objects, Path, Place, Shape, lane_bits, part_at, shape_ok};
use std::alloc::{AllocError, Global};
use std::thread::{Threads, join};

const ALL_STEPS: StepSet = StepSet {
    swap: true,
    add: true,
    bits: true,
    order: true,
};

/// An unsigned kind.
pub(crate) fn unsigned(width: Width) -> Kind {
    Kind {
        width,
        signed: false,
        class: Class::Int,
    }
}

/// A shape of words of 64 bits.
pub(crate) fn shape_of(words: u32, objects: Vec<Object>) -> Shape {
    Shape {
        word_bits: 64,
        steps: ALL_STEPS,
        section: false,
        words,
        locks: 3,
        objects: Objects::of(objects),
    }
}

/// The arena of a shape, unless the shape is none or memory is refused.
pub(crate) fn open(alloc: Global, shape: Shape, stamp: u64) -> Option<(Arena, Root)>
    ensures { IfSome result (λ r. IsReadyRoot r.0 r.1) }
{
    if !shape_ok(&shape) || stamp % 2 != 0 {
        return None;
    }
    Arena::open(alloc, shape, stamp).ok()
}

/// An arena of one u64.
pub(crate) fn open_counter(alloc: Global) -> Result<Option<(Arena, Root)>, AllocError>
    ensures { IfOk result (λ r. IfSome r (λ t. IsReadyRoot t.0 t.1)) }
{
    let mut objects = Vec::new(alloc);
    objects.push(Object {
        kind: unsigned(Width::W64),
        place: Place::Lane {
            word: 0,
            shift: 0,
            width: 64,
        },
        start: 0,
    })?;
    Ok(open(alloc, shape_of(1, objects), 0))
}

/// A new pass.
pub(crate) fn give(arena: &Arena, root: &mut Root) -> Option<Pass>
    requires { IsReadyRoot arena.now root.old }
    ensures root { IsReadyRoot arena.now root.new }
    ensures pass { IfSome result (λ p. IsReady arena.now p) }
{
    root.pass(arena).ok()
}

/// A call on a lane in one step; None where there is no such object, call or step.
pub(crate) fn one(arena: &Arena, pass: &mut Pass, object: u32, call: Call) -> Option<Reply>
    requires { IsReady arena.now pass.old }
    ensures { IsReady arena.now pass.new }
{
    if object as usize >= arena.shape().objects.len() {
        return None;
    }
    if !call_fits(arena.shape().objects.at(object as usize).kind, &call) {
        return None;
    }
    match arena.plan(object, &call) {
        Path::One(op) => Some(pass.step_op(arena, object, &call, op)),
        _ => None,
    }
}

/// An arena of two bytes in one word, 250 and above it 7.
pub(crate) fn open_bytes(alloc: Global) -> Result<Option<(Arena, Root)>, AllocError>
    ensures { IfOk result (λ r. IfSome r (λ t. IsReadyRoot t.0 t.1)) }
{
    let mut objects = Vec::new(alloc);
    objects.push(Object {
        kind: unsigned(Width::W8),
        place: Place::Lane {
            word: 0,
            shift: 0,
            width: 8,
        },
        start: 250,
    })?;
    objects.push(Object {
        kind: unsigned(Width::W8),
        place: Place::Lane {
            word: 0,
            shift: 8,
            width: 8,
        },
        start: 7,
    })?;
    Ok(open(alloc, shape_of(1, objects), 0))
}

/// A look at a lane; None where there is no such lane or call.
pub(crate) fn look(
    arena: &Arena,
    pass: &mut Pass,
    object: u32,
    call: Call,
) -> Option<Result<Reply, u64>>
    requires { IsReady arena.now pass.old }
    ensures { IsReady arena.now pass.new }
{
    if object as usize >= arena.shape().objects.len() {
        return None;
    }
    let there = arena.shape().objects.at(object as usize);
    if !call_fits(there.kind, &call) {
        return None;
    }
    match there.place {
        Place::Lane { .. } => Some(pass.step_look(arena, object, &call)),
        Place::Parts { .. } => None,
    }
}

/// A try on a byte's lane from a word found; None where there is no such lane or call.
pub(crate) fn attempt(
    arena: &Arena,
    pass: &mut Pass,
    object: u32,
    call: Call,
    found: u64,
) -> Option<Result<Reply, u64>>
    requires { IsReady arena.now pass.old }
    ensures { IsReady arena.now pass.new }
{
    if object as usize >= arena.shape().objects.len() {
        return None;
    }
    let there = arena.shape().objects.at(object as usize);
    if !call_fits(there.kind, &call) {
        return None;
    }
    match there.place {
        Place::Lane { .. } => {
            let spot = lane_spot(arena, object);
            let new = after(spot.kind, &call, lane_bits(found, spot.shift, spot.width));
            Some(pass.step_try(arena, object, &call, found, new))
        }
        Place::Parts { .. } => None,
    }
}

/// How many passes a root gives one after another, up to so many.
pub(crate) fn give_many(arena: &Arena, root: &mut Root, most: u32) -> u32
    requires { IsReadyRoot arena.now root.old }
    ensures { IsReadyRoot arena.now root.new }
{
    for i in 0..most {
        if give(arena, root).is_none() {
            return i;
        }
    }
    most
}

/// Whether an object has two parts of 64 bits.
fn has_two_parts(arena: &Arena, object: u32) -> bool
    ensures { MatchBool result (HasTwoParts arena.now.shape object) ⊤ }
{
    if object as usize >= arena.shape().objects.len() || arena.shape().word_bits != 64 {
        return false;
    }
    match arena.shape().objects.at(object as usize).place {
        Place::Parts {
            parts,
            part_bits,
            ..
        } => parts == 2 && part_bits == 64,
        Place::Lane { .. } => false,
    }
}

/// A shape of one u128.
pub(crate) fn wide_shape(alloc: Global, start: u128) -> Result<Shape, AllocError> {
    let mut objects = Vec::new(alloc);
    objects.push(Object {
        kind: unsigned(Width::W128),
        place: Place::Parts {
            lock: 2,
            first: 0,
            parts: 2,
            part_bits: 64,
        },
        start,
    })?;
    Ok(shape_of(2, objects))
}

/// An arena of one u128, opened at a stamp.
pub(crate) fn open_wide(
    alloc: Global,
    start: u128,
    stamp: u64,
) -> Result<Option<(Arena, Root)>, AllocError>
    ensures { IfOk result (λ r. IfSome r (λ t. IsReadyRoot t.0 t.1 × HasTwoParts t.0.shape 0)) }
{
    match open(alloc, wide_shape(alloc, start)?, stamp) {
        Some((arena, root)) if has_two_parts(&arena, 0) => Ok(Some((arena, root))),
        _ => Ok(None),
    }
}

#[tactic(auto, using(crate::proofs::LockUses::two_parts, crate::proofs::LockUses::finds_first))]
/// Opens an arena whose first object has two parts, and takes its lock at once. Where the root gets it, it finds the
/// stamp that the arena was opened with.
pub(crate) fn open_held(alloc: Global, shape: Shape, stamp: u64) -> Option<(Arena, Root, bool)>
    ensures { IfSome result (λ r. MatchBool r.2 (r.1.flight ≡ Hold 0 stamp [] false []) (r.1.flight ≡ Idle)) }
{
    if !shape_ok(&shape) || stamp % 2 != 0 {
        return None;
    }
    let (arena, mut root) = Arena::open(alloc, shape, stamp).ok()?;
    if !has_two_parts(&arena, 0) {
        return None;
    }
    let won = root.as_pass().step_take(&arena, 0);
    Some((arena, root, won))
}

#[tactic(auto, using(crate::proofs::LockUses::two_parts, crate::proofs::LockUses::takes))]
/// Takes the lock, if it is free.
pub(crate) fn take(arena: &Arena, pass: &mut Pass) -> bool
    requires ready { IsReady arena.now pass.old }
    requires parts { HasTwoParts arena.now.shape 0 }
    ensures { MatchBool result (IsTaken arena.now 0 pass.new) (IsReady arena.now pass.new) }
{
    pass.step_take(arena, 0)
}

#[tactic(auto, using(crate::proofs::LockUses::two_parts, crate::proofs::LockUses::moved_of, crate::proofs::LockUses::clean_taken, crate::proofs::LockUses::clean_read, crate::proofs::LockUses::reads_both))]
/// Reads both parts under the lock.
pub(crate) fn read_both(arena: &Arena, pass: &mut Pass)
    requires taken { IsTaken arena.now 0 pass.old }
    requires parts { HasTwoParts arena.now.shape 0 }
    ensures { HasRead arena.now 0 pass.new }
{
    pass.step_held(arena, 0, 0);
    pass.step_held(arena, 0, 1);
}

#[tactic(auto, using(crate::proofs::LockUses::two_parts, crate::proofs::LockUses::moved_of, crate::proofs::LockUses::holds_read, crate::proofs::LockUses::holds_put, crate::proofs::LockUses::puts_both))]
/// Writes both parts of a value.
pub(crate) fn write_both(arena: &Arena, pass: &mut Pass, value: u128)
    requires read { HasRead arena.now 0 pass.old }
    requires parts { HasTwoParts arena.now.shape 0 }
    ensures { HasWritten arena.now 0 value pass.new }
{
    pass.step_put(arena, 0, 0, part_at(64, 0, value));
    pass.step_put(arena, 0, 1, part_at(64, 1, value));
}

#[tactic(auto, using(crate::proofs::LockUses::two_parts, crate::proofs::LockUses::may_load, crate::proofs::LockUses::loaded))]
/// Makes a load by giving the lock up.
pub(crate) fn release_loaded(arena: &Arena, pass: &mut Pass) -> Reply
    requires read { HasRead arena.now 0 pass.old }
    requires parts { HasTwoParts arena.now.shape 0 }
    ensures { IsReady arena.now pass.new }
{
    pass.step_release(arena, 0, &Call::Load)
}

#[tactic(auto, using(crate::proofs::LockUses::two_parts, crate::proofs::LockUses::may_store, crate::proofs::LockUses::loaded))]
/// Makes a store by giving the lock up.
pub(crate) fn release_stored(arena: &Arena, pass: &mut Pass, value: u128) -> Reply
    requires written { HasWritten arena.now 0 value pass.old }
    requires fits { CallFits (kind_of arena.now.shape 0) (Store value) }
    requires parts { HasTwoParts arena.now.shape 0 }
    ensures { IsReady arena.now pass.new }
{
    pass.step_release(arena, 0, &Call::Store(value))
}

/// Stores a value under the lock; None where the lock is held or the kind hasn't the value.
pub(crate) fn store_wide(arena: &Arena, pass: &mut Pass, value: u128) -> Option<Reply>
    requires ready { IsReady arena.now pass.old }
    requires parts { HasTwoParts arena.now.shape 0 }
    ensures { IsReady arena.now pass.new }
{
    let kind = arena.shape().objects.at(0).kind;
    if !call_fits(kind, &Call::Store(value)) || !take(arena, pass) {
        return None;
    }
    read_both(arena, pass);
    write_both(arena, pass, value);
    Some(release_stored(arena, pass, value))
}

#[tactic(auto, using(crate::proofs::LockUses::two_parts, crate::proofs::LockUses::stamps))]
/// The stamp, and whether a glance began.
pub(crate) fn begin(arena: &Arena, pass: &mut Pass) -> (u64, bool)
    requires ready { IsReady arena.now pass.old }
    requires parts { HasTwoParts arena.now.shape 0 }
    ensures { MatchBool result.1 (IsGlanced arena.now 0 pass.new) (IsReady arena.now pass.new) }
{
    let stamp = pass.step_stamp(arena, 0);
    (stamp, stamp != 1 && stamp != 18446744073709551614)
}

#[tactic(auto, using(crate::proofs::LockUses::two_parts, crate::proofs::LockUses::moved_of, crate::proofs::LockUses::at_glance, crate::proofs::LockUses::at_read, crate::proofs::LockUses::sees_both))]
/// Reads both parts in a glance.
pub(crate) fn see_both(arena: &Arena, pass: &mut Pass)
    requires glance { IsGlanced arena.now 0 pass.old }
    requires parts { HasTwoParts arena.now.shape 0 }
    ensures { HasGlanced arena.now 0 pass.new }
{
    pass.step_part(arena, 0, 0);
    pass.step_part(arena, 0, 1);
}

#[tactic(auto, using(crate::proofs::LockUses::two_parts, crate::proofs::LockUses::glance_read, crate::proofs::LockUses::appended))]
/// Ends a glance.
pub(crate) fn end(arena: &Arena, pass: &mut Pass) -> Result<u128, u64>
    requires glance { HasGlanced arena.now 0 pass.old }
    requires parts { HasTwoParts arena.now.shape 0 }
    ensures { IsReady arena.now pass.new }
{
    pass.step_match(arena, 0)
}

/// The answer of a whole glance, or the stamp at which none began.
pub(crate) fn glance(arena: &Arena, pass: &mut Pass) -> Result<u128, u64>
    requires ready { IsReady arena.now pass.old }
    requires parts { HasTwoParts arena.now.shape 0 }
    ensures { IsReady arena.now pass.new }
{
    let (stamp, began) = begin(arena, pass);
    if !began {
        return Err(stamp);
    }
    see_both(arena, pass);
    end(arena, pass)
}

/// Loads the value under the lock; None where the lock is held.
pub(crate) fn load_wide(arena: &Arena, pass: &mut Pass) -> Option<Reply>
    requires ready { IsReady arena.now pass.old }
    requires parts { HasTwoParts arena.now.shape 0 }
    ensures { IsReady arena.now pass.new }
{
    if !take(arena, pass) {
        return None;
    }
    read_both(arena, pass);
    Some(release_loaded(arena, pass))
}

/// The pass after so many additions of 1, each in one step.
fn add_many(arena: &Arena, pass: Pass, times: u32) -> Pass
    requires { IsReady arena.now pass }
    ensures { IsReady arena.now result }
{
    let mut pass = pass;
    for _ in 0..times {
        one(arena, &mut pass, 0, Call::Add(1, true));
    }
    pass
}

/// Two threads add.
pub(crate) fn add_at_once<R: Threads + Sync>(
    rt: &R,
    arena: &Arena,
    p: Pass,
    q: Pass,
    times: u32,
) -> (Pass, Pass)
    requires { IsReady arena.now p × IsReady arena.now q }
    ensures { IsReady arena.now result.0 × IsReady arena.now result.1 }
{
    join(
        rt,
        move || add_many(arena, p, times),
        move || add_many(arena, q, times),
    )
}

/// The root after it gave a number and took its pass back.
fn give_and_end(arena: &Arena, root: Root) -> Root
    requires { IsReadyRoot arena.now root }
    ensures { IsReadyRoot arena.now result }
{
    let mut root = root;
    if let Some(pass) = give(arena, &mut root) {
        root.take_back(arena, pass);
    }
    root
}

/// The pass after it met a note.
fn hear(arena: &Arena, pass: Pass, note: Note) -> Pass
    requires { IsReady arena.now pass × IsNoteOf arena.now note }
    ensures { IsReady arena.now result }
{
    let mut pass = pass;
    pass.meet(arena, note);
    pass
}

/// One thread has the root, and another a note.
pub(crate) fn hear_at_once<R: Threads + Sync>(
    rt: &R,
    arena: &Arena,
    root: Root,
    pass: Pass,
    note: Note,
) -> (Root, Pass)
    requires { IsReadyRoot arena.now root × IsReady arena.now pass × IsNoteOf arena.now note }
    ensures { IsReadyRoot arena.now result.0 × IsReady arena.now result.1 }
{
    join(
        rt,
        move || give_and_end(arena, root),
        move || hear(arena, pass, note),
    )
}

/// Takes two passes back. Both then stand among those that ended, in this order.
pub(crate) fn end_both(arena: &Arena, root: &mut Root, p: Pass, q: Pass)
    requires root { IsReadyRoot arena.now root.old }
    requires passes { IsReady arena.now p × IsReady arena.now q }
    ensures root { IsReadyRoot arena.now root.new }
    ensures ended { EndsBoth root.old p q root.new }
{
    root.take_back(arena, p);
    root.take_back(arena, q);
}

/// An arena of a u128 in four parts of 32 bits, behind a u64 in two, with one lock.
pub(crate) fn open_quarters(alloc: Global, start: u128) -> Result<Option<(Arena, Root)>, AllocError>
    ensures { IfOk result (λ r. IfSome r (λ t. IsReadyRoot t.0 t.1)) }
{
    let mut objects = Vec::new(alloc);
    objects.push(Object {
        kind: unsigned(Width::W64),
        place: Place::Parts {
            lock: 0,
            first: 0,
            parts: 2,
            part_bits: 32,
        },
        start: 4294967301,
    })?;
    objects.push(Object {
        kind: unsigned(Width::W128),
        place: Place::Parts {
            lock: 0,
            first: 2,
            parts: 4,
            part_bits: 32,
        },
        start,
    })?;
    let mut shape = shape_of(6, objects);
    shape.word_bits = 32;
    Ok(open(alloc, shape, 4))
}

/// How many parts an object has; 0 where it has a lane or there is none.
fn parts_there(arena: &Arena, object: u32) -> u32
    ensures { result ≡ parts_of arena.now.shape object }
{
    if object as usize >= arena.shape().objects.len() {
        return 0;
    }
    match arena.shape().objects.at(object as usize).place {
        Place::Parts { parts, .. } => parts,
        Place::Lane { .. } => 0,
    }
}

/// Reads every part in a glance.
fn see_all(arena: &Arena, pass: &mut Pass, object: u32, parts: u32)
    requires glance { SeesParts arena.now object 0 pass.old }
    requires parts { parts ≡ parts_of arena.now.shape object }
    ensures { SeesParts arena.now object parts pass.new }
{
    for i in 0..parts {
        pass.step_part(arena, object, i);
    }
}

/// A whole glance at an object with any number of parts; None where it has none, or no glance began.
pub(crate) fn glance_at(arena: &Arena, pass: &mut Pass, object: u32) -> Option<Result<u128, u64>>
    requires ready { IsReady arena.now pass.old }
    ensures { IsReady arena.now pass.new }
{
    let parts = parts_there(arena, object);
    if parts == 0 {
        return None;
    }
    let stamp = pass.step_stamp(arena, object);
    if stamp == 1 || stamp == 18446744073709551614 {
        return None;
    }
    see_all(arena, pass, object, parts);
    Some(pass.step_match(arena, object))
}
