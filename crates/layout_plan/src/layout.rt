//! The shape of declared objects on a target.

ghost use Rattle.std.specs.Prelude.{◌≡◌, ◌↔◌, ◌≤◌, ◌*◌, ◌%◌, ◌^◌, true, length, IsTrue, IfOk, IfErr, ◌<◌};
ghost use Rattle.target_desc.specs.Target.{IsTarget};
ghost use Rattle.place_core.specs.Shapes.{IsShape, most_in_shape};
ghost use Rattle.place_core.specs.DeclaredObjects.{IsDeclared};
ghost use Rattle.layout_plan.specs.Layout.{AreDeclared, word_bytes, alignment_of, next_address, has_lane, packed_shift, shift_at, place_at, laid_at, words_for, shape_of};

use op_table::{Call, Kind, NoMemory, bits, bytes, call_fits, kind_ok};
use place_core::{Declared, Object, Objects, Place, Shape};
use std::alloc::Global;
use target_desc::Target;

fn word_bytes(target: &Target) -> u32
    ensures { result ≡ word_bytes target.now }
{
    target.word_bits / 8
}

fn alignment(target: &Target, kind: Kind) -> u32
    ensures { result ≡ alignment_of target.now kind }
{
    if target.packed {
        bytes(kind)
    } else {
        bytes(kind).max(word_bytes(target))
    }
}

/// The address in bytes of an object that is placed next, where `after` is the place after the last object: first 0,
/// then each address plus its object's bytes. So all addresses are told in one walk.
pub fn next_address(target: &Target, after: u32, kind: Kind) -> u32
    requires target { IsTarget target.now }
    requires room { after ≤ 4194304 }
    ensures { result ≡ next_address target.now after kind }
{
    let alignment = alignment(target, kind);
    (after + alignment - 1) / alignment * alignment
}

/// Whether the objects of a kind have lanes: the kind's width is at most a word's, and the target isn't one on which
/// each call is a critical section.
pub fn has_lane(target: &Target, kind: Kind) -> bool
    ensures { result ≡ has_lane target.now kind }
{
    !target.section && bits(kind.width) <= target.word_bits
}

/// The lowest bit of a lane where objects share words. The one place that says how bytes lie in a word.
#[tactic(auto, using(crate::proofs::Seating::fits_word))]
fn packed_shift(target: &Target, kind: Kind, address: u32) -> u32
    requires target { IsTarget target.now }
    requires packed { target.now.packed ≡ true }
    requires lane { has_lane target.now kind ≡ true }
    requires aligned { address % alignment_of target.now kind ≡ 0 }
    ensures { result ≡ packed_shift target.now kind address }
{
    let before = 8 * (address % word_bytes(target));
    if target.big {
        64 - before - 8 * bytes(kind)
    } else {
        64 - target.word_bits + before
    }
}

/// The lowest bit of a lane. Where objects don't share words, each is at the top of its own.
fn shift_at(target: &Target, kind: Kind, address: u32) -> u32
    requires target { IsTarget target.now }
    requires lane { has_lane target.now kind ≡ true }
    requires aligned { address % alignment_of target.now kind ≡ 0 }
    ensures { result ≡ shift_at target.now kind address }
{
    if target.packed {
        packed_shift(target, kind, address)
    } else {
        64 - bits(kind.width)
    }
}

/// Where an object of a kind lies whose first byte is at an address, which is aligned: a multiple of the kind's bytes,
/// and of a word's where nothing is packed. It has a lane where `has_lane` holds, else parts.
pub fn place_at(target: &Target, kind: Kind, address: u32) -> Place
    requires target { IsTarget target.now }
    requires aligned { address % alignment_of target.now kind ≡ 0 }
    ensures { result ≡ place_at target.now kind address }
{
    let width = bits(kind.width);
    let word = address / word_bytes(target);
    if has_lane(target, kind) {
        let shift = shift_at(target, kind, address);
        Place::Lane { word, shift, width }
    } else {
        Place::Parts {
            lock: address % target.locks,
            first: word,
            parts: (width + target.word_bits - 1) / target.word_bits,
            part_bits: target.word_bits,
        }
    }
}

fn laid_at(target: &Target, declared: &Declared, address: u32) -> Object
    requires target { IsTarget target.now }
    requires aligned { address % alignment_of target.now declared.now.kind ≡ 0 }
    ensures { result ≡ laid_at target.now declared.now address }
{
    Object {
        kind: declared.kind,
        place: place_at(target, declared.kind, address),
        start: declared.start,
    }
}

/// How many words hold so many bytes: the words of a shape, where the place after its last object is at `bytes`. A
/// shape has at most 2^24 words, so at most 2^27 bytes.
pub fn words_for(target: &Target, bytes: u32) -> u32
    requires target { IsTarget target.now }
    requires few { bytes ≤ 2 ^ 27 }
    ensures { result ≡ words_for target.now bytes }
{
    let size = word_bytes(target);
    (bytes + size - 1) / size
}

fn is_declared(object: &Declared) -> bool
    ensures { IsTrue result ↔ IsDeclared object.now }
{
    kind_ok(object.kind) && call_fits(object.kind, &Call::Store(object.start))
}

/// Whether each object is of a kind, and begins with a value of it.
pub fn are_declared(objects: &[Declared]) -> bool
    ensures { IsTrue result ↔ AreDeclared objects.now }
{
    let mut rest = objects;
    'objects: while let [first, others @ ..] = rest {
        if !is_declared(first) {
            return false;
        }
        rest = others;
    }
    true
}

/// The shape of objects on a target, which is a valid one. It takes as many steps as there are objects, and no memory
/// where there are none.
pub fn lay(alloc: Global, target: &Target, objects: &[Declared]) -> Result<Shape, NoMemory>
    requires target { IsTarget target.now }
    requires objects { AreDeclared objects.now }
    requires most { length objects.now ≤ most_in_shape }
    ensures layout { IfOk result (λ s. s ≡ shape_of target.now objects.now) }
    ensures valid { IfOk result (λ s. IsShape s) }
    ensures some { IfErr result (λ _. 0 < length objects.now) }
{
    let mut laid = Vec::new(alloc);
    let mut after = 0;
    let mut rest = objects;
    'objects: while let [first, others @ ..] = rest {
        let address = next_address(target, after, first.kind);
        laid.push(laid_at(target, first, address))
            .map_err(|_| NoMemory)?;
        after = address + bytes(first.kind);
        rest = others;
    }
    Ok(Shape {
        word_bits: target.word_bits,
        steps: target.steps,
        section: target.section,
        words: words_for(target, after),
        locks: target.locks,
        objects: Objects::of(laid),
    })
}
