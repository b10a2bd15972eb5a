//! Which shapes are valid.

ghost use Rattle.std.specs.Prelude.{◌≡◌, ◌↔◌, ◌<◌, ◌≤◌, ◌/◌, ◌%◌, ◌^◌, ℕ, true, nat_le, length, slice_get, slice_index, IsTrue};
ghost use Rattle.std.specs.List.{All, AllByRecursion};
ghost use Rattle.op_table.specs.Kind.{bits_of};
ghost use Rattle.place_core.specs.Shapes.{IsPlaced, IsInSection, IsShape};
ghost use Rattle.place_core.specs.Validity.{IsSized, IsObject, span_of, span_in, spans_of, IsSpan, AllApart, IsFree, AreFree, IsBehind, is_before, are_in_row};

use crate::places::{Object, Place};
use crate::shape::Shape;
use op_table::{Call, Kind, MOST_LOCKS, bits, call_fits, kind_ok};

/// The most objects of a shape.
pub const MOST_IN_SHAPE: usize = 65_536;

/// How many objects are compared at a time with those behind them.
const CHUNK: usize = 2048;

fn is_sized(shape: &Shape) -> bool
    ensures { IsTrue result ↔ IsSized shape.now }
{
    (shape.word_bits == 32 || shape.word_bits == 64)
        && shape.words <= 16777216
        && 1 <= shape.locks
        && shape.locks <= MOST_LOCKS
        && shape.objects.len() <= MOST_IN_SHAPE
}

fn is_placed(shape: &Shape, kind: Kind, place: Place) -> bool
    requires sized { IsSized shape.now }
    ensures { IsTrue result ↔ IsPlaced shape.now kind place }
{
    match place {
        Place::Lane { word, shift, width } => {
            width == bits(kind.width) && shift as u64 + width as u64 <= 64 && word < shape.words
        }
        Place::Parts {
            lock,
            first,
            parts,
            part_bits,
        } => {
            part_bits == shape.word_bits
                && parts == (bits(kind.width) + part_bits - 1) / part_bits
                && first as u64 + parts as u64 <= shape.words as u64
                && lock < shape.locks
        }
    }
}

fn is_in_section(place: Place) -> bool
    ensures { IsTrue result ↔ IsInSection place }
{
    match place {
        Place::Lane { .. } => false,
        Place::Parts { lock, .. } => lock == 0,
    }
}

fn is_object(shape: &Shape, object: &Object) -> bool
    requires sized { IsSized shape.now }
    ensures { IsTrue result ↔ IsObject shape.now object.now }
{
    kind_ok(object.kind)
        && call_fits(object.kind, &Call::Store(object.start))
        && is_placed(shape, object.kind, object.place)
        && (!shape.section || is_in_section(object.place))
}

fn are_objects(shape: &Shape, objects: &[Object]) -> bool
    requires sized { IsSized shape.now }
    ensures { IsTrue result ↔ AllByRecursion (IsObject shape.now) objects.now }
{
    let mut rest = objects;
    'objects: while let [first, after @ ..] = rest {
        if !is_object(shape, first) {
            return false;
        }
        rest = after;
    }
    true
}

/// The bits of a place, as one number: the first bit, counted over all data words, in the high half, and the bit
/// after the last in the low half. So numbers are in the order of first bits.
#[tactic(auto, using(crate::proofs::ShapeTests::is_span))]
fn span(shape: &Shape, object: &Object) -> u64
    requires object { IsObject shape.now object.now }
    requires sized { IsSized shape.now }
    ensures value { result ≡ span_of object.now.place }
    ensures span { IsSpan result }
{
    let (first, end) = match object.place {
        Place::Lane { word, shift, width } => {
            let first = word as u64 * 64 + shift as u64;
            (first, first + width as u64)
        }
        Place::Parts { first, parts, .. } => (
            first as u64 * 64,
            (first as u64 + parts as u64) * 64,
        ),
    };
    first * 4294967296 + end
}

fn put_spans(shape: &Shape, objects: &[Object], spans: &mut [u64])
    requires objects { AllByRecursion (IsObject shape.now) objects.now }
    requires sized { IsSized shape.now }
    requires same { length spans.old ≡ length objects.now }
    ensures same { length spans.new ≡ length objects.now }
    ensures filled { (k : ℕ) → k < length objects.now → slice_index spans.new k ≡ span_in (slice_get objects.now k) }
{
    let mut i = 0;
    'objects: while i < objects.len() {
        spans[i] = span(shape, &objects[i]);
        i += 1;
    }
}

/// Whether one span ends before another begins.
fn ends_before(span: u64, next: u64) -> bool
    ensures { result ≡ nat_le (span % 2 ^ 32) (next / 2 ^ 32) }
{
    span % 4294967296 <= next / 4294967296
}

fn is_before(span: u64, after: &[u64]) -> bool
    ensures { result ≡ is_before span after.now }
{
    match after {
        [] => true,
        [next, ..] => ends_before(span, *next),
    }
}

fn are_in_row(spans: &[u64]) -> bool
    ensures { result ≡ are_in_row spans.now }
{
    let mut rest = spans;
    'spans: while let [first, after @ ..] = rest {
        if !is_before(*first, after) {
            return false;
        }
        rest = after;
    }
    true
}

fn is_behind(span: u64, below: &[u64]) -> bool
    ensures { IsTrue result ↔ IsBehind span below.now }
{
    match below {
        [] => true,
        [.., last] => ends_before(*last, span),
    }
}

/// Whether a span shares no bit with any of a row: it lies between two neighbours.
fn is_free(span: u64, row: &[u64]) -> bool
    requires span { IsSpan span }
    requires spans { All IsSpan row.now }
    requires row { are_in_row row.now ≡ true }
    ensures { IsTrue result ↔ IsFree span row.now }
{
    match row.binary_search(&span) {
        Ok(_) => false,
        Err(at) => {
            let (below, above) = row.split_at(at);
            is_behind(span, below) && is_before(span, above)
        }
    }
}

fn are_free(shape: &Shape, objects: &[Object], row: &[u64]) -> bool
    requires objects { AllByRecursion (IsObject shape.now) objects.now }
    requires sized { IsSized shape.now }
    requires spans { All IsSpan row.now }
    requires row { are_in_row row.now ≡ true }
    ensures { IsTrue result ↔ AreFree objects.now row.now }
{
    let mut rest = objects;
    'objects: while let [first, after @ ..] = rest {
        if !is_free(span(shape, first), row) {
            return false;
        }
        rest = after;
    }
    true
}

/// Whether no two objects of a chunk share a bit, and none shares one with those behind the chunk. The spans of the
/// chunk are sorted in a local table, 16 KiB of stack, since no memory may be asked for.
fn is_chunk_apart(shape: &Shape, chunk: &[Object], others: &[Object]) -> bool
    requires chunk { AllByRecursion (IsObject shape.now) chunk.now }
    requires others { AllByRecursion (IsObject shape.now) others.now }
    requires sized { IsSized shape.now }
    requires few { length chunk.now ≤ 2048 }
    ensures { IsTrue result ↔ (AllApart chunk.now × AreFree others.now (spans_of chunk.now)) }
{
    let mut room = [0u64; CHUNK];
    let spans = &mut room[..chunk.len()];
    put_spans(shape, chunk, spans);
    spans.sort_unstable();
    are_in_row(spans) && are_free(shape, others, spans)
}

fn rises(shape: &Shape, first: &Object, after: &[Object]) -> bool
    requires first { IsObject shape.now first.now }
    requires after { AllByRecursion (IsObject shape.now) after.now }
    requires sized { IsSized shape.now }
    ensures { result ≡ is_before (span_of first.now.place) (spans_of after.now) }
{
    match after {
        [] => true,
        [next, ..] => ends_before(span(shape, first), span(shape, next)),
    }
}

/// Whether each object ends before the next begins, as those do that are laid in declared order.
fn are_rising(shape: &Shape, objects: &[Object]) -> bool
    requires objects { AllByRecursion (IsObject shape.now) objects.now }
    requires sized { IsSized shape.now }
    ensures { result ≡ are_in_row (spans_of objects.now) }
{
    let mut rest = objects;
    'objects: while let [first, after @ ..] = rest {
        if !rises(shape, first, after) {
            return false;
        }
        rest = after;
    }
    true
}

/// Whether no two objects share a bit: a look along them where they rise, else chunk by chunk.
fn are_apart(shape: &Shape, objects: &[Object]) -> bool
    requires objects { AllByRecursion (IsObject shape.now) objects.now }
    requires sized { IsSized shape.now }
    ensures { IsTrue result ↔ AllApart objects.now }
{
    if are_rising(shape, objects) {
        return true;
    }
    let mut rest = objects;
    'chunks: while !rest.is_empty() {
        let (chunk, others) = rest.split_at(rest.len().min(CHUNK));
        if !is_chunk_apart(shape, chunk, others) {
            return false;
        }
        rest = others;
    }
    true
}

/// Whether the shape is valid: its words, locks and objects are within their limits, each object is of a kind, with a
/// start and a place that fit it, and no two share a bit. It takes a few steps an object where each lies behind the one
/// before, else n log n steps for n objects up to 2,048, and for more as many searches of an object among 2,048 as there
/// are objects and chunks of 2,048 before them. It asks for no memory, and has 16 KiB of stack.
#[tactic(auto, using(crate::proofs::ShapeTests::sizes, crate::proofs::ShapeTests::objects_fit))]
pub fn shape_ok(shape: &Shape) -> bool
    ensures { IsTrue result ↔ IsShape shape.now }
{
    let objects = shape.objects.as_slice();
    if !is_sized(shape) {
        return false;
    }
    if !are_objects(shape, objects) {
        return false;
    }
    are_apart(shape, objects)
}
