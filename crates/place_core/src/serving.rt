//! Which step on a word makes a call.

ghost use Rattle.std.specs.Prelude.{◌≡◌, ◌↔◌, ◌+◌, ◌<◌, ◌≤◌, ◌==◌, ◌&&◌, not, length, map, IsTrue};
ghost use Rattle.op_table.specs.Kind.{bits_of};
ghost use Rattle.op_table.specs.Call.{CallFits};
ghost use Rattle.place_core.specs.WordSums.{lies_in, lanes_in};
ghost use Rattle.place_core.specs.Shapes.{kind_of, strip_of, is_sole, IsShape};
ghost use Rattle.place_core.specs.Operations.{only_if, is_top, op_for, OpServes, has_step};

use crate::lanes::{bit_at, inside, raised, raised_in_ones};
use crate::places::{Object, Place, WordOp};
use crate::shape::Shape;
use op_table::{Call, Kind, StepSet};

fn only_if(allowed: bool, op: WordOp) -> Option<WordOp>
    ensures { result ≡ only_if allowed op }
{
    if allowed { Some(op) } else { None }
}

/// The step that makes a call on a lane, where there is one: the lane's lowest bit, its bits, and whether no other
/// lane is in its word. It may be one that a target hasn't.
#[inline(always)]
pub fn op_for(kind: Kind, shift: u32, width: u32, sole: bool, call: &Call) -> Option<WordOp>
    requires width { width ≡ bits_of kind.width }
    requires ends { shift + width ≤ 64 }
    requires fits { CallFits kind call.now }
    ensures { result ≡ op_for kind shift width sole call.now }
{
    let top = shift + width == 64;
    let ordered = sole && top && !kind.signed;
    match call {
        Call::Load => Some(WordOp::Load),
        Call::Store(a) => only_if(sole, WordOp::Store(raised(*a, shift, width))),
        Call::Swap(a) => only_if(sole, WordOp::Swap(raised(*a, shift, width))),
        Call::Cas(e, n) => only_if(
            sole,
            WordOp::Cas(raised(*e, shift, width), raised(*n, shift, width)),
        ),
        Call::CasWeak(e, n) => only_if(
            sole,
            WordOp::Cas(raised(*e, shift, width), raised(*n, shift, width)),
        ),
        Call::Add(a, _) | Call::AddFetch(a) => only_if(top, WordOp::Add(raised(*a, shift, width))),
        Call::Sub(a, _) | Call::SubFetch(a) => only_if(top, WordOp::Sub(raised(*a, shift, width))),
        Call::And(a, _) | Call::AndFetch(a) => Some(WordOp::And(raised_in_ones(*a, shift, width))),
        Call::Nand(_) | Call::NandFetch(_) => None,
        Call::Or(a, _) | Call::OrFetch(a) => Some(WordOp::Or(raised(*a, shift, width))),
        Call::Xor(a, _) | Call::XorFetch(a) => Some(WordOp::Xor(raised(*a, shift, width))),
        Call::Max(a) => only_if(ordered, WordOp::Max(raised(*a, shift, width))),
        Call::Min(a) => only_if(ordered, WordOp::Min(raised(*a, shift, width))),
        Call::Not(_) => Some(WordOp::Xor(inside(shift, width))),
        Call::Neg(_) => None,
        Call::BitSet(p) => Some(WordOp::Or(bit_at(*p, shift, width))),
        Call::BitClear(p) => Some(WordOp::And(u64::MAX - bit_at(*p, shift, width))),
        Call::BitToggle(p) => Some(WordOp::Xor(bit_at(*p, shift, width))),
    }
}

fn lies_in(word: u32, place: Place) -> bool
    ensures { result ≡ lies_in word (strip_of place) }
{
    match place {
        Place::Lane { word: own, .. } => own == word,
        Place::Parts { .. } => false,
    }
}

#[tactic(auto, unfolding(crate::specs::WordSums::lanes_in))]
fn lanes_in(objects: &[Object], word: u32) -> usize
    ensures { result ≡ lanes_in (map (λ a. strip_of a.place) objects.now) word }
{
    let mut count = 0;
    let mut rest = objects;
    'objects: while let [first, after @ ..] = rest {
        if lies_in(word, first.place) {
            count += 1;
        }
        rest = after;
    }
    count
}

/// Whether a data word has one lane. It looks at every object.
pub fn is_sole(shape: &Shape, word: u32) -> bool
    ensures { result ≡ is_sole shape.now word }
{
    lanes_in(shape.objects.as_slice(), word) == 1
}

/// Whether the words of a target have a step.
#[inline(always)]
pub fn has_step(steps: StepSet, op: &WordOp) -> bool
    ensures { result ≡ has_step steps op.now }
{
    match op {
        WordOp::Load => true,
        WordOp::Store(_) => true,
        WordOp::Swap(_) => steps.swap,
        WordOp::Cas(_, _) => true,
        WordOp::Add(_) => steps.add,
        WordOp::Sub(_) => steps.add,
        WordOp::And(_) => steps.bits,
        WordOp::Or(_) => steps.bits,
        WordOp::Xor(_) => steps.bits,
        WordOp::Max(_) => steps.order,
        WordOp::Min(_) => steps.order,
    }
}

/// Whether the object has a lane and the step is the one that makes the call there, whatever steps the target has.
pub fn op_serves(shape: &Shape, object: u32, call: &Call, op: &WordOp) -> bool
    requires shape { IsShape shape.now }
    requires object { object < length shape.now.objects }
    requires fits { CallFits (kind_of shape.now object) call.now }
    ensures { IsTrue result ↔ OpServes shape.now object call.now op.now }
{
    let object = shape.objects.at(object as usize);
    match object.place {
        Place::Lane { word, shift, width } => {
            op_for(object.kind, shift, width, is_sole(shape, word), call) == Some(*op)
        }
        Place::Parts { .. } => false,
    }
}
