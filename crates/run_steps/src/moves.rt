//! Moves: the calls that a state allows, and what they change.

ghost use Rattle.std.specs.Prelude.{◌≡◌, ◌<◌, length, Some};
ghost use Rattle.run_steps.specs.Standing.{shared_word, weak_word, reply_number};
ghost use Rattle.run_steps.specs.Steps.{lies_at, moves_word, expects};

use op_table::{Call, Reply};
use place_core::{Line, Place, Shape, is_sole};

/// A call that is made: by a thread, counted from 0, its call of that number, on an object that had a value, with its reply,
/// and the value that it leaves.
#[derive(Clone, Copy, Debug)]
pub struct Move {
    pub thread: u32,
    pub place: u32,
    pub object: u32,
    pub value: u128,
    pub told: Reply,
    pub left: u128,
}

/// The word of a lane that shares it.
fn shared_word(shape: &Shape, place: &Place) -> Option<u32>
    ensures { result ≡ shared_word shape.now (Some place.now) }
{
    match place {
        Place::Lane { word, .. } => {
            if is_sole(shape, *word) {
                None
            } else {
                Some(*word)
            }
        }
        Place::Parts { .. } => None,
    }
}

/// The shared word of a weak exchange.
pub fn weak_word(shape: &Shape, line: &Line) -> Option<u32>
    requires { line.now.object < length shape.now.objects }
    ensures { result ≡ weak_word shape.now (Some line.now) }
{
    match line.call {
        Call::CasWeak(_, _) => shared_word(shape, &shape.objects.at(line.object as usize).place),
        Call::Load
        | Call::Store(_)
        | Call::Swap(_)
        | Call::Cas(_, _)
        | Call::Add(_, _)
        | Call::Sub(_, _)
        | Call::And(_, _)
        | Call::Nand(_)
        | Call::Or(_, _)
        | Call::Xor(_, _)
        | Call::Max(_)
        | Call::Min(_)
        | Call::Not(_)
        | Call::Neg(_)
        | Call::BitSet(_)
        | Call::BitClear(_)
        | Call::BitToggle(_)
        | Call::AddFetch(_)
        | Call::SubFetch(_)
        | Call::AndFetch(_)
        | Call::NandFetch(_)
        | Call::OrFetch(_)
        | Call::XorFetch(_) => None,
    }
}

/// Whether a place lies in the word that is meant.
fn lies_at(word: Option<u32>, place: &Place) -> bool
    ensures { result ≡ lies_at word (Some place.now) }
{
    match word {
        Some(meant) => match place {
            Place::Lane { word, .. } => *word == meant,
            Place::Parts { .. } => false,
        },
        None => false,
    }
}

/// Whether a move changes the word that is meant.
pub fn moves_word(shape: &Shape, word: Option<u32>, step: &Move) -> bool
    requires { step.now.object < length shape.now.objects }
    ensures { result ≡ moves_word shape.now word step.now }
{
    lies_at(word, &shape.objects.at(step.object as usize).place) && !(step.left == step.value)
}

/// Whether a call is a weak exchange that expects the value.
pub fn expects(call: &Call, value: u128) -> bool
    ensures { result ≡ expects call.now value }
{
    match call {
        Call::CasWeak(expected, _) => *expected == value,
        Call::Load
        | Call::Store(_)
        | Call::Swap(_)
        | Call::Cas(_, _)
        | Call::Add(_, _)
        | Call::Sub(_, _)
        | Call::And(_, _)
        | Call::Nand(_)
        | Call::Or(_, _)
        | Call::Xor(_, _)
        | Call::Max(_)
        | Call::Min(_)
        | Call::Not(_)
        | Call::Neg(_)
        | Call::BitSet(_)
        | Call::BitClear(_)
        | Call::BitToggle(_)
        | Call::AddFetch(_)
        | Call::SubFetch(_)
        | Call::AndFetch(_)
        | Call::NandFetch(_)
        | Call::OrFetch(_)
        | Call::XorFetch(_) => false,
    }
}

/// Half 0 of a reply is what it is, from 1 on, and half 1 its value.
pub fn reply_number(half: usize, told: &Reply) -> u128
    ensures { result ≡ reply_number half (Some told.now) }
{
    let tag = half == 0;
    match told {
        Reply::Unit => { if tag { 1 } else { 0 } }
        Reply::Value(value) => { if tag { 2 } else { *value } }
        Reply::Bit(bit) => {
            if tag {
                3
            } else if *bit {
                1
            } else {
                0
            }
        }
        Reply::Done(value) => { if tag { 4 } else { *value } }
        Reply::Failed(value) => { if tag { 5 } else { *value } }
    }
}
