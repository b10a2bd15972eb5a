//! The words of a description, each both ways.

ghost use Rattle.std.specs.Prelude.{◌≡◌};
ghost use Rattle.target_desc.specs.Fields.{bits_of, packed_of, packed_word, steps_of, steps_word, locks_of, section_of, section_word, big_of};

use crate::target::suits_section;
use op_table::{Class, Kind, MOST_LOCKS, StepSet, Width, read_value};

/// Word 1: the bits of a word.
pub(crate) fn bits_of(word: &[u8]) -> Option<u32>
    ensures { result ≡ bits_of word.now }
{
    if word == b"32".as_slice() {
        Some(32)
    } else if word == b"64".as_slice() {
        Some(64)
    } else {
        None
    }
}

/// Word 2: whether objects are packed.
pub(crate) fn packed_of(word: &[u8]) -> Option<bool>
    ensures { result ≡ packed_of word.now }
{
    if word == b"packed".as_slice() {
        Some(true)
    } else if word == b"apart".as_slice() {
        Some(false)
    } else {
        None
    }
}

/// The word of a target that is packed, or isn't.
pub(crate) fn packed_word(packed: bool) -> &'static str
    ensures { result.now ≡ packed_word packed }
{
    if packed { "packed" } else { "apart" }
}

fn step_set(swap: bool, add: bool, bits: bool, order: bool) -> StepSet
    ensures { result ≡ record { swap = swap; add = add; bits = bits; order = order } }
{
    StepSet {
        swap,
        add,
        bits,
        order,
    }
}

/// Word 3: the steps.
#[tactic(auto, unfolding(crate::specs::Fields::steps_of))]
pub(crate) fn steps_of(word: &[u8]) -> Option<StepSet>
    ensures { result ≡ steps_of word.now }
{
    if word == b"none".as_slice() {
        Some(step_set(false, false, false, false))
    } else if word == b"order".as_slice() {
        Some(step_set(false, false, false, true))
    } else if word == b"bits".as_slice() {
        Some(step_set(false, false, true, false))
    } else if word == b"bits+order".as_slice() {
        Some(step_set(false, false, true, true))
    } else if word == b"add".as_slice() {
        Some(step_set(false, true, false, false))
    } else if word == b"add+order".as_slice() {
        Some(step_set(false, true, false, true))
    } else if word == b"add+bits".as_slice() {
        Some(step_set(false, true, true, false))
    } else if word == b"add+bits+order".as_slice() {
        Some(step_set(false, true, true, true))
    } else if word == b"swap".as_slice() {
        Some(step_set(true, false, false, false))
    } else if word == b"swap+order".as_slice() {
        Some(step_set(true, false, false, true))
    } else if word == b"swap+bits".as_slice() {
        Some(step_set(true, false, true, false))
    } else if word == b"swap+bits+order".as_slice() {
        Some(step_set(true, false, true, true))
    } else if word == b"swap+add".as_slice() {
        Some(step_set(true, true, false, false))
    } else if word == b"swap+add+order".as_slice() {
        Some(step_set(true, true, false, true))
    } else if word == b"swap+add+bits".as_slice() {
        Some(step_set(true, true, true, false))
    } else if word == b"swap+add+bits+order".as_slice() {
        Some(step_set(true, true, true, true))
    } else {
        None
    }
}

/// The word of a set of steps.
pub(crate) fn steps_word(steps: StepSet) -> &'static str
    ensures { result.now ≡ steps_word steps }
{
    match (steps.swap, steps.add, steps.bits, steps.order) {
        (false, false, false, false) => "none",
        (false, false, false, true) => "order",
        (false, false, true, false) => "bits",
        (false, false, true, true) => "bits+order",
        (false, true, false, false) => "add",
        (false, true, false, true) => "add+order",
        (false, true, true, false) => "add+bits",
        (false, true, true, true) => "add+bits+order",
        (true, false, false, false) => "swap",
        (true, false, false, true) => "swap+order",
        (true, false, true, false) => "swap+bits",
        (true, false, true, true) => "swap+bits+order",
        (true, true, false, false) => "swap+add",
        (true, true, false, true) => "swap+add+order",
        (true, true, true, false) => "swap+add+bits",
        (true, true, true, true) => "swap+add+bits+order",
    }
}

/// Word 4: the number of locks.
pub(crate) fn locks_of(word: &[u8]) -> Option<u32>
    ensures { result ≡ locks_of word.now }
{
    let kind = Kind {
        width: Width::W32,
        signed: false,
        class: Class::Int,
    };
    match read_value(kind, word) {
        Ok(locks) if 1 <= locks && locks <= u128::from(MOST_LOCKS) => Some(locks as u32),
        _ => None,
    }
}

/// Word 5: whether calls are critical sections, where the earlier words suit it.
pub(crate) fn section_of(packed: bool, steps: StepSet, locks: u32, word: &[u8]) -> Option<bool>
    ensures { result ≡ section_of packed steps locks word.now }
{
    if word == b"locks".as_slice() {
        Some(false)
    } else if word == b"section".as_slice() && suits_section(packed, steps, locks) {
        Some(true)
    } else {
        None
    }
}

/// The word of a target whose calls are critical sections, or aren't.
pub(crate) fn section_word(section: bool) -> &'static str
    ensures { result.now ≡ section_word section }
{
    if section { "section" } else { "locks" }
}

/// Word 6, `big`, which only a packed target may have.
pub(crate) fn big_of(packed: bool) -> Option<bool>
    ensures { result ≡ big_of packed }
{
    if packed { Some(true) } else { None }
}
