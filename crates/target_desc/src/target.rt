//! Targets, and the built-in ones, which have names.

ghost use Rattle.std.specs.Prelude.{◌≡◌, ◌↔◌, IsTrue, MatchOption, Some, None, map};
ghost use Rattle.target_desc.specs.Target.{IsTarget, IsOfVersion, suits_section, builtins, builtin_of, same_target, name_of};

use op_table::{MOST_LOCKS, StepSet};

/// A machine: how wide its words are, how objects are placed in them, and what it can do with a word in one step.
/// Every target loads, stores, and compares and exchanges words. Not every combination is one; `target_ok` tells.
#[derive(Clone, Copy, Debug, PartialEq, Eq)]
pub struct Target {
    /// The bits of a word, 32 or 64.
    pub word_bits: u32,
    /// Whether objects share words. Otherwise each has words of its own.
    pub packed: bool,
    /// What else is one step.
    pub steps: StepSet,
    /// The number of locks for objects that a word cannot hold, 1 to 67.
    pub locks: u32,
    /// Whether each call is a critical section: nothing else is one step, and there is one lock.
    pub section: bool,
    /// Whether the lane of the lowest address lies highest in its word, as on a big-endian machine. Only where objects
    /// share words.
    pub big: bool,
}

const NO_STEPS: StepSet = StepSet {
    swap: false,
    add: false,
    bits: false,
    order: false,
};

const ALL_STEPS: StepSet = StepSet {
    swap: true,
    add: true,
    bits: true,
    order: true,
};

/// The built-in targets, each with its name.
const BUILTINS: [(&str, Target); 5] = [
    (
        "full64",
        Target {
            word_bits: 64,
            packed: false,
            steps: ALL_STEPS,
            locks: MOST_LOCKS,
            section: false,
            big: false,
        },
    ),
    (
        "word64",
        Target {
            word_bits: 64,
            packed: true,
            steps: ALL_STEPS,
            locks: MOST_LOCKS,
            section: false,
            big: false,
        },
    ),
    (
        "word32",
        Target {
            word_bits: 32,
            packed: true,
            steps: ALL_STEPS,
            locks: MOST_LOCKS,
            section: false,
            big: false,
        },
    ),
    (
        "cas32",
        Target {
            word_bits: 32,
            packed: true,
            steps: NO_STEPS,
            locks: MOST_LOCKS,
            section: false,
            big: false,
        },
    ),
    (
        "section32",
        Target {
            word_bits: 32,
            packed: false,
            steps: NO_STEPS,
            locks: 1,
            section: true,
            big: false,
        },
    ),
];

/// Whether a section target may have these.
pub(crate) fn suits_section(packed: bool, steps: StepSet, locks: u32) -> bool
    ensures { result ≡ suits_section packed steps locks }
{
    !packed && steps == NO_STEPS && locks == 1
}

/// Whether it is a target: words of 32 or 64 bits, 1 to 67 locks, with a section nothing packed, no steps and one
/// lock, and `big` only where objects are packed.
pub fn target_ok(target: &Target) -> bool
    ensures { IsTrue result ↔ IsTarget target.now }
{
    if target.word_bits != 32 && target.word_bits != 64 {
        return false;
    }
    if target.locks < 1 || MOST_LOCKS < target.locks {
        return false;
    }
    if target.big && !target.packed {
        return false;
    }
    !target.section || suits_section(target.packed, target.steps, target.locks)
}

/// Whether a description of a version, 1 or 2, can say the target: `big` is a word of version 2 only.
pub fn is_of_version(target: &Target, version: u32) -> bool
    ensures { IsTrue result ↔ IsOfVersion version target.now }
{
    !target.big || version == 2
}

/// The built-in targets, each with its name.
pub fn builtins() -> &'static [(&'static str, Target)]
    ensures { map (λ row. (row.0.now, row.1)) result.now ≡ builtins }
{
    &BUILTINS
}

/// The target with a name. None: it is the name of none of the built-in targets.
pub fn builtin(name: &[u8]) -> Option<Target>
    ensures { result ≡ builtin_of name.now }
{
    for row in builtins() {
        if name == row.0.as_bytes() {
            return Some(row.1);
        }
    }
    None
}

fn same_target(a: &Target, b: &Target) -> bool
    ensures { result ≡ same_target a.now b.now }
{
    a == b
}

/// The name of a target. None: it is none of the built-in ones.
pub(crate) fn name_of(target: &Target) -> Option<&'static str>
    ensures { MatchOption result (name_of target.now ≡ None) (λ name. name_of target.now ≡ Some name.now) }
{
    for row in builtins() {
        if same_target(target, &row.1) {
            return Some(row.0);
        }
    }
    None
}
