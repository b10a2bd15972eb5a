//! Reading a target, with the first fault that is met.

ghost use Rattle.std.specs.Prelude.{◌≡◌, ◌+◌, ◌<◌, ◌^◌, IfOk};
ghost use Rattle.line_words.specs.Text.{words_of};
ghost use Rattle.line_words.specs.Cursor.{Cursor};
ghost use Rattle.line_words.specs.Steps.{Gives};
ghost use Rattle.target_desc.specs.Reading.{cursor_of, word_at, need_at, end_at, big_word_at, big_at, description_at, target_at, reading_of_target};
ghost use Rattle.target_desc.specs.Target.{IsTarget, IsVersion, IsOfVersion};

use crate::fields::{big_of, bits_of, locks_of, packed_of, section_of, steps_of};
use crate::target::{Target, builtin};
use line_words::Words;
use thiserror::Error;

/// Why the words after `target` give no target. Words count from 1, and the word `target` is the first of its line.
#[derive(Clone, Copy, Debug, PartialEq, Eq, Error)]
pub enum TargetFault {
    /// The one word is no name of a target, or a word isn't what its place in a description asks for.
    #[error("word {word} is no part of a target there")]
    Bad { word: u32 },
    /// A word is wanting there. Those before it are as they must be.
    #[error("word {word} is missing")]
    Missing { word: u32 },
    /// A word stands after a whole description, other than `big` after five words in version 2.
    #[error("word {word} is one too many")]
    Extra { word: u32 },
}

/// The words that are left, and how many stand before them. Unlike a `Words` it has no bound on its bytes: few words
/// are taken.
#[derive(Clone, Copy)]
struct Rest<'a> {
    taken: u32,
    text: &'a [u8],
}

impl<'a> Rest<'a> {
    /// The next word, and the rest after it.
    #[tactic(auto, unfolding(crate::specs::Reading::word_at))]
    fn word(&self) -> Result<(&'a [u8], Rest<'a>), TargetFault>
        requires { self.now.taken + 1 < 2 ^ 32 }
        ensures word { Gives (λ x. (x.0.now, cursor_of x.1.taken x.1.text.now)) result (word_at (cursor_of self.now.taken self.now.text.now)) }
        ensures next { IfOk result (λ x. x.1.taken ≡ self.now.taken + 1) }
    {
        let taken = self.taken + 1;
        match line_words::word_at(self.text) {
            Some((word, text)) => Ok((word, Rest { taken, text })),
            None => Err(TargetFault::Missing { word: taken }),
        }
    }

    /// What the last word must stand for.
    #[tactic(auto, unfolding(crate::specs::Reading::need_at))]
    fn need<T>(&self, found: Option<T>) -> Result<T, TargetFault>
        ensures { Gives (λ x. x) result (need_at (cursor_of self.now.taken self.now.text.now) found) }
    {
        match found {
            Some(x) => Ok(x),
            None => Err(TargetFault::Bad { word: self.taken }),
        }
    }

    /// No further word.
    #[tactic(auto, unfolding(crate::specs::Reading::end_at))]
    fn end(&self) -> Result<(), TargetFault>
        requires { self.now.taken + 1 < 2 ^ 32 }
        ensures { Gives (λ x. x) result (end_at (cursor_of self.now.taken self.now.text.now)) }
    {
        match line_words::word_at(self.text) {
            None => Ok(()),
            Some(_) => Err(TargetFault::Extra {
                word: self.taken + 1,
            }),
        }
    }
}

/// The word `big`, and nothing after it.
#[tactic(auto, unfolding(crate::specs::Reading::big_word_at))]
fn big_word(packed: bool, rest: &Rest<'_>) -> Result<bool, TargetFault>
    requires { rest.now.taken + 2 < 2 ^ 32 }
    ensures { Gives (λ x. x) result (big_word_at packed (cursor_of rest.now.taken rest.now.text.now)) }
{
    let (_, rest) = rest.word()?;
    let big = rest.need(big_of(packed))?;
    rest.end()?;
    Ok(big)
}

/// Whether `big` follows the five words of a description. Version 1 doesn't know that word.
#[tactic(auto, unfolding(crate::specs::Reading::big_at, crate::specs::Reading::no_big_at))]
fn big(version: u32, packed: bool, rest: &Rest<'_>) -> Result<bool, TargetFault>
    requires { rest.now.taken + 2 < 2 ^ 32 }
    ensures { Gives (λ x. x) result (big_at version packed (cursor_of rest.now.taken rest.now.text.now)) }
{
    match line_words::word_at(rest.text) {
        Some((word, _)) if version == 2 && word == b"big".as_slice() => big_word(packed, rest),
        _ => {
            rest.end()?;
            Ok(false)
        }
    }
}

/// The target that the words of a description say, of which the first one is taken.
#[tactic(auto, unfolding(crate::specs::Reading::description_at))]
fn description(version: u32, first: &[u8], rest: &Rest<'_>) -> Result<Target, TargetFault>
    requires { rest.now.taken + 6 < 2 ^ 32 }
    ensures { Gives (λ x. x) result (description_at version first.now (cursor_of rest.now.taken rest.now.text.now)) }
{
    let word_bits = rest.need(bits_of(first))?;
    let (word, rest) = rest.word()?;
    let packed = rest.need(packed_of(word))?;
    let (word, rest) = rest.word()?;
    let steps = rest.need(steps_of(word))?;
    let (word, rest) = rest.word()?;
    let locks = rest.need(locks_of(word))?;
    let (word, rest) = rest.word()?;
    let section = rest.need(section_of(packed, steps, locks, word))?;
    let big = big(version, packed, &rest)?;
    Ok(Target {
        word_bits,
        packed,
        steps,
        locks,
        section,
        big,
    })
}

/// The target that the words of a text name or describe, before which so many stand.
#[tactic(auto, unfolding(crate::specs::Reading::target_at))]
fn target_after(taken: u32, text: &[u8], version: u32) -> Result<Target, TargetFault>
    requires { taken + 7 < 2 ^ 32 }
    ensures { Gives (λ x. x) result (target_at version (cursor_of taken text.now)) }
{
    let (first, rest) = Rest { taken, text }.word()?;
    if line_words::word_at(rest.text).is_none() {
        rest.need(builtin(first))
    } else {
        description(version, first, &rest)
    }
}

/// The target that the words from a cursor on name or describe in version 1 or 2, as `read_target` tells it. The
/// cursor stays.
#[tactic(auto, using(crate::proofs::Readings::given_is_target))]
pub fn target_at(words: &Words<'_>, version: u32) -> Result<Target, TargetFault>
    requires { IsVersion version }
    ensures reading { Gives (λ x. x) result (target_at version words.now.cursor) }
    ensures target { IfOk result (λ t. IsTarget t × IsOfVersion version t) }
{
    target_after(words.taken(), words.rest(), version)
}

/// The target that the part of a line after the word `target` names or describes in version 1 or 2. Its words count
/// from 2: a name is word 2, and the words of a description are 2 to 6. In version 2 a packed target may have word 7,
/// `big`: any other word there is Extra, and `big` is Bad where the target is apart.
#[tactic(auto, unfolding(crate::specs::Reading::reading_of_target), using(crate::proofs::Readings::given_is_target))]
pub fn read_target(text: &[u8], version: u32) -> Result<Target, TargetFault>
    requires { IsVersion version }
    ensures reading { Gives (λ x. x) result (reading_of_target version text.now) }
    ensures target { IfOk result (λ t. IsTarget t × IsOfVersion version t) }
{
    target_after(1, text, version)
}
