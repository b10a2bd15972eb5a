//! The steps of reading a line word by word, each with the fault that it may find.

ghost use Rattle.std.specs.Prelude.{◌≡◌};
ghost use Rattle.line_words.specs.Steps.{Gives, Steps};
ghost use Rattle.work_lang.specs.Slips.{slip, word_at, end_at, need_at, value_at, check_at};

use crate::fault::{Cause, Slip};
use line_words::Words;
use op_table::ValueFault;

/// The next word.
#[tactic(auto, unfolding(crate::specs::Slips::word_at))]
pub fn word<'a>(words: &mut Words<'a>) -> Result<&'a [u8], Slip>
    ensures { Steps (λ w. w.now) result words.new.cursor (word_at words.old.cursor) }
{
    match words.next() {
        Some(word) => Ok(word),
        None => Err(Slip {
            word: words.taken() + 1,
            cause: Cause::Missing,
        }),
    }
}

/// No further word.
#[tactic(auto, unfolding(crate::specs::Slips::end_at))]
pub fn end(words: &Words<'_>) -> Result<(), Slip>
    ensures { Gives (λ x. x) result (end_at words.now.cursor) }
{
    if words.is_end() {
        Ok(())
    } else {
        Err(Slip {
            word: words.taken() + 1,
            cause: Cause::Extra,
        })
    }
}

/// What the last word must be.
#[tactic(auto, unfolding(crate::specs::Slips::need_at))]
pub fn need<T>(words: &Words<'_>, cause: Cause, found: Option<T>) -> Result<T, Slip>
    ensures { Gives (λ x. x) result (need_at words.now.cursor cause found) }
{
    match found {
        Some(x) => Ok(x),
        None => fail(words, cause),
    }
}

/// The value that the last word must spell.
#[tactic(auto, unfolding(crate::specs::Slips::value_at))]
pub fn value<T>(words: &Words<'_>, found: Result<T, ValueFault>) -> Result<T, Slip>
    ensures { Gives (λ x. x) result (value_at words.now.cursor found) }
{
    match found {
        Ok(x) => Ok(x),
        Err(ValueFault::BadNumber) => fail(words, Cause::BadNumber),
        Err(ValueFault::OutOfRange) => fail(words, Cause::OutOfRange),
    }
}

/// What must hold at the last word.
#[tactic(auto, unfolding(crate::specs::Slips::check_at))]
pub fn check(words: &Words<'_>, cause: Cause, holds: bool) -> Result<(), Slip>
    ensures { Gives (λ x. x) result (check_at words.now.cursor cause holds) }
{
    if holds { Ok(()) } else { fail(words, cause) }
}

/// The fault at the last word.
pub fn fail<T>(words: &Words<'_>, cause: Cause) -> Result<T, Slip>
    ensures { result ≡ slip words.now.cursor.taken cause }
{
    Err(Slip {
        word: words.taken(),
        cause,
    })
}
