//! What a line of a workload says: one function for each kind of line, from its first word on.

ghost use Rattle.line_words.specs.Steps.{Gives, Steps};
ghost use Rattle.op_table.specs.Kind.{IsKind};
ghost use Rattle.std.specs.Prelude.{◌≡◌};
ghost use Rattle.target_desc.specs.Target.{IsVersion};
ghost use Rattle.work_lang.specs.Reading.{version_of_word, version_at, described_at, target_line_at, object_at, thread_at, repeat_at, operation_in, operation_at};

use crate::fault::{Cause, Slip};
use crate::limits::MOST_THREADS;
use crate::objects::Objects;
use crate::operands::{is_later, read_operands, read_position};
use crate::words::{check, end, need, value, word};
use line_words::Words;
use op_table::{Call, Kind, Operation, has_operation, kind_of_word, operation_of_word, read_value};
use place_core::{Declared, Line, Lines, Name};
use target_desc::{Target, TargetFault, target_at};

/// What a line says.
#[derive(Clone, Copy)]
pub enum Item {
    Version(u32),
    Target(Target),
    Object(Declared),
    Thread,
    /// The beginning of a block that is made so many times.
    Repeat(u32),
    Call(Line),
    /// The end of a block, or of a thread.
    End,
}

/// A block that is open: how often it is made, and its lines so far.
#[derive(Drop)]
pub struct OpenBlock {
    pub times: u32,
    pub lines: Lines,
}

/// What the next line must say.
#[derive(Clone, Copy, Debug, PartialEq, Eq)]
pub enum Awaits {
    Version,
    Target,
    /// An object or the first thread.
    Object,
    Thread,
    /// A call, the beginning or the end of a block, or the end of the thread.
    Call,
}

/// The version that a word names.
fn version_of_word(word: &[u8]) -> Option<u32>
    ensures { result ≡ version_of_word word.now }
{
    if word == b"1".as_slice() {
        Some(1)
    } else if word == b"2".as_slice() {
        Some(2)
    } else {
        None
    }
}

/// The line of the version, `work 1` or `work 2`.
#[tactic(auto, unfolding(crate::specs::Reading::version_at))]
pub fn version_item(first: &[u8], words: &mut Words<'_>) -> Result<Item, Slip>
    ensures { Gives (λ x. x) result (version_at first.now words.old.cursor) }
{
    check(words, Cause::Version, first == b"work".as_slice())?;
    let text = word(words)?;
    let version = need(words, Cause::Version, version_of_word(text))?;
    end(words)?;
    Ok(Item::Version(version))
}

/// A target by its name or its description, which all further words are.
fn described(version: u32, words: &Words<'_>) -> Result<Target, Slip>
    requires { IsVersion version }
    ensures { Gives (λ x. x) result (described_at version words.now.cursor) }
{
    match target_at(words, version) {
        Ok(target) => Ok(target),
        Err(TargetFault::Bad { word }) => Err(Slip {
            word,
            cause: Cause::BadTarget,
        }),
        Err(TargetFault::Missing { word }) => Err(Slip {
            word,
            cause: Cause::Missing,
        }),
        Err(TargetFault::Extra { word }) => Err(Slip {
            word,
            cause: Cause::Extra,
        }),
    }
}

/// The line of the target.
#[tactic(auto, unfolding(crate::specs::Reading::target_line_at))]
pub fn target_item(version: u32, first: &[u8], words: &mut Words<'_>) -> Result<Item, Slip>
    requires { IsVersion version }
    ensures { Gives (λ x. x) result (target_line_at version first.now words.old.cursor) }
{
    check(words, Cause::UnknownWord, first == b"target".as_slice())?;
    Ok(Item::Target(described(version, words)?))
}

/// An `object` line, after its first word, where at most so many may stand.
#[tactic(auto, unfolding(crate::specs::Reading::object_at))]
pub fn object_item(most: u32, objects: &Objects, words: &mut Words<'_>) -> Result<Item, Slip>
    ensures { Gives (λ x. x) result (object_at most objects.now words.old.cursor) }
{
    check(words, Cause::Limit, objects.len() < most as usize)?;
    let text = word(words)?;
    let name = need(words, Cause::UnknownWord, Name::of(text))?;
    check(words, Cause::Twice, objects.find(text).is_none())?;
    let text = word(words)?;
    let kind = need(words, Cause::UnknownWord, kind_of_word(text))?;
    let text = word(words)?;
    let start = value(words, read_value(kind, text))?;
    end(words)?;
    Ok(Item::Object(Declared { name, kind, start }))
}

/// A `thread` line, after its first word, where so many threads stand.
#[tactic(auto, unfolding(crate::specs::Reading::thread_at))]
pub fn thread_item(threads: usize, words: &mut Words<'_>) -> Result<Item, Slip>
    ensures { Gives (λ x. x) result (thread_at threads words.old.cursor) }
{
    check(words, Cause::Limit, threads < MOST_THREADS)?;
    end(words)?;
    Ok(Item::Thread)
}

/// A `repeat:` line, after its first word, where this block is open.
#[tactic(auto, unfolding(crate::specs::Reading::repeat_at))]
pub fn repeat_item(block: &Option<OpenBlock>, words: &mut Words<'_>) -> Result<Item, Slip>
    ensures { Gives (λ x. x) result (repeat_at block.now words.old.cursor) }
{
    check(words, Cause::UnknownWord, block.is_none())?;
    let text = word(words)?;
    let times = value(words, read_position(text))?;
    check(words, Cause::OutOfRange, 0 < times)?;
    end(words)?;
    Ok(Item::Repeat(times))
}

/// The operation that a word stands for in a version. Version 1 has none that answers the new value.
#[tactic(auto, unfolding(crate::specs::Reading::operation_in))]
fn operation_in(version: u32, word: &[u8]) -> Option<Operation>
    ensures { result ≡ operation_in version word.now }
{
    match operation_of_word(word) {
        Some(operation) if !is_later(operation) || version == 2 => Some(operation),
        _ => None,
    }
}

/// A call by its word and its operands.
#[tactic(auto, unfolding(crate::specs::Reading::operation_at))]
pub fn operation_item(
    version: u32,
    kind: Kind,
    first: &[u8],
    words: &mut Words<'_>,
) -> Result<Call, Slip>
    requires { IsKind kind }
    ensures { Steps (λ x. x) result words.new.cursor (operation_at version kind first.now words.old.cursor) }
{
    let operation = need(words, Cause::UnknownWord, operation_in(version, first))?;
    check(
        words,
        Cause::NotForKind,
        has_operation(kind.class, operation),
    )?;
    read_operands(kind, operation, words)
}
