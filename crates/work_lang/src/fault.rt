//! Why a text is no workload.

ghost use Rattle.std.specs.Prelude.{◌≡◌};
ghost use Rattle.work_lang.specs.declared.fault.LineFault.TheVariants as faults;

use op_table::NoMemory;
use thiserror::Error;

/// What is wrong with a text, at a word of a line.
#[derive(Clone, Copy, Debug, PartialEq, Eq)]
pub enum Cause {
    /// The text has more bytes than a text may have.
    TooLong,
    /// A byte isn't one of 32 to 126.
    NotAscii,
    /// The text isn't of a version that is known.
    Version,
    /// A word that isn't known there.
    UnknownWord,
    /// A text of no number.
    BadNumber,
    /// A number that isn't one of the kind.
    OutOfRange,
    /// A name that was declared before.
    Twice,
    /// A name that wasn't declared.
    UnknownName,
    /// A call that the object's class doesn't have.
    NotForKind,
    /// An order that the call doesn't take.
    BadOrder,
    /// A word or a line that must be there isn't.
    Missing,
    /// A word that must not be there.
    Extra,
    /// More objects, threads or calls than there may be.
    Limit,
    /// A target that isn't known, or a word that its description doesn't allow.
    BadTarget,
    /// A thread that isn't closed at the end.
    Unclosed,
}

/// A fault in a line: its word, counted from 1, or 0 for the whole line.
#[derive(Clone, Copy, Debug, PartialEq, Eq)]
pub struct Slip {
    pub word: u32,
    pub cause: Cause,
}

/// Why there is no workload.
#[derive(Clone, Copy, Debug, PartialEq, Eq, Error)]
pub enum WorkFault {
    /// The first fault of the text: its line, counted from 1, and its word. Line 0 is the whole text.
    #[error("line {line} word {word} {cause:?}")]
    Text { line: u32, word: u32, cause: Cause },
    /// Memory was wanting, whatever the text; a text that is too long is told as that.
    #[error("out of memory")]
    NoMemory,
}

/// What stopped the reading of a line.
#[derive(Debug, Drop)]
pub(crate) enum LineFault {
    Slip(Slip),
    NoMemory,
}

impl From<Slip> for LineFault {
    ghost from_gives = { λ s e. e ≡ faults.Slip s };

    fn from(slip: Slip) -> LineFault {
        LineFault::Slip(slip)
    }
}

impl From<NoMemory> for LineFault {
    ghost from_gives = { λ _ e. e ≡ faults.NoMemory };

    fn from(_: NoMemory) -> LineFault {
        LineFault::NoMemory
    }
}

impl LineFault {
    ghost use Rattle.work_lang.specs.Fault.{fault_at};

    /// The fault as one of a text, in that line.
    pub fn at(self, line: u32) -> WorkFault
        ensures { result ≡ fault_at self line }
    {
        match self {
            LineFault::Slip(slip) => WorkFault::Text {
                line,
                word: slip.word,
                cause: slip.cause,
            },
            LineFault::NoMemory => WorkFault::NoMemory,
        }
    }
}
