//! Reading a workload from a source.

ghost use Rattle.std.specs.Prelude.{◌≡◌, ◌<◌, length, Err};
ghost use Rattle.work_lang.specs.Counts.{ReadsNoFurther};
ghost use Rattle.work_lang.specs.Limits.{most_bytes};
ghost use Rattle.work_lang.specs.Streams.{most_read, LosesFront};
ghost use Rattle.top_call.specs.Inputs.{ReadsText, ReadsInput, UnlessFaulty};

use std::alloc::Global;
use work_lang::{Cause, ReadEnd, Source, Work, WorkFault, read_all, read_work};

/// Why there is no workload.
#[derive(Clone, Copy, Debug, PartialEq, Eq)]
pub(crate) enum Unread {
    /// The source failed.
    Source,
    /// The text has this fault at that line and word.
    Text { line: u32, word: u32, cause: Cause },
    /// Out of memory.
    NoMemory,
}

/// The workload of a text, or why there is none. A text that is too long is told as that.
fn work_of(alloc: Global, text: &[u8]) -> Result<Work, Unread>
    ensures text { ReadsText text.now result }
    ensures long { most_bytes < length text.now → result ≡ Err (Unread.Text 0 0 Cause.TooLong) }
{
    match read_work(alloc, text) {
        Ok(work) => Ok(work),
        Err(WorkFault::Text { line, word, cause }) => Err(Unread::Text { line, word, cause }),
        Err(WorkFault::NoMemory) => Err(Unread::NoMemory),
    }
}

/// Reads all that the source has left, or 8,388,609 bytes of it, and the workload that this text spells. The text is
/// given back before it returns.
pub(crate) fn read_input<S: Source>(alloc: Global, source: &mut S) -> Result<Work, Unread>
    ensures read { ReadsInput S.left S.faults source.old source.new result }
    ensures front { LosesFront S.left source.old source.new }
    ensures further { ReadsNoFurther most_read (S.meter source.old) (S.meter source.new) }
    ensures long { UnlessFaulty result (ReadsNoFurther most_bytes (S.meter source.old) (S.meter source.new)) }
{
    let text = match read_all(alloc, source) {
        Ok(text) => text,
        Err(ReadEnd::Fault) => return Err(Unread::Source),
        Err(ReadEnd::NoMemory) => return Err(Unread::NoMemory),
    };
    work_of(alloc, &text)
}
