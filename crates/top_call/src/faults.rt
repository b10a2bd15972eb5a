//! The text of a fault.

ghost use Rattle.std.specs.Prelude.{◌≡◌, ◌+◌, ◌≤◌, ◌∷◌, ◌++◌, [], length};
ghost use Rattle.std.specs.Fmt.{decimal};
ghost use Rattle.work_lang.specs.Streams.{Writes};
ghost use Rattle.top_call.specs.Status.{cause_text, fault_line};

use op_table::LineBuf;
use work_lang::{Cause, Sink, WriteEnd, write_line};

/// The name of a cause.
fn cause_text(cause: Cause) -> &'static [u8]
    ensures value { result.now ≡ cause_text cause }
    ensures short { length result.now ≤ 11 }
{
    match cause {
        Cause::TooLong => b"TooLong",
        Cause::NotAscii => b"NotAscii",
        Cause::Version => b"Version",
        Cause::UnknownWord => b"UnknownWord",
        Cause::BadNumber => b"BadNumber",
        Cause::OutOfRange => b"OutOfRange",
        Cause::Twice => b"Twice",
        Cause::UnknownName => b"UnknownName",
        Cause::NotForKind => b"NotForKind",
        Cause::BadOrder => b"BadOrder",
        Cause::Missing => b"Missing",
        Cause::Extra => b"Extra",
        Cause::Limit => b"Limit",
        Cause::BadTarget => b"BadTarget",
        Cause::Unclosed => b"Unclosed",
    }
}

/// Adds the decimal text of a number, which takes 20 bytes at most.
fn push_number(out: &mut LineBuf, number: u32)
    requires room { length out.old + 20 ≤ 256 }
    ensures value { out.new ≡ out.old ++ decimal number }
    ensures short { length out.new ≤ length out.old + 20 }
{
    out.push_number(u64::from(number));
}

/// Writes the text of a fault as one line.
pub fn write_fault<K: Sink>(
    line: u32,
    word: u32,
    cause: Cause,
    sink: &mut K,
) -> Result<(), WriteEnd>
    ensures { Writes K.taken K.faults K.tries K.whole sink.old sink.new result (fault_line line word cause ∷ []) }
{
    let mut out = LineBuf::new();
    out.push_text(b"line ");
    push_number(&mut out, line);
    out.push_text(b" word ");
    push_number(&mut out, word);
    out.push_text(b" ");
    out.push_text(cause_text(cause));
    out.push_text(b"\n");
    write_line(out.bytes(), sink)
}
