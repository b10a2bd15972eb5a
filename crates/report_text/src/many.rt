//! Writing the last values of generated runs.

ghost use Rattle.std.specs.Prelude.{◌≡◌, ◌+◌, ◌<◌, ◌≤◌, ◌++◌, ◌∷◌, [], length, map};
ghost use Rattle.std.specs.List.{AllByRecursion};
ghost use Rattle.std.specs.Fmt.{decimal};
ghost use Rattle.op_table.specs.Kind.{values_of};
ghost use Rattle.place_core.specs.DeclaredObjects.{IsDeclared};
ghost use Rattle.work_lang.specs.Streams.{Writes};
ghost use Rattle.report_text.specs.Report.{last_lines};
ghost use Rattle.report_text.specs.Many.{AreValues, many_head, many_with, value_replied};

use crate::reports::write_last_value;
use op_table::{LineBuf, Reply};
use place_core::{Declared, Replies};
use work_lang::{Sink, Work, WriteEnd, write_line};

/// Adds the decimal text of a number, which takes 20 bytes at most.
fn push_number(out: &mut LineBuf, number: u64)
    requires room { length out.old + 20 ≤ 256 }
    ensures value { out.new ≡ out.old ++ decimal number }
    ensures short { length out.new ≤ length out.old + 20 }
{
    out.push_number(number);
}

/// Writes the line that names the run by its three numbers.
fn write_head<K: Sink>(seed: u64, threads: u32, calls: u32, sink: &mut K) -> Result<(), WriteEnd>
    ensures { Writes K.taken K.faults K.tries K.whole sink.old sink.new result (many_head seed threads calls ∷ []) }
{
    let mut out = LineBuf::new();
    out.push_text(b"many ");
    push_number(&mut out, seed);
    out.push_text(b" ");
    push_number(&mut out, u64::from(threads));
    out.push_text(b" ");
    push_number(&mut out, u64::from(calls));
    out.push_text(b"\n");
    write_line(out.bytes(), sink)
}

/// The value that a load replied.
fn value_replied(reply: &Reply) -> Option<u128>
    ensures { result ≡ value_replied reply.now }
{
    match reply {
        Reply::Value(value) => Some(*value),
        _ => None,
    }
}

/// Writes each object with what its last load replied, as a fixed value.
fn write_values<K: Sink>(objects: &[Declared], last: &Replies, sink: &mut K) -> Result<(), WriteEnd>
    requires sound { AllByRecursion IsDeclared objects.now }
    requires values { AreValues objects.now last.now.items }
    ensures { Writes K.taken K.faults K.tries K.whole sink.old sink.new result (last_lines objects.now last.now.items (map value_replied last.now.items)) }
{
    let mut i = 0;
    'objects: while i < last.len() {
        let reply = last.at(i);
        match write_last_value(&objects[i as usize], reply, value_replied(reply), sink) {
            Ok(()) => {}
            Err(end) => return Err(end),
        }
        i += 1;
    }
    Ok(())
}

/// Writes the last values of a run of a generated workload, line by line, each with its end as one piece: the three
/// numbers that it was generated from, and each object with the value that its last load replied, as a fixed one. It
/// takes no memory. At Fault, which comes only where the sink's count rose, what was taken is a front of these lines.
pub fn many_text<K: Sink>(
    seed: u64,
    threads: u32,
    calls: u32,
    work: &Work,
    last: &Replies,
    sink: &mut K,
) -> Result<(), WriteEnd>
    requires last { AreValues work.now.objects last.now.items }
    ensures { Writes K.taken K.faults K.tries K.whole sink.old sink.new result (many_with seed threads calls work.now.objects last.now.items) }
{
    let objects = work.objects();
    match write_head(seed, threads, calls, sink) {
        Ok(()) => {}
        Err(end) => return Err(end),
    }
    write_values(objects, last, sink)
}
