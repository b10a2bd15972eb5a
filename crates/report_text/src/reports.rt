//! Writing reports.

ghost use Rattle.std.specs.Prelude.{◌≡◌, ◌+◌, ◌<◌, ◌≤◌, ◌++◌, ◌∷◌, [], length, map, slice_get, IsSomeAnd};
ghost use Rattle.std.specs.List.{AllByRecursion};
ghost use Rattle.op_table.specs.Kind.{IsKind};
ghost use Rattle.op_table.specs.Call.{ReplyFits};
ghost use Rattle.work_lang.specs.Streams.{Writes};
ghost use Rattle.place_core.specs.DeclaredObjects.{IsDeclared};
ghost use Rattle.place_core.specs.Pieces.{script_lines};
ghost use Rattle.work_lang.specs.Workload.{threads_of, LineFits, HasLine};
ghost use Rattle.work_lang.specs.Reading.{kind_at};
ghost use Rattle.report_text.specs.CallTexts.{IsTextOf};
ghost use Rattle.report_text.specs.Report.{reply_text, reply_line, reply_lines, thread_head, thread_lines, last_line, last_lines, lines_with, AnswerLines, AnswerThreads, AnswerObjects, items_of};

use crate::call_text::CallText;
use crate::replies::{push_fixed, push_reply};
use ledger_sums::Fixed;
use op_table::{Kind, LineBuf, Reply};
use place_core::{Declared, Line, Replies, Script};
use work_lang::{Sink, Work, WriteEnd, write_line, write_target};

/// Writes the text of a call with its reply.
fn write_answered<K: Sink>(
    call: &CallText,
    kind: Kind,
    reply: &Reply,
    out: &mut LineBuf,
    sink: &mut K,
) -> Result<(), WriteEnd>
    requires kind { IsKind kind }
    requires fits { ReplyFits kind reply.now }
    requires short { length call.now.text ≤ 139 }
    ensures { Writes K.taken K.faults K.tries K.whole sink.old sink.new result ((call.now.text ++ reply_text kind reply.now ++ 10 ∷ []) ∷ []) }
{
    out.clear();
    out.push_text(call.bytes());
    push_reply(out, kind, reply);
    out.push_text(b"\n");
    write_line(out.bytes(), sink)
}

/// Writes a call with its reply. The call's text stands in `call` where that was made for the same line.
fn write_reply<K: Sink>(
    objects: &[Declared],
    line: &Line,
    reply: &Reply,
    call: &mut CallText,
    out: &mut LineBuf,
    sink: &mut K,
) -> Result<(), WriteEnd>
    requires line { IsSomeAnd (slice_get objects.now line.now.object) (λ d. IsKind d.kind × HasLine line.now d) }
    requires fits { ReplyFits (kind_at objects.now line.now.object) reply.now }
    requires text { IsTextOf objects.now call.old }
    ensures wrote { Writes K.taken K.faults K.tries K.whole sink.old sink.new result (reply_line objects.now line.now reply.now ∷ []) }
    ensures text { IsTextOf objects.now call.new }
{
    call.turn_to(objects, line);
    write_answered(call, objects[line.object as usize].kind, reply, out, sink)
}

/// Writes the calls of a thread with their replies. The text of a call is made once for as long as the same line comes
/// again, as in a block of one line.
fn write_calls<K: Sink>(
    objects: &[Declared],
    script: &Script,
    replies: &Replies,
    sink: &mut K,
) -> Result<(), WriteEnd>
    requires sound { AllByRecursion IsDeclared objects.now }
    requires fits { AllByRecursion (LineFits objects.now) (script_lines script.now) }
    requires answers { AnswerLines objects.now (script_lines script.now) replies.now.items }
    ensures { Writes K.taken K.faults K.tries K.whole sink.old sink.new result (reply_lines objects.now (script_lines script.now) replies.now.items) }
{
    let mut lines = script.lines();
    let mut call = CallText::new();
    let mut out = LineBuf::new();
    'calls: for i in 0..replies.len() {
        let Some(line) = lines.next() else {
            unreachable!()
        };
        match write_reply(objects, line, replies.at(i), &mut call, &mut out, sink) {
            Ok(()) => {}
            Err(end) => return Err(end),
        }
    }
    Ok(())
}

/// Writes the line that begins a thread.
fn write_head<K: Sink>(number: u32, sink: &mut K) -> Result<(), WriteEnd>
    ensures { Writes K.taken K.faults K.tries K.whole sink.old sink.new result (thread_head number ∷ []) }
{
    let mut out = LineBuf::new();
    out.push_text(b"thread ");
    out.push_number(u64::from(number));
    out.push_text(b"\n");
    write_line(out.bytes(), sink)
}

/// Writes the threads, counted from 1.
fn write_threads<K: Sink>(
    objects: &[Declared],
    threads: &[Script],
    replies: &[Replies],
    sink: &mut K,
) -> Result<(), WriteEnd>
    requires sound { AllByRecursion IsDeclared objects.now }
    requires fits { AllByRecursion (AllByRecursion (LineFits objects.now)) (map script_lines threads.now) }
    requires answers { AnswerThreads objects.now (map script_lines threads.now) (map items_of replies.now) }
    requires few { length threads.now ≤ 64 }
    ensures { Writes K.taken K.faults K.tries K.whole sink.old sink.new result (thread_lines objects.now 1 (map script_lines threads.now) (map items_of replies.now)) }
{
    let mut number = 1;
    let mut threads = threads;
    let mut replies = replies;
    'threads: while let [script, next_threads @ ..] = threads {
        let [own, next_replies @ ..] = replies else {
            unreachable!()
        };
        match write_head(number, sink) {
            Ok(()) => {}
            Err(end) => return Err(end),
        }
        match write_calls(objects, script, own, sink) {
            Ok(()) => {}
            Err(end) => return Err(end),
        }
        number += 1;
        threads = next_threads;
        replies = next_replies;
    }
    Ok(())
}

/// Writes an object, what its last load replied, and whether it has a fixed value.
pub(crate) fn write_last_value<K: Sink>(
    object: &Declared,
    reply: &Reply,
    fixed: Option<u128>,
    sink: &mut K,
) -> Result<(), WriteEnd>
    requires sound { IsDeclared object.now }
    requires fits { ReplyFits object.now.kind reply.now }
    ensures { Writes K.taken K.faults K.tries K.whole sink.old sink.new result (last_line object.now reply.now fixed ∷ []) }
{
    let mut out = LineBuf::new();
    let name = object.name;
    out.push_text(name.bytes());
    out.push_text(b" ");
    push_reply(&mut out, object.kind, reply);
    push_fixed(&mut out, fixed);
    out.push_text(b"\n");
    write_line(out.bytes(), sink)
}

/// Writes the last values.
fn write_last<K: Sink>(
    objects: &[Declared],
    last: &Replies,
    fixed: &Fixed,
    sink: &mut K,
) -> Result<(), WriteEnd>
    requires sound { AllByRecursion IsDeclared objects.now }
    requires answers { AnswerObjects objects.now last.now.items }
    requires whole { length fixed.now ≡ length objects.now }
    ensures { Writes K.taken K.faults K.tries K.whole sink.old sink.new result (last_lines objects.now last.now.items fixed.now) }
{
    let mut i = 0;
    'objects: while i < last.len() {
        let told = fixed.at(i);
        match write_last_value(&objects[i as usize], last.at(i), told, sink) {
            Ok(()) => {}
            Err(end) => return Err(end),
        }
        i += 1;
    }
    Ok(())
}

/// Writes the report of a run of the workload, line by line, each with its end as one piece: the target, the replies of
/// each thread, one a call in order, and the last values, one an object in declared order, with the word `fixed` where
/// the object has a fixed value. It takes no memory. At Fault, which comes only where the sink's count rose, what was
/// taken is a front of the report.
pub fn report<K: Sink>(
    work: &Work,
    fixed: &Fixed,
    replies: &[Replies],
    last: &Replies,
    sink: &mut K,
) -> Result<(), WriteEnd>
    requires threads { AnswerThreads work.now.objects (threads_of work.now) (map items_of replies.now) }
    requires last { AnswerObjects work.now.objects last.now.items }
    requires fixed { length fixed.now ≡ length work.now.objects }
    ensures { Writes K.taken K.faults K.tries K.whole sink.old sink.new result (lines_with work.now (map items_of replies.now) last.now.items fixed.now) }
{
    let target = work.target();
    let objects = work.objects();
    let threads = work.threads();
    match write_target(target, sink) {
        Ok(()) => {}
        Err(end) => return Err(end),
    }
    match write_threads(objects, threads, replies, sink) {
        Ok(()) => {}
        Err(end) => return Err(end),
    }
    match write_line(b"last\n", sink) {
        Ok(()) => {}
        Err(end) => return Err(end),
    }
    write_last(objects, last, fixed, sink)
}
