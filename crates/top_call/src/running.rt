//! Running a workload on an arena, and what is written of it.

ghost use Rattle.std.specs.Prelude.{◌≡◌, ◌≢◌, true, map, Some};
ghost use Rattle.place_core.specs.Runs.{replies_by, replies_from};
ghost use Rattle.work_lang.specs.Streams.{Writes};
ghost use Rattle.work_lang.specs.Workload.{threads_of};
ghost use Rattle.work_lang.specs.Generated.{many_fits, many_of};
ghost use Rattle.report_text.specs.Report.{report_lines, fixed_of, items_of};
ghost use Rattle.runner.specs.declared.worker.Keep.TheVariants as keeps;
ghost use Rattle.top_call.specs.declared.run_text.RunText.TheVariants as texts;
ghost use Rattle.whole_run.specs.Ready.{scripts_in, keep_in};
ghost use Rattle.whole_run.specs.WholeRuns.{no_replies};
ghost use Rattle.top_call.specs.Preparing.{work_in, IsPrepared};
ghost use Rattle.top_call.specs.Running.{IsRunOf, RunsWork, run_lines};

use crate::outcome::{Ended, Outcome};
use crate::prepared::{Prepared, prepare};
use crate::run_text::RunText;
use crate::status::Status;
use ledger_sums::Fixed;
use op_table::NoMemory;
use place_core::{Gate, Replies};
use report_text::{many_text, report};
use std::alloc::Global;
use std::sync::Wait;
use std::thread::Threads;
use work_lang::{Sink, Work, WriteEnd, make_many};

/// A run that ended, the fixed values and the replies of each thread where its text tells them, and the replies of the
/// last loads.
#[derive(Drop)]
struct Ran {
    ended: Ended,
    fixed: Option<Fixed>,
    replies: Vec<Replies>,
    last: Replies,
}

/// Runs a workload that is ready, a thread for each script. It takes no memory. The workload gets its scripts back.
fn run_prepared<R: Threads + Wait + Sync, G: Gate>(
    rt: &R,
    prepared: Prepared,
    text: RunText,
    gate: &G,
) -> Ran
    requires { IsPrepared text prepared }
    ensures run { IsRunOf (work_in prepared) result.ended }
    ensures fixed { text ≡ texts.Report → result.fixed ≡ Some (fixed_of (work_in prepared)) }
    ensures replies { text ≡ texts.Report → map items_of result.replies.items ≡ replies_from result.ended.root.seen 1 (threads_of (work_in prepared)) }
    ensures none { keep_in prepared.ready ≡ keeps.Nothing → map items_of result.replies.items ≡ no_replies (scripts_in prepared.ready) }
    ensures last { result.last.items ≡ replies_by result.ended.root.seen 0 }
{
    let Prepared {
        ready,
        version,
        target,
        objects,
        fixed,
    } = prepared;
    let ran = ready.run(rt, gate);
    Ran {
        ended: Ended {
            arena: ran.arena,
            root: ran.root,
            work: Work::of_parts(version, target, objects, ran.scripts),
        },
        fixed,
        replies: ran.replies,
        last: ran.last,
    }
}

/// Writes the report of a run, with these fixed values.
fn write_report<K: Sink>(ran: &Ran, fixed: &Fixed, sink: &mut K) -> Result<(), WriteEnd>
    requires run { IsRunOf ran.now.ended.work ran.now.ended }
    requires fixed { fixed.now ≡ fixed_of ran.now.ended.work }
    requires replies { map items_of ran.now.replies.items ≡ replies_from ran.now.ended.root.seen 1 (threads_of ran.now.ended.work) }
    requires last { ran.now.last.items ≡ replies_by ran.now.ended.root.seen 0 }
    ensures { Writes K.taken K.faults K.tries K.whole sink.old sink.new result (report_lines ran.now.ended.work ran.now.ended.root.seen) }
{
    let work = &ran.ended.work;
    // Only for its clause, on what the type of a workload keeps.
    let _target = work.target();
    report(work, fixed, &ran.replies, &ran.last, sink)
}

/// Writes the last values of a run that was generated from these numbers.
fn write_many<K: Sink>(
    seed: u64,
    threads: u32,
    calls: u32,
    ran: &Ran,
    sink: &mut K,
) -> Result<(), WriteEnd>
    requires run { IsRunOf ran.now.ended.work ran.now.ended }
    requires last { ran.now.last.items ≡ replies_by ran.now.ended.root.seen 0 }
    ensures { Writes K.taken K.faults K.tries K.whole sink.old sink.new result (run_lines (texts.Many seed threads calls) ran.now.ended.work ran.now.ended.root.seen) }
{
    let work = &ran.ended.work;
    // Only for its clause, on what the type of a workload keeps.
    let _target = work.target();
    many_text(seed, threads, calls, work, &ran.last, sink)
}

/// Writes what is to be told of a run.
fn write_run<K: Sink>(text: RunText, ran: &Ran, sink: &mut K) -> Result<(), WriteEnd>
    requires run { IsRunOf ran.now.ended.work ran.now.ended }
    requires fixed { text ≡ texts.Report → ran.now.fixed ≡ Some (fixed_of ran.now.ended.work) }
    requires replies { text ≡ texts.Report → map items_of ran.now.replies.items ≡ replies_from ran.now.ended.root.seen 1 (threads_of ran.now.ended.work) }
    requires last { ran.now.last.items ≡ replies_by ran.now.ended.root.seen 0 }
    ensures { Writes K.taken K.faults K.tries K.whole sink.old sink.new result (run_lines text ran.now.ended.work ran.now.ended.root.seen) }
{
    match text {
        RunText::Report => match &ran.fixed {
            Some(fixed) => write_report(ran, fixed, sink),
            None => unreachable!(),
        },
        RunText::Many {
            seed,
            threads,
            calls,
        } => write_many(seed, threads, calls, ran, sink),
    }
}

/// Runs a workload that is ready, and writes what is to be told of the one history of its arena. It never ends out of
/// memory.
fn run_and_tell<R: Threads + Wait + Sync, K: Sink, G: Gate>(
    rt: &R,
    prepared: Prepared,
    text: RunText,
    sink: &mut K,
    gate: &G,
) -> Outcome
    requires { IsPrepared text prepared }
    ensures ran { RunsWork K.taken K.faults K.tries K.whole sink.old sink.new text (work_in prepared) result.status result.ended }
    ensures memory { result.status ≢ Status.NoMemory }
    ensures kept { K.whole sink.new ≡ K.whole sink.old }
{
    let ran = run_prepared(rt, prepared, text, gate);
    match write_run(text, &ran, sink) {
        Ok(()) => Outcome {
            status: Status::Done,
            ended: Some(ran.ended),
        },
        Err(WriteEnd::Fault) => Outcome {
            status: Status::WriteFault,
            ended: Some(ran.ended),
        },
    }
}

/// Runs a workload, a thread for each script, and writes what is to be told of the one history of its arena. Memory is
/// taken before the first call of a script, or never.
pub(crate) fn run_work<R: Threads + Wait + Sync, K: Sink, G: Gate>(
    rt: &R,
    alloc: Global,
    work: Work,
    text: RunText,
    sink: &mut K,
    gate: &G,
) -> Outcome
    ensures ran { RunsWork K.taken K.faults K.tries K.whole sink.old sink.new text work result.status result.ended }
    ensures kept { K.whole sink.new ≡ K.whole sink.old }
{
    match prepare(alloc, work, text) {
        Ok(prepared) => run_and_tell(rt, prepared, text, sink, gate),
        Err(NoMemory) => Outcome {
            status: Status::NoMemory,
            ended: None,
        },
    }
}

/// Runs the workload that is generated from these numbers, as any other, and writes its last values.
pub(crate) fn run_many<R: Threads + Wait + Sync, K: Sink, G: Gate>(
    rt: &R,
    alloc: Global,
    seed: u64,
    threads: u32,
    calls: u32,
    sink: &mut K,
    gate: &G,
) -> Outcome
    requires { many_fits threads calls ≡ true }
    ensures ran { RunsWork K.taken K.faults K.tries K.whole sink.old sink.new (texts.Many seed threads calls) (many_of seed threads calls) result.status result.ended }
    ensures kept { K.whole sink.new ≡ K.whole sink.old }
{
    let text = RunText::Many {
        seed,
        threads,
        calls,
    };
    match make_many(alloc, seed, threads, calls) {
        Ok(work) => run_work(rt, alloc, work, text, sink, gate),
        Err(NoMemory) => Outcome {
            status: Status::NoMemory,
            ended: None,
        },
    }
}
