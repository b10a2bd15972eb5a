//! The top call.

ghost use Rattle.std.specs.Prelude.{◌≡◌, ◌≢◌, true, Some, None};
ghost use Rattle.work_lang.specs.Counts.{ReadsNoFurther};
ghost use Rattle.work_lang.specs.Limits.{most_bytes};
ghost use Rattle.work_lang.specs.Streams.{most_read, LosesFront};
ghost use Rattle.top_call.specs.Outside.{outside};
ghost use Rattle.top_call.specs.Commands.{command_of, described_by, described, reads, IsAsked, IsTargetAsked};
ghost use Rattle.top_call.specs.Status.{status_of, SaysOf, Says, CountsStay, WhereNotWritten, WhereNotRead, WhereNoFault, Completes};

use crate::command::{Command, WordsFault, read_words};
use crate::describing::{describe_work, on_target, tell_targets, tell_unread};
use crate::input::read_input;
use crate::outcome::Outcome;
use crate::run_text::RunText;
use crate::running::{run_many, run_work};
use crate::status::Status;
use place_core::Gate;
use std::alloc::Global;
use std::sync::Wait;
use std::thread::Threads;
use target_desc::Target;
use work_lang::{Sink, Source};

/// The status of words that ask for nothing.
fn refuse(fault: WordsFault) -> Status
    ensures { result ≡ status_of fault }
{
    match fault {
        WordsFault::Usage => Status::Usage,
        WordsFault::NoMemory => Status::NoMemory,
    }
}

/// Reads a workload and writes the command's description of it, or the text of the fault.
fn describe_input<S: Source, K: Sink>(
    alloc: Global,
    command: Command,
    source: &mut S,
    sink: &mut K,
) -> Status
    requires describes { described_by command ≡ Some command }
    requires reads { reads command ≡ true }
    requires asked { IsAsked command }
    ensures says { SaysOf command (outside S.left S.faults S.meter K.taken K.faults K.tries K.whole source.old sink.old) (outside S.left S.faults S.meter K.taken K.faults K.tries K.whole source.new sink.new) result None }
    ensures counts { CountsStay result (outside S.left S.faults S.meter K.taken K.faults K.tries K.whole source.old sink.old) (outside S.left S.faults S.meter K.taken K.faults K.tries K.whole source.new sink.new) }
    ensures front { LosesFront S.left source.old source.new }
    ensures further { ReadsNoFurther most_read (S.meter source.old) (S.meter source.new) }
    ensures long { WhereNoFault result (ReadsNoFurther most_bytes (S.meter source.old) (S.meter source.new)) }
    ensures kept { K.whole sink.new ≡ K.whole sink.old }
    ensures sink { WhereNotWritten result (sink.new ≡ sink.old) }
{
    match read_input(alloc, source) {
        Ok(work) => describe_work(alloc, command, work, sink),
        Err(unread) => tell_unread(unread, sink),
    }
}

/// Does what a command describes.
fn describe_command<S: Source, K: Sink>(
    alloc: Global,
    command: Command,
    source: &mut S,
    sink: &mut K,
) -> Status
    requires asked { IsAsked command }
    // The five targets are written without memory.
    ensures memory { command ≡ Command.Targets → result ≢ Status.NoMemory }
    ensures says { Says (described_by command) (outside S.left S.faults S.meter K.taken K.faults K.tries K.whole source.old sink.old) (outside S.left S.faults S.meter K.taken K.faults K.tries K.whole source.new sink.new) result None }
    ensures counts { CountsStay result (outside S.left S.faults S.meter K.taken K.faults K.tries K.whole source.old sink.old) (outside S.left S.faults S.meter K.taken K.faults K.tries K.whole source.new sink.new) }
    ensures front { LosesFront S.left source.old source.new }
    ensures further { ReadsNoFurther most_read (S.meter source.old) (S.meter source.new) }
    ensures long { WhereNoFault result (ReadsNoFurther most_bytes (S.meter source.old) (S.meter source.new)) }
    ensures kept { K.whole sink.new ≡ K.whole sink.old }
    ensures source { WhereNotRead (described_by command) (source.new ≡ source.old) }
    ensures sink { WhereNotWritten result (sink.new ≡ sink.old) }
{
    match command {
        Command::Run { .. } | Command::Many { .. } => Status::Usage,
        Command::Targets => tell_targets(sink),
        Command::Check | Command::Convert | Command::Plan { .. } => {
            describe_input(alloc, command, source, sink)
        }
    }
}

/// Reads a workload and runs it on the target that is asked for, or writes the text of the fault.
fn run_input<R: Threads + Wait + Sync, S: Source, K: Sink, G: Gate>(
    rt: &R,
    alloc: Global,
    target: Option<Target>,
    source: &mut S,
    sink: &mut K,
    gate: &G,
) -> Outcome
    requires target { IsTargetAsked target }
    ensures says { SaysOf (Command.Run target) (outside S.left S.faults S.meter K.taken K.faults K.tries K.whole source.old sink.old) (outside S.left S.faults S.meter K.taken K.faults K.tries K.whole source.new sink.new) result.status result.ended }
    ensures counts { CountsStay result.status (outside S.left S.faults S.meter K.taken K.faults K.tries K.whole source.old sink.old) (outside S.left S.faults S.meter K.taken K.faults K.tries K.whole source.new sink.new) }
    ensures front { LosesFront S.left source.old source.new }
    ensures further { ReadsNoFurther most_read (S.meter source.old) (S.meter source.new) }
    ensures long { WhereNoFault result.status (ReadsNoFurther most_bytes (S.meter source.old) (S.meter source.new)) }
    ensures kept { K.whole sink.new ≡ K.whole sink.old }
    ensures sink { WhereNotWritten result.status (sink.new ≡ sink.old) }
{
    match read_input(alloc, source) {
        Ok(work) => run_work(
            rt,
            alloc,
            on_target(work, target),
            RunText::Report,
            sink,
            gate,
        ),
        Err(unread) => Outcome {
            status: tell_unread(unread, sink),
            ended: None,
        },
    }
}

/// Does what describes and doesn't run: writes the canonical text of a workload that it reads (`check`), that of the
/// same workload in version 2 (`convert`), its plan table (`plan`), or the built-in targets (`targets`), which leaves
/// the source as it was. It always returns. At the words of `run` and `many` it answers Usage, as at words that are no
/// form. The status says how it ended, and what was read and
/// written then; it never reads more than 8,388,609 bytes, and a text of so many is never told as want of memory.
pub fn describe<S: Source, K: Sink>(
    alloc: Global,
    words: &[String],
    source: &mut S,
    sink: &mut K,
) -> Status
    ensures says { Says (described (command_of words.now)) (outside S.left S.faults S.meter K.taken K.faults K.tries K.whole source.old sink.old) (outside S.left S.faults S.meter K.taken K.faults K.tries K.whole source.new sink.new) result None }
    ensures complete { Completes (described (command_of words.now)) (outside S.left S.faults S.meter K.taken K.faults K.tries K.whole source.old sink.old) (outside S.left S.faults S.meter K.taken K.faults K.tries K.whole source.new sink.new) result }
    ensures counts { CountsStay result (outside S.left S.faults S.meter K.taken K.faults K.tries K.whole source.old sink.old) (outside S.left S.faults S.meter K.taken K.faults K.tries K.whole source.new sink.new) }
    ensures front { LosesFront S.left source.old source.new }
    ensures further { ReadsNoFurther most_read (S.meter source.old) (S.meter source.new) }
    ensures long { WhereNoFault result (ReadsNoFurther most_bytes (S.meter source.old) (S.meter source.new)) }
    ensures kept { K.whole sink.new ≡ K.whole sink.old }
    ensures source { WhereNotRead (described (command_of words.now)) (source.new ≡ source.old) }
    ensures sink { WhereNotWritten result (sink.new ≡ sink.old) }
{
    match read_words(alloc, words) {
        Ok(command) => describe_command(alloc, command, source, sink),
        Err(fault) => refuse(fault),
    }
}

/// Does all that the program does, by the words of the command line without the program's name. `run` reads a workload
/// from the source, runs it on an arena of its own target or the one that `--target` names, with a thread for each
/// script, and writes the report of the arena's one history to the sink; `many` does the same with the workload that its
/// three numbers generate, reads nothing, and writes the last values; every other command is served as by `describe`. The gate is told of each call of a script before and after it. It reads 8,388,609 bytes at most, and may
/// wait for the threads of a run. The status says how it ended, and what was read and written then.
pub fn portable_call<R: Threads + Wait + Sync, S: Source, K: Sink, G: Gate>(
    rt: &R,
    alloc: Global,
    words: &[String],
    source: &mut S,
    sink: &mut K,
    gate: &G,
) -> Outcome
    // What each status says. At Done of `run` the sink gained the report of the one history of the arena that is handed
    // out, and that history is a run of the workload that was read.
    ensures says { Says (command_of words.now) (outside S.left S.faults S.meter K.taken K.faults K.tries K.whole source.old sink.old) (outside S.left S.faults S.meter K.taken K.faults K.tries K.whole source.new sink.new) result.status result.ended }
    // Where nothing outside fails, it finishes.
    ensures complete { Completes (command_of words.now) (outside S.left S.faults S.meter K.taken K.faults K.tries K.whole source.old sink.old) (outside S.left S.faults S.meter K.taken K.faults K.tries K.whole source.new sink.new) result.status }

    // A fault of the source or the sink is told as that.
    ensures counts { CountsStay result.status (outside S.left S.faults S.meter K.taken K.faults K.tries K.whole source.old sink.old) (outside S.left S.faults S.meter K.taken K.faults K.tries K.whole source.new sink.new) }
    // How far it reads, and what it leaves untouched.
    ensures front { LosesFront S.left source.old source.new }
    ensures further { ReadsNoFurther most_read (S.meter source.old) (S.meter source.new) }
    ensures long { WhereNoFault result.status (ReadsNoFurther most_bytes (S.meter source.old) (S.meter source.new)) }
    ensures kept { K.whole sink.new ≡ K.whole sink.old }
    ensures source { WhereNotRead (command_of words.now) (source.new ≡ source.old) }
    ensures sink { WhereNotWritten result.status (sink.new ≡ sink.old) }
{
    match read_words(alloc, words) {
        Ok(Command::Run { target }) => run_input(rt, alloc, target, source, sink, gate),
        Ok(
            Command::Many {
                seed,
                threads,
                calls,
            },
        ) => run_many(rt, alloc, seed, threads, calls, sink, gate),
        Ok(command) => Outcome {
            status: describe_command(alloc, command, source, sink),
            ended: None,
        },
        Err(fault) => Outcome {
            status: refuse(fault),
            ended: None,
        },
    }
}
