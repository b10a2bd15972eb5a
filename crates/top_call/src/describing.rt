//! What the commands write that describe and don't run.

ghost use Rattle.std.specs.Prelude.{◌≡◌, ◌≢◌, Some, true, [], ◌∷◌, map};
ghost use Rattle.std.specs.List.{AllByRecursion};
ghost use Rattle.target_desc.specs.Spelling.{IsName};
ghost use Rattle.work_lang.specs.Streams.{Writes};
ghost use Rattle.top_call.specs.Commands.{reads, described_by, IsAsked, IsTargetAsked};
ghost use Rattle.top_call.specs.Texts.{IsRow, on_target, description_of, target_row, targets_lines};
ghost use Rattle.top_call.specs.Writing.{WritesOwn, WritesTold, TellsUnread};

use crate::command::Command;
use crate::faults::write_fault;
use crate::input::Unread;
use crate::status::Status;
use layout_plan::lay;
use lock_free_info::write_plan;
use op_table::{LineBuf, NoMemory};
use std::alloc::Global;
use target_desc::{Target, builtins, push_description};
use work_lang::{Sink, Work, WriteEnd, print_work, to_second, write_line};

/// The workload on the target that is asked for, if one is.
pub(crate) fn on_target(work: Work, target: Option<Target>) -> Work
    requires { IsTargetAsked target }
    ensures { result ≡ on_target target work }
{
    match target {
        None => work,
        Some(target) => work.with_target(target),
    }
}

/// Writes the canonical text of a workload. It takes no memory.
fn check_work<K: Sink>(work: &Work, sink: &mut K) -> Status
    ensures wrote { WritesOwn K.taken K.faults K.tries K.whole sink.old sink.new (description_of Command.Check work.now) result }
    ensures memory { result ≢ Status.NoMemory }
    ensures kept { K.whole sink.new ≡ K.whole sink.old }
{
    match print_work(work, sink) {
        Ok(()) => Status::Done,
        Err(WriteEnd::Fault) => Status::WriteFault,
    }
}

/// Writes the plan table of a workload.
fn plan_work<K: Sink>(alloc: Global, work: &Work, sink: &mut K) -> Status
    ensures wrote { WritesOwn K.taken K.faults K.tries K.whole sink.old sink.new (description_of (Command.Plan None) work.now) result }
    ensures kept { K.whole sink.new ≡ K.whole sink.old }
{
    match lay(alloc, work.target(), work.objects()) {
        Err(NoMemory) => Status::NoMemory,
        Ok(shape) => match write_plan(work, &shape, sink) {
            Ok(()) => Status::Done,
            Err(WriteEnd::Fault) => Status::WriteFault,
        },
    }
}

/// Writes the canonical text of a workload in version 2.
fn convert_work<K: Sink>(alloc: Global, work: Work, sink: &mut K) -> Status
    ensures wrote { WritesTold K.taken K.faults K.tries K.whole sink.old sink.new Command.Convert work result }
    ensures kept { K.whole sink.new ≡ K.whole sink.old }
{
    match to_second(alloc, work) {
        Ok(second) => match print_work(&second, sink) {
            Ok(()) => Status::Done,
            Err(WriteEnd::Fault) => Status::WriteFault,
        },
        Err((_, NoMemory)) => Status::NoMemory,
    }
}

/// Writes the command's description of a workload.
pub(crate) fn describe_work<K: Sink>(
    alloc: Global,
    command: Command,
    work: Work,
    sink: &mut K,
) -> Status
    requires describes { described_by command ≡ Some command }
    requires reads { reads command ≡ true }
    requires asked { IsAsked command }
    ensures wrote { WritesTold K.taken K.faults K.tries K.whole sink.old sink.new command work result }
    ensures memory { command ≡ Command.Check → result ≢ Status.NoMemory }
    ensures kept { K.whole sink.new ≡ K.whole sink.old }
{
    match command {
        Command::Check => check_work(&work, sink),
        Command::Convert => convert_work(alloc, work, sink),
        Command::Plan { target } => plan_work(alloc, &on_target(work, target), sink),
        Command::Run { .. } | Command::Targets | Command::Many { .. } => unreachable!(),
    }
}

/// Writes a built-in target as its name and its description.
#[tactic(auto, using(crate::proofs::TargetRows::row_is_short))]
fn write_row<K: Sink>(name: &str, target: &Target, sink: &mut K) -> Result<(), WriteEnd>
    requires { IsName name.now target.now }
    ensures { Writes K.taken K.faults K.tries K.whole sink.old sink.new result (target_row (name.now, target.now) ∷ []) }
{
    let mut line = LineBuf::new();
    line.push_text(name.as_bytes());
    line.push_text(b" ");
    push_description(&mut line, target);
    line.push_text(b"\n");
    write_line(line.bytes(), sink)
}

/// Writes built-in targets, each as its name and its description.
fn write_rows<K: Sink>(rows: &[(&str, Target)], sink: &mut K) -> Result<(), WriteEnd>
    requires { AllByRecursion IsRow (map (λ row. (row.0.now, row.1)) rows.now) }
    ensures { Writes K.taken K.faults K.tries K.whole sink.old sink.new result
        (map target_row (map (λ row. (row.0.now, row.1)) rows.now)) }
{
    for row in rows {
        match write_row(row.0, &row.1, sink) {
            Ok(()) => {}
            Err(end) => return Err(end),
        }
    }
    Ok(())
}

/// Writes all built-in targets.
fn write_targets<K: Sink>(sink: &mut K) -> Result<(), WriteEnd>
    ensures { Writes K.taken K.faults K.tries K.whole sink.old sink.new result targets_lines }
{
    write_rows(builtins(), sink)
}

/// Writes the text of the built-in targets. It takes no memory.
pub(crate) fn tell_targets<K: Sink>(sink: &mut K) -> Status
    ensures wrote { WritesOwn K.taken K.faults K.tries K.whole sink.old sink.new targets_lines result }
    ensures memory { result ≢ Status.NoMemory }
    ensures kept { K.whole sink.new ≡ K.whole sink.old }
{
    match write_targets(sink) {
        Ok(()) => Status::Done,
        Err(WriteEnd::Fault) => Status::WriteFault,
    }
}

/// Tells why there is no workload: the fault of a text is written as one line.
pub(crate) fn tell_unread<K: Sink>(unread: Unread, sink: &mut K) -> Status
    ensures wrote { TellsUnread K.taken K.faults K.tries K.whole sink.old sink.new unread result }
    ensures kept { K.whole sink.new ≡ K.whole sink.old }
{
    match unread {
        Unread::Source => Status::ReadFault,
        Unread::NoMemory => Status::NoMemory,
        Unread::Text { line, word, cause } => match write_fault(line, word, cause, sink) {
            Ok(()) => Status::Refused,
            Err(WriteEnd::Fault) => Status::WriteFault,
        },
    }
}
