//! Rewriting a workload in version 2 of the language.

ghost use Rattle.std.specs.Prelude.{◌≡◌, ◌≤◌, ◌<◌, ◌+◌, ◌-◌, ◌^◌, map, length, IsTrue, ◌↔◌, IfOk, IfErr, OnOk, IsOk};
ghost use Rattle.std.specs.List.{AllByRecursion};
ghost use Rattle.place_core.specs.Pieces.{script_lines};
ghost use Rattle.work_lang.specs.Workload.{calls_made};
ghost use Rattle.work_lang.specs.Spelling.{Pairs};
ghost use Rattle.work_lang.specs.Second.{AreLongestRuns, IsSecond};
ghost use Rattle.work_lang.specs.Cutting.{AddsRun};

use crate::work::Work;
use op_table::NoMemory;
use place_core::{Line, Lines, Script};
use std::alloc::Global;

/// A line that stands so many times, one after another.
#[derive(Clone, Copy)]
struct Run {
    line: Line,
    times: u32,
}

/// Whether two lines are equal: in object, call and orders.
fn is_same(a: &Line, b: &Line) -> bool
    ensures { IsTrue result ↔ a.now ≡ b.now }
{
    *a == *b
}

/// Adds a run at the end: a line alone by itself, more of them as a block of that line.
fn push_run(alloc: Global, script: &mut Script, run: Run) -> Result<(), NoMemory>
    requires some { 1 ≤ run.times }
    requires lines { length (script_lines script.old) + run.times < 2 ^ 32 }
    requires pieces { length script.old < 2 ^ 32 - 1 }
    ensures { OnOk result (AddsRun run.line run.times script.old script.new) }
{
    if run.times == 1 {
        return script.push(run.line);
    }
    let mut lines = Lines::new(alloc);
    lines.push(run.line)?;
    match script.push_block(run.times, lines) {
        Ok(()) => Ok(()),
        Err((_, error)) => Err(error),
    }
}

/// The script's lines, cut into their longest runs.
fn cut(alloc: Global, script: &Script) -> Result<Script, NoMemory>
    requires { length (script_lines script.now) ≤ 65536 }
    ensures { IfOk result (λ made. AreLongestRuns (script_lines script.now) made) }
{
    let mut made = Script::new(alloc);
    let mut lines = script.lines();
    let Some(first) = lines.next() else {
        return Ok(made);
    };
    let mut run = Run {
        line: *first,
        times: 1,
    };
    'lines: while let Some(line) = lines.next() {
        if is_same(line, &run.line) {
            run.times += 1;
        } else {
            push_run(alloc, &mut made, run)?;
            run = Run {
                line: *line,
                times: 1,
            };
        }
    }
    push_run(alloc, &mut made, run)?;
    Ok(made)
}

/// Each script, cut into its longest runs.
fn cut_all(alloc: Global, scripts: &[Script]) -> Result<Vec<Script>, NoMemory>
    requires { AllByRecursion (λ script. calls_made script ≤ 65536) scripts.now }
    ensures { IfOk result (λ made. Pairs AreLongestRuns (map script_lines scripts.now) made.items) }
{
    let mut made = Vec::new(alloc);
    let mut rest = scripts;
    'scripts: while let [script, next @ ..] = rest {
        made.push(cut(alloc, script)?).map_err(|_| NoMemory)?;
        rest = next;
    }
    Ok(made)
}

/// The workload in version 2 of the language, where equal lines that follow one another are a block: two lines are
/// equal where object, call and orders are. A workload of version 2 is answered as it is. The work that is answered
/// makes the same calls, so each run of it is a run of the one that was given, and back. Where memory is wanting, the
/// workload comes back unchanged.
pub fn to_second(alloc: Global, work: Work) -> Result<Work, (Work, NoMemory)>
    ensures ok { IfOk result (λ second. IsSecond work second) }
    ensures err { IfErr result (λ e. e.0 ≡ work) }
    // Of version 2 it takes no memory.
    ensures free { work.version ≡ 2 → IsOk result }
{
    if work.version() == 2 {
        return Ok(work);
    }
    match cut_all(alloc, work.threads()) {
        Ok(threads) => {
            let (_, target, objects, _) = work.into_parts();
            Ok(Work::of_parts(2, target, objects, threads))
        }
        Err(error) => Err((work, error)),
    }
}

#[cfg(test)]
mod tests;
