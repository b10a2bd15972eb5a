//! `portable` runs workloads of calls on atomic objects and writes their reports.
#![tactic(auto)]

use place_core::OpenGate;
use std::alloc::Global;
use std::io::{ErrorKind, Read, Write};
use std::mem::forget;
use std::process::ExitCode;
use std::sync::Wait;
use std::thread::Threads;
use top_call::{Outcome, ReadSource, Status, WriteSink, portable_call};

/// The words of the command line, without the program's name. A word that isn't UTF-8 is no form's.
fn words(rt: &HostRuntime) -> Result<Vec<String>, Status> {
    let args = match std::env::args(rt) {
        Ok(args) => args,
        Err(error) => {
            return Err(match error.kind() {
                ErrorKind::InvalidData => Status::Usage,
                _ => Status::NoMemory,
            });
        }
    };
    let mut words = Vec::new(rt.alloc());
    for word in args.skip(1) {
        words.push(word).map_err(|_| Status::NoMemory)?;
    }
    Ok(words)
}

/// Serves the words over a reader and a writer, and closes the sink. Where it can't hand on what it holds, the sink
/// failed.
fn serve<R: Threads + Wait + Sync, I: Read + Drop, O: Write + Drop>(
    rt: &R,
    alloc: Global,
    words: &[String],
    input: I,
    output: O,
) -> Status {
    let mut source = ReadSource::new(input);
    let Ok(mut sink) = WriteSink::new(alloc, output) else {
        return Status::NoMemory;
    };
    let Outcome { status, ended } = portable_call(
        rt,
        alloc,
        words,
        &mut source,
        &mut sink,
        &OpenGate,
    );
    // The process ends next, and its memory with it: nothing is to walk over a million calls to give it back first.
    forget(ended);
    status.closed(sink.close().is_ok())
}

/// All forms of the words.
const USAGE: &str =
    "usage: portable run|plan [--target NAME] | check | convert | targets | many SEED THREADS CALLS\n";

/// Writes the usage line. Nothing is left to be done where that fails.
fn write_usage<W: Write>(errors: &mut W) {
    let _ = errors.write_all(USAGE.as_bytes());
}

fn main(rt: HostRuntime) -> ExitCode {
    let status = match words(&rt) {
        Ok(words) => serve(&rt, rt.alloc(), &words, rt.stdin(), rt.stdout()),
        Err(status) => status,
    };
    if status.is_usage() {
        write_usage(&mut rt.stderr());
    }
    ExitCode::from(status.code())
}

#[cfg(test)]
mod tests;
