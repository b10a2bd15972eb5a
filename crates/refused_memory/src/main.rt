//! Runs the program on a case, over a source and a sink that take no memory, so that only the program's own memory is
//! asked for, and prints the status and how many bytes were written. `bench/refuse.py` refuses each allocation in turn.
#![tactic(auto)]

mod cases;
mod pushing;

use cases::{CASES, Case};
use place_core::OpenGate;
use pushing::push_rule;
use std::alloc::{AllocError, Global};
use std::io;
use std::sync::Wait;
use std::thread::Threads;
use top_call::{Status, portable_call};
use work_lang::{SureSink, SureSource};

/// The words as the program takes them.
fn words_of(alloc: Global, words: &[&str]) -> Result<Vec<String>, AllocError> {
    let mut made = Vec::with_capacity(alloc, words.len())?;
    for word in words {
        made.push(String::from_str(alloc, word)?)?;
    }
    Ok(made)
}

/// The status of the program on a case, and how many bytes it wrote. Where the words find no memory it isn't called.
fn run<R: Threads + Wait + Sync + AllocGlobal>(rt: &R, case: Case) -> (Status, u64) {
    let Ok(words) = words_of(rt.alloc(), case.words) else {
        return (Status::NoMemory, 0);
    };
    let mut source = SureSource::of(case.text.as_bytes());
    let mut sink = SureSink::new();
    let outcome = portable_call(rt, rt.alloc(), &words, &mut source, &mut sink, &OpenGate);
    (outcome.status, sink.taken())
}

/// Runs the case that the first word names, or without a word all of them, and prints a line for each. The last, `push`,
/// isn't one of the program's.
fn main(rt: HostRuntime) -> io::Result<()> {
    let Ok(mut words) = std::env::args(&rt) else {
        return println!(rt; "no words: status {}, 0 bytes", Status::NoMemory.code());
    };
    let asked = words.nth(1);
    for case in CASES {
        if asked.as_ref().is_none_or(|name| name.as_str() == case.name) {
            let (status, taken) = run(&rt, case);
            println!(rt; "{}: status {}, {taken} bytes", case.name, status.code())?;
        }
    }
    if asked.as_ref().is_none_or(|name| name.as_str() == "push") {
        let (status, taken) = push_rule(rt.alloc());
        println!(rt; "push: status {}, {taken} bytes", status.code())?;
    }
    Ok(())
}
