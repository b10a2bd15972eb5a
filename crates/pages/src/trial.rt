//! Runs of the program in memory.

use crate::compared::Compared;
use anyhow::{Result, bail};
use place_core::OpenGate;
use std::alloc::{AllocError, Global};
use std::sync::Wait;
use std::thread::Threads;
use top_call::{Status, portable_call};
use work_lang::{MemSink, SureSource};

/// How many bytes the program may write.
const ROOM: usize = 1 << 20;

/// What the program must write.
#[derive(Clone, Copy)]
pub struct Wanted<'a> {
    /// The page with the text.
    pub page: &'a str,
    /// The page's line with the text's first line.
    pub line: usize,
    /// What is written, or what of it is the same at every run.
    pub text: &'a str,
    /// How much of it.
    pub compared: Compared,
}

/// The words of a line.
pub fn words_of(alloc: Global, line: &str) -> Result<Vec<String>, AllocError> {
    let mut words = Vec::new(alloc);
    for word in line.split_whitespace() {
        words.push(String::from_str(alloc, word)?)?;
    }
    Ok(words)
}

/// Runs the program. Answers its status; what it writes is in the sink.
fn run<R: Threads + Wait + Sync + AllocGlobal>(
    rt: &R,
    words: &[String],
    input: &str,
    sink: &mut MemSink,
) -> Status {
    let mut source = SureSource::of(input.as_bytes());
    portable_call(rt, rt.alloc(), words, &mut source, sink, &OpenGate).status
}

/// A sink with room for all that the program writes.
fn sink(alloc: Global) -> Result<MemSink> {
    match MemSink::of(alloc, ROOM, ROOM, &[]) {
        Ok(sink) => Ok(sink),
        Err(_) => bail!("out of memory"),
    }
}

/// Whether the program serves these words and writes the text. It prints where it doesn't.
pub fn writes<R: Threads + Wait + Sync + Eprint + AllocGlobal>(
    rt: &R,
    words: &[String],
    input: &str,
    wanted: Wanted,
) -> Result<bool> {
    let mut sink = sink(rt.alloc())?;
    let status = run(rt, words, input, &mut sink);
    let Wanted {
        page,
        line,
        text,
        compared,
    } = wanted;
    if !matches!(status, Status::Done | Status::Refused) {
        eprintln!(rt;
            "{page} line {line}: the program ends with status {}",
            status.code()
        )?;
        return Ok(false);
    }
    let written = std::str::from_utf8(sink.bytes())?;
    let Some(at) = compared.difference(text, written) else {
        return Ok(true);
    };
    let line = line.saturating_add(at);
    eprintln!(rt; "{page} line {line}: the program writes\n{written}")?;
    Ok(false)
}

/// Whether these words are none of the program's, so that it writes nothing. It prints where they are.
pub fn refuses<R: Threads + Wait + Sync + Eprint + AllocGlobal>(
    rt: &R,
    words: &[String],
    page: &str,
    line: usize,
) -> Result<bool> {
    let mut sink = sink(rt.alloc())?;
    let status = run(rt, words, "", &mut sink);
    let refused = status == Status::Usage && sink.bytes().is_empty();
    if !refused {
        eprintln!(rt;
            "{page} line {line}: the program ends with status {}",
            status.code()
        )?;
    }
    Ok(refused)
}
