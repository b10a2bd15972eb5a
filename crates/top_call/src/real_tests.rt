//! The program over readers and writers of std that are interrupted, fail, or give and take one byte at a time.

use crate::real::{ReadSource, WriteSink};
use crate::status::Status;
use crate::top::portable_call;
use place_core::OpenGate;
use std::alloc::Global;
use std::io::{self, ErrorKind, Read, Write};
use std::sync::Wait;
use std::test::Fail;
use std::thread::Threads;
use work_lang::{Failed, MemSink, Sink, Source, SureSource};

const TEXT: &[u8] = b"work 1\ntarget full64\nobject n u64 0\nthread\nn fetch_add 5\nn load\nend\n";

const REPORT: &[u8] = b"target full64\nthread 1\nn fetch_add 5 = 0\nn load = 5\nlast\nn 5 fixed\n";

/// The calls of a reader or a writer, counted from 1: one is interrupted, and one fails.
#[derive(Clone, Copy)]
struct Calls {
    made: u64,
    interrupted: u64,
    fails: u64,
}

impl Calls {
    /// Counts a call, and says how it ends where it gives and takes nothing.
    fn next(&mut self) -> Option<ErrorKind> {
        self.made = self.made.saturating_add(1);
        if self.made == self.interrupted {
            return Some(ErrorKind::Interrupted);
        }
        if self.made == self.fails {
            return Some(ErrorKind::Other);
        }
        None
    }
}

/// A reader that gives one byte a read.
#[derive(Drop)]
struct SlowReader<'a> {
    rest: &'a [u8],
    calls: Calls,
}

impl Read for SlowReader<'_> {
    fn read(&mut self, buf: &mut [u8]) -> io::Result<usize> {
        if let Some(kind) = self.calls.next() {
            return Err(kind.into());
        }
        let count = buf.len().min(self.rest.len()).min(1);
        buf[..count].copy_from_slice(&self.rest[..count]);
        self.rest = &self.rest[count..];
        Ok(count)
    }
}

/// A writer that takes one byte a write.
#[derive(Drop)]
struct SlowWriter {
    bytes: Vec<u8>,
    calls: Calls,
}

impl Write for SlowWriter {
    fn write(&mut self, buf: &[u8]) -> io::Result<usize> {
        if let Some(kind) = self.calls.next() {
            return Err(kind.into());
        }
        let count = buf.len().min(1);
        self.bytes.extend_from_slice(&buf[..count])?;
        Ok(count)
    }

    fn flush(&mut self) -> io::Result<()> {
        match self.calls.next() {
            Some(kind) => Err(kind.into()),
            None => Ok(()),
        }
    }
}

fn words_of(alloc: Global, word: &str) -> Result<Vec<String>, Fail> {
    let mut words = Vec::new(alloc);
    words.push(String::from_str(alloc, word)?)?;
    Ok(words)
}

/// Runs the text from a reader whose calls end as given.
fn run_from<R: Threads + Wait + Sync>(
    rt: &R,
    alloc: Global,
    calls: Calls,
    sink: &mut MemSink,
) -> Result<Status, Fail> {
    let words = words_of(alloc, "run")?;
    let mut source = ReadSource::new(SlowReader { rest: TEXT, calls });
    Ok(portable_call(rt, alloc, &words, &mut source, sink, &OpenGate).status)
}

/// Runs the text into a writer, closes the sink over it, and says how both ended.
fn run_into<R: Threads + Wait + Sync, W: Write + Drop>(
    rt: &R,
    alloc: Global,
    writer: W,
) -> Result<(Status, Result<W, Failed>), Fail> {
    let words = words_of(alloc, "run")?;
    let mut source = SureSource::of(TEXT);
    let mut sink = WriteSink::new(alloc, writer).ok().ok_or("memory")?;
    let status = portable_call(rt, alloc, &words, &mut source, &mut sink, &OpenGate).status;
    Ok((status, sink.close()))
}

#[test]
fn a_reader_may_be_interrupted(rt: HostRuntime) -> Result<(), Fail> {
    for interrupted in [1, 2, 69] {
        let calls = Calls {
            made: 0,
            interrupted,
            fails: 0,
        };
        let mut sink = MemSink::of(rt.alloc(), 4096, 4096, &[])?;
        let status = run_from(&rt, rt.alloc(), calls, &mut sink)?;
        assert_eq!(rt; status, Status::Done, "at read {interrupted}");
        assert_eq!(rt; sink.bytes(), REPORT, "at read {interrupted}");
    }
    Ok(())
}

#[test]
fn a_reader_that_fails_is_told(rt: HostRuntime) -> Result<(), Fail> {
    let calls = Calls {
        made: 0,
        interrupted: 1,
        fails: 3,
    };
    let mut source = ReadSource::new(SlowReader { rest: TEXT, calls });
    let mut buffer = [0u8; 8];
    assert_eq!(rt; source.read(&mut buffer), Ok(1));
    assert_eq!(rt; source.read(&mut buffer), Err(Failed));
    assert_eq!(rt; source.read(&mut buffer), Ok(1));
    assert_eq!(rt; &buffer[..1], b"o".as_slice());
    let mut sink = MemSink::of(rt.alloc(), 4096, 4096, &[])?;
    let status = run_from(&rt, rt.alloc(), calls, &mut sink)?;
    assert_eq!(rt; status, Status::ReadFault);
    assert!(rt; sink.bytes().is_empty());
    Ok(())
}

#[test]
fn a_writer_may_be_slow_and_interrupted(rt: HostRuntime) -> Result<(), Fail> {
    for interrupted in [1, 2, 68] {
        let calls = Calls {
            made: 0,
            interrupted,
            fails: 0,
        };
        let bytes = Vec::new(rt.alloc());
        let (status, closed) = run_into(&rt, rt.alloc(), SlowWriter { bytes, calls })?;
        assert_eq!(rt; status, Status::Done, "at write {interrupted}");
        let writer = closed.ok().ok_or("a writer")?;
        assert_eq!(rt; writer.bytes.as_slice(), REPORT, "at write {interrupted}");
    }
    Ok(())
}

/// What a writer didn't take before it failed is not handed on later; a failure at the end is told too.
#[test]
fn a_writer_that_fails_is_told_once(rt: HostRuntime) -> Result<(), Fail> {
    for (fails, taken) in [(1, 0), (5, 4), (67, 66), (68, 67)] {
        let calls = Calls {
            made: 0,
            interrupted: 0,
            fails,
        };
        let mut writer = SlowWriter {
            bytes: Vec::new(rt.alloc()),
            calls,
        };
        let (status, closed) = run_into(&rt, rt.alloc(), &mut writer)?;
        assert_eq!(rt; status, Status::Done, "at write {fails}");
        assert!(rt; closed.is_err(), "at write {fails}");
        assert_eq!(rt;
            writer.bytes.as_slice(),
            &REPORT[..taken],
            "at write {fails}"
        );
        assert_eq!(rt; writer.calls.made, fails, "at write {fails}");
    }
    Ok(())
}

#[test]
fn a_long_piece_goes_past_the_buffer(rt: HostRuntime) -> Result<(), Fail> {
    let piece = vec![in rt.alloc(); b'#'; 65_536]?;
    let calls = Calls {
        made: 0,
        interrupted: 1,
        fails: 3,
    };
    let bytes = Vec::new(rt.alloc());
    let mut sink = WriteSink::new(rt.alloc(), SlowWriter { bytes, calls })
        .ok()
        .ok_or("memory")?;
    assert_eq!(rt; sink.write(&piece), Ok(1));
    assert_eq!(rt; sink.write(&piece), Err(Failed));
    assert_eq!(rt; sink.write(b"last\n"), Ok(5));
    let writer = sink.close().ok().ok_or("a writer")?;
    assert_eq!(rt; writer.bytes.as_slice(), b"#last\n".as_slice());
    Ok(())
}
