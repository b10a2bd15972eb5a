//! Generated runs. The last values are sums, maxima and minima of words of PCG64 at the seed, worked out apart from this
//! program.

use crate::status::Status;
use crate::top::{describe, portable_call};
use place_core::OpenGate;
use std::alloc::Global;
use std::process::Abort;
use std::sync::Wait;
use std::test::Fail;
use std::thread::Threads;
use work_lang::{MemSink, MemSource, Source};

const SEVEN: &str = "many 7 8 10000
n8 231 fixed
n16 -19995 fixed
m32 4294463740 fixed
s32 -2147468978 fixed
x64 1806257807127200244 fixed
o8 255 fixed
a16 0 fixed
w128 11442271232538470620003 fixed
";

const NONE: &str = "many 7 1 0
n8 0 fixed
n16 0 fixed
m32 0 fixed
s32 0 fixed
x64 0 fixed
o8 0 fixed
a16 65535 fixed
w128 0 fixed
";

fn words_of(alloc: Global, line: &str) -> Result<Vec<String>, Fail> {
    let mut words = Vec::new(alloc);
    for word in line.split(' ') {
        words.push(String::from_str(alloc, word)?)?;
    }
    Ok(words)
}

/// What the words write; the source stays as it was.
fn assert_written<R: Threads + Wait + Sync + Abort>(
    rt: &R,
    alloc: Global,
    line: &str,
    wanted: &str,
) -> Result<(), Fail> {
    let words = words_of(alloc, line)?;
    let mut source = MemSource::of(alloc, b"untouched", 4096, &[])?;
    let mut sink = MemSink::of(alloc, 4096, 4096, &[])?;
    let outcome = portable_call(rt, alloc, &words, &mut source, &mut sink, &OpenGate);
    assert_eq!(rt; outcome.status, Status::Done, "{line}");
    assert!(rt; outcome.ended.is_some(), "{line}");
    assert_eq!(rt; str::from_utf8(sink.bytes())?, wanted, "{line}");
    let mut left = [0u8; 16];
    assert_eq!(rt; source.read(&mut left), Ok(9), "{line}");
    Ok(())
}

#[test]
fn eight_threads_end_alike(rt: HostRuntime) -> Result<(), Fail> {
    let alloc = rt.alloc();
    assert_written(&rt, alloc, "many 7 8 10000", SEVEN)?;
    assert_written(&rt, alloc, "many 7 8 10000", SEVEN)?;
    assert_written(&rt, alloc, "many -- 7 1 0", NONE)?;
    assert_written(&rt, alloc, "many 7 1 0", NONE)
}

#[test]
fn a_generated_run_is_no_description(rt: HostRuntime) -> Result<(), Fail> {
    let alloc = rt.alloc();
    let words = words_of(alloc, "many 7 1 0")?;
    let mut source = MemSource::of(alloc, b"untouched", 4096, &[])?;
    let mut sink = MemSink::of(alloc, 4096, 4096, &[])?;
    assert_eq!(rt;
        describe(alloc, &words, &mut source, &mut sink),
        Status::Usage
    );
    assert_eq!(rt; sink.bytes().len(), 0);
    Ok(())
}

/// The first line is kept where the second write fails, and the run has ended.
#[test]
fn a_write_fails_in_the_last_values(rt: HostRuntime) -> Result<(), Fail> {
    let alloc = rt.alloc();
    let words = words_of(alloc, "many 7 1 0")?;
    let mut source = MemSource::of(alloc, b"", 4096, &[])?;
    let mut sink = MemSink::of(alloc, 4096, 4096, &[2])?;
    let outcome = portable_call(&rt, alloc, &words, &mut source, &mut sink, &OpenGate);
    assert_eq!(rt; outcome.status, Status::WriteFault);
    assert!(rt; outcome.ended.is_some());
    assert_eq!(rt; sink.bytes(), b"many 7 1 0\n".as_slice());
    Ok(())
}
