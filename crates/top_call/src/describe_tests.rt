//! What describes and doesn't run, and runs on other targets. What is wanted was worked out from the grammar, the
//! layout and the table of plans.

use crate::status::Status;
use crate::top::{describe, portable_call};
use place_core::OpenGate;
use std::alloc::Global;
use std::process::Abort;
use std::sync::Wait;
use std::test::Fail;
use std::thread::Threads;
use work_lang::{MemSink, MemSource, Source};

mod second;

/// What a command on a text came to: its status, what was written, and how many bytes were left.
#[derive(Drop)]
struct Ended {
    status: Status,
    text: String,
    left: usize,
}

/// The words of a line.
fn words_of(alloc: Global, line: &str) -> Result<Vec<String>, Fail> {
    let mut words = Vec::new(alloc);
    for word in line.split(' ') {
        words.push(String::from_str(alloc, word)?)?;
    }
    Ok(words)
}

/// The top call, with a sink that fails at these writes.
fn called<R: Threads + Wait + Sync>(
    rt: &R,
    alloc: Global,
    line: &str,
    text: &str,
    fails: &[u64],
) -> Result<Ended, Fail> {
    let words = words_of(alloc, line)?;
    let mut source = MemSource::of(alloc, text.as_bytes(), 4096, &[])?;
    let mut sink = MemSink::of(alloc, 131072, 4096, fails)?;
    let status = portable_call(rt, alloc, &words, &mut source, &mut sink, &OpenGate).status;
    let mut rest = [0u8; 4096];
    let left = source.read(&mut rest).ok().ok_or("a read")?;
    let text = String::from_str(alloc, str::from_utf8(sink.bytes())?)?;
    Ok(Ended { status, text, left })
}

/// So many objects of a kind, each with the letter and its number as its name.
fn objects_of(
    alloc: Global,
    target: &str,
    letter: char,
    kind: &str,
    count: u32,
) -> Result<String, Fail> {
    let mut text = format!(in alloc; "work 1\ntarget {target}\n")?;
    for number in 0..count {
        text.push_str(&format!(in alloc; "object {letter}{number} {kind} 0\n")?)?;
    }
    Ok(text)
}

fn assert_has(rt: &impl Abort, text: &str, lines: &str) {
    for line in lines.lines() {
        assert!(rt; text.lines().any(|each| each == line), "{line}");
    }
}

const TARGETS: &str = "full64 64 apart swap+add+bits+order 67 locks
word64 64 packed swap+add+bits+order 67 locks
word32 32 packed swap+add+bits+order 67 locks
cas32 32 packed none 67 locks
section32 32 apart none 1 section
";

#[test]
fn tells_the_targets(rt: HostRuntime) -> Result<(), Fail> {
    let ended = called(&rt, rt.alloc(), "targets", "untouched", &[])?;
    assert_eq!(rt; ended.status, Status::Done);
    assert_eq!(rt; ended.text.as_str(), TARGETS);
    assert_eq!(rt; ended.left, 9);
    let stopped = called(&rt, rt.alloc(), "targets", "", &[3])?;
    assert_eq!(rt; stopped.status, Status::WriteFault);
    assert_eq!(rt;
        stopped.text.as_str(),
        "full64 64 apart swap+add+bits+order 67 locks\nword64 64 packed swap+add+bits+order 67 locks\n"
    );
    Ok(())
}

#[test]
fn checks_to_the_canonical_text(rt: HostRuntime) -> Result<(), Fail> {
    let ended = called(
        &rt,
        rt.alloc(),
        "check",
        "# demo\n\nwork 1\ntarget 64 packed swap+add+bits+order 67 locks\nobject  n usize 3\nthread\nn compare_exchange 3 4 seq_cst seq_cst\nn load acquire\nend",
        &[],
    )?;
    assert_eq!(rt; ended.status, Status::Done);
    assert_eq!(rt;
        ended.text.as_str(),
        "work 1\ntarget word64\nobject n u64 3\nthread\nn compare_exchange 3 4\nn load acquire\nend\n"
    );
    assert_eq!(rt; ended.left, 0);
    Ok(())
}

const WIDE: &str = "work 1\ntarget cas32\nobject u u32 0\nobject g u64 0\n";

#[test]
fn plans_words_and_parts(rt: HostRuntime) -> Result<(), Fail> {
    let ended = called(&rt, rt.alloc(), "plan", WIDE, &[])?;
    assert_eq!(rt; ended.status, Status::Done);
    assert_eq!(rt; ended.text.lines().count(), 65);
    let head = "target cas32
u u32 address 0 word 0 shift 32 lock_free true
u load one
u store one
u swap loop
u compare_exchange one
u compare_exchange_weak one
u fetch_add loop
";
    assert!(rt; ended.text.starts_with(head));
    assert_has(
        &rt,
        &ended.text,
        "g u64 address 8 parts 2 first 2 lock 8 lock_free false
g load locked",
    );
    let stopped = called(&rt, rt.alloc(), "plan", WIDE, &[2])?;
    assert_eq!(rt; stopped.status, Status::WriteFault);
    assert_eq!(rt; stopped.text.as_str(), "target cas32\n");
    Ok(())
}

#[test]
fn plans_neighbours(rt: HostRuntime) -> Result<(), Fail> {
    let text = objects_of(rt.alloc(), "word64", 'c', "u8", 8)?;
    let ended = called(&rt, rt.alloc(), "plan", &text, &[])?;
    assert_eq!(rt; ended.status, Status::Done);
    assert_has(
        &rt,
        &ended.text,
        "c0 u8 address 0 word 0 shift 0 lock_free true
c7 u8 address 7 word 0 shift 56 lock_free true
c7 fetch_add one
c6 fetch_add loop
c0 fetch_and one
c0 store loop",
    );
    Ok(())
}

#[test]
fn plans_locks_by_address(rt: HostRuntime) -> Result<(), Fail> {
    let text = objects_of(rt.alloc(), "word64", 'q', "u128", 68)?;
    let ended = called(&rt, rt.alloc(), "plan", &text, &[])?;
    assert_eq!(rt; ended.status, Status::Done);
    assert_has(
        &rt,
        &ended.text,
        "q0 u128 address 0 parts 2 first 0 lock 0 lock_free false
q67 u128 address 1072 parts 2 first 134 lock 0 lock_free false",
    );
    Ok(())
}

#[test]
fn plans_on_another_target(rt: HostRuntime) -> Result<(), Fail> {
    let ended = called(&rt, rt.alloc(), "plan --target section32", WIDE, &[])?;
    assert_eq!(rt; ended.status, Status::Done);
    assert_has(
        &rt,
        &ended.text,
        "target section32
u u32 address 0 parts 1 first 0 lock 0 lock_free false
u load locked
g u64 address 8 parts 2 first 2 lock 0 lock_free false",
    );
    Ok(())
}

const ANYWHERE: &str = "work 1
target full64
object a u8 200
object d i16 -5
object w u128 340282366920938463463374607431768211455
thread
a fetch_sub 201
d fetch_max 3
w fetch_xor 1
w bit_clear 127
end
";

const ANYWHERE_REPORT: &str = "thread 1
a fetch_sub 201 = 200
d fetch_max 3 = -5
w fetch_xor 1 = 340282366920938463463374607431768211455
w bit_clear 127 = true
last
a 255 fixed
d 3 fixed
w 170141183460469231731687303715884105726
";

#[test]
fn runs_alike_on_each_target(rt: HostRuntime) -> Result<(), Fail> {
    let alloc = rt.alloc();
    for target in ["full64", "word64", "word32", "cas32", "section32"] {
        let ended = called(
            &rt,
            alloc,
            &format!(in alloc; "run --target {target}")?,
            ANYWHERE,
            &[],
        )?;
        let wanted = format!(in alloc; "target {target}\n{ANYWHERE_REPORT}")?;
        assert_eq!(rt; ended.status, Status::Done);
        assert_eq!(rt; ended.text.as_str(), wanted.as_str());
    }
    Ok(())
}

/// Each form that reads tells the first fault of its text.
#[test]
fn each_form_refuses(rt: HostRuntime) -> Result<(), Fail> {
    for line in [
        "run",
        "check",
        "plan",
        "convert",
        "run --target cas32",
        "plan --target=cas32",
    ] {
        let ended = called(
            &rt,
            rt.alloc(),
            line,
            "work 1\ntarget 64 packed swap 68 locks\n",
            &[],
        )?;
        assert_eq!(rt; ended.status, Status::Refused, "{line}");
        assert_eq!(rt; ended.text.as_str(), "line 2 word 5 BadTarget\n", "{line}");
    }
    Ok(())
}

/// Each form that reads tells nothing where a read fails.
#[test]
fn each_form_needs_its_text(rt: HostRuntime) -> Result<(), Fail> {
    let alloc = rt.alloc();
    for line in [
        "run",
        "check",
        "plan",
        "convert",
        "run --target cas32",
        "plan --target cas32",
    ] {
        let words = words_of(alloc, line)?;
        let mut source = MemSource::of(alloc, WIDE.as_bytes(), 10, &[2])?;
        let mut sink = MemSink::of(alloc, 131072, 4096, &[])?;
        let status = portable_call(&rt, alloc, &words, &mut source, &mut sink, &OpenGate).status;
        assert_eq!(rt; status, Status::ReadFault, "{line}");
        assert!(rt; sink.bytes().is_empty(), "{line}");
    }
    Ok(())
}

/// Each form keeps its first line where its second write fails.
#[test]
fn each_form_stops_where_a_write_fails(rt: HostRuntime) -> Result<(), Fail> {
    for (line, first) in [
        ("run", "target cas32\n"),
        ("run --target full64", "target full64\n"),
        ("check", "work 1\n"),
        ("convert", "work 2\n"),
        ("plan", "target cas32\n"),
        ("plan --target word32", "target word32\n"),
    ] {
        let ended = called(&rt, rt.alloc(), line, WIDE, &[2])?;
        assert_eq!(rt; ended.status, Status::WriteFault, "{line}");
        assert_eq!(rt; ended.text.as_str(), first, "{line}");
    }
    Ok(())
}

/// What is read of a text whose last lines are missing: the fault, where it has one.
#[test]
fn a_cut_text_is_told(rt: HostRuntime) -> Result<(), Fail> {
    let lines = [
        "work 1\n",
        "target full64\n",
        "object n u64 0\n",
        "thread\n",
        "n fetch_add 5\n",
        "n load\n",
        "end\n",
    ];
    let told = [
        "line 0 word 0 Missing\n",
        "line 1 word 0 Missing\n",
        "",
        "",
        "line 4 word 0 Unclosed\n",
        "line 5 word 0 Unclosed\n",
        "line 6 word 0 Unclosed\n",
        "",
    ];
    let mut text = String::new(rt.alloc());
    for (count, fault) in told.iter().enumerate() {
        let ended = called(&rt, rt.alloc(), "check", &text, &[])?;
        let (status, whole) = match fault.is_empty() {
            true => (Status::Done, text.as_str()),
            false => (Status::Refused, *fault),
        };
        assert_eq!(rt; ended.status, status, "at {count} lines");
        assert_eq!(rt; ended.text.as_str(), whole, "at {count} lines");
        if let Some(line) = lines.get(count) {
            text.push_str(line)?;
        }
    }
    Ok(())
}

#[test]
fn describing_runs_nothing(rt: HostRuntime) -> Result<(), Fail> {
    let alloc = rt.alloc();
    for (line, wanted) in [
        ("run", Status::Usage),
        ("run --target full64", Status::Usage),
        ("checks", Status::Usage),
        ("check", Status::Done),
        ("convert", Status::Done),
        ("plan", Status::Done),
        ("many 7 1 0", Status::Usage),
        ("targets", Status::Done),
    ] {
        let words = words_of(alloc, line)?;
        let mut source = MemSource::of(alloc, WIDE.as_bytes(), 4096, &[])?;
        let mut sink = MemSink::of(alloc, 131072, 4096, &[])?;
        let status = describe(alloc, &words, &mut source, &mut sink);
        assert_eq!(rt; status, wanted, "{line}");
        assert_eq!(rt; sink.bytes().is_empty(), wanted == Status::Usage, "{line}");
    }
    Ok(())
}
