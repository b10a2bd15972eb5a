//! The program over sources and sinks in memory.

use crate::command::{Command, read_words};
use crate::status::Status;
use crate::top::portable_call;
use place_core::OpenGate;
use std::alloc::Global;
use std::process::Abort;
use std::sync::Wait;
use std::test::Fail;
use std::thread::Threads;
use target_desc::builtin;
use work_lang::{MemSink, MemSource, Sink, Source, SureSink, SureSource};

const FIRST: &[u8] = b"work 1\ntarget full64\nobject n u64 0\nthread\nn fetch_add 5\nn load\nend\n";

const FIRST_REPORT: &[u8] =
    b"target full64\nthread 1\nn fetch_add 5 = 0\nn load = 5\nlast\nn 5 fixed\n";

fn words_of(alloc: Global, words: &[&str]) -> Result<Vec<String>, Fail> {
    let mut made = Vec::new(alloc);
    for word in words {
        made.push(String::from_str(alloc, word)?)?;
    }
    Ok(made)
}

fn source_of(alloc: Global, text: &[u8], most: usize, fails: &[u64]) -> Result<MemSource, Fail> {
    if most == 0 {
        return Err("a read gives something".into());
    }
    let source = MemSource::of(alloc, text, most, fails)
        .ok()
        .ok_or("memory")?;
    Ok(source)
}

fn sink_of(alloc: Global, most: usize, fails: &[u64]) -> Result<MemSink, Fail> {
    if most == 0 {
        return Err("a write takes something".into());
    }
    let sink = MemSink::of(alloc, 4096, most, fails).ok().ok_or("memory")?;
    Ok(sink)
}

#[test]
fn adds_five_and_loads(rt: HostRuntime) -> Result<(), Fail> {
    let alloc = rt.alloc();
    let run = words_of(alloc, &["run"])?;
    for (read, write) in [(4096, 4096), (10, 4096), (1, 1)] {
        let mut source = source_of(alloc, FIRST, read, &[])?;
        let mut sink = sink_of(alloc, write, &[])?;
        let status = portable_call(&rt, alloc, &run, &mut source, &mut sink, &OpenGate).status;
        assert_eq!(rt; status, Status::Done, "at {read} bytes a read");
        assert_eq!(rt; sink.bytes(), FIRST_REPORT, "at {write} bytes a write");
    }
    Ok(())
}

#[test]
fn writes_nothing_where_a_read_fails(rt: HostRuntime) -> Result<(), Fail> {
    let alloc = rt.alloc();
    let run = words_of(alloc, &["run"])?;
    let mut source = source_of(alloc, FIRST, 10, &[2])?;
    let mut sink = sink_of(alloc, 4096, &[])?;
    let status = portable_call(&rt, alloc, &run, &mut source, &mut sink, &OpenGate).status;
    assert_eq!(rt; status, Status::ReadFault);
    assert_eq!(rt; sink.bytes().len(), 0);
    Ok(())
}

#[test]
fn keeps_the_lines_before_a_write_that_fails(rt: HostRuntime) -> Result<(), Fail> {
    let alloc = rt.alloc();
    let run = words_of(alloc, &["run"])?;
    for (number, end) in [(1, 0), (2, 14), (3, 23), (4, 41), (5, 52), (6, 57)] {
        let mut source = source_of(alloc, FIRST, 4096, &[])?;
        let mut sink = sink_of(alloc, 4096, &[number])?;
        let outcome = portable_call(&rt, alloc, &run, &mut source, &mut sink, &OpenGate);
        assert_eq!(rt; outcome.status, Status::WriteFault, "at write {number}");
        assert!(rt; outcome.ended.is_some(), "at write {number}");
        assert_eq!(rt; sink.bytes(), &FIRST_REPORT[..end], "at write {number}");
    }
    let mut source = source_of(alloc, FIRST, 4096, &[])?;
    let mut sink = sink_of(alloc, 4096, &[7])?;
    let status = portable_call(&rt, alloc, &run, &mut source, &mut sink, &OpenGate).status;
    assert_eq!(rt; status, Status::Done);
    assert_eq!(rt; sink.bytes(), FIRST_REPORT);
    Ok(())
}

#[test]
fn tells_the_first_fault(rt: HostRuntime) -> Result<(), Fail> {
    let alloc = rt.alloc();
    let run = words_of(alloc, &["run"])?;
    let cases: [(&[u8], &[u8]); 4] = [
        (b"", b"line 0 word 0 Missing\n"),
        (b"work 3\n", b"line 1 word 2 Version\n"),
        (
            b"work 1\ntarget full64\nobject n u64 12x\n",
            b"line 3 word 4 BadNumber\n",
        ),
        (
            b"work 1\ntarget full64\nobject n u64 0\nthread\nn load\n",
            b"line 5 word 0 Unclosed\n",
        ),
    ];
    for (text, told) in cases {
        let mut source = source_of(alloc, text, 4096, &[])?;
        let mut sink = sink_of(alloc, 4096, &[])?;
        let status = portable_call(&rt, alloc, &run, &mut source, &mut sink, &OpenGate).status;
        assert_eq!(rt; status, Status::Refused);
        assert_eq!(rt; sink.bytes(), told);
    }
    Ok(())
}

#[test]
fn keeps_nothing_of_a_fault_that_cannot_be_told(rt: HostRuntime) -> Result<(), Fail> {
    let alloc = rt.alloc();
    let run = words_of(alloc, &["run"])?;
    let text = b"work 1\ntarget word64\nobject a u8 0\nthread\na load release\nend\n";
    let mut source = source_of(alloc, text, 4096, &[])?;
    let mut sink = sink_of(alloc, 4096, &[1])?;
    let outcome = portable_call(&rt, alloc, &run, &mut source, &mut sink, &OpenGate);
    assert_eq!(rt; outcome.status, Status::WriteFault);
    assert!(rt; outcome.ended.is_none());
    assert_eq!(rt; sink.bytes().len(), 0);
    Ok(())
}

/// Words that are no form: clap has a fault at them, they name no subcommand, or a value isn't of its form.
#[test]
fn refuses_other_words(rt: HostRuntime) -> Result<(), Fail> {
    let alloc = rt.alloc();
    let cases: [&[&str]; 29] = [
        &[],
        &[""],
        &["--"],
        &["--", "run"],
        &["--help"],
        &["-h"],
        &["help"],
        &["run", "--help"],
        &["RUN"],
        &["run", "run"],
        &["check", "targets"],
        &["run", "--target"],
        &["run", "--target="],
        &["run", "--target", "none"],
        &["run", "--target", "--", "full64"],
        &["run", "--target", "full64", "--target", "full64"],
        &["run", "--target", "full64", "full64"],
        &["--target", "full64", "run"],
        &["plan", "--target", "64"],
        &["check", "--target", "full64"],
        &["convert", "--target", "full64"],
        &["targets", ""],
        &["many", "7", "1"],
        &["many", "7", "0", "5"],
        &["many", "7", "65", "1"],
        &["many", "7", "64", "65536"],
        &["many", "-1", "1", "1"],
        &["many", "18446744073709551616", "1", "0"],
        &["many", "07", "1", "0"],
    ];
    for words in cases {
        let words = words_of(alloc, words)?;
        let mut source = source_of(alloc, FIRST, 4096, &[])?;
        let mut sink = sink_of(alloc, 4096, &[])?;
        let status = portable_call(&rt, alloc, &words, &mut source, &mut sink, &OpenGate).status;
        assert_eq!(rt; status, Status::Usage);
        assert_eq!(rt; sink.bytes().len(), 0);
        let mut left = [0u8; 256];
        assert_eq!(rt; source.read(&mut left), Ok(FIRST.len()));
    }
    Ok(())
}

#[test]
fn each_form_asks_for_its_command(rt: HostRuntime) -> Result<(), Fail> {
    let alloc = rt.alloc();
    let target = builtin(b"word32");
    let many = Command::Many {
        seed: 18446744073709551615,
        threads: 64,
        calls: 15625,
    };
    let cases: [(&[&str], Command); 12] = [
        (&["run"], Command::Run { target: None }),
        (&["run", "--"], Command::Run { target: None }),
        (&["run", "--target", "word32"], Command::Run { target }),
        (&["run", "--target=word32"], Command::Run { target }),
        (
            &["run", "--target", "word32", "--"],
            Command::Run { target },
        ),
        (&["plan"], Command::Plan { target: None }),
        (&["plan", "--target=word32"], Command::Plan { target }),
        (&["check"], Command::Check),
        (&["convert"], Command::Convert),
        (&["targets"], Command::Targets),
        (&["many", "18446744073709551615", "64", "15625"], many),
        (&["many", "18446744073709551615", "--", "64", "15625"], many),
    ];
    for (words, command) in cases {
        let words = words_of(alloc, words)?;
        assert_eq!(rt; read_words(alloc, &words), Ok(command));
    }
    Ok(())
}

#[test]
fn serves_a_text_without_a_thread(rt: HostRuntime) -> Result<(), Fail> {
    let alloc = rt.alloc();
    let run = words_of(alloc, &["run"])?;
    let text = b"# no thread\nwork 1\n\n  target   full64\nobject top u64 18446744073709551615";
    let mut source = SureSource::of(text);
    let mut sink = sink_of(alloc, 4096, &[])?;
    let status = portable_call(&rt, alloc, &run, &mut source, &mut sink, &OpenGate).status;
    assert_eq!(rt; status, Status::Done);
    assert_eq!(rt;
        sink.bytes(),
        b"target full64\nlast\ntop 18446744073709551615 fixed\n".as_slice()
    );
    let mut counted = SureSink::new();
    let mut again = SureSource::of(text);
    let status = portable_call(&rt, alloc, &run, &mut again, &mut counted, &OpenGate).status;
    assert_eq!(rt; status, Status::Done);
    assert_eq!(rt; counted.taken(), 50);
    Ok(())
}

#[test]
fn an_addition_wraps(rt: HostRuntime) -> Result<(), Fail> {
    let alloc = rt.alloc();
    let run = words_of(alloc, &["run"])?;
    let text =
        b"work 1\ntarget full64\nobject n u64 18446744073709551615\nobject m u64 7\nthread\nn fetch_add 2 seq_cst\nm load\nn load\nend";
    let mut source = SureSource::of(text);
    let mut sink = sink_of(alloc, 4096, &[])?;
    let status = portable_call(&rt, alloc, &run, &mut source, &mut sink, &OpenGate).status;
    assert_eq!(rt; status, Status::Done);
    let report =
        b"target full64\nthread 1\nn fetch_add 2 = 18446744073709551615\nm load = 7\nn load = 1\nlast\nn 1 fixed\nm 7 fixed\n";
    assert_eq!(rt; sink.bytes(), report.as_slice());
    Ok(())
}

/// Runs a text, and compares what was written.
fn assert_report<R: Threads + Wait + Sync + Abort>(
    rt: &R,
    alloc: Global,
    objects: &str,
    calls: &str,
    report: &str,
) -> Result<(), Fail> {
    let run = words_of(alloc, &["run"])?;
    let text = format!(in alloc; "work 1\ntarget full64\n{objects}\nthread\n{calls}\nend\n")?;
    let mut source = SureSource::of(text.as_bytes());
    let mut sink = sink_of(alloc, 4096, &[])?;
    let status = portable_call(rt, alloc, &run, &mut source, &mut sink, &OpenGate).status;
    assert_eq!(rt; status, Status::Done);
    let whole = format!(in alloc; "target full64\nthread 1\n{report}\n")?;
    assert_eq!(rt; sink.bytes(), whole.as_bytes());
    Ok(())
}

#[test]
fn each_kind_has_its_calls(rt: HostRuntime) -> Result<(), Fail> {
    let objects = "object a i8 -128
object b u8 12
object c i16 -5
object d u8 0
object e u8 4
object m u128 340282366920938463463374607431768211455";
    let calls = "a fetch_neg
b fetch_nand 10
c fetch_max 3
c fetch_min -32768
d bit_set 3
d bit_set 11
e compare_exchange 3 9
e compare_exchange 4 9
e compare_exchange_weak 9 4
m fetch_add 1";
    let report = "a fetch_neg = -128
b fetch_nand 10 = 12
c fetch_max 3 = -5
c fetch_min -32768 = 3
d bit_set 3 = false
d bit_set 11 = true
e compare_exchange 3 9 = err 4
e compare_exchange 4 9 = ok 4
e compare_exchange_weak 9 4 = ok 9
m fetch_add 1 = 340282366920938463463374607431768211455
last
a -128
b 247
c -32768
d 8 fixed
e 4
m 0 fixed";
    assert_report(&rt, rt.alloc(), objects, calls, report)
}

#[test]
fn quiet_calls_and_pointers_are_printed(rt: HostRuntime) -> Result<(), Fail> {
    let objects = "object f bool true
object n isize -3
object p ptr 0xffffffffffffffff";
    let calls = "f xor true
f fetch_not
f store true
n add 5
n sub -1
n not
n neg
p fetch_byte_add 0x11
p fetch_byte_sub 0x1
p fetch_and 0x1f
p swap 0x0
p bit_toggle 63";
    let report = "f xor true = unit
f fetch_not = false
f store true = unit
n add 5 = unit
n sub -1 = unit
n not = unit
n neg = unit
p fetch_byte_add 0x11 = 0xffffffffffffffff
p fetch_byte_sub 0x1 = 0x10
p fetch_and 0x1f = 0xf
p swap 0x0 = 0xf
p bit_toggle 63 = false
last
f true
n 4
p 0x8000000000000000";
    assert_report(&rt, rt.alloc(), objects, calls, report)
}

#[test]
fn orders_are_printed_where_one_is_weaker(rt: HostRuntime) -> Result<(), Fail> {
    let calls = "n load seq_cst
n load acquire
n  store  1  release
n add 1 relaxed
n swap 2 seq_cst
n compare_exchange 2 3 seq_cst seq_cst
n compare_exchange 3 4 seq_cst relaxed
n compare_exchange_weak 5 6 acq_rel acquire";
    let report = "n load = 0
n load acquire = 0
n store 1 release = unit
n add 1 relaxed = unit
n swap 2 = 2
n compare_exchange 2 3 = ok 2
n compare_exchange 3 4 seq_cst relaxed = ok 3
n compare_exchange_weak 5 6 acq_rel acquire = err 4
last
n 4";
    assert_report(&rt, rt.alloc(), "object n usize 0", calls, report)
}
