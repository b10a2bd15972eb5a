//! Runs in which threads get in each other's way. What is wanted was worked out by arithmetic modulo the number of values.

use place_core::{Gate, OpenGate};
use std::alloc::Global;
use std::process::Abort;
use std::sync::Wait;
use std::sync::atomic::{AtomicBool, Ordering};
use std::test::*;
use std::thread::Threads;
use top_call::{Status, portable_call};
use work_lang::{MemSink, SureSource};

/// Targets whose words have 64 or 32 bits, with steps and without, packed and apart, with many locks and with one.
const TARGETS: [&str; 6] = [
    "full64",
    "word64",
    "word32",
    "cas32",
    "section32",
    "64 packed none 1 locks",
];

/// Adds a thread that makes its calls a number of times over.
fn push_thread(text: &mut String, calls: &str, times: u32) -> Result<(), Fail> {
    text.push_str("thread\n")?;
    for _ in 0..times {
        text.push_str(calls)?;
    }
    text.push_str("end\n")?;
    Ok(())
}

/// The lines of a report after `last`.
fn last_of(report: &str) -> Option<&str> {
    let (_, last) = report.split_once("\nlast\n")?;
    Some(last)
}

/// Runs a workload under a gate, and compares the last values.
fn run_ends_at<R: Threads + Wait + Sync + Abort, G: Gate>(
    rt: &R,
    alloc: Global,
    text: &str,
    gate: &G,
    wanted: &str,
) -> Result<(), Fail> {
    let mut words = Vec::new(alloc);
    words.push(String::from_str(alloc, "run")?)?;
    let mut source = SureSource::of(text.as_bytes());
    let mut sink = MemSink::of(alloc, 4_194_304, 65_536, &[])?;
    let outcome = portable_call(rt, alloc, &words, &mut source, &mut sink, gate);
    assert_eq!(rt; outcome.status, Status::Done);
    let report = str::from_utf8(sink.bytes())?;
    assert_eq!(rt; last_of(report), Some(wanted));
    Ok(())
}

/// Runs a workload of these objects and threads on a target, and compares the last values. Each thread makes its calls
/// so many times over.
fn ends_at<R: Threads + Wait + Sync + Abort>(
    rt: &R,
    alloc: Global,
    target: &str,
    objects: &str,
    threads: &[&str],
    times: u32,
    wanted: &str,
) -> Result<(), Fail> {
    let mut text = format!(in alloc; "work 1\ntarget {target}\n{objects}")?;
    for calls in threads {
        push_thread(&mut text, calls, times)?;
    }
    run_ends_at(rt, alloc, &text, &OpenGate, wanted)
}

/// Four threads add to one u128 and subtract from another; on a target with one lock both are under it.
#[test]
fn two_objects_share_a_lock(rt: HostRuntime) -> Result<(), Fail> {
    let both = "a fetch_add 1\nb fetch_sub 1\n";
    for target in TARGETS {
        ends_at(
            &rt,
            rt.alloc(),
            target,
            "object a u128 0\nobject b u128 0\n",
            &[both, both, both, both],
            1000,
            "a 4000 fixed\nb 340282366920938463463374607431768207456 fixed\n",
        )?;
    }
    Ok(())
}

/// Eight threads, each on a u8 of its own: on a packed target of 64 bits they share one word.
#[test]
fn eight_lanes_share_a_word(rt: HostRuntime) -> Result<(), Fail> {
    for target in TARGETS {
        ends_at(
            &rt,
            rt.alloc(),
            target,
            "object a u8 0\nobject b u8 0\nobject c u8 0\nobject d u8 0\nobject e u8 255\nobject f u8 0\nobject g u8 255\nobject h u8 0\n",
            &[
                "a fetch_add 3\n",
                "b fetch_sub 1\n",
                "c fetch_xor 255\n",
                "d fetch_or 85\n",
                "e fetch_and 15\n",
                "f fetch_max 200\n",
                "g fetch_min 9\n",
                "h not\n",
            ],
            1001,
            "a 187 fixed\nb 23 fixed\nc 255 fixed\nd 85 fixed\ne 15 fixed\nf 200 fixed\ng 9 fixed\nh 255 fixed\n",
        )?;
    }
    Ok(())
}

/// Eight threads on one u16 beside a neighbour, by a sum, and by a loop on every target: an even number of negations.
#[test]
fn eight_threads_meet_on_one_lane(rt: HostRuntime) -> Result<(), Fail> {
    let add = "n fetch_add 1\nm fetch_neg\n";
    for target in TARGETS {
        ends_at(
            &rt,
            rt.alloc(),
            target,
            "object n u16 65535\nobject m i16 5\n",
            &[add, add, add, add, add, add, add, add],
            500,
            "n 3999 fixed\nm 5\n",
        )?;
    }
    Ok(())
}

/// Two threads write a u128 and two load it: the loads look first, and take the lock where they miss.
#[test]
fn glances_stand_beside_writers(rt: HostRuntime) -> Result<(), Fail> {
    let add = "w fetch_add 18446744073709551617\n";
    for target in TARGETS {
        ends_at(
            &rt,
            rt.alloc(),
            target,
            "object w u128 0\n",
            &[add, "w load\n", add, "w load\n"],
            2000,
            "w 73786976294838206468000 fixed\n",
        )?;
    }
    Ok(())
}

/// Four threads carry from one word of 32 bits to the next: 4000 times 2^32 + 1.
#[test]
fn sums_carry_over_words(rt: HostRuntime) -> Result<(), Fail> {
    let add = "g fetch_add 4294967297\n";
    for target in TARGETS {
        ends_at(
            &rt,
            rt.alloc(),
            target,
            "object g u64 0\n",
            &[add, add, add, add],
            1000,
            "g 17179869188000 fixed\n",
        )?;
    }
    Ok(())
}

// ---- a stopped caller

/// How often a gate looks before it gives up.
const TURNS: u32 = 100_000_000;

/// Holds thread 1 before its second call until another thread's thousandth was answered.
#[derive(Drop)]
struct Stops {
    answered: AtomicBool,
    gave_up: AtomicBool,
}

/// Whether a flag was seen within so many turns.
fn sees(flag: &AtomicBool) -> bool {
    for _ in 0..TURNS {
        if flag.load(Ordering::SeqCst) {
            return true;
        }
        std::hint::spin_loop();
    }
    false
}

impl Gate for Stops {
    fn before(&self, thread: u32, call: u32) {
        if thread == 1 && call == 2 && !sees(&self.answered) {
            self.gave_up.store(true, Ordering::SeqCst);
        }
    }

    fn after(&self, thread: u32, call: u32) {
        if thread == 2 && call == 1000 {
            self.answered.store(true, Ordering::SeqCst);
        }
    }
}

/// A thread that stops between two calls holds no other off: 2 and 1000 additions to a u8.
#[test]
fn stopped_caller_holds_nobody_off(rt: HostRuntime) -> Result<(), Fail> {
    let alloc = rt.alloc();
    let gate = Stops {
        answered: AtomicBool::new(false),
        gave_up: AtomicBool::new(false),
    };
    let add = "c fetch_add 1\n";
    let mut text = String::from_str(alloc, "work 1\ntarget word64\nobject c u8 0\n")?;
    push_thread(&mut text, add, 2)?;
    push_thread(&mut text, add, 1000)?;
    run_ends_at(&rt, alloc, &text, &gate, "c 234 fixed\n")?;
    assert!(rt;
        !gate.gave_up.load(Ordering::SeqCst),
        "thread 1 was held for ever"
    );
    Ok(())
}

/// Each of two threads sets its flag before its first call, and waits for the other's.
#[derive(Drop)]
struct Meets {
    flags: [AtomicBool; 2],
    seen: [AtomicBool; 2],
}

impl Gate for Meets {
    fn before(&self, thread: u32, _call: u32) {
        let (mine, other) = if thread == 1 { (0, 1) } else { (1, 0) };
        self.flags[mine].store(true, Ordering::SeqCst);
        self.seen[mine].store(sees(&self.flags[other]), Ordering::SeqCst);
    }

    fn after(&self, _thread: u32, _call: u32) {}
}

/// The threads of a generated run have started before either is done: on one thread no order of theirs passes.
#[test]
fn generated_threads_run_at_once(rt: HostRuntime) -> Result<(), Fail> {
    let alloc = rt.alloc();
    let gate = Meets {
        flags: [AtomicBool::new(false), AtomicBool::new(false)],
        seen: [AtomicBool::new(false), AtomicBool::new(false)],
    };
    let mut words = Vec::new(alloc);
    for word in ["many", "7", "2", "1"] {
        words.push(String::from_str(alloc, word)?)?;
    }
    let mut source = SureSource::of(b"");
    let mut sink = MemSink::of(alloc, 4096, 4096, &[])?;
    let outcome = portable_call(&rt, alloc, &words, &mut source, &mut sink, &gate);
    assert_eq!(rt; outcome.status, Status::Done);
    for seen in &gate.seen {
        assert!(rt; seen.load(Ordering::SeqCst), "each flag was seen");
    }
    Ok(())
}
