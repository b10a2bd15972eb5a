//! Runs of several threads. What is wanted of values was worked out by arithmetic; where threads may meet in several
//! orders, each report that is right is named, or only what is the same in all.

use crate::outcome::Outcome;
use crate::status::Status;
use crate::top::portable_call;
use place_core::{Gate, OpenGate};
use std::alloc::Global;
use std::process::Abort;
use std::sync::Wait;
use std::sync::atomic::{AtomicBool, Ordering};
use std::test::*;
use std::thread::Threads;
use work_lang::{MemSink, SureSource};

/// How often a gate looks before it gives up.
const TURNS: u32 = 100_000_000;

/// The report of a workload that is run under a gate, and its outcome.
fn run_under<R: Threads + Wait + Sync, G: Gate>(
    rt: &R,
    alloc: Global,
    text: &str,
    gate: &G,
) -> Result<(Outcome, String), Fail> {
    let mut words = Vec::new(alloc);
    words.push(String::from_str(alloc, "run")?)?;
    let mut source = SureSource::of(text.as_bytes());
    let mut sink = MemSink::of(alloc, 262_144, 4096, &[])?;
    let outcome = portable_call(rt, alloc, &words, &mut source, &mut sink, gate);
    Ok((
        outcome,
        String::from_str(alloc, str::from_utf8(sink.bytes())?)?,
    ))
}

/// The report of a workload that is run.
fn report_of<R: Threads + Wait + Sync + Abort>(
    rt: &R,
    alloc: Global,
    text: &str,
) -> Result<String, Fail> {
    let (outcome, report) = run_under(rt, alloc, text, &OpenGate)?;
    assert_eq!(rt; outcome.status, Status::Done);
    assert!(rt; outcome.ended.is_some());
    Ok(report)
}

/// Adds a thread that makes one call a number of times over.
fn push_thread(text: &mut String, call: &str, times: u32) -> Result<(), Fail> {
    text.push_str("thread\n")?;
    for _ in 0..times {
        text.push_str(call)?;
        text.push_str("\n")?;
    }
    text.push_str("end\n")?;
    Ok(())
}

/// A workload on a target, of these objects, of threads that each make one call a number of times over.
fn text_of(
    alloc: Global,
    target: &str,
    objects: &str,
    threads: &[(&str, u32)],
) -> Result<String, Fail> {
    let mut text = format!(in alloc; "work 1\ntarget {target}\n{objects}")?;
    for (call, times) in threads {
        push_thread(&mut text, call, *times)?;
    }
    Ok(text)
}

/// The lines of a report after `last`.
fn last_of(report: &str) -> Option<&str> {
    let (_, last) = report.split_once("\nlast\n")?;
    Some(last)
}

#[test]
fn nothing_is_run(rt: HostRuntime) -> Result<(), Fail> {
    let report = report_of(&rt, rt.alloc(), "work 1\ntarget full64\n")?;
    assert_eq!(rt; report.as_str(), "target full64\nlast\n");
    Ok(())
}

/// Each row: the target, the objects, what each thread does how often, and the last values, which are the same at every
/// run: four threads of additions; a carry and a borrow beside each other in one word; 64 bits in two parts; a weak
/// exchange, which may fail, of a value for itself.
#[test]
fn no_call_is_lost(rt: HostRuntime) -> Result<(), Fail> {
    let alloc = rt.alloc();
    let add = ("c fetch_add 1", 1000);
    let rows: [(&str, &str, &[(&str, u32)], &str); 5] = [
        (
            "word64",
            "object c u8 0\n",
            &[add, add, add, add],
            "c 160 fixed\n",
        ),
        (
            "word64",
            "object a u8 255\nobject b u8 0\n",
            &[("a fetch_add 1", 1000), ("b fetch_sub 1", 1000)],
            "a 231 fixed\nb 24 fixed\n",
        ),
        (
            "word32",
            "object g u64 4294967295\n",
            &[("g fetch_add 1", 500), ("g fetch_add 1", 500)],
            "g 4294968295 fixed\n",
        ),
        (
            "section32",
            "object g i16 0\nobject h bool false\n",
            &[("g sub 1", 700), ("g sub 1", 700), ("h not", 701)],
            "g -1400 fixed\nh true fixed\n",
        ),
        (
            "word64",
            "object a u16 7\nobject b u16 0\n",
            &[("a compare_exchange_weak 7 7", 900), ("b fetch_add 3", 900)],
            "a 7\nb 2700 fixed\n",
        ),
    ];
    for (target, objects, threads, last) in rows {
        let text = text_of(alloc, target, objects, threads)?;
        let report = report_of(&rt, rt.alloc(), &text)?;
        assert_eq!(rt; last_of(&report), Some(last), "on {target}");
    }
    Ok(())
}

#[test]
fn two_swaps_have_two_reports(rt: HostRuntime) -> Result<(), Fail> {
    let text =
        "work 1\ntarget full64\nobject s u8 0\nthread\ns swap 1\nend\nthread\ns swap 2\nend\n";
    let first = "target full64\nthread 1\ns swap 1 = 0\nthread 2\ns swap 2 = 1\nlast\ns 2\n";
    let second = "target full64\nthread 1\ns swap 1 = 2\nthread 2\ns swap 2 = 0\nlast\ns 1\n";
    for _ in 0..20 {
        let report = report_of(&rt, rt.alloc(), text)?;
        assert!(rt;
            report.as_str() == first || report.as_str() == second,
            "{report}"
        );
    }
    Ok(())
}

#[test]
fn objects_under_one_lock_are_apart(rt: HostRuntime) -> Result<(), Fail> {
    let alloc = rt.alloc();
    let mut objects = String::new(alloc);
    for number in 0..68 {
        objects.push_str(&format!(in alloc; "object q{number} u128 0\n")?)?;
    }
    let threads = [("q0 fetch_add 1", 100), ("q67 fetch_add 2", 100)];
    let text = text_of(alloc, "word64", &objects, &threads)?;
    let report = report_of(&rt, rt.alloc(), &text)?;
    let mut last = String::from_str(alloc, "q0 100 fixed\n")?;
    for number in 1..67 {
        last.push_str(&format!(in alloc; "q{number} 0 fixed\n")?)?;
    }
    last.push_str("q67 200 fixed\n")?;
    assert_eq!(rt; last_of(&report), Some(last.as_str()));
    Ok(())
}

#[test]
fn a_section_serves_a_byte(rt: HostRuntime) -> Result<(), Fail> {
    let report = report_of(
        &rt,
        rt.alloc(),
        "work 1\ntarget section32\nobject v u8 0\nthread\nv store 9\nv load\nend\n",
    )?;
    assert_eq!(rt;
        report.as_str(),
        "target section32\nthread 1\nv store 9 = unit\nv load = 9\nlast\nv 9\n"
    );
    Ok(())
}

/// One thread: an object that is only added to, one with a store too, and one with calls of two families.
#[test]
fn sums_are_fixed(rt: HostRuntime) -> Result<(), Fail> {
    let text = "work 1
target word32
object a u8 250
object b i16 -5
object c u128 7
thread
a fetch_add 10
b store 3
c fetch_sub 8
a sub 1
b fetch_add 4
c xor 1
a load
end
";
    let wanted = "target word32
thread 1
a fetch_add 10 = 250
b store 3 = unit
c fetch_sub 8 = 7
a sub 1 = unit
b fetch_add 4 = 3
c xor 1 = unit
a load = 3
last
a 3 fixed
b 7
c 340282366920938463463374607431768211454
";
    let report = report_of(&rt, rt.alloc(), text)?;
    assert_eq!(rt; report.as_str(), wanted);
    Ok(())
}

/// Two threads: an object for each of the other families, one that two of them share, and one without calls.
#[test]
fn each_family_is_fixed(rt: HostRuntime) -> Result<(), Fail> {
    let text = "work 1
target word64
object flips u8 12
object sets u16 1
object clears u32 15
object most i16 -5
object least i16 -5
object both i16 -5
object still bool true
thread
flips fetch_xor 10
sets or 4
clears fetch_and 6
most fetch_max 3
least fetch_min 3
both fetch_max 3
end
thread
flips not
flips bit_toggle 0
sets bit_set 3
clears bit_clear 1
most fetch_max -9
least fetch_min -9
both fetch_min 3
end
";
    let report = report_of(&rt, rt.alloc(), text)?;
    let wanted = "flips 248 fixed
sets 13 fixed
clears 4 fixed
most 3 fixed
least -9 fixed
both 3
still true fixed
";
    assert_eq!(rt; last_of(&report), Some(wanted));
    Ok(())
}

/// A flag, a counter, an id and the head of a list, as threads use them.
#[test]
fn usual_objects_end_as_they_must(rt: HostRuntime) -> Result<(), Fail> {
    let text = "work 1
target word32
object ready bool false
object hits u16 0
object id u128 18446744073709551616
object head ptr 0x0
thread
hits fetch_add 1 relaxed
id fetch_add 1
ready store true release
end
thread
hits fetch_add 1 relaxed
id fetch_add 1
head compare_exchange 0x0 0x10 acq_rel acquire
end
thread
ready load acquire
head load acquire
hits fetch_add 1 relaxed
end
";
    let report = report_of(&rt, rt.alloc(), text)?;
    assert_eq!(rt;
        last_of(&report),
        Some("ready true\nhits 3 fixed\nid 18446744073709551618 fixed\nhead 0x10\n")
    );
    assert!(rt; report.contains("head compare_exchange 0x0 0x10 acq_rel acquire = ok 0x0\n"));
    Ok(())
}

// ---- gates

/// Holds one thread's first call until another thread's first call was answered.
#[derive(Drop)]
struct Holds {
    held: u32,
    other: u32,
    answered: AtomicBool,
    gave_up: AtomicBool,
}

impl Holds {
    fn of(held: u32, other: u32) -> Holds {
        Holds {
            held,
            other,
            answered: AtomicBool::new(false),
            gave_up: AtomicBool::new(false),
        }
    }
}

/// Whether a flag was seen within so many turns.
fn sees(flag: &AtomicBool) -> bool {
    for _ in 0..TURNS {
        if flag.load(Ordering::SeqCst) {
            return true;
        }
        std::hint::spin_loop();
    }
    false
}

impl Gate for Holds {
    fn before(&self, thread: u32, _call: u32) {
        if thread == self.held && !sees(&self.answered) {
            self.gave_up.store(true, Ordering::SeqCst);
        }
    }

    fn after(&self, thread: u32, _call: u32) {
        if thread == self.other {
            self.answered.store(true, Ordering::SeqCst);
        }
    }
}

const LOAD_AND_STORE: &str = "work 1
target full64
object n u64 0
thread
n load
end
thread
n store 1
end
";

/// Each thread's call can come after the other's, so no order of the threads on one thread passes both.
#[test]
fn either_thread_may_come_first(rt: HostRuntime) -> Result<(), Fail> {
    for (held, other, reply) in [(1, 2, "n load = 1\n"), (2, 1, "n load = 0\n")] {
        let gate = Holds::of(held, other);
        let (outcome, report) = run_under(&rt, rt.alloc(), LOAD_AND_STORE, &gate)?;
        assert_eq!(rt; outcome.status, Status::Done);
        assert!(rt;
            !gate.gave_up.load(Ordering::SeqCst),
            "thread {held} was held for ever"
        );
        assert!(rt; report.contains(reply), "{report}");
        assert_eq!(rt; last_of(&report), Some("n 1\n"));
    }
    Ok(())
}

/// Each of two threads sets its flag before its first call, and waits for the other's.
#[derive(Drop)]
struct Meets {
    first: AtomicBool,
    second: AtomicBool,
    seen: [AtomicBool; 2],
}

impl Gate for Meets {
    fn before(&self, thread: u32, _call: u32) {
        if thread == 1 {
            self.first.store(true, Ordering::SeqCst);
            self.seen[0].store(sees(&self.second), Ordering::SeqCst);
        } else {
            self.second.store(true, Ordering::SeqCst);
            self.seen[1].store(sees(&self.first), Ordering::SeqCst);
        }
    }

    fn after(&self, _thread: u32, _call: u32) {}
}

#[test]
fn both_threads_run_at_once(rt: HostRuntime) -> Result<(), Fail> {
    let gate = Meets {
        first: AtomicBool::new(false),
        second: AtomicBool::new(false),
        seen: [AtomicBool::new(false), AtomicBool::new(false)],
    };
    let (outcome, _) = run_under(&rt, rt.alloc(), LOAD_AND_STORE, &gate)?;
    assert_eq!(rt; outcome.status, Status::Done);
    for seen in &gate.seen {
        assert!(rt; seen.load(Ordering::SeqCst), "each flag was seen");
    }
    Ok(())
}
