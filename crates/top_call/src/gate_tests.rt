//! A gate is told of each call before it and after, with the numbers of thread and call, in order, and all threads of a run
//! are there at once.

use crate::status::Status;
use crate::top::portable_call;
use place_core::Gate;
use std::alloc::Global;
use std::process::Abort;
use std::sync::Wait;
use std::sync::atomic::{AtomicBool, AtomicU32, Ordering};
use std::test::Fail;
use std::thread::Threads;
use work_lang::{MemSink, SureSource};

/// How often a gate looks before it gives up.
const TURNS: u32 = 100_000_000;

/// Counts what it is told of each thread, and holds each thread before its first call until all have come to theirs.
#[derive(Drop)]
struct Tells {
    told: Vec<AtomicU32>,
    come: AtomicU32,
    wrong: AtomicBool,
    alone: AtomicBool,
}

impl Tells {
    /// A gate of so many threads.
    fn of(alloc: Global, threads: u32) -> Result<Tells, Fail> {
        let mut told = Vec::new(alloc);
        for _ in 0..threads {
            told.push(AtomicU32::new(0))?;
        }
        Ok(Tells {
            told,
            come: AtomicU32::new(0),
            wrong: AtomicBool::new(false),
            alone: AtomicBool::new(false),
        })
    }

    /// Counts that it was told of a thread, before which it must have been told so often.
    fn count(&self, thread: u32, before: u64) {
        let index = thread.saturating_sub(1) as usize;
        let right = match self.told.get(index) {
            Some(told) => thread > 0 && u64::from(told.fetch_add(1, Ordering::SeqCst)) == before,
            None => false,
        };
        if !right {
            self.wrong.store(true, Ordering::SeqCst);
        }
    }

    /// Whether all threads came within so many turns.
    fn are_here(&self) -> bool {
        for _ in 0..TURNS {
            if self.come.load(Ordering::SeqCst) as usize >= self.told.len() {
                return true;
            }
            std::hint::spin_loop();
        }
        false
    }
}

impl Gate for Tells {
    fn before(&self, thread: u32, call: u32) {
        self.count(thread, u64::from(call.saturating_sub(1)) * 2);
        if call == 1 {
            self.come.fetch_add(1, Ordering::SeqCst);
            if !self.are_here() {
                self.alone.store(true, Ordering::SeqCst);
            }
        }
    }

    fn after(&self, thread: u32, call: u32) {
        self.count(thread, u64::from(call.saturating_sub(1)) * 2 + 1);
    }
}

/// The words' run tells a gate of so many threads with so many calls each.
fn assert_told<R: Threads + Wait + Sync + Abort>(
    rt: &R,
    alloc: Global,
    line: &str,
    text: &str,
    threads: u32,
    calls: u32,
) -> Result<(), Fail> {
    let mut words = Vec::new(alloc);
    for word in line.split(" ") {
        words.push(String::from_str(alloc, word)?)?;
    }
    let gate = Tells::of(alloc, threads)?;
    let mut source = SureSource::of(text.as_bytes());
    let mut sink = MemSink::of(alloc, 262_144, 4096, &[])?;
    let outcome = portable_call(rt, alloc, &words, &mut source, &mut sink, &gate);
    assert_eq!(rt; outcome.status, Status::Done, "{line}");
    assert!(rt;
        !gate.wrong.load(Ordering::SeqCst),
        "{line}: told of each call in order"
    );
    assert!(rt;
        !gate.alone.load(Ordering::SeqCst),
        "{line}: all threads at once"
    );
    for told in &gate.told {
        let wanted = u64::from(calls) * 2;
        assert_eq!(rt; u64::from(told.load(Ordering::SeqCst)), wanted, "{line}");
    }
    Ok(())
}

/// Runs of 33 and of 64 threads, the second the most that there may be.
#[test]
fn each_call_of_a_run_is_told(rt: HostRuntime) -> Result<(), Fail> {
    let alloc = rt.alloc();
    for threads in [33, 64] {
        let mut text = String::from_str(alloc, "work 1\ntarget word64\nobject n u8 0\n")?;
        for _ in 0..threads {
            text.push_str("thread\nn fetch_add 1\nn load\nn sub 1\nend\n")?;
        }
        assert_told(&rt, alloc, "run", &text, threads, 3)?;
    }
    Ok(())
}

#[test]
fn each_call_of_a_generated_run_is_told(rt: HostRuntime) -> Result<(), Fail> {
    assert_told(&rt, rt.alloc(), "many 7 64 5", "", 64, 5)
}
