//! Scripts at once: the replies of calls that meet no other thread's, and the order that a gate forces.

use crate::trials::{Held, object, open, worker};
use crate::{Keep, Worker, run_all, run_each};
use op_table::{Call, Reply, Width};
use place_core::{Declared, OpenGate};
use std::alloc::Global;
use std::process::Abort;
use std::sync::Wait;
use std::sync::atomic::AtomicBool;
use std::test::*;
use std::thread::Threads;

/// The replies of a worker are these.
fn replied(rt: &impl Abort, worker: &Worker, wanted: &[Reply]) {
    assert_eq!(rt; worker.replies.len() as usize, wanted.len());
    for (i, reply) in wanted.iter().enumerate() {
        if i < worker.replies.len() as usize {
            assert_eq!(rt; worker.replies.at(i as u32), reply, "reply {i}");
        }
    }
}

const FIRST: [(u32, Call); 4] = [
    (0, Call::Add(10, false)),
    (1, Call::Add(10, false)),
    (0, Call::Load),
    (1, Call::Load),
];

const FIRST_REPLIES: [Reply; 4] = [
    Reply::Value(5),
    Reply::Value(250),
    Reply::Value(15),
    Reply::Value(4),
];

const SECOND: [(u32, Call); 3] = [
    (2, Call::Swap(7)),
    (2, Call::Sub(1, true)),
    (2, Call::Cas(6, 9)),
];

const SECOND_REPLIES: [Reply; 3] = [
    Reply::Value(18446744073709551616),
    Reply::Unit,
    Reply::Done(6),
];

/// Two threads with objects of their own, of which two share a word on some targets.
fn apart<R: Threads + Wait + Sync + Abort>(
    rt: &R,
    alloc: Global,
    target: &[u8],
) -> Result<(), Fail> {
    let a = object(Width::W32, 5).ok_or("an object")?;
    let b = object(Width::W8, 250).ok_or("an object")?;
    let c = object(Width::W128, 1 << 64).ok_or("an object")?;
    let (arena, mut root) = open(alloc, target, &[a, b, c]).ok_or("it opens")?;
    let v = worker(alloc, &arena, &mut root, &FIRST).ok_or("a worker")?;
    let w = worker(alloc, &arena, &mut root, &SECOND).ok_or("a worker")?;
    let mut workers = [v, w];
    run_all(rt, &arena, &mut workers, 1, &OpenGate);
    replied(rt, &workers[0], &FIRST_REPLIES);
    replied(rt, &workers[1], &SECOND_REPLIES);
    Ok(())
}

#[test]
fn each_script_has_its_replies(rt: HostRuntime) -> Result<(), Fail> {
    apart(&rt, rt.alloc(), b"full64")?;
    apart(&rt, rt.alloc(), b"word32")?;
    apart(&rt, rt.alloc(), b"section32")
}

#[test]
fn nothing_is_kept_where_nothing_is_asked_for(rt: HostRuntime) -> Result<(), Fail> {
    let n = object(Width::W64, 5).ok_or("an object")?;
    let (arena, mut root) = open(rt.alloc(), b"full64", &[n]).ok_or("it opens")?;
    let adds = [(0, Call::Add(10, false)), (0, Call::Add(1, false))];
    let first = worker(rt.alloc(), &arena, &mut root, &adds).ok_or("a worker")?;
    let second = worker(rt.alloc(), &arena, &mut root, &adds).ok_or("a worker")?;
    let mut workers = [first, second];
    run_each(&rt, &arena, &mut workers, 1, Keep::Nothing, &OpenGate);
    replied(&rt, &workers[0], &[]);
    replied(&rt, &workers[1], &[]);
    let last = worker(rt.alloc(), &arena, &mut root, &[(0, Call::Load)]).ok_or("a worker")?;
    let mut loads = [last];
    run_all(&rt, &arena, &mut loads, 3, &OpenGate);
    replied(&rt, &loads[0], &[Reply::Value(27)]);
    Ok(())
}

/// What thread 1 loads where thread 2 stores 1, and one of the two is held until the other was answered.
fn loaded<R: Threads + Wait + Sync>(
    rt: &R,
    alloc: Global,
    held: u32,
    freed_by: u32,
) -> Result<Reply, Fail> {
    let n: Declared = object(Width::W64, 0).ok_or("an object")?;
    let (arena, mut root) = open(alloc, b"full64", &[n]).ok_or("it opens")?;
    let loads = worker(alloc, &arena, &mut root, &[(0, Call::Load)]).ok_or("a worker")?;
    let stores = worker(alloc, &arena, &mut root, &[(0, Call::Store(1))]).ok_or("a worker")?;
    let mut workers = [loads, stores];
    let gate = Held {
        held,
        freed_by,
        answered: AtomicBool::new(false),
    };
    run_all(rt, &arena, &mut workers, 1, &gate);
    if workers[0].replies.len() != 1 {
        return Err("one reply".into());
    }
    Ok(*workers[0].replies.at(0))
}

#[test]
fn gate_holds_a_call_back(rt: HostRuntime) -> Result<(), Fail> {
    assert_eq!(rt; loaded(&rt, rt.alloc(), 1, 2)?, Reply::Value(1));
    assert_eq!(rt; loaded(&rt, rt.alloc(), 2, 1)?, Reply::Value(0));
    Ok(())
}
