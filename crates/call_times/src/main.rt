//! Makes one typed call many times, on one, two or four threads at once: `bench/calls.py` times it.
#![tactic(auto)]

ghost use Rattle.std.specs.Prelude.{IfSome};
ghost use Rattle.std.specs.Thread.{IsSync};
ghost use Rattle.seat_views.specs.Trials.{IsReady, IsReadyRoot};
ghost use Rattle.call_times.specs.Calls.{AreOn};

use crate::shared::{Shared, give, open};
use crate::turns::{Timed, last, turns};
use seat_views::{Arena, Pass, Root};
use std::alloc::Global;
use std::process::ExitCode;
use std::sync::Wait;
use std::thread::{Threads, join};

mod shared;
mod turns;

/// What the words ask for: the call, and how often each thread makes it.
#[derive(Clone, Copy)]
struct Task {
    call: Timed,
    times: u64,
}

/// Two threads, each with a pass of its own.
fn pair<R>(rt: &R, arena: &Arena, on: &Shared, task: Task, p: Pass, q: Pass)
where
    R: Threads + Wait + Sync,
    requires { AreOn arena.now.shape on.now × IsReady arena.now p × IsReady arena.now q }
{
    join(
        rt,
        move || turns(rt, arena, on, p, task.call, task.times),
        move || turns(rt, arena, on, q, task.call, task.times),
    );
}

/// Four threads.
fn four<R>(rt: &R, arena: &Arena, on: &Shared, task: Task, root: &mut Root) -> Option<()>
where
    R: Threads + Wait + Sync,
    requires { AreOn arena.now.shape on.now × IsReadyRoot arena.now root.old }
    ensures { IfSome result (λ _. IsReadyRoot arena.now root.new) }
{
    let (p, q) = (give(arena, root)?, give(arena, root)?);
    let (r, s) = (give(arena, root)?, give(arena, root)?);
    join(
        rt,
        move ||
            requires { IsSync R.row × AreOn arena.now.shape on.now × IsReady arena.now p × IsReady arena.now q }
        { pair(rt, arena, on, task, p, q) },
        move ||
            requires { IsSync R.row × AreOn arena.now.shape on.now × IsReady arena.now r × IsReady arena.now s }
        { pair(rt, arena, on, task, r, s) },
    );
    Some(())
}

/// Has the threads make their calls. None where the number of threads is none of 1, 2 and 4.
fn spread<R>(
    rt: &R,
    arena: &Arena,
    on: &Shared,
    task: Task,
    threads: u64,
    root: &mut Root,
) -> Option<()>
where
    R: Threads + Wait + Sync,
    requires { AreOn arena.now.shape on.now × IsReadyRoot arena.now root.old }
    ensures { IfSome result (λ _. IsReadyRoot arena.now root.new) }
{
    match threads {
        1 => {
            let pass = give(arena, root)?;
            turns(rt, arena, on, pass, task.call, task.times);
            Some(())
        }
        2 => {
            let (p, q) = (give(arena, root)?, give(arena, root)?);
            pair(rt, arena, on, task, p, q);
            Some(())
        }
        4 => four(rt, arena, on, task, root),
        _ => None,
    }
}

/// The last values of the three objects.
type Last = (u64, u8, u128);

/// Opens an arena, has the threads make their calls, and loads what they left.
fn run<R: Threads + Wait + Sync>(rt: &R, alloc: Global, task: Task, threads: u64) -> Option<Last> {
    let (arena, mut root) = open(alloc)?;
    let on = Shared::of(&arena)?;
    spread(rt, &arena, &on, task, threads, &mut root)?;
    let mut host = give(&arena, &mut root)?;
    Some(last(rt, &arena, &on, &mut host))
}

fn call_of(word: &str) -> Option<Timed> {
    match word {
        "served_add" => Some(Timed::Served),
        "typed_add" => Some(Timed::Add),
        "typed_nand" => Some(Timed::Nand),
        "wide_load" => Some(Timed::Load),
        "wide_store" => Some(Timed::Store),
        "wide_add" => Some(Timed::AddPair),
        "typed_update" => Some(Timed::Update),
        "raise_update" => Some(Timed::Raise),
        _ => None,
    }
}

/// The call, how often it is made, and by how many threads.
fn task_in(rt: &HostRuntime) -> Option<(Task, u64)> {
    let mut words = std::env::args(rt).ok()?;
    let call = call_of(&words.nth(1)?)?;
    let threads = words.next()?.parse::<u64>().ok()?;
    let times = words.next()?.parse::<u64>().ok()?;
    Some((Task { call, times }, threads))
}

fn main(rt: HostRuntime) -> ExitCode {
    let Some((task, threads)) = task_in(&rt) else {
        let _ = eprintln!(rt; "usage: call_times CALL THREADS TIMES");
        return ExitCode::from(2);
    };
    let Some((wide, small, pair)) = run(&rt, rt.alloc(), task, threads) else {
        return ExitCode::from(5);
    };
    match println!(rt; "{wide} {small} {pair}") {
        Ok(()) => ExitCode::from(0),
        Err(_) => ExitCode::from(4),
    }
}
