//! Waits and wakes many times, lends permits, looks, or sleeps: `bench/waits.py` times it.
#![tactic(auto)]

ghost use Rattle.std.specs.Prelude.{false, IfSome};
ghost use Rattle.std.specs.Thread.{IsSync};
ghost use Rattle.op_table.specs.declared.kind.Width.TheVariants.{W32};
ghost use Rattle.scalar_laws.specs.Kinds.{integer};
ghost use Rattle.seat_views.specs.Trials.{IsReady, IsReadyRoot};
ghost use Rattle.atomic_types.specs.Atomics.{HasAtomic};
ghost use Rattle.wait_cell.specs.Takes.{HasCount};

use crate::shared::{give, open};
use crate::turns::{hand_on, lend, looks, sleep_on, wake_later};
use atomic_types::AtomicU32;
use op_table::{Call, LoadOrder};
use place_core::Path;
use seat_views::{Arena, Pass, Root};
use std::alloc::Global;
use std::process::ExitCode;
use std::sync::Wait;
use std::thread::{Threads, join};
use std::time::Clock;
use wait_cell::{Bell, Permits};

mod shared;
mod turns;

/// What the threads do.
#[derive(Clone, Copy)]
enum Task {
    /// Two threads hand a number to and fro.
    ToAndFro,
    /// Four threads share two permits.
    Permits,
    /// One thread looks for one turn.
    Look,
    /// One thread waits, and another wakes it after so many milliseconds.
    Sleep,
}

/// Two threads hand the number to and fro.
fn to_and_fro<R>(rt: &R, arena: &Arena, on: AtomicU32, p: Pass, q: Pass, times: u64)
where
    R: Threads + Wait + Sync,
    requires { HasAtomic arena.now.shape (integer W32 false) on × IsReady arena.now p × IsReady arena.now q }
{
    let bell = Bell::new();
    let bell = &bell;
    join(
        rt,
        move || hand_on(rt, arena, p, on, bell, 0, times),
        move || hand_on(rt, arena, q, on, bell, 1, times),
    );
}

/// One thread sleeps, and another wakes it.
fn nap<R>(rt: &R, arena: &Arena, on: AtomicU32, p: Pass, q: Pass, times: u64)
where
    R: Threads + Wait + Clock + Sync,
    requires { HasAtomic arena.now.shape (integer W32 false) on × IsReady arena.now p × IsReady arena.now q }
{
    let bell = Bell::new();
    let bell = &bell;
    join(
        rt,
        move || sleep_on(rt, arena, p, on, bell),
        move || wake_later(rt, arena, q, on, bell, times),
    );
}

/// Two threads share the permits.
fn pair<R>(rt: &R, arena: &Arena, permits: Permits, bell: &Bell, p: Pass, q: Pass, times: u64)
where
    R: Threads + Wait + Sync,
    requires { HasCount arena.now.shape permits × IsReady arena.now p × IsReady arena.now q }
{
    join(
        rt,
        move || lend(rt, arena, p, permits, bell, times),
        move || lend(rt, arena, q, permits, bell, times),
    );
}

/// Four threads share the permits. None where every number was given.
fn four<R>(rt: &R, arena: &Arena, permits: Permits, root: &mut Root, times: u64) -> Option<()>
where
    R: Threads + Wait + Sync,
    requires { HasCount arena.now.shape permits × IsReadyRoot arena.now root.old }
    ensures { IfSome result (λ _. IsReadyRoot arena.now root.new) }
{
    let (p, q) = (give(arena, root)?, give(arena, root)?);
    let (r, s) = (give(arena, root)?, give(arena, root)?);
    let bell = Bell::new();
    let bell = &bell;
    join(
        rt,
        move ||
            requires { IsSync R.row × HasCount arena.now.shape permits × IsReady arena.now p × IsReady arena.now q }
        { pair(rt, arena, permits, bell, p, q, times) },
        move ||
            requires { IsSync R.row × HasCount arena.now.shape permits × IsReady arena.now r × IsReady arena.now s }
        { pair(rt, arena, permits, bell, r, s, times) },
    );
    Some(())
}

/// Looks so many times. None where one step doesn't load the object, or every number was given.
fn look_often(arena: &Arena, on: AtomicU32, root: &mut Root, times: u64) -> Option<u64>
    requires { HasAtomic arena.now.shape (integer W32 false) on × IsReadyRoot arena.now root.old }
    ensures { IfSome result (λ _. IsReadyRoot arena.now root.new) }
{
    let p = give(arena, root)?;
    match arena.plan(on.object(), &Call::Load) {
        Path::One(_) => Some(looks(arena, p, on, times)),
        _ => None,
    }
}

/// Does the task on an object, and loads what is left, or counts what was found.
fn make<R: Threads + Wait + Clock + Sync>(
    rt: &R,
    arena: &Arena,
    root: &mut Root,
    task: Task,
    times: u64,
) -> Option<u64>
    requires { IsReadyRoot arena.now root.old }
{
    let on = AtomicU32::of(arena, 0)?;
    match task {
        Task::ToAndFro => {
            let (p, q) = (give(arena, root)?, give(arena, root)?);
            to_and_fro(rt, arena, on, p, q, times);
        }
        Task::Permits => {
            let permits = Permits::of(arena, 0)?;
            four(rt, arena, permits, root, times)?;
        }
        Task::Look => return look_often(arena, on, root, times),
        Task::Sleep => {
            let (p, q) = (give(arena, root)?, give(arena, root)?);
            nap(rt, arena, on, p, q, times);
        }
    }
    let mut host = give(arena, root)?;
    Some(on.load(rt, arena, &mut host, LoadOrder::SeqCst) as u64)
}

/// The task, and the number with which its object begins.
fn task_of(word: &str) -> Option<(Task, u32)> {
    match word {
        "to_and_fro" => Some((Task::ToAndFro, 1)),
        "permits" => Some((Task::Permits, 2)),
        "look" => Some((Task::Look, 1)),
        "sleep" => Some((Task::Sleep, 0)),
        _ => None,
    }
}

/// The task, its object's start, and how often it is done.
fn words_in(rt: &HostRuntime) -> Option<(Task, u32, u64)> {
    let mut words = std::env::args(rt).ok()?;
    let (task, start) = task_of(&words.nth(1)?)?;
    let times = words.next()?.parse::<u64>().ok()?;
    Some((task, start, times))
}

/// Opens the arena, and does the task on it. None where memory is refused.
fn run<R: Threads + Wait + Clock + Sync>(
    rt: &R,
    alloc: Global,
    task: Task,
    start: u32,
    times: u64,
) -> Option<u64> {
    let (arena, mut root) = open(alloc, start)?;
    make(rt, &arena, &mut root, task, times)
}

fn main(rt: HostRuntime) -> ExitCode {
    let Some((task, start, times)) = words_in(&rt) else {
        let _ = eprintln!(rt; "usage: wait_times TASK TIMES");
        return ExitCode::from(2);
    };
    let Some(left) = run(&rt, rt.alloc(), task, start, times) else {
        return ExitCode::from(5);
    };
    match println!(rt; "{left}") {
        Ok(()) => ExitCode::from(0),
        Err(_) => ExitCode::from(4),
    }
}
