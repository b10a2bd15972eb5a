//! Many scripts at once, each on a thread of its own.

ghost use Rattle.std.specs.Prelude.{◌≡◌, ◌+◌, ◌<◌, ◌^◌, length};
ghost use Rattle.std.specs.Thread.{IsSync};
ghost use Rattle.runner.specs.Scripts.{IsReadyTo, HasRunTo, AreReady, AreReadyTo, HaveRun, HaveRunTo};

use crate::scripts::{run_script, run_unkept};
use crate::worker::{Keep, Worker};
use place_core::Gate;
use seat_views::Arena;
use std::sync::Wait;
use std::thread::{Threads, join_mut};

/// Runs the script of one worker.
fn run_one<R: Wait, G: Gate>(
    rt: &R,
    arena: &Arena,
    worker: &mut Worker,
    thread: u32,
    keep: Keep,
    gate: &G,
)
    requires { IsReadyTo keep arena.now worker.old }
    ensures { HasRunTo keep arena.now.shape worker.old worker.new }
{
    match keep {
        Keep::Replies => run_script(
            rt,
            arena,
            &mut worker.pass,
            &worker.script,
            &mut worker.replies,
            thread,
            gate,
        ),
        Keep::Nothing => run_unkept(rt, arena, &mut worker.pass, &worker.script, thread, gate),
    }
}

/// Runs the script of each worker, each on a thread of its own where one can be made, and returns when all have ended.
/// Each worker's replies gain those to its calls, or stay as they were where nothing is kept. The gate is told the
/// workers' numbers as their threads', which count from `first` on in the order of the slice.
pub fn run_each<R: Threads + Wait + Sync, G: Gate>(
    rt: &R,
    arena: &Arena,
    workers: &mut [Worker],
    first: u32,
    keep: Keep,
    gate: &G,
)
    requires ready { AreReadyTo keep arena.now workers.old }
    requires numbers { first + length workers.old < 2 ^ 32 }
    ensures { HaveRunTo keep arena.now.shape workers.old workers.new }
{
    if workers.is_empty() {
        return;
    }
    if workers.len() == 1 {
        run_one(rt, arena, &mut workers[0], first, keep, gate);
        return;
    }
    let half = workers.len() / 2;
    let second = first + half as u32;
    let (front, back) = workers.split_at_mut(half);
    join_mut(
        rt,
        &mut ||
            requires { IsSync R.row × IsSync G.row × AreReadyTo keep arena.now front.now × (first + length front.now < 2 ^ 32) }
            ensures { HaveRunTo keep arena.entry.now.shape front.entry.now front.exit.now }
        { run_each(rt, arena, front, first, keep, gate) },
        &mut ||
            requires { IsSync R.row × IsSync G.row × AreReadyTo keep arena.now back.now × (second + length back.now < 2 ^ 32) }
            ensures { HaveRunTo keep arena.entry.now.shape back.entry.now back.exit.now }
        { run_each(rt, arena, back, second, keep, gate) },
    );
}

/// Runs the script of each worker as `run_each` does, and keeps every reply.
pub fn run_all<R: Threads + Wait + Sync, G: Gate>(
    rt: &R,
    arena: &Arena,
    workers: &mut [Worker],
    first: u32,
    gate: &G,
)
    requires ready { AreReady arena.now workers.old }
    requires numbers { first + length workers.old < 2 ^ 32 }
    ensures { HaveRun arena.now.shape workers.old workers.new }
{
    run_each(rt, arena, workers, first, Keep::Replies, gate);
}
