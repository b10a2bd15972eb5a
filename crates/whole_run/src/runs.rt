//! The scripts, run side by side.

ghost use Rattle.std.specs.Prelude.{◌≡◌, ◌≤◌, length, map};
ghost use Rattle.place_core.specs.Pieces.{script_lines};
ghost use Rattle.place_core.specs.Runs.{ScriptsFit};
ghost use Rattle.place_core.specs.Shapes.{cells_of_shape};
ghost use Rattle.runner.specs.declared.worker.Keep.TheVariants as keeps;
ghost use Rattle.runner.specs.declared.worker.Worker.{Worker};
ghost use Rattle.whole_run.specs.Stages.{AreManned, AreDone, HaveKept, HaveNone};
ghost use Rattle.seat_views.specs.Limits.{most_passes};

use place_core::Gate;
use runner::{Keep, Worker, run_each};
use seat_views::Arena;
use std::sync::Wait;
use std::thread::Threads;

/// Runs the workers' scripts, each on a thread of its own.
pub(crate) fn run_manned<R: Threads + Wait + Sync, G: Gate>(
    rt: &R,
    arena: &Arena,
    workers: Vec<Worker>,
    keep: Keep,
    gate: &G,
) -> Vec<Worker>
    requires manned { AreManned keep arena.now 1 workers.items }
    requires fits { ScriptsFit (cells_of_shape arena.now.shape) (map script_lines (map (λ (w : Worker). w.script) workers.items)) }
    requires few { length workers.items ≤ most_passes }
    ensures done { AreDone arena.now 1 result.items }
    ensures kept { keep ≡ keeps.Replies → HaveKept result.items }
    ensures none { keep ≡ keeps.Nothing → HaveNone result.items }
    ensures scripts { map (λ (w : Worker). w.script) result.items ≡ map (λ (w : Worker). w.script) workers.items }
    ensures count { length result.items ≡ length workers.items }
{
    let mut workers = workers;
    run_each(rt, arena, workers.as_mut_slice(), 1, keep, gate);
    workers
}
