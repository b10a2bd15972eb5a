//! A whole run.

ghost use Rattle.std.specs.Prelude.{◌≡◌, ◌≤◌, length, map, IfOk};
ghost use Rattle.place_core.specs.RepliesState.{RepliesState};
ghost use Rattle.place_core.specs.Runs.{ScriptsFit, replies_by, replies_from};
ghost use Rattle.place_core.specs.Shapes.{cells_of_shape, IsShape};
ghost use Rattle.place_core.specs.Pieces.{script_lines};
ghost use Rattle.runner.specs.declared.worker.Keep.TheVariants as keeps;
ghost use Rattle.whole_run.specs.WholeRuns.{RanWhole, no_replies};
ghost use Rattle.seat_views.specs.Limits.{most_passes};

use crate::loads::load_all;
use crate::manned::man_all;
use crate::runs::run_manned;
use crate::taken::{Taken, take_all_back};
use op_table::NoMemory;
use place_core::{Gate, Replies, Script, Shape};
use runner::{Keep, Worker};
use seat_views::{Arena, Root};
use std::alloc::Global;
use std::sync::Wait;
use std::thread::Threads;

/// An arena after a run, its root, the scripts that were run, the replies of each thread where they were kept, and those of
/// the last loads.
#[derive(Drop)]
pub struct WholeRun {
    pub arena: Arena,
    pub root: Root,
    pub scripts: Vec<Script>,
    pub replies: Vec<Replies>,
    pub last: Replies,
}

/// All that a run needs, which takes no memory from here on: a new arena, a pass for each script, and room for what is kept.
#[derive(Drop)]
pub struct ReadyRun {
    arena: Arena,
    root: Root,
    workers: Vec<Worker>,
    taken: Taken,
    last: Replies,
    keep: Keep,
}

impl ReadyRun {
    ghost use Rattle.std.specs.Prelude.{◌≡◌, ◌≤◌, length, map, IfOk};
    ghost use Rattle.place_core.specs.Pieces.{script_lines};
    ghost use Rattle.place_core.specs.RepliesState.{RepliesState};
    ghost use Rattle.place_core.specs.Runs.{ScriptsFit, replies_by, replies_from};
    ghost use Rattle.place_core.specs.Shapes.{cells_of_shape, IsShape};
    ghost use Rattle.runner.specs.declared.worker.Keep.TheVariants as keeps;
    ghost use Rattle.seat_views.specs.Limits.{most_passes};
    ghost use Rattle.whole_run.specs.Ready.{shape_in, scripts_in, keep_in, IsReadyRun};
    ghost use Rattle.whole_run.specs.WholeRuns.{RanWhole, no_replies};

    /// Takes all the memory that a run of the scripts on a new arena of the shape needs; where replies aren't kept no room
    /// is taken for them. At NoMemory the shape and the scripts are dropped.
    pub fn of(
        alloc: Global,
        shape: Shape,
        scripts: Vec<Script>,
        keep: Keep,
    ) -> Result<ReadyRun, NoMemory>
        requires shape { IsShape shape }
        requires few { length scripts.items ≤ most_passes }
        ensures ready { IfOk result (λ r. IsReadyRun r) }
        ensures shape { IfOk result (λ r. shape_in r ≡ shape) }
        ensures scripts { IfOk result (λ r. scripts_in r ≡ scripts.items) }
        ensures keep { IfOk result (λ r. keep_in r ≡ keep) }
    {
        let (arena, mut root) = Arena::open(alloc, shape, 0)?;
        let taken = Taken::with_room(alloc, scripts.len())?;
        let last = Replies::with_room(alloc, arena.shape().objects.len() as u32)?;
        let workers = man_all(alloc, &arena, &mut root, scripts, keep)?;
        Ok(ReadyRun {
            arena,
            root,
            workers,
            taken,
            last,
            keep,
        })
    }

    /// Runs the scripts, each in a thread of its own, and then loads every object in declared order. It takes no memory.
    pub fn run<R: Threads + Wait + Sync, G: Gate>(self, rt: &R, gate: &G) -> WholeRun
        requires ready { IsReadyRun self }
        requires fits { ScriptsFit (cells_of_shape (shape_in self)) (map script_lines (scripts_in self)) }
        requires few { length (scripts_in self) ≤ most_passes }
        ensures run { RanWhole (shape_in self) (map script_lines (scripts_in self)) result.arena result.root }
        ensures scripts { result.scripts.items ≡ scripts_in self }
        ensures replies { keep_in self ≡ keeps.Replies → map (λ (k : RepliesState). k.items) result.replies.items ≡ replies_from result.root.seen 1 (map script_lines (scripts_in self)) }
        ensures none { keep_in self ≡ keeps.Nothing → map (λ (k : RepliesState). k.items) result.replies.items ≡ no_replies (scripts_in self) }
        ensures last { result.last.items ≡ replies_by result.root.seen 0 }
    {
        let ReadyRun {
            arena,
            mut root,
            workers,
            taken,
            last,
            keep,
        } = self;
        let workers = run_manned(rt, &arena, workers, keep, gate);
        let Taken { scripts, replies } = take_all_back(&arena, &mut root, workers, taken);
        let last = load_all(rt, &arena, &mut root, last);
        WholeRun {
            arena,
            root,
            scripts,
            replies,
            last,
        }
    }
}

/// Runs the scripts on a new arena of the shape, each in a thread of its own, and then loads every object in declared
/// order. Where replies aren't kept no room is taken for them. NoMemory comes before the first call of a script, or never:
/// only `ReadyRun::of` takes memory. The shape and the scripts are then dropped.
pub fn run_whole<R: Threads + Wait + Sync, G: Gate>(
    rt: &R,
    alloc: Global,
    shape: Shape,
    scripts: Vec<Script>,
    keep: Keep,
    gate: &G,
) -> Result<WholeRun, NoMemory>
    requires shape { IsShape shape }
    requires fits { ScriptsFit (cells_of_shape shape) (map script_lines scripts.items) }
    requires few { length scripts.items ≤ most_passes }
    ensures run { IfOk result (λ r. RanWhole shape (map script_lines scripts.items) r.arena r.root) }
    ensures scripts { IfOk result (λ r. r.scripts.items ≡ scripts.items) }
    ensures replies { IfOk result (λ r. keep ≡ keeps.Replies → map (λ (k : RepliesState). k.items) r.replies.items ≡ replies_from r.root.seen 1 (map script_lines scripts.items)) }
    ensures none { IfOk result (λ r. keep ≡ keeps.Nothing → map (λ (k : RepliesState). k.items) r.replies.items ≡ no_replies scripts.items) }
    ensures last { IfOk result (λ r. r.last.items ≡ replies_by r.root.seen 0) }
{
    let ready = ReadyRun::of(alloc, shape, scripts, keep)?;
    Ok(ready.run(rt, gate))
}
