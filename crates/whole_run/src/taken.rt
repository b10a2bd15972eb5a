//! What is left of passes that are taken back.

ghost use Rattle.std.specs.Prelude.{◌≡◌, ℕ, ◌+◌, List, [], ◌∷◌, ◌++◌, length, map, IfOk};
ghost use Rattle.seat_views.specs.States.{IsKept};
ghost use Rattle.runner.specs.declared.worker.Worker.{Worker};
ghost use Rattle.place_core.specs.Pieces.{script_lines};
ghost use Rattle.whole_run.specs.Stages.{root_of, told_by, AreDone, HasBack, HasRoom};

use op_table::NoMemory;
use place_core::{Replies, Script};
use runner::Worker;
use seat_views::{Arena, Root};
use std::alloc::Global;

/// The scripts of passes that were taken back, and their replies, in order.
#[derive(Drop)]
pub(crate) struct Taken {
    pub(crate) scripts: Vec<Script>,
    pub(crate) replies: Vec<Replies>,
}

impl Taken {
    /// None yet, with room for so many.
    pub(crate) fn with_room(alloc: Global, count: usize) -> Result<Taken, NoMemory>
        ensures scripts { IfOk result (λ t. t.scripts.items ≡ []) }
        ensures replies { IfOk result (λ t. t.replies.items ≡ []) }
        ensures room { IfOk result (λ t. HasRoom t count) }
    {
        let Ok(scripts) = Vec::with_capacity(alloc, count) else {
            return Err(NoMemory);
        };
        let Ok(replies) = Vec::with_capacity(alloc, count) else {
            return Err(NoMemory);
        };
        Ok(Taken { scripts, replies })
    }

    /// Adds a script and its replies at the end. It takes no memory.
    fn add(&mut self, script: Script, replies: Replies)
        requires { HasRoom self.old 1 }
        ensures scripts { self.new.scripts.items ≡ self.old.scripts.items ++ script ∷ [] }
        ensures replies { self.new.replies.items ≡ self.old.replies.items ++ replies ∷ [] }
        ensures room { (n : ℕ) → HasRoom self.old (n + 1) → HasRoom self.new n }
    {
        let Ok(()) = self.scripts.push(script) else {
            unreachable!()
        };
        let Ok(()) = self.replies.push(replies) else {
            unreachable!()
        };
    }
}

/// Takes the passes back, in order, and keeps their scripts and replies. It takes no memory.
pub(crate) fn take_all_back(
    arena: &Arena,
    root: &mut Root,
    workers: Vec<Worker>,
    taken: Taken,
) -> Taken
    requires root { root.old ≡ root_of arena.now (length workers.items) }
    requires kept { IsKept root.old }
    requires done { AreDone arena.now 1 workers.items }
    requires scripts { taken.scripts.items ≡ [] }
    requires replies { taken.replies.items ≡ [] }
    requires room { HasRoom taken (length workers.items) }
    ensures scripts { result.scripts.items ≡ map (λ (w : Worker). w.script) workers.items }
    ensures replies { result.replies.items ≡ map (λ (w : Worker). w.replies) workers.items }
    ensures back { HasBack arena.now (length workers.items) (map script_lines result.scripts.items) (map told_by workers.items) root.new }
{
    let mut taken = taken;
    for worker in workers {
        let Worker {
            script,
            pass,
            replies,
        } = worker;
        root.take_back(arena, pass);
        taken.add(script, replies);
    }
    taken
}
