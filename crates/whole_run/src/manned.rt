//! The passes and the room for replies that scripts are run with.

ghost use Rattle.std.specs.Prelude.{◌≡◌, ◌<◌, ◌≤◌, ◌+◌, length, map, IfOk};
ghost use Rattle.seat_views.specs.States.{IsKept};
ghost use Rattle.seat_views.specs.Limits.{most_passes};
ghost use Rattle.runner.specs.declared.worker.Worker.{Worker};
ghost use Rattle.whole_run.specs.Stages.{root_of, IsManned, HasManned};

use op_table::NoMemory;
use place_core::{Replies, Script};
use runner::{Keep, Worker};
use seat_views::{Arena, Root};
use std::alloc::Global;

/// Gives the script a pass, and room for its replies where they are kept.
fn man(
    alloc: Global,
    arena: &Arena,
    root: &mut Root,
    script: Script,
    keep: Keep,
) -> Result<Worker, NoMemory>
    requires root { root.old ≡ root_of arena.now root.old.given }
    requires left { root.old.given < most_passes }
    ensures root { IfOk result (λ _. root.new ≡ root_of arena.now (root.old.given + 1)) }
    ensures kept { IfOk result (λ _. IsKept root.new) }
    ensures script { IfOk result (λ w. w.script ≡ script) }
    ensures manned { IfOk result (λ w. IsManned keep arena.now (root.old.given + 1) w) }
{
    let room = match keep {
        Keep::Replies => script.len(),
        Keep::Nothing => 0,
    };
    let replies = Replies::with_room(alloc, room)?;
    let Ok(pass) = root.pass(arena) else {
        unreachable!()
    };
    Ok(Worker {
        script,
        pass,
        replies,
    })
}

/// Gives each script a pass, in order, and room for its replies where they are kept.
pub(crate) fn man_all(
    alloc: Global,
    arena: &Arena,
    root: &mut Root,
    scripts: Vec<Script>,
    keep: Keep,
) -> Result<Vec<Worker>, NoMemory>
    requires root { root.old ≡ root_of arena.now 0 }
    requires kept { IsKept root.old }
    requires few { length scripts.items ≤ most_passes }
    ensures scripts { IfOk result (λ ws. map (λ (w : Worker). w.script) ws.items ≡ scripts.items) }
    ensures manned { IfOk result (λ ws. HasManned keep arena.now ws.items root.new) }
{
    let mut workers = Vec::new(alloc);
    for script in scripts {
        let worker = man(alloc, arena, root, script, keep)?;
        match workers.push(worker) {
            Ok(()) => {}
            Err(_) => return Err(NoMemory),
        }
    }
    Ok(workers)
}
