//! Every state that a run can reach.

ghost use Rattle.std.specs.Prelude.{IfOk, ◌≡◌, ◌*◌, Err, length, map, []};
ghost use Rattle.std.specs.Ordering.{nat_cmp};
ghost use Rattle.std.specs.Cmp.Lexicographic.{slice_cmp};
ghost use Rattle.place_core.specs.Pieces.{script_lines};
ghost use Rattle.place_core.specs.Runs.{ScriptsFit};
ghost use Rattle.place_core.specs.Shapes.{cells_of_shape, IsShape};
ghost use Rattle.outcomes.specs.declared.fault.SearchFault.TheVariants.{TooManyStates};
ghost use Rattle.outcomes.specs.Reached.{ReachesMore};
ghost use Rattle.run_steps.specs.Standing.{state_of};
ghost use Rattle.run_steps.specs.Steps.{step_of};
ghost use Rattle.run_machine.specs.States.{HasEveryState};

use crate::machine::Machine;
use outcomes::{SearchFault, reach};
use run_steps::State;
use std::alloc::Global;
use std::collections::BTreeSet;

/// The states of all beginnings of runs of the machine's scripts, in order. TooManyStates comes exactly where there are more
/// than `limit`. NoMemory comes where the allocator refused memory.
pub fn every_state(
    alloc: Global,
    machine: &Machine,
    limit: usize,
) -> Result<BTreeSet<State>, SearchFault>
    requires valid { IsShape machine.now.shape.now }
    requires fits { ScriptsFit (cells_of_shape machine.now.shape.now) (map script_lines machine.now.scripts.now) }
    ensures ok { IfOk result (HasEveryState machine.now.shape.now (map script_lines machine.now.scripts.now) machine.now.kept limit) }
    ensures many { result ≡ Err TooManyStates → ReachesMore (slice_cmp nat_cmp) (2 * length machine.now.scripts.now) (step_of machine.now.shape.now (map script_lines machine.now.scripts.now) machine.now.kept) (state_of machine.now.shape.now (map script_lines machine.now.scripts.now) machine.now.kept []) limit }
{
    match machine.start() {
        Ok(start) => reach(alloc, machine, start, limit),
        Err(_) => Err(SearchFault::NoMemory),
    }
}
