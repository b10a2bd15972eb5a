//! Every outcome.

ghost use Rattle.std.specs.Prelude.{◌≡◌, ◌*◌, ◌≤◌, length, map, IfOk, OnOk, IfErr, Err, []};
ghost use Rattle.std.specs.Ordering.{nat_cmp};
ghost use Rattle.std.specs.Cmp.Lexicographic.{slice_cmp};
ghost use Rattle.place_core.specs.Pieces.{script_lines};
ghost use Rattle.place_core.specs.Runs.{ScriptsFit};
ghost use Rattle.place_core.specs.Shapes.{cells_of_shape, IsShape};
ghost use Rattle.outcomes.specs.declared.fault.SearchFault.TheVariants.{TooManyStates, NoMemory};
ghost use Rattle.outcomes.specs.Reached.{ReachesMore};
ghost use Rattle.run_steps.specs.Standing.{state_of, cell_count};
ghost use Rattle.run_steps.specs.Steps.{step_of};
ghost use Rattle.run_outcomes.specs.Outcomes.{IsWithin, longest, told_count, HasEveryOutcome};
ghost use Rattle.run_outcomes.specs.Collecting.{AddsOutcome};

use crate::ends::{ends_all, outcome_at};
use outcomes::SearchFault;
use place_core::{Script, Shape};
use run_machine::{Machine, every_state};
use run_steps::State;
use std::alloc::Global;
use std::collections::BTreeSet;

/// The lines of the longest script, 0 where there is none.
pub fn longest(scripts: &[Script]) -> u32
    ensures { result ≡ longest (map script_lines scripts.now) }
{
    let mut most = 0;
    let mut rest = scripts;
    'scripts: while let [script, after @ ..] = rest {
        most = most.max(script.len());
        rest = after;
    }
    most
}

/// Adds the outcome at a state, if each thread made all its calls in it.
fn add_outcome(
    alloc: Global,
    shape: &Shape,
    scripts: &[Script],
    told: usize,
    state: &State,
    found: &mut BTreeSet<State>,
) -> Result<(), SearchFault>
    requires told { told ≡ told_count (map script_lines scripts.now) }
    requires cells { length state.now ≡ cell_count shape.now (map script_lines scripts.now) (longest (map script_lines scripts.now)) }
    ensures ok { OnOk result (AddsOutcome shape.now (map script_lines scripts.now) state.now found.old found.new) }
    ensures err { IfErr result (λ fault. fault ≡ NoMemory) }
{
    if !ends_all(scripts, state) {
        return Ok(());
    }
    let Ok(outcome) = outcome_at(alloc, shape, scripts, told, state) else {
        return Err(SearchFault::NoMemory);
    };
    match found.insert(outcome) {
        Ok(_) => Ok(()),
        Err(refused) => {
            drop(refused);
            Err(SearchFault::NoMemory)
        }
    }
}

/// Every outcome that a run of the scripts over the shape can have, as a list of numbers, in order. TooManyStates comes
/// exactly where beginnings of runs, with all their replies, have more than `limit` states. NoMemory comes where the
/// allocator refused memory.
pub fn every_outcome(
    alloc: Global,
    shape: &Shape,
    scripts: &[Script],
    limit: usize,
) -> Result<BTreeSet<State>, SearchFault>
    requires valid { IsShape shape.now }
    requires fits { ScriptsFit (cells_of_shape shape.now) (map script_lines scripts.now) }
    requires few { length scripts.now ≤ 64 }
    ensures ok { IfOk result (HasEveryOutcome shape.now (map script_lines scripts.now)) }
    ensures within { IfOk result (λ _. IsWithin shape.now (map script_lines scripts.now) (longest (map script_lines scripts.now)) limit) }
    ensures many { result ≡ Err TooManyStates → ReachesMore (slice_cmp nat_cmp) (2 * length scripts.now) (step_of shape.now (map script_lines scripts.now) (longest (map script_lines scripts.now))) (state_of shape.now (map script_lines scripts.now) (longest (map script_lines scripts.now)) []) limit }
{
    let most = longest(scripts);
    let machine = Machine::new(alloc, shape, scripts, most);
    let mut states = match every_state(alloc, &machine, limit) {
        Ok(states) => states,
        Err(fault) => return Err(fault),
    };
    let told = 2 * (scripts.len() * most as usize);
    let mut found = BTreeSet::new(alloc);
    'states: while let Some(state) = states.pop_first() {
        match add_outcome(alloc, shape, scripts, told, &state, &mut found) {
            Ok(()) => {}
            Err(fault) => return Err(fault),
        }
    }
    Ok(found)
}
