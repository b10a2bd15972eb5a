//! The judge.

ghost use Rattle.std.specs.Prelude.{◌≡◌, ◌↔◌, ◌*◌, ◌≤◌, length, map, IfOk, Err, [], IsTrue};
ghost use Rattle.std.specs.Ordering.{nat_cmp};
ghost use Rattle.std.specs.Cmp.Lexicographic.{slice_cmp};
ghost use Rattle.place_core.specs.Pieces.{script_lines};
ghost use Rattle.place_core.specs.Runs.{ScriptsFit};
ghost use Rattle.place_core.specs.Shapes.{cells_of_shape, IsShape};
ghost use Rattle.outcomes.specs.declared.fault.SearchFault.TheVariants.{TooManyStates};
ghost use Rattle.outcomes.specs.Reached.{ReachesMore};
ghost use Rattle.run_steps.specs.Standing.{state_of, cell_count};
ghost use Rattle.run_judge.specs.Reports.{items_of, CanBe};
ghost use Rattle.run_judge.specs.Agreeing.{agreeing_step};
ghost use Rattle.run_judge.specs.Judging.{HasEveryAgreeing, Shows};

use crate::agreeing::Agreeing;
use crate::reports::{has_last, has_replies};
use outcomes::{SearchFault, reach};
use place_core::{Replies, Script, Shape};
use run_outcomes::ends_all;
use run_steps::State;
use std::alloc::Global;
use std::collections::BTreeSet;

/// Whether in a state each thread made all its calls, and its last values are these.
fn shows(shape: &Shape, scripts: &[Script], last: &Replies, state: &State) -> bool
    requires few { length scripts.now ≤ 64 }
    requires cells { length state.now ≡ cell_count shape.now (map script_lines scripts.now) 0 }
    ensures { IsTrue result ↔ Shows shape.now (map script_lines scripts.now) last.now.items state.now }
{
    ends_all(scripts, state) && has_last(scripts.len(), shape.objects.len(), last, state)
}

/// Whether some run of the scripts over the shape has these replies of its threads, of each a list, and these replies to
/// the last loads. TooManyStates comes only where the beginnings of runs with these replies have more than `limit`
/// states. NoMemory comes where the allocator refused memory.
pub fn judge(
    alloc: Global,
    shape: &Shape,
    scripts: &[Script],
    replies: &[Replies],
    last: &Replies,
    limit: usize,
) -> Result<bool, SearchFault>
    requires valid { IsShape shape.now }
    requires fits { ScriptsFit (cells_of_shape shape.now) (map script_lines scripts.now) }
    requires few { length scripts.now ≤ 64 }
    ensures ok { IfOk result (λ possible. IsTrue possible ↔ CanBe shape.now (map script_lines scripts.now) (items_of replies.now) last.now.items) }
    ensures many { result ≡ Err TooManyStates → ReachesMore (slice_cmp nat_cmp) (2 * length scripts.now) (agreeing_step shape.now (map script_lines scripts.now) 0 (items_of replies.now)) (state_of shape.now (map script_lines scripts.now) 0 []) limit }
{
    if !has_replies(scripts, replies) {
        return Ok(false);
    }
    let mut states = match agreeing_states(alloc, shape, scripts, replies, limit) {
        Ok(states) => states,
        Err(fault) => return Err(fault),
    };
    'states: while let Some(state) = states.pop_first() {
        if shows(shape, scripts, last, &state) {
            return Ok(true);
        }
    }
    Ok(false)
}

/// The states of all beginnings of runs with these replies.
fn agreeing_states(
    alloc: Global,
    shape: &Shape,
    scripts: &[Script],
    replies: &[Replies],
    limit: usize,
) -> Result<BTreeSet<State>, SearchFault>
    requires valid { IsShape shape.now }
    requires fits { ScriptsFit (cells_of_shape shape.now) (map script_lines scripts.now) }
    requires few { length scripts.now ≤ 64 }
    ensures ok { IfOk result (HasEveryAgreeing shape.now (map script_lines scripts.now) 0 (items_of replies.now)) }
    ensures many { result ≡ Err TooManyStates → ReachesMore (slice_cmp nat_cmp) (2 * length scripts.now) (agreeing_step shape.now (map script_lines scripts.now) 0 (items_of replies.now)) (state_of shape.now (map script_lines scripts.now) 0 []) limit }
{
    let machine = Agreeing::new(alloc, shape, scripts, replies);
    match machine.start() {
        Ok(start) => reach(alloc, &machine, start, limit),
        Err(_) => Err(SearchFault::NoMemory),
    }
}
