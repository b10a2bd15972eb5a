//! States in which each thread made all its calls.

ghost use Rattle.std.specs.Prelude.{◌≡◌, ◌↔◌, ◌+◌, ◌*◌, ◌<◌, ◌≤◌, length, map, IfOk, true, IsTrue};
ghost use Rattle.place_core.specs.Pieces.{script_lines};
ghost use Rattle.place_core.specs.Shapes.{IsShape};
ghost use Rattle.run_steps.specs.Standing.{cell_count};
ghost use Rattle.run_outcomes.specs.Outcomes.{longest, told_count, EndsAll, cell_at, outcome_at};

use place_core::{Script, Shape};
use run_steps::State;
use std::alloc::{AllocError, Global};

/// Whether in the state each thread made all its calls.
pub fn ends_all(scripts: &[Script], state: &State) -> bool
    requires { length scripts.now ≤ length state.now }
    ensures { IsTrue result ↔ EndsAll (map script_lines scripts.now) state.now }
{
    for thread in 0..scripts.len() {
        if state.at(thread) != u128::from(scripts[thread].len()) {
            return false;
        }
    }
    true
}

/// Number `i` of the outcome at a state, where so many numbers tell replies.
fn cell_at(shape: &Shape, scripts: &[Script], told: usize, state: &State, i: usize) -> u128
    requires told { told ≡ told_count (map script_lines scripts.now) }
    requires cells { length state.now ≡ cell_count shape.now (map script_lines scripts.now) (longest (map script_lines scripts.now)) }
    requires within { i < told + length shape.now.objects }
    ensures { result ≡ cell_at shape.now (map script_lines scripts.now) state.now i }
{
    let threads = scripts.len();
    let _count = state.len();
    if i < told {
        state.at(threads + threads + shape.objects.len() + i)
    } else {
        state.at(threads + threads + (i - told))
    }
}

/// The outcome at a state, where so many numbers tell replies.
pub(crate) fn outcome_at(
    alloc: Global,
    shape: &Shape,
    scripts: &[Script],
    told: usize,
    state: &State,
) -> Result<State, AllocError>
    requires told { told ≡ told_count (map script_lines scripts.now) }
    requires cells { length state.now ≡ cell_count shape.now (map script_lines scripts.now) (longest (map script_lines scripts.now)) }
    ensures { IfOk result (λ q. q ≡ outcome_at shape.now (map script_lines scripts.now) state.now) }
{
    let _count = state.len();
    let count = told + shape.objects.len();
    let mut outcome = State::with_room(alloc, count)?;
    for i in 0..count {
        outcome.push(cell_at(shape, scripts, told, state, i))?;
    }
    Ok(outcome)
}
