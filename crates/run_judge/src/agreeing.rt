//! The machine of scripts whose calls have the replies of a report.

ghost use Rattle.std.specs.Prelude.{◌≡◌, ◌*◌, ◌<◌, ◌≤◌, length, map, slice_get, IfOk, IfSome, Some, []};
ghost use Rattle.std.specs.Option.{option_copied};
ghost use Rattle.std.proofs.lemmas.Map.Lookups.{exact_bytes};
ghost use Rattle.place_core.specs.Pieces.{script_lines};
ghost use Rattle.place_core.specs.Shapes.{IsShape};
ghost use Rattle.run_steps.specs.Standing.{state_of};
ghost use Rattle.run_steps.specs.Machines.{IsAt};
ghost use Rattle.run_judge.specs.Reports.{items_of};
ghost use Rattle.run_judge.specs.Agreeing.{replies_at, is_told, agrees_with, agreeing_step};
ghost use Rattle.run_judge.specs.Staying.{still_there};

use op_table::Reply;
use outcomes::Stepping;
use place_core::{Replies, Script, Shape};
use run_machine::Machine;
use run_steps::{Move, State, reply_number};
use std::alloc::{AllocError, Global};

/// The machine of scripts over a shape, each of whose calls has the reply that stands in a report at its place.
#[derive(Drop)]
pub struct Agreeing<'a> {
    machine: Machine<'a>,
    replies: &'a [Replies],
}

/// The reply of a thread's call, both counted from 0, in a report.
fn reply_at(replies: &[Replies], thread: u32, place: u32) -> Option<&Reply>
    ensures { option_copied result ≡ slice_get (replies_at (items_of replies.now) thread) place }
{
    if thread as usize >= replies.len() {
        return None;
    }
    let own = &replies[thread as usize];
    if place >= own.len() {
        return None;
    }
    Some(own.at(place))
}

/// Whether two replies are one.
fn is_told(told: &Reply, reply: &Reply) -> bool
    ensures { result ≡ is_told told.now (Some reply.now) }
{
    reply_number(0, told) == reply_number(0, reply)
        && reply_number(1, told) == reply_number(1, reply)
}

impl<'a> Agreeing<'a> {
    /// The machine of scripts over a shape whose calls have the replies of a report, of each thread a list. Its states keep
    /// no replies.
    pub fn new(
        alloc: Global,
        shape: &'a Shape,
        scripts: &'a [Script],
        replies: &'a [Replies],
    ) -> Self
        requires { length scripts.now ≤ 64 }
        ensures shape { result.machine.shape.now ≡ shape.now }
        ensures scripts { result.machine.scripts.now ≡ scripts.now }
        ensures kept { result.machine.kept ≡ 0 }
        ensures replies { result.replies.now ≡ replies.now }
    {
        Agreeing {
            machine: Machine::new(alloc, shape, scripts, 0),
            replies,
        }
    }

    /// The state before the first call.
    pub fn start(&self) -> Result<State, AllocError>
        requires valid { IsShape self.now.machine.shape.now }
        ensures { IfOk result (λ s. s ≡ state_of self.now.machine.shape.now (map script_lines self.now.machine.scripts.now) self.now.machine.kept []) }
    {
        self.machine.start()
    }

    /// Whether a move has the reply of the report.
    fn agrees_with(&self, step: &Move) -> bool
        ensures { result ≡ agrees_with (items_of self.now.replies.now) step.now }
    {
        match reply_at(self.replies, step.thread, step.place) {
            Some(reply) => is_told(&step.told, reply),
            None => false,
        }
    }
}

impl Stepping for Agreeing<'_> {
    type State = State;

    ghost is_state = { λ m s. IsAt m.machine.shape.now (map script_lines m.machine.scripts.now) m.machine.kept s };

    ghost choices = { λ m. 2 * length m.machine.scripts.now };

    ghost after = { λ m s k. agreeing_step m.machine.shape.now (map script_lines m.machine.scripts.now) m.machine.kept (items_of m.replies.now) s k };

    ghost same = { exact_bytes };

    ghost stays = { λ m s k at below. still_there m.machine.shape.now m.machine.scripts.now m.machine.kept (items_of m.replies.now) s k at below };

    fn choices(&self) -> u32 {
        self.machine.choices()
    }

    fn after(&self, state: &State, choice: u32) -> Result<Option<State>, AllocError> {
        let Some(step) = self.machine.move_of(state, choice) else {
            return Ok(None);
        };
        if !self.agrees_with(&step) {
            return Ok(None);
        }
        Ok(Some(self.machine.state_after(state, &step)?))
    }
}
