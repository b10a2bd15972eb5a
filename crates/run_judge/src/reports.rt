//! What a state shows of a report.

ghost use Rattle.std.specs.Prelude.{◌≡◌, ◌↔◌, ◌+◌, ◌<◌, ◌≤◌, length, map, IsTrue};
ghost use Rattle.place_core.specs.Pieces.{script_lines};
ghost use Rattle.run_judge.specs.Reports.{items_of};
ghost use Rattle.run_judge.specs.Judging.{HasReplies, HasLast};

use op_table::Reply;
use place_core::{Replies, Script};
use run_steps::State;

/// Whether there is a reply for each line.
pub(crate) fn has_replies(scripts: &[Script], replies: &[Replies]) -> bool
    ensures { IsTrue result ↔ HasReplies (map script_lines scripts.now) (items_of replies.now) }
{
    if replies.len() != scripts.len() {
        return false;
    }
    for thread in 0..scripts.len() {
        if replies[thread].len() != scripts[thread].len() {
            return false;
        }
    }
    true
}

/// Whether a reply is this value.
fn is_value(reply: &Reply, wanted: u128) -> bool
    ensures { IsTrue result ↔ (reply.now ≡ Reply.Value wanted) }
{
    match reply {
        Reply::Value(value) => *value == wanted,
        Reply::Unit | Reply::Bit(_) | Reply::Done(_) | Reply::Failed(_) => false,
    }
}

/// Whether a state of so many threads and objects has these last values.
pub(crate) fn has_last(threads: usize, objects: usize, last: &Replies, state: &State) -> bool
    requires threads { threads ≤ 64 }
    requires cells { threads + threads + objects ≤ length state.now }
    ensures { IsTrue result ↔ HasLast threads objects last.now.items state.now }
{
    let _count = state.len();
    if last.len() as usize != objects {
        return false;
    }
    for object in 0..objects {
        if !is_value(last.at(object as u32), state.at(threads + threads + object)) {
            return false;
        }
    }
    true
}
