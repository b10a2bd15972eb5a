//! Taking one from a number that isn't 0.

ghost use Rattle.std.specs.Prelude.{◌≡◌, IfOk, IfErr};
ghost use Rattle.seat_views.specs.Trials.{IsReady};
ghost use Rattle.wait_cell.specs.Takes.{HasCount, TakesOne, FindsZero};

use crate::calls::{exchange, load};
use atomic_types::Served;
use seat_views::{Arena, Pass};
use std::sync::Wait;

/// The number was 0.
#[derive(Clone, Copy, Debug, PartialEq, Eq)]
pub struct Zero;

/// Takes one from an object's number, and answers what is left.
pub(crate) fn take_one<R: Wait>(
    rt: &R,
    arena: &Arena,
    pass: &mut Pass,
    served: Served,
) -> Result<u32, Zero>
    requires ready { IsReady arena.now pass.old }
    requires count { HasCount arena.now.shape served.object }
    ensures took { IfOk result (λ left. TakesOne arena.now.shape served.object pass.old left pass.new) }
    ensures zero { IfErr result (λ _. FindsZero arena.now.shape served.object pass.old pass.new) }
    ensures ready { IsReady arena.now pass.new }
{
    // Only for its clause: what the pass has seen is legal.
    let _number = pass.number();
    let mut number = load(rt, arena, pass, served);
    for _ in rt.forever() {
        if number == 0 {
            return Err(Zero);
        }
        let left = number - 1;
        match exchange(rt, arena, pass, served, number, left) {
            Ok(_) => return Ok(left as u32),
            Err(found) => number = found,
        }
    }
    unreachable!()
}
