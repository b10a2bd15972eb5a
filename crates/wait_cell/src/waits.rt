//! Waiting for a change.

ghost use Rattle.std.specs.Prelude.{◌≡◌, ◌<◌, ℕ, length, true, false};
ghost use Rattle.op_table.specs.Kind.{values_of};
ghost use Rattle.place_core.specs.Shapes.{kind_of};
ghost use Rattle.seat_views.specs.Trials.{IsReady};
ghost use Rattle.wait_cell.specs.Waits.{LoadsUntil, Waits};

use crate::bell::Bell;
use crate::calls::load;
use atomic_types::Served;
use seat_views::{Arena, Pass};
use std::sync::Wait;

/// Waits until an object's number isn't `expected` any more, and answers the number found: the bit pattern of a value,
/// below 2 to the width. It loads, and sleeps at the bell between two loads, so whoever changes the number must ring it. It
/// may wait for ever, and makes no other call than loads. C++20's `std::atomic::wait`, which answers nothing.
pub fn wait<R: Wait>(
    rt: &R,
    arena: &Arena,
    pass: &mut Pass,
    served: Served,
    expected: u128,
    bell: &Bell,
) -> u128
    requires ready { IsReady arena.now pass.old }
    requires object { served.object < length arena.now.shape.objects }
    requires expected { expected < values_of (kind_of arena.now.shape served.object) }
    ensures waits { Waits arena.now.shape served.object expected pass.old result pass.new }
    ensures fits { result < values_of (kind_of arena.now.shape served.object) }
    ensures ready { IsReady arena.now pass.new }
{
    let same = |number: u128| number == expected;
    wait_while(rt, arena, pass, served, same, bell)
}

/// Waits as long as `goes_on` answers true of an object's number, as `wait` does as long as it is the expected one.
/// `goes_on` is asked once of each number that a load found, mostly while the bell's mutex is held: it must not wait for
/// one who rings. The answer is the first number at which it answered false.
pub fn wait_while<R: Wait, F: Fn(u128) -> bool>(
    rt: &R,
    arena: &Arena,
    pass: &mut Pass,
    served: Served,
    goes_on: F,
    bell: &Bell,
) -> u128
    requires ready { IsReady arena.now pass.old }
    requires object { served.object < length arena.now.shape.objects }
    requires asks { (n : ℕ) → n < values_of (kind_of arena.now.shape served.object) → F.pre goes_on n }
    ensures waits { LoadsUntil arena.now.shape served.object (λ n. F.post goes_on n true) (λ n. F.post goes_on n false) pass.old result pass.new }
    ensures fits { result < values_of (kind_of arena.now.shape served.object) }
    ensures ready { IsReady arena.now pass.new }
{
    // Only for its clause: what the pass has seen is legal.
    let _number = pass.number();
    let found = load(rt, arena, pass, served);
    if !goes_on(found) {
        return found;
    }
    let mut held = bell.hold(rt);
    for _ in rt.forever() {
        let found = load(rt, arena, pass, served);
        if !goes_on(found) {
            return found;
        }
        held = bell.sleep(rt, held);
    }
    unreachable!()
}
