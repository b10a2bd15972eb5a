//! A count that goes down to 0 once.

ghost use Rattle.std.specs.Prelude.{◌≡◌, IfOk, IfErr, MatchOption};
ghost use Rattle.seat_views.specs.Trials.{IsReady};
ghost use Rattle.wait_cell.specs.Waits.{WaitsForZero};
ghost use Rattle.wait_cell.specs.Takes.{HasCount, TakesOne, FindsZero};

use crate::bell::Bell;
use crate::permits::count_at;
use crate::takes::{Zero, take_one};
use crate::waits::wait_while;
use atomic_types::Served;
use seat_views::{Arena, Pass};
use std::marker::Model;
use std::sync::Wait;

/// A u32 that counts down to 0, as a number that may be copied: it names the object, and the arena has the count. Contracts
/// see it as the object's number. C++20's `std::latch`.
#[derive(Clone, Copy)]
pub struct Latch {
    served: Served,
}

impl Model for Latch {
    ghost use Rattle.std.specs.Prelude.{ℕ};

    ghost Value = { ℕ };

    ghost view = { λ l. l.served.object };

    ghost inverse = { λ n. record { served = record { object = n } } };
}

impl Latch {
    /// The latch that an object is. None where there is no such object, or it isn't a u32.
    pub fn of(arena: &Arena, object: u32) -> Option<Latch>
        ensures { MatchOption result (HasCount arena.now.shape object → ⊥) (λ l. (l ≡ object) × HasCount arena.now.shape object) }
    {
        let served = count_at(arena, object)?;
        Some(Latch { served })
    }

    /// Counts down by one, answers what is left, and rings the bell where that is 0. Zero where the count was 0 before; it
    /// stays. It doesn't sleep at the bell. C++20's `count_down`.
    pub fn count_down<R: Wait>(
        &self,
        rt: &R,
        arena: &Arena,
        pass: &mut Pass,
        bell: &Bell,
    ) -> Result<u32, Zero>
        requires ready { IsReady arena.now pass.old }
        requires count { HasCount arena.now.shape self.now }
        ensures took { IfOk result (λ left. TakesOne arena.now.shape self.now pass.old left pass.new) }
        ensures zero { IfErr result (λ _. FindsZero arena.now.shape self.now pass.old pass.new) }
        ensures ready { IsReady arena.now pass.new }
    {
        let left = take_one(rt, arena, pass, self.served);
        if left == Ok(0) {
            bell.ring(rt);
        }
        left
    }

    /// Waits at the bell until the count is 0, and may wait for ever. C++20's `wait`.
    pub fn wait_zero<R: Wait>(&self, rt: &R, arena: &Arena, pass: &mut Pass, bell: &Bell)
        requires ready { IsReady arena.now pass.old }
        requires count { HasCount arena.now.shape self.now }
        ensures waits { WaitsForZero arena.now.shape self.now pass.old pass.new }
        ensures ready { IsReady arena.now pass.new }
    {
        let above = |number: u128| number != 0;
        wait_while(rt, arena, pass, self.served, above, bell);
    }
}
