//! Permits that are taken and given back.

ghost use Rattle.std.specs.Prelude.{◌≡◌, IfOk, IfErr, MatchOption, false};
ghost use Rattle.op_table.specs.declared.call.Call.TheVariants.{Add};
ghost use Rattle.op_table.specs.declared.call.Reply.TheVariants as reply;
ghost use Rattle.seat_views.specs.Makes.{MakesCall};
ghost use Rattle.seat_views.specs.Trials.{IsReady};
ghost use Rattle.wait_cell.specs.Takes.{HasCount, TakesOne, FindsZero, TakesAtLast};

use crate::bell::Bell;
use crate::calls::answer;
use crate::takes::{Zero, take_one};
use crate::waits::wait;
use atomic_types::Served;
use op_table::{Call, Reply};
use scalar_laws::Scalar;
use seat_views::{Arena, Pass};
use std::marker::Model;
use std::sync::Wait;

/// A u32 that counts permits, as a number that may be copied: it names the object, and the arena has the count. Contracts
/// see it as the object's number. C++20's `std::counting_semaphore`.
#[derive(Clone, Copy)]
pub struct Permits {
    served: Served,
}

impl Model for Permits {
    ghost use Rattle.std.specs.Prelude.{ℕ};

    ghost Value = { ℕ };

    ghost view = { λ p. p.served.object };

    ghost inverse = { λ n. record { served = record { object = n } } };
}

/// The object of a number where it is a u32.
pub(crate) fn count_at(arena: &Arena, object: u32) -> Option<Served>
    ensures { MatchOption result (HasCount arena.now.shape object → ⊥) (λ s. (s.object ≡ object) × HasCount arena.now.shape object) }
{
    let objects = &arena.shape().objects;
    if object as usize >= objects.len() || objects.at(object as usize).kind != u32::KIND {
        return None;
    }
    Some(Served { object })
}

impl Permits {
    /// The permits that an object counts. None where there is no such object, or it isn't a u32.
    pub fn of(arena: &Arena, object: u32) -> Option<Permits>
        ensures { MatchOption result (HasCount arena.now.shape object → ⊥) (λ p. (p ≡ object) × HasCount arena.now.shape object) }
    {
        let served = count_at(arena, object)?;
        Some(Permits { served })
    }

    /// Takes a permit where one is left, and answers how many are left then. Zero where none was. It doesn't sleep. C++20's
    /// `try_acquire`.
    pub fn one_less<R: Wait>(&self, rt: &R, arena: &Arena, pass: &mut Pass) -> Result<u32, Zero>
        requires ready { IsReady arena.now pass.old }
        requires count { HasCount arena.now.shape self.now }
        ensures took { IfOk result (λ left. TakesOne arena.now.shape self.now pass.old left pass.new) }
        ensures zero { IfErr result (λ _. FindsZero arena.now.shape self.now pass.old pass.new) }
        ensures ready { IsReady arena.now pass.new }
    {
        take_one(rt, arena, pass, self.served)
    }

    /// Takes a permit, and answers how many are left then. Where none is, it waits at the bell for one to be given, and may
    /// wait for ever. C++20's `acquire`.
    pub fn take<R: Wait>(&self, rt: &R, arena: &Arena, pass: &mut Pass, bell: &Bell) -> u32
        requires ready { IsReady arena.now pass.old }
        requires count { HasCount arena.now.shape self.now }
        ensures took { TakesAtLast arena.now.shape self.now pass.old result pass.new }
        ensures ready { IsReady arena.now pass.new }
    {
        for _ in rt.forever() {
            match take_one(rt, arena, pass, self.served) {
                Ok(left) => return left,
                Err(Zero) => {}
            }
            wait(rt, arena, pass, self.served, 0, bell);
        }
        unreachable!()
    }

    /// Gives a permit back, answers how many were left before, and rings the bell. At 4,294,967,295 the count wraps to 0:
    /// give none that wasn't taken. C++20's `release`.
    #[inline(always)]
    pub fn give<R: Wait>(&self, rt: &R, arena: &Arena, pass: &mut Pass, bell: &Bell) -> u32
        requires ready { IsReady arena.now pass.old }
        requires count { HasCount arena.now.shape self.now }
        ensures gave { MakesCall arena.now.shape self.now (Add 1 false) pass.old (reply.Value result) pass.new }
        ensures ready { IsReady arena.now pass.new }
    {
        let before = match answer(rt, arena, pass, self.served, &Call::Add(1, false)) {
            Reply::Value(number) => number as u32,
            _ => unreachable!(),
        };
        bell.ring(rt);
        before
    }
}
