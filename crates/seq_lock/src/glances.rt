//! Glances at the parts of an object, without its lock.

ghost use Rattle.std.specs.Prelude.{◌≡◌, ◌<◌, IfOk, IfErr};
ghost use Rattle.seat_views.specs.declared.view.Flight.TheVariants.{Idle};
ghost use Rattle.seat_views.specs.Places.{HasParts, parts_of};
ghost use Rattle.seat_views.specs.LockSteps.{GlancesAt, GlancesRead};
ghost use Rattle.seat_views.specs.States.{IsOf};
ghost use Rattle.seat_views.specs.LockStates.{ReadsPart, Matches};
ghost use Rattle.seq_lock.specs.Glances.{Begins, BeginsNot, EndsNot};

use seat_views::{Arena, LAST_STAMP, Pass};
use thiserror::Error;

/// Why a glance has no value.
#[derive(Clone, Copy, Debug, PartialEq, Eq, Error)]
pub enum Missed {
    /// The lock was held.
    #[error("the lock was held")]
    Held,
    /// The lock had another number at the end than its stamp at the begin.
    #[error("the stamp went from {first} to {second}")]
    Moved { first: u64, second: u64 },
    /// The lock has its last stamp, at which no glance begins.
    #[error("the lock has its last stamp")]
    Last,
}

/// Begins a glance at an object that has parts, and answers the lock's stamp. Held where the lock is held, and Last
/// where it has its last stamp: then no glance is in flight.
#[inline(always)]
pub fn glance_begin(arena: &Arena, pass: &mut Pass, object: u32) -> Result<u64, Missed>
    requires arena { IsOf arena.now pass.old }
    requires object { HasParts arena.now.shape object }
    requires rest { pass.old.flight ≡ Idle }
    ensures begun { IfOk result (λ n. Begins arena.now.shape object arena.now.first_stamp pass.old n pass.new) }
    ensures missed { IfErr result (λ m. BeginsNot arena.now.shape object arena.now.first_stamp pass.old m pass.new) }
{
    let stamp = pass.step_stamp(arena, object);
    if stamp == 1 {
        return Err(Missed::Held);
    }
    if stamp == LAST_STAMP {
        return Err(Missed::Last);
    }
    Ok(stamp)
}

/// Reads a part, counted from 0, of the object that is glanced at.
#[inline(always)]
pub fn glance_part(arena: &Arena, pass: &mut Pass, object: u32, part: u32) -> u64
    requires arena { IsOf arena.now pass.old }
    requires part { part < parts_of arena.now.shape object }
    requires glance { GlancesAt object pass.old.flight }
    ensures { ReadsPart arena.now.shape object part pass.old result pass.new }
{
    pass.step_part(arena, object, part)
}

/// Ends a glance that has read every part. Ok with the value where the lock has the glance's stamp, which makes a load.
/// Else Moved with the glance's stamp and the number found, and no entry was made.
#[inline(always)]
pub fn glance_end(arena: &Arena, pass: &mut Pass, object: u32) -> Result<u128, Missed>
    requires arena { IsOf arena.now pass.old }
    requires object { HasParts arena.now.shape object }
    requires glance { GlancesRead object (parts_of arena.now.shape object) pass.old.flight }
    ensures stands { IfOk result (λ v. Matches arena.now.shape object pass.old v pass.new) }
    ensures missed { IfErr result (λ m. EndsNot arena.now.shape object pass.old m pass.new) }
{
    let first = pass.glance_stamp();
    match pass.step_match(arena, object) {
        Ok(value) => Ok(value),
        Err(second) => Err(Missed::Moved { first, second }),
    }
}
