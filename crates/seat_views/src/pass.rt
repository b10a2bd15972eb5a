//! What one thread steps with.

ghost use Rattle.std.specs.Prelude.{◌≡◌, ◌<◌, ◌≤◌, ◌^◌, [], MatchResult, IfOk, IfErr};
ghost use Rattle.op_table.specs.Call.{after_of, CallFits};
ghost use Rattle.place_core.specs.Shapes.{kind_of};
ghost use Rattle.place_core.specs.Operations.{OpServes};
ghost use Rattle.layout_plan.specs.Laws.{HasLane};
ghost use Rattle.seat_views.specs.declared.view.Flight.TheVariants.{Idle};
ghost use Rattle.seat_views.specs.declared.view.Beside.TheVariants.{Nobody};
ghost use Rattle.seat_views.specs.Places.{lane_at, HasParts, parts_of};
ghost use Rattle.seat_views.specs.Steps.{IsSoundView};
ghost use Rattle.seat_views.specs.LockSteps.{HoldsClean, HoldsRead, MayRelease};
ghost use Rattle.seat_views.specs.LockSteps.{GlancesAt, GlancesRead, IsGlance, stamp_in};
ghost use Rattle.seat_views.specs.States.{state_of, IsOf, IsNoteOf, IsKept};
ghost use Rattle.seat_views.specs.States.{Gives, GivesNone, TakesBack, Notes, Meets, Drops};
ghost use Rattle.seat_views.specs.Tries.{OpMade, LookMade, LookSaw, TryMade, TrySaw};
ghost use Rattle.seat_views.specs.LockStates.{TakesLock, ReadsHeld, PutsPart, Releases};
ghost use Rattle.seat_views.specs.LockStates.{ReadsStamp, ReadsPart, Matches, Misses};

use crate::arena::Arena;
use crate::hand::{Hand, hand_at, stamp_after};
use crate::lanes::{lane_spot, look_as, look_settles, lost_try_settles, op_as, try_as};
use crate::locks::{
    held_as, join, match_as, part_as, parts_cell, put_as, release_as, stamp_as, take_as,
};
use crate::note::Note;
use crate::rule;
use crate::view::View;
use atomic_table::Seat;
use op_table::{Call, Reply, answer};
use place_core::{Full, WordOp, lane_bits, put_lane};
use std::marker::{Brand, Model};

/// What one thread steps with: contracts see what it has seen, its own entries, its steps and the call in flight.
#[derive(Drop)]
pub struct Pass {
    number: u32,
    given: u32,
    hand: Hand,
    seat: Seat<(), View>,
}

impl Model for Pass {
    ghost use Rattle.seat_views.specs.States.{PassState};

    ghost Value = { PassState };

    ghost use Rattle.seat_views.specs.States.{state_of};
    ghost use Rattle.seat_views.specs.Keeping.{KeepsPass};

    ghost view = { λ p. state_of p.seat.table_id p.seat.me.0 };

    ghost invariant = { λ p. KeepsPass p.number p.given p.hand p.seat.me };
}

/// The most numbers that a root gives.
pub const MOST_PASSES: u32 = 65_535;

impl Pass {
    pub(crate) fn of(number: u32, given: u32, seat: Seat<(), View>) -> Pass
        requires numbers { (number ≡ seat.me.0.number) × (given ≡ seat.me.0.given) }
        requires none { (seat.me.1 ≡ []) × (seat.me.0.beside ≡ Nobody) × (seat.me.0.flight ≡ Idle) }
        requires sound { IsSoundView seat.me.0 }
        ensures { result ≡ state_of seat.table_id seat.me.0 }
    {
        Pass {
            number,
            given,
            hand: hand_at(0),
            seat,
        }
    }

    /// Gives the next number to a new pass, by one load that is counted aside.
    pub(crate) fn give(&mut self, arena: &Arena) -> Result<Pass, Full>
        requires arena { IsOf arena.now self.old }
        requires root { self.old.number ≡ 0 }
        requires rest { self.old.flight ≡ Idle }
        ensures { MatchResult result (λ p. Gives self.old p self.new) (λ _. GivesNone self.old self.new) }
    {
        if self.given >= MOST_PASSES {
            return Err(Full);
        }
        let given = self.given + 1;
        let seat = arena.table.shared.split_seat::<rule::Gives>(&mut self.seat);
        self.given = given;
        Ok(Pass::of(given, 0, seat))
    }

    /// Ends a pass, and sees all that it has seen, by two loads that are counted aside.
    pub(crate) fn take_back(&mut self, arena: &Arena, pass: Pass)
        requires arena { IsOf arena.now self.old × IsOf arena.now pass }
        requires root { self.old.number ≡ 0 }
        requires rest { (self.old.flight ≡ Idle) × (pass.flight ≡ Idle) }
        ensures { TakesBack self.old pass self.new }
    {
        let Pass { seat, .. } = pass;
        arena
            .table
            .shared
            .join_seat::<rule::Joins>(&mut self.seat, seat);
        arena.table.shared.load::<rule::Learns>(&mut self.seat, 0);
    }

    /// The pass's number, which its entries have as their caller. The root's is 0.
    pub fn number(&self) -> u32
        ensures number { result ≡ self.now.number }
        ensures kept { IsKept self.now }
    {
        self.number
    }

    /// Gives a note of all that the pass has seen, by one load of word 0, which is counted aside.
    pub fn note(&mut self, arena: &Arena) -> Note
        requires arena { IsOf arena.now self.old }
        requires rest { self.old.flight ≡ Idle }
        ensures { Notes self.old result self.new }
    {
        Note::of(arena.table.shared.split_seat::<rule::Notes>(&mut self.seat))
    }

    /// Takes a note in, by two loads of word 0, which are counted aside: the pass has then seen what the note tells.
    pub fn meet(&mut self, arena: &Arena, note: Note)
        requires arena { IsOf arena.now self.old × IsNoteOf arena.now note }
        requires rest { self.old.flight ≡ Idle }
        ensures { Meets self.old note self.new }
    {
        let seat = note.into_seat();
        arena
            .table
            .shared
            .join_seat::<rule::Meets>(&mut self.seat, seat);
        arena.table.shared.load::<rule::Hears>(&mut self.seat, 0);
    }

    /// Ends a glance that isn't to be matched, by one load of word 0, which is counted aside.
    pub fn drop_glance(&mut self, arena: &Arena)
        requires arena { IsOf arena.now self.old }
        requires glance { IsGlance self.old.flight }
        ensures { Drops self.old self.new }
    {
        arena.table.shared.load::<rule::Drops>(&mut self.seat, 0);
    }

    /// Makes a call on an object's lane in one step, by the operation that serves it.
    #[inline(always)]
    pub fn step_op(&mut self, arena: &Arena, object: u32, call: &Call, op: WordOp) -> Reply
        requires arena { IsOf arena.now self.old }
        requires serves { OpServes arena.now.shape object call.now op }
        requires fits { CallFits (kind_of arena.now.shape object) call.now }
        requires rest { self.old.flight ≡ Idle }
        ensures { OpMade arena.now.shape object call.now op self.old result self.new }
    {
        let spot = lane_spot(arena, object);
        let found = op_as::<Brand>(arena, &mut self.seat, object, spot, call, op);
        answer(spot.kind, call, lane_bits(found, spot.shift, spot.width))
    }

    /// Loads the word of an object's lane. Ok where that makes the call: a load, or an exchange that expects another
    /// value than the lane's. Else the word, and no entry was made.
    #[inline(always)]
    pub fn step_look(&mut self, arena: &Arena, object: u32, call: &Call) -> Result<Reply, u64>
        requires arena { IsOf arena.now self.old }
        requires object { HasLane arena.now.shape object }
        requires fits { CallFits (kind_of arena.now.shape object) call.now }
        requires rest { self.old.flight ≡ Idle }
        ensures made { IfOk result (λ r. LookMade arena.now.shape object call.now self.old r self.new) }
        ensures saw { IfErr result (λ n. LookSaw arena.now.shape object call.now self.old n self.new) }
    {
        let spot = lane_spot(arena, object);
        let found = look_as::<Brand>(arena, &mut self.seat, object, spot, call);
        let value = lane_bits(found, spot.shift, spot.width);
        if look_settles(call, value) {
            Ok(answer(spot.kind, call, value))
        } else {
            Err(found)
        }
    }

    /// Exchanges the word of an object's lane from `found` to the same with `new` in the lane. Ok where the call is
    /// made: it won, or found another word at which the call fails, as a weak exchange always does. Else the word that
    /// it found, and no entry was made.
    #[inline(always)]
    pub fn step_try(
        &mut self,
        arena: &Arena,
        object: u32,
        call: &Call,
        found: u64,
        new: u128,
    ) -> Result<Reply, u64>
        requires arena { IsOf arena.now self.old }
        requires object { HasLane arena.now.shape object }
        requires fits { CallFits (kind_of arena.now.shape object) call.now }
        requires new { new ≡ after_of (kind_of arena.now.shape object) call.now (lane_at arena.now.shape object found) }
        requires rest { self.old.flight ≡ Idle }
        ensures made { IfOk result (λ r. TryMade arena.now.shape object call.now found self.old r self.new) }
        ensures lost { IfErr result (λ n. TrySaw arena.now.shape object call.now found self.old n self.new) }
    {
        let spot = lane_spot(arena, object);
        let next = put_lane(found, spot.shift, spot.width, new);
        let seen = try_as::<Brand>(arena, &mut self.seat, object, spot, call, found, next);
        let value = lane_bits(seen, spot.shift, spot.width);
        if seen == found {
            Ok(answer(spot.kind, call, value))
        } else if lost_try_settles(call, value) {
            Ok(Reply::Failed(value))
        } else {
            Err(seen)
        }
    }

    /// Swaps 1 into the lock of an object that has parts. True where it found another number: the pass then holds the
    /// lock, and else nothing is in flight. From the stamp found it can be told how many calls on the lock's objects
    /// were made at least.
    #[inline(always)]
    pub fn step_take(&mut self, arena: &Arena, object: u32) -> bool
        requires arena { IsOf arena.now self.old }
        requires object { HasParts arena.now.shape object }
        requires rest { self.old.flight ≡ Idle }
        ensures { TakesLock arena.now.shape object arena.now.first_stamp self.old result self.new }
    {
        let cell = parts_cell(arena, object);
        let found = take_as::<Brand>(arena, &mut self.seat, object, cell);
        self.hand.begin(found);
        found != 1
    }

    /// Loads a part, counted from 0, of the object whose lock the pass holds. Nothing was written yet.
    #[inline(always)]
    pub fn step_held(&mut self, arena: &Arena, object: u32, part: u32) -> u64
        requires arena { IsOf arena.now self.old }
        requires part { part < parts_of arena.now.shape object }
        requires hold { HoldsClean object self.old.flight }
        ensures { ReadsHeld arena.now.shape object part self.old result self.new }
    {
        let cell = parts_cell(arena, object);
        let found = held_as::<Brand>(arena, &mut self.seat, object, cell, part);
        self.hand.read[part as usize] = found;
        found
    }

    /// Stores a part of the object whose lock the pass holds. Every part was read before.
    #[inline(always)]
    pub fn step_put(&mut self, arena: &Arena, object: u32, part: u32, number: u64)
        requires arena { IsOf arena.now self.old }
        requires part { part < parts_of arena.now.shape object }
        requires number { number < 2 ^ arena.now.shape.word_bits }
        requires hold { HoldsRead object (parts_of arena.now.shape object) self.old.flight }
        ensures { PutsPart arena.now.shape object part self.old number self.new }
    {
        let cell = parts_cell(arena, object);
        put_as::<Brand>(arena, &mut self.seat, object, cell, part, number);
        self.hand.wrote = true;
    }

    /// Gives the lock up, which makes the call: the parts now hold what it leaves of the value that was read. That is
    /// the object's value in the history where the call's entry comes. The lock gets its old stamp where nothing was
    /// written, and else two more, or the last stamp again. A weak exchange is made as a strong one.
    #[inline(always)]
    pub fn step_release(&mut self, arena: &Arena, object: u32, call: &Call) -> Reply
        requires arena { IsOf arena.now self.old }
        requires object { HasParts arena.now.shape object }
        requires fits { CallFits (kind_of arena.now.shape object) call.now }
        requires hold { MayRelease arena.now.shape object call.now self.old.flight }
        ensures { Releases arena.now.shape object call.now self.old result self.new }
    {
        let cell = parts_cell(arena, object);
        let value = join(&self.hand.read, cell.parts, cell.bits);
        let stamp = stamp_after(&self.hand);
        release_as::<Brand>(arena, &mut self.seat, object, cell, call, value, stamp);
        answer(cell.kind, call, value)
    }

    /// Loads the lock of an object that has parts. Where it is neither held, which is 1, nor at its last stamp, a glance
    /// at the object begins.
    #[inline(always)]
    pub fn step_stamp(&mut self, arena: &Arena, object: u32) -> u64
        requires arena { IsOf arena.now self.old }
        requires object { HasParts arena.now.shape object }
        requires rest { self.old.flight ≡ Idle }
        ensures { ReadsStamp arena.now.shape object arena.now.first_stamp self.old result self.new }
    {
        let cell = parts_cell(arena, object);
        let found = stamp_as::<Brand>(arena, &mut self.seat, object, cell);
        self.hand.begin(found);
        found
    }

    /// Loads a part, counted from 0, of the object that the pass glances at.
    #[inline(always)]
    pub fn step_part(&mut self, arena: &Arena, object: u32, part: u32) -> u64
        requires arena { IsOf arena.now self.old }
        requires part { part < parts_of arena.now.shape object }
        requires glance { GlancesAt object self.old.flight }
        ensures { ReadsPart arena.now.shape object part self.old result self.new }
    {
        let cell = parts_cell(arena, object);
        let found = part_as::<Brand>(arena, &mut self.seat, object, cell, part);
        self.hand.read[part as usize] = found;
        found
    }

    /// The stamp at which the glance began.
    #[inline(always)]
    pub fn glance_stamp(&self) -> u64
        requires glance { IsGlance self.now.flight }
        ensures value { result ≡ stamp_in self.now.flight }
    {
        self.hand.stamp
    }

    /// Loads the lock again, which ends the glance. Ok with the value where the stamp stands: that makes a load. Else
    /// the other number, and no entry was made.
    #[inline(always)]
    pub fn step_match(&mut self, arena: &Arena, object: u32) -> Result<u128, u64>
        requires arena { IsOf arena.now self.old }
        requires object { HasParts arena.now.shape object }
        requires glance { GlancesRead object (parts_of arena.now.shape object) self.old.flight }
        ensures stands { IfOk result (λ v. Matches arena.now.shape object self.old v self.new) }
        ensures differs { IfErr result (λ n. Misses arena.now.shape object self.old n self.new) }
    {
        let cell = parts_cell(arena, object);
        let value = join(&self.hand.read, cell.parts, cell.bits);
        let stamp = self.hand.stamp;
        let found = match_as::<Brand>(arena, &mut self.seat, object, cell, value, stamp);
        if found == stamp {
            Ok(value)
        } else {
            Err(found)
        }
    }
}
