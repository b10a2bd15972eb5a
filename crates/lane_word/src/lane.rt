//! An object's lane, and the calls on it.

ghost use Rattle.std.specs.Prelude.{◌≡◌, MatchOption};
ghost use Rattle.op_table.specs.declared.call.Call.TheVariants.{Load, CasWeak};
ghost use Rattle.op_table.specs.declared.call.Reply.TheVariants.{Value};
ghost use Rattle.op_table.specs.Call.{CallFits};
ghost use Rattle.place_core.specs.declared.places.WordOp.{WordOp};
ghost use Rattle.place_core.specs.declared.places.Path.TheVariants.{One, Loop};
ghost use Rattle.place_core.specs.Operations.{plan_of};
ghost use Rattle.place_core.specs.Shapes.{kind_of};
ghost use Rattle.layout_plan.specs.Laws.{HasLane};
ghost use Rattle.seat_views.specs.declared.view.Flight.TheVariants.{Idle};
ghost use Rattle.seat_views.specs.States.{IsOf};
ghost use Rattle.lane_word.specs.LaneCalls.{HasNoLane, MakesAtOnce, MakesWeakly};

use op_table::{Call, Reply};
use place_core::{Path, Place, Shape, WordOp};
use seat_views::{Arena, Pass};
use std::marker::Model;

/// The lane of an object. Contracts see it as the object's number.
#[derive(Clone, Copy)]
pub struct Lane {
    object: u32,
}

impl Model for Lane {
    ghost use Rattle.std.specs.Prelude.{ℕ};

    ghost Value = { ℕ };

    ghost view = { λ l. l.object };

    ghost inverse = { λ n. record { object = n } };
}

impl Lane {
    /// The lane of an object. None where there is no such object, or it has parts.
    pub fn of(shape: &Shape, object: u32) -> Option<Lane>
        ensures { MatchOption result (HasNoLane shape.now object) (λ l. (l ≡ object) × HasLane shape.now object) }
    {
        if object as usize >= shape.objects.len() {
            return None;
        }
        match shape.objects.at(object as usize).place {
            Place::Lane { .. } => Some(Lane { object }),
            Place::Parts { .. } => None,
        }
    }

    /// The object's number, counted from 0.
    pub fn object(self) -> u32
        ensures { result ≡ self }
    {
        self.object
    }

    /// Loads the lane's value, in one atomic step: one item, and no load aside.
    pub fn load(self, arena: &Arena, pass: &mut Pass) -> u128
        requires arena { IsOf arena.now pass.old }
        requires lane { HasLane arena.now.shape self }
        requires rest { pass.old.flight ≡ Idle }
        ensures { MakesAtOnce arena.now.shape self Load pass.old (Value result) pass.new }
    {
        match pass.step_op(arena, self.object, &Call::Load, WordOp::Load) {
            Reply::Value(value) => value,
            _ => unreachable!(),
        }
    }

    /// Makes a call whose plan is one step, by that step: one item, and no load aside.
    pub fn one(self, arena: &Arena, pass: &mut Pass, call: &Call) -> Reply
        requires arena { IsOf arena.now pass.old }
        requires lane { HasLane arena.now.shape self }
        requires fits { CallFits (kind_of arena.now.shape self) call.now }
        requires one { (done : WordOp) × (plan_of arena.now.shape self call.now ≡ One done) }
        requires rest { pass.old.flight ≡ Idle }
        ensures { MakesAtOnce arena.now.shape self call.now pass.old result pass.new }
    {
        match arena.plan(self.object, call) {
            Path::One(op) => pass.step_op(arena, self.object, call, op),
            _ => unreachable!(),
        }
    }

    /// Exchanges `expected` for `new`, as `compare_exchange_weak`: in one step where the plan is one, and else by a
    /// look and one try, and no load aside. It fails with the expected value only where the try found another word than
    /// the look.
    pub fn cas_weak(self, arena: &Arena, pass: &mut Pass, expected: u128, new: u128) -> Reply
        requires arena { IsOf arena.now pass.old }
        requires lane { HasLane arena.now.shape self }
        requires fits { CallFits (kind_of arena.now.shape self) (CasWeak expected new) }
        requires rest { pass.old.flight ≡ Idle }
        ensures { MakesWeakly arena.now.shape self expected new pass.old result pass.new }
    {
        match arena.plan(self.object, &Call::CasWeak(expected, new)) {
            Path::One(op) => { pass.step_op(arena, self.object, &Call::CasWeak(expected, new), op) }
            _ => self.look_and_try(arena, pass, expected, new),
        }
    }

    /// Looks, and tries once where the look finds the expected value.
    fn look_and_try(self, arena: &Arena, pass: &mut Pass, expected: u128, new: u128) -> Reply
        requires arena { IsOf arena.now pass.old }
        requires lane { HasLane arena.now.shape self }
        requires fits { CallFits (kind_of arena.now.shape self) (CasWeak expected new) }
        requires loops { plan_of arena.now.shape self (CasWeak expected new) ≡ Loop }
        requires rest { pass.old.flight ≡ Idle }
        ensures { MakesWeakly arena.now.shape self expected new pass.old result pass.new }
    {
        // Only for its clause: the shape is a valid one.
        let _shape = arena.shape();
        let call = Call::CasWeak(expected, new);
        match pass.step_look(arena, self.object, &call) {
            Ok(reply) => reply,
            Err(found) => match pass.step_try(arena, self.object, &call, found, new) {
                Ok(reply) => reply,
                Err(_) => unreachable!(),
            },
        }
    }
}
