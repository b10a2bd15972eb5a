//! The pass of number 0.

ghost use Rattle.std.specs.Prelude.{◌≡◌, ◌<◌, ◌≤◌, MatchResult};
ghost use Rattle.std.specs.Borrow.{sem};
ghost use Rattle.seat_views.specs.declared.view.Flight.TheVariants.{Idle};
ghost use Rattle.seat_views.specs.States.{IsOf, Gives, GivesNone, TakesBack};
ghost use Rattle.seat_views.specs.Lending.{LendsPass};

use crate::arena::Arena;
use crate::pass::Pass;
use place_core::Full;
use std::marker::Model;

/// The pass of number 0, which gives numbers to the others and takes them back. Contracts see it as that pass.
#[derive(Drop)]
pub struct Root {
    pass: Pass,
}

impl Model for Root {
    ghost use Rattle.seat_views.specs.States.{PassState};

    ghost Value = { PassState };

    ghost view = { λ r. r.pass };
}

impl Root {
    pub(crate) fn of(pass: Pass) -> Root
        ensures { result ≡ pass }
    {
        Root { pass }
    }

    /// A new pass with the next number, from 1 on. It has seen what the root has. Full where 65,535 numbers were given.
    /// That costs the root one load of word 0, which is counted aside.
    pub fn pass(&mut self, arena: &Arena) -> Result<Pass, Full>
        requires arena { IsOf arena.now self.old }
        requires root { self.old.number ≡ 0 }
        requires rest { self.old.flight ≡ Idle }
        ensures { MatchResult result (λ p. Gives self.old p self.new) (λ _. GivesNone self.old self.new) }
    {
        self.pass.give(arena)
    }

    /// Ends a pass. The root has then seen all that it has seen, and keeps its number, its entries, its steps and its loads
    /// aside. That costs the root two loads of word 0, which are counted aside.
    pub fn take_back(&mut self, arena: &Arena, pass: Pass)
        requires arena { IsOf arena.now self.old × IsOf arena.now pass }
        requires root { self.old.number ≡ 0 }
        requires rest { (self.old.flight ≡ Idle) × (pass.flight ≡ Idle) }
        ensures { TakesBack self.old pass self.new }
    {
        self.pass.take_back(arena, pass);
    }

    /// The root's own pass. Whatever pass the caller leaves there is the root's then.
    pub fn as_pass(&mut self) -> &mut Pass
        ensures* lends { sem 𝓛 (LendsPass self.entry result) }
        ensures value { result.now ≡ self.old }
    {
        &mut self.pass
    }
}
