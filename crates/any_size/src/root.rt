//! The pass of number 0.

ghost use Rattle.std.specs.Prelude.{◌≡◌, MatchResult};
ghost use Rattle.std.specs.Borrow.{sem};
ghost use Rattle.any_size.specs.declared.view.Hold.TheVariants.{Idle};
ghost use Rattle.any_size.specs.States.{IsOf, Gives, GivesNone, TakesBack};
ghost use Rattle.any_size.specs.Lending.{LendsPass};

use crate::blocks::Blocks;
use crate::pass::BlockPass;
use place_core::Full;
use std::marker::Model;

/// The pass of number 0, which gives numbers to the others and takes them back. Contracts see it as that pass.
#[derive(Drop)]
pub struct BlockRoot {
    pass: BlockPass,
}

impl Model for BlockRoot {
    ghost use Rattle.any_size.specs.States.{BlockPassState};

    ghost Value = { BlockPassState };

    ghost view = { λ r. r.pass };
}

impl BlockRoot {
    pub(crate) fn of(pass: BlockPass) -> BlockRoot
        ensures { result ≡ pass }
    {
        BlockRoot { pass }
    }

    /// A new pass with the next number, from 1 on. It has seen what the root has. Full where 65,535 numbers were given.
    /// That costs the root one load of word 0, which is counted aside.
    pub fn pass(&mut self, blocks: &Blocks) -> Result<BlockPass, Full>
        requires blocks { IsOf blocks.now self.old }
        requires root { self.old.number ≡ 0 }
        requires rest { self.old.hold ≡ Idle }
        ensures { MatchResult result (λ p. Gives self.old p self.new) (λ _. GivesNone self.old self.new) }
    {
        self.pass.give(blocks)
    }

    /// Ends a pass. The root has then seen all that it has seen, and keeps its number, its entries, its steps and its loads
    /// aside. That costs the root two loads of word 0, which are counted aside.
    pub fn take_back(&mut self, blocks: &Blocks, pass: BlockPass)
        requires blocks { IsOf blocks.now self.old × IsOf blocks.now pass }
        requires root { self.old.number ≡ 0 }
        requires rest { (self.old.hold ≡ Idle) × (pass.hold ≡ Idle) }
        ensures { TakesBack self.old pass self.new }
    {
        self.pass.take_back(blocks, pass);
    }

    /// The root's own pass. Whatever pass the caller leaves there is the root's then.
    pub fn as_pass(&mut self) -> &mut BlockPass
        ensures* lends { sem 𝓛 (LendsPass self.entry result) }
        ensures value { result.now ≡ self.old }
    {
        &mut self.pass
    }
}
