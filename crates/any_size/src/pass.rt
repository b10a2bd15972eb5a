//! What one thread makes calls with.

ghost use Rattle.std.specs.Prelude.{◌≡◌, ◌≤◌, [], MatchResult};
ghost use Rattle.any_size.specs.declared.view.Hold.TheVariants.{Idle};
ghost use Rattle.any_size.specs.declared.view.Beside.TheVariants.{Nobody};
ghost use Rattle.any_size.specs.Steps.{IsSoundView};
ghost use Rattle.any_size.specs.States.{state_of, IsOf, IsKept, Gives, GivesNone, TakesBack};

use crate::blocks::Blocks;
use crate::rule;
use crate::view::BlockView;
use atomic_table::Seat;
use place_core::Full;
use std::marker::Model;

/// What one thread makes calls with: contracts see what it has seen, its own entries, its steps and the call in flight.
#[derive(Drop)]
pub struct BlockPass {
    number: u32,
    given: u32,
    pub(crate) seat: Seat<(), BlockView>,
}

impl Model for BlockPass {
    ghost use Rattle.any_size.specs.States.{BlockPassState, state_of};
    ghost use Rattle.any_size.specs.Keeping.{KeepsPass};

    ghost Value = { BlockPassState };

    ghost view = { λ p. state_of p.seat.table_id p.seat.me.0 };

    ghost invariant = { λ p. KeepsPass p.number p.given p.seat.me };
}

/// The most numbers that a root gives.
pub const MOST_PASSES: u32 = 65_535;

impl BlockPass {
    pub(crate) fn of(number: u32, given: u32, seat: Seat<(), BlockView>) -> BlockPass
        requires numbers { (number ≡ seat.me.0.number) × (given ≡ seat.me.0.given) }
        requires none { (seat.me.1 ≡ []) × (seat.me.0.beside ≡ Nobody) }
        requires sound { IsSoundView seat.me.0 }
        ensures { result ≡ state_of seat.table_id seat.me.0 }
    {
        BlockPass {
            number,
            given,
            seat,
        }
    }

    /// Gives the next number to a new pass, by one load that is counted aside.
    pub(crate) fn give(&mut self, blocks: &Blocks) -> Result<BlockPass, Full>
        requires blocks { IsOf blocks.now self.old }
        requires root { self.old.number ≡ 0 }
        requires rest { self.old.hold ≡ Idle }
        ensures { MatchResult result (λ p. Gives self.old p self.new) (λ _. GivesNone self.old self.new) }
    {
        if self.given >= MOST_PASSES {
            return Err(Full);
        }
        let given = self.given + 1;
        let seat = blocks
            .table
            .shared
            .split_seat::<rule::Gives>(&mut self.seat);
        self.given = given;
        Ok(BlockPass::of(given, 0, seat))
    }

    /// Ends a pass, and sees all that it has seen, by two loads that are counted aside.
    pub(crate) fn take_back(&mut self, blocks: &Blocks, pass: BlockPass)
        requires blocks { IsOf blocks.now self.old × IsOf blocks.now pass }
        requires root { self.old.number ≡ 0 }
        requires rest { (self.old.hold ≡ Idle) × (pass.hold ≡ Idle) }
        ensures { TakesBack self.old pass self.new }
    {
        let BlockPass { seat, .. } = pass;
        blocks
            .table
            .shared
            .join_seat::<rule::Joins>(&mut self.seat, seat);
        blocks.table.shared.load::<rule::Learns>(&mut self.seat, 0);
    }

    /// The pass's number, which its entries have as their caller. The root's is 0.
    pub fn number(&self) -> u32
        ensures number { result ≡ self.now.number }
        ensures kept { IsKept self.now }
    {
        self.number
    }
}
