//! The rule of blocks, and what each kind of step tells.

use crate::view::{BlockOpening, BlockView};
use atomic_table::{Join, Play, Split, TableRule};
use std::marker::{Brand, PhantomData};

/// The rule of blocks.
pub struct BlockRule;

impl TableRule<(), BlockView, BlockOpening> for BlockRule {
    ghost use Rattle.any_size.specs.Rule.{rule_of, first_view};

    ghost holds = { rule_of };

    ghost first = { first_view };
}

/// What a step is asked for. Each call picks it.
pub(crate) trait Asking {
    ghost use Rattle.any_size.specs.Steps.{Asked};

    ghost ask: { Asked };
}

impl Asking for Brand {
    ghost use Rattle.any_size.specs.Steps.{asked_object};

    ghost ask = { asked_object 0 };
}

/// A lock is swapped for 1.
pub(crate) struct Take<J> {
    of: PhantomData<J>,
}

impl<J: Asking> Play<(), BlockView> for Take<J> {
    ghost use Rattle.any_size.specs.Steps.{take_told};

    ghost then = { take_told J.ask };
}

/// A word is read under the lock.
pub(crate) struct Held;

impl Play<(), BlockView> for Held {
    ghost use Rattle.any_size.specs.Steps.{held_told};

    ghost then = { held_told };
}

/// A word is written under the lock.
pub(crate) struct Put;

impl Play<(), BlockView> for Put {
    ghost use Rattle.any_size.specs.Steps.{put_told};

    ghost then = { put_told };
}

/// A lock is given up.
pub(crate) struct Release<J> {
    of: PhantomData<J>,
}

impl<J: Asking> Play<(), BlockView> for Release<J> {
    ghost use Rattle.any_size.specs.Steps.{release_told};

    ghost then = { release_told J.ask };
}

/// The root gives a number to a new pass.
pub(crate) struct Gives;

impl Split<BlockView> for Gives {
    ghost use Rattle.any_size.specs.Moves.{giver, newcomer};

    ghost left = { giver };

    ghost right = { newcomer };
}

/// A pass is kept beside the root's view.
pub(crate) struct Joins;

impl Join<BlockView> for Joins {
    ghost use Rattle.any_size.specs.Moves.{joining};
    ghost use Rattle.any_size.specs.Rule.{spent_view};

    ghost both = { joining };

    ghost spent = { spent_view };
}

/// The load that takes it in.
pub(crate) struct Learns;

impl Play<(), BlockView> for Learns {
    ghost use Rattle.any_size.specs.Moves.{back_told};

    ghost then = { back_told };
}
