//! The rule of an arena, and what each kind of step tells.

ghost use Rattle.seat_views.specs.Steps.{Asked, op_told, look_told, try_told};
ghost use Rattle.seat_views.specs.LockSteps.{take_told, held_told, put_told, release_told};
ghost use Rattle.seat_views.specs.LockSteps.{stamp_told, part_told, match_told};

use crate::view::{Opening, View};
use atomic_table::{Join, Play, Split, TableRule};
use std::marker::{Brand, PhantomData};

/// The rule of an arena.
pub struct ArenaRule;

impl TableRule<(), View, Opening> for ArenaRule {
    ghost use Rattle.seat_views.specs.Rule.{ArenaHolds, first_view};

    ghost holds = { ArenaHolds };

    ghost first = { first_view };
}

/// What a step is asked for. Each call picks it.
pub(crate) trait Asking {
    ghost use Rattle.seat_views.specs.Steps.{Asked};

    ghost ask: { Asked };
}

impl Asking for Brand {
    ghost use Rattle.seat_views.specs.Steps.{no_ask};

    ghost ask = { no_ask };
}

/// A step on a lane's word that makes a whole call.
pub(crate) struct Op<J> {
    of: PhantomData<J>,
}

impl<J: Asking> Play<(), View> for Op<J> {
    ghost then = { op_told J.ask };
}

/// A look at a lane's word.
pub(crate) struct Look<J> {
    of: PhantomData<J>,
}

impl<J: Asking> Play<(), View> for Look<J> {
    ghost then = { look_told J.ask };
}

/// A compare and exchange of a lane's word.
pub(crate) struct Try<J> {
    of: PhantomData<J>,
}

impl<J: Asking> Play<(), View> for Try<J> {
    ghost then = { try_told J.ask };
}

/// A lock is swapped for 1.
pub(crate) struct Take<J> {
    of: PhantomData<J>,
}

impl<J: Asking> Play<(), View> for Take<J> {
    ghost then = { take_told J.ask };
}

/// A part is read under the lock.
pub(crate) struct Held<J> {
    of: PhantomData<J>,
}

impl<J: Asking> Play<(), View> for Held<J> {
    ghost then = { held_told J.ask };
}

/// A part is written under the lock.
pub(crate) struct Put<J> {
    of: PhantomData<J>,
}

impl<J: Asking> Play<(), View> for Put<J> {
    ghost then = { put_told J.ask };
}

/// A lock is given up.
pub(crate) struct Release<J> {
    of: PhantomData<J>,
}

impl<J: Asking> Play<(), View> for Release<J> {
    ghost then = { release_told J.ask };
}

/// A stamp is read.
pub(crate) struct Stamp<J> {
    of: PhantomData<J>,
}

impl<J: Asking> Play<(), View> for Stamp<J> {
    ghost then = { stamp_told J.ask };
}

/// A part is read in a glance.
pub(crate) struct Part<J> {
    of: PhantomData<J>,
}

impl<J: Asking> Play<(), View> for Part<J> {
    ghost then = { part_told J.ask };
}

/// The stamp is read again.
pub(crate) struct Match<J> {
    of: PhantomData<J>,
}

impl<J: Asking> Play<(), View> for Match<J> {
    ghost then = { match_told J.ask };
}

/// The root gives a number to a new pass.
pub(crate) struct Gives;

impl Split<View> for Gives {
    ghost use Rattle.seat_views.specs.Moves.{giver, newcomer};

    ghost left = { giver };

    ghost right = { newcomer };
}

/// A pass is kept beside the root's view.
pub(crate) struct Joins;

impl Join<View> for Joins {
    ghost use Rattle.seat_views.specs.Moves.{joining};
    ghost use Rattle.seat_views.specs.Rule.{spent_view};

    ghost both = { joining };

    ghost spent = { spent_view };
}

/// The load that takes it in.
pub(crate) struct Learns;

impl Play<(), View> for Learns {
    ghost use Rattle.seat_views.specs.Moves.{back_told};

    ghost then = { back_told };
}

/// A pass gives a note.
pub(crate) struct Notes;

impl Split<View> for Notes {
    ghost use Rattle.seat_views.specs.Moves.{noting, note_view};

    ghost left = { noting };

    ghost right = { note_view };
}

/// A note is kept beside a pass's view.
pub(crate) struct Meets;

impl Join<View> for Meets {
    ghost use Rattle.seat_views.specs.Moves.{meeting};
    ghost use Rattle.seat_views.specs.Rule.{spent_view};

    ghost both = { meeting };

    ghost spent = { spent_view };
}

/// The load that takes it in.
pub(crate) struct Hears;

impl Play<(), View> for Hears {
    ghost use Rattle.seat_views.specs.Moves.{meet_told};

    ghost then = { meet_told };
}

/// The load that drops a glance.
pub(crate) struct Drops;

impl Play<(), View> for Drops {
    ghost use Rattle.seat_views.specs.Moves.{drop_told};

    ghost then = { drop_told };
}
