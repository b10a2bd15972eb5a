//! What one pass tells another of the history.

ghost use Rattle.std.specs.Prelude.{◌≡◌};
ghost use Rattle.seat_views.specs.States.{note_of};
ghost use Rattle.seat_views.specs.Keeping.{KeepsNote};

use crate::view::View;
use atomic_table::Seat;
use std::marker::Model;

/// What a pass had seen when it gave the note. It can be sent to the thread of another pass, which meets it.
#[derive(Drop)]
pub struct Note {
    seat: Seat<(), View>,
}

impl Model for Note {
    ghost use Rattle.seat_views.specs.States.{NoteState};

    ghost Value = { NoteState };

    ghost use Rattle.seat_views.specs.States.{note_of};
    ghost use Rattle.seat_views.specs.Keeping.{KeepsNote};

    ghost view = { λ n. note_of n.seat.table_id n.seat.me.0 };

    ghost invariant = { λ n. KeepsNote n.seat.me };
}

impl Note {
    pub(crate) fn of(seat: Seat<(), View>) -> Note
        requires { KeepsNote seat.me }
        ensures { result ≡ note_of seat.table_id seat.me.0 }
    {
        Note { seat }
    }

    pub(crate) fn into_seat(self) -> Seat<(), View>
        ensures same { self ≡ note_of result.table_id result.me.0 }
        ensures seat { KeepsNote result.me }
    {
        self.seat
    }
}
