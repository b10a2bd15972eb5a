//! A law of steps on a lane: the clause of a function that does nothing.

ghost use Rattle.lane_word.specs.LaneLaws.{NoneIsMade};

/// Steps that make no entry make no call, whatever other callers do meanwhile.
pub fn none_is_made()
    ensures { NoneIsMade }
{}
