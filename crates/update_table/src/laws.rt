//! Laws of objects that rules move: each is the clause of a function that does nothing.

ghost use Rattle.update_table.specs.Moves.{CycleTakesNext, RaisedNeverFalls, RefusedIsExact, ValuesStayInRange};

/// An object that is only loaded, or exchanged for numbers of a range, stays in that range.
pub fn values_stay_in_range()
    ensures { ValuesStayInRange }
{}

/// An object that is only loaded and raised never falls.
pub fn raised_never_falls()
    ensures { RaisedNeverFalls }
{}

/// An object that is only loaded and goes round takes each next number in turn.
pub fn cycle_takes_next()
    ensures { CycleTakesNext }
{}

/// A rule that leads each number to one answer refuses exactly where it leads the number found last to none.
pub fn refused_is_exact()
    ensures { RefusedIsExact }
{}
