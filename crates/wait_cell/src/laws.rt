//! Laws of histories on a count: each is the clause of a function that does nothing.

ghost use Rattle.wait_cell.specs.Counts.{PermitsAreKept, LatchNeverRises, LatchStaysOpen};

/// In a legal history of takes and gives, the permits left are those of the start without those taken and with those given
/// back, and never more than at the start; so no more are out than there were.
pub fn permits_are_kept()
    ensures { PermitsAreKept }
{}

/// In a legal history of loads and counts down, the value never rises.
pub fn latch_never_rises()
    ensures { LatchNeverRises }
{}

/// There, once a reply was 0 every later one is.
pub fn latch_stays_open()
    ensures { LatchStaysOpen }
{}
