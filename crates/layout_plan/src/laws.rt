//! Laws of layout and plans: each is the clause of a function that does nothing.

ghost use Rattle.layout_plan.specs.Laws.{LaidIsShape, LaidIsDeclared, LaidHasCells, LaneIsNarrow, LockIsAddress, AddressIsAligned, AddressesRise, OneServes};

/// What `lay` lays is a valid shape.
pub fn laid_is_shape()
    ensures { LaidIsShape }
{}

/// The objects of a laid shape are the declared ones, in order, each placed at its address.
pub fn laid_is_declared()
    ensures { LaidIsDeclared }
{}

/// A laid shape has as many objects as were declared, with their kinds and starts.
pub fn laid_has_cells()
    ensures { LaidHasCells }
{}

/// On a laid shape an object has a lane, so that its calls take no lock, exactly where the target isn't a section
/// target and the object's width is at most a word's.
pub fn lane_is_narrow()
    ensures { LaneIsNarrow }
{}

/// On a laid shape the lock of an object with parts is its address modulo the number of locks.
pub fn lock_is_address()
    ensures { LockIsAddress }
{}

/// An address is a multiple of its object's alignment: its bytes, and a word's where nothing is packed.
pub fn address_is_aligned()
    ensures { AddressIsAligned }
{}

/// Objects lie in declared order, and share no byte.
pub fn addresses_rise()
    ensures { AddressesRise }
{}

/// Where a plan says one step, that step makes the call on the object's lane.
pub fn one_serves()
    ensures { OneServes }
{}
