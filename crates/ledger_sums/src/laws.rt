//! Laws of fixed values: each is the clause of a function that does nothing.

ghost use Rattle.ledger_sums.specs.Laws.{EitherOrder, FixedIsLast, FixedIsLastOfShape, SumIsExact, FixedAtNumber};

/// Two calls of one family leave the same value in either order.
pub fn either_order()
    ensures { EitherOrder }
{}

/// An object with a fixed value ends with it in every run of the scripts.
pub fn fixed_is_last()
    ensures { FixedIsLast }
{}

/// An object of a shape with a fixed value ends with it in every run of the scripts.
pub fn fixed_is_last_of_shape()
    ensures { FixedIsLastOfShape }
{}

/// An object that is only loaded, added to and subtracted from ends at the exact sum, wrapped at its width.
pub fn sum_is_exact()
    ensures { SumIsExact }
{}

/// The list of fixed values has each object's at its number.
pub fn fixed_at_number()
    ensures { FixedAtNumber }
{}
