//! Laws of the parts of a value: they fit, they suffice, and joined they are the value.

ghost use Rattle.place_core.specs.PartLaws.{PartFits, PartsJoinToValue, FirstPartsAreLowBits, EqualPartsJoinEqually};
ghost use Rattle.place_core.specs.PartLaws.{EqualPartsAreOfOneValue, JoinedHasItsParts, JoinedFits, PartsSuffice};
ghost use Rattle.place_core.specs.PartLaws.{NoPartIsSpare, PartsAreFew};

/// A part of a value is a number of a part's bits.
pub fn part_fits()
    ensures { PartFits }
{}

/// Parts that hold a value, joined, are the value.
pub fn parts_join_to_value()
    ensures { PartsJoinToValue }
{}

/// The first parts of a value, joined, are its low bits.
pub fn first_parts_are_low_bits()
    ensures { FirstPartsAreLowBits }
{}

/// What parts are joined to depends on nothing but the parts.
pub fn equal_parts_join_equally()
    ensures { EqualPartsJoinEqually }
{}

/// Values with the same parts are one.
pub fn equal_parts_are_of_one_value()
    ensures { EqualPartsAreOfOneValue }
{}

/// Parts that fit hold the value that they are joined to.
pub fn joined_has_its_parts()
    ensures { JoinedHasItsParts }
{}

/// Parts that fit are joined to a number of all their bits.
pub fn joined_fits()
    ensures { JoinedFits }
{}

/// An object's parts hold every value of its kind.
pub fn parts_suffice()
    ensures { PartsSuffice }
{}

/// Each part of an object has some of its kind's bits.
pub fn no_part_is_spare()
    ensures { NoPartIsSpare }
{}

/// On words of 32 or 64 bits an object has one to four parts.
pub fn parts_are_few()
    ensures { PartsAreFew }
{}
