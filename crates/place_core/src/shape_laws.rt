//! Laws of shapes and of steps that serve calls: each is the clause of a function that does nothing.

ghost use Rattle.place_core.specs.ShapeLaws.{PlaceIsWithin, LanesAreApart, PartWordIsOwn, ValueAtShapeStart, ValueFits, WordFits, LaneHoldsValue, SoleWordIsValue, EntryReplacesLane, EntryLeavesWord, StepReplacesLane, StepTellsReply, StepMakesCall};

/// An object lies in data words of its shape.
pub fn place_is_within()
    ensures { PlaceIsWithin }
{}

/// Lanes of one word share no bit.
pub fn lanes_are_apart()
    ensures { LanesAreApart }
{}

/// A part's word belongs to one object, and no lane lies in it.
pub fn part_word_is_own()
    ensures { PartWordIsOwn }
{}

/// After the empty history an object of a shape has its start.
pub fn value_at_shape_start()
    ensures { ValueAtShapeStart }
{}

/// After a legal history a value is one of its object's kind.
pub fn value_fits()
    ensures { ValueFits }
{}

/// After a legal history a word of lanes is one of 64 bits.
pub fn word_fits()
    ensures { WordFits }
{}

/// After a legal history the bits of a lane are its object's value.
pub fn lane_holds_value()
    ensures { LaneHoldsValue }
{}

/// A word with one lane holds that lane's value and nothing else.
pub fn sole_word_is_value()
    ensures { SoleWordIsValue }
{}

/// An entry on an object with a lane replaces the lane's bits by what its call leaves.
pub fn entry_replaces_lane()
    ensures { EntryReplacesLane }
{}

/// An entry on an object without a lane in a word leaves the word.
pub fn entry_leaves_word()
    ensures { EntryLeavesWord }
{}

/// A step that serves a call puts the call's value in the lane's bits, and leaves every other bit of the word.
pub fn step_replaces_lane()
    ensures { StepReplacesLane }
{}

/// The lane's bits of the word that a step finds give the call's reply.
pub fn step_tells_reply()
    ensures { StepTellsReply }
{}

/// A step that serves a call makes it: the word after the step is the word after the call's entry.
pub fn step_makes_call()
    ensures { StepMakesCall }
{}
