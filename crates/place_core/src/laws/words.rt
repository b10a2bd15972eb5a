//! Laws of words in which lanes lie: what no object has, what an entry leaves, and a lane replaced by hand.

ghost use Rattle.place_core.specs.WordLaws.{FreeBitsAreZero, FreeBitIsZero, WordWithoutLanesIsZero};
ghost use Rattle.place_core.specs.WordLaws.{ReplacedLeavesOtherBits, StepLeavesOtherLane, StepLeavesFreeBits};
ghost use Rattle.place_core.specs.WordLaws.{EntryReplacesBits, EntryLeavesOtherLane, EntryLeavesOtherWord};
ghost use Rattle.place_core.specs.WordLaws.{PartsEntryLeavesWord, KeptValueKeepsWord, FailedLeavesWord};
ghost use Rattle.place_core.specs.WordLaws.{LoadLeavesWord, PutMakesCall, WonTryMakesCall, LostTryLeavesWord};

/// After a legal history bits that no lane has are 0.
pub fn free_bits_are_zero()
    ensures { FreeBitsAreZero }
{}

/// After a legal history a bit that no lane has is 0.
pub fn free_bit_is_zero()
    ensures { FreeBitIsZero }
{}

/// A word in which no lane lies is 0.
pub fn word_without_lanes_is_zero()
    ensures { WordWithoutLanesIsZero }
{}

/// Where a lane is replaced, bits that it hasn't stay.
pub fn replaced_leaves_other_bits()
    ensures { ReplacedLeavesOtherBits }
{}

/// A step that serves a call leaves every other lane of its word.
pub fn step_leaves_other_lane()
    ensures { StepLeavesOtherLane }
{}

/// A step that serves a call leaves every bit that no lane has.
pub fn step_leaves_free_bits()
    ensures { StepLeavesFreeBits }
{}

/// An entry on a lane puts what its call leaves in the lane's bits, and leaves every other bit of the word.
pub fn entry_replaces_bits()
    ensures { EntryReplacesBits }
{}

/// An entry on one object leaves the bits of every other lane.
pub fn entry_leaves_other_lane()
    ensures { EntryLeavesOtherLane }
{}

/// An entry on a lane leaves every word but the lane's.
pub fn entry_leaves_other_word()
    ensures { EntryLeavesOtherWord }
{}

/// An entry on an object with parts leaves every word of lanes.
pub fn parts_entry_leaves_word()
    ensures { PartsEntryLeavesWord }
{}

/// An entry that leaves its object's value leaves every value and every word.
pub fn kept_value_keeps_word()
    ensures { KeptValueKeepsWord }
{}

/// An exchange that failed leaves every value and every word.
pub fn failed_leaves_word()
    ensures { FailedLeavesWord }
{}

/// A load leaves every value and every word.
pub fn load_leaves_word()
    ensures { LoadLeavesWord }
{}

/// A word in which the call's value was put into the lane is the word after the call's entry.
pub fn put_makes_call()
    ensures { PutMakesCall }
{}

/// A compare and exchange to that word makes the call where it finds the word that the value came from.
pub fn won_try_makes_call()
    ensures { WonTryMakesCall }
{}

/// A compare and exchange that finds another word leaves it.
pub fn lost_try_leaves_word()
    ensures { LostTryLeavesWord }
{}
