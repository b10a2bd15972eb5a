//! Laws of the changes that other callers made to a word, and of failures that they earn.

ghost use Rattle.place_core.specs.ChangeLaws.{ChangeIsOfLane, NoEntryNoChange, OtherChangeCounts, OwnChangeCountsNot};
ghost use Rattle.place_core.specs.ChangeLaws.{KeptWordCountsNot, OwnStretchCountsNone, ChangesAddUp};
ghost use Rattle.place_core.specs.ChangeLaws.{ChangesAreEntries, OtherWordWasChanged, LostTryIsPaid, EmptyIsEarned};
ghost use Rattle.place_core.specs.ChangeLaws.{EarnedWithOneMore, EarnedInFront, TwoWordsEarn, SoleLaneEarnsNone};
ghost use Rattle.place_core.specs.ChangeLaws.{PartsEarnNone, NothingEarnsNone, TableReplyIsNotSpurious};

/// An entry changes a word exactly where its object has a lane there and its call leaves another value.
pub fn change_is_of_lane()
    ensures { ChangeIsOfLane }
{}

/// No entry is no change.
pub fn no_entry_no_change()
    ensures { NoEntryNoChange }
{}

/// Another caller's entry that changes the word counts one.
pub fn other_change_counts()
    ensures { OtherChangeCounts }
{}

/// The caller's own entry doesn't count.
pub fn own_change_counts_not()
    ensures { OwnChangeCountsNot }
{}

/// An entry that leaves the word doesn't count.
pub fn kept_word_counts_not()
    ensures { KeptWordCountsNot }
{}

/// A stretch of the caller's own entries counts none.
pub fn own_stretch_counts_none()
    ensures { OwnStretchCountsNone }
{}

/// Over two stretches, one after the other, the changes add up.
pub fn changes_add_up()
    ensures { ChangesAddUp }
{}

/// A stretch has no more changes than entries.
pub fn changes_are_entries()
    ensures { ChangesAreEntries }
{}

/// Where the word differs and the caller made no entry between, another caller has changed it.
pub fn other_word_was_changed()
    ensures { OtherWordWasChanged }
{}

/// Each lost try of a loop stands beside a different change that another caller made.
pub fn lost_try_is_paid()
    ensures { LostTryIsPaid }
{}

/// In the empty history every spurious failure is earned.
pub fn empty_is_earned()
    ensures { EmptyIsEarned }
{}

/// With one more entry all are earned exactly where all were and the entry is, if it is a spurious failure.
pub fn earned_with_one_more()
    ensures { EarnedWithOneMore }
{}

/// In a prefix all spurious failures are earned where they are in the whole.
pub fn earned_in_front()
    ensures { EarnedInFront }
{}

/// Two different words found, with one value of the lane and no entry of the caller between, earn a failure.
pub fn two_words_earn()
    ensures { TwoWordsEarn }
{}

/// On a lane that is alone in its word no failure is earned.
pub fn sole_lane_earns_none()
    ensures { SoleLaneEarnsNone }
{}

/// On an object with parts no failure is earned.
pub fn parts_earn_none()
    ensures { PartsEarnNone }
{}

/// Where all entries are the caller's own no failure is earned.
pub fn nothing_earns_none()
    ensures { NothingEarnsNone }
{}

/// A reply that is the table's is no spurious failure.
pub fn table_reply_is_not_spurious()
    ensures { TableReplyIsNotSpurious }
{}
