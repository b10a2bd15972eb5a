//! Laws of locks and classes: each is the clause of a function that does nothing.

ghost use Rattle.lock_free_info.specs.Laws.{LaneIsLockFree, LockedIsNotLockFree};
ghost use Rattle.lock_free_info.specs.Laws.{WordsHaveCalls, WordHasOnePath, PlanLinesAreShort};

/// On a laid shape an object has a lane exactly where its kind is lock-free on the target.
pub fn lane_is_lock_free()
    ensures { LaneIsLockFree }
{}

/// On a laid shape a call on an object takes a lock exactly where its kind isn't lock-free on the target.
pub fn locked_is_not_lock_free()
    ensures { LockedIsNotLockFree }
{}

/// The call by which a plan table asks for the path of a word is one that the object has, and is of that word.
pub fn words_have_calls()
    ensures { WordsHaveCalls }
{}

/// All calls of a word on an object have one class of path.
pub fn word_has_one_path()
    ensures { WordHasOnePath }
{}

/// A line of a plan table has at most 107 bytes, its end among them.
pub fn plan_lines_are_short()
    ensures { PlanLinesAreShort }
{}
