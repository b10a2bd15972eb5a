//! Laws over histories: each is the clause of a function that does nothing.

ghost use Rattle.place_core.specs.Laws.{EmptyIsLegal, LegalWithOneMore, LegalInFront, ValueAtStart, ValueAfterOwn, ValueAfterOther, EntriesOfNone, EntriesWithOwn, EntriesWithOther, EntriesInFront, CallersOfNone, CallersWithOneMore, CallersWithinMore, CallersInFront, EntriesOfNew};
ghost use Rattle.place_core.specs.ShapeRuns.{OneThreadRunsAlike};

pub mod changes;
pub mod parts;
pub mod words;

/// The empty history is legal.
pub fn empty_is_legal()
    ensures { EmptyIsLegal }
{}

/// A history with one more entry is legal exactly where it was and the entry is lawful.
pub fn legal_with_one_more()
    ensures { LegalWithOneMore }
{}

/// A prefix of a legal history is legal.
pub fn legal_in_front()
    ensures { LegalInFront }
{}

/// After the empty history an object has its start.
pub fn value_at_start()
    ensures { ValueAtStart }
{}

/// An entry on an object leaves what its call leaves.
pub fn value_after_own()
    ensures { ValueAfterOwn }
{}

/// An entry on one object leaves the value of every other.
pub fn value_after_other()
    ensures { ValueAfterOther }
{}

/// The empty history has no entries of anyone.
pub fn entries_of_none()
    ensures { EntriesOfNone }
{}

/// An own entry stands last among the own entries.
pub fn entries_with_own()
    ensures { EntriesWithOwn }
{}

/// Another's entry leaves the own entries.
pub fn entries_with_other()
    ensures { EntriesWithOther }
{}

/// The own entries of a prefix are a prefix of the own entries.
pub fn entries_in_front()
    ensures { EntriesInFront }
{}

/// The empty history has its callers within every bound.
pub fn callers_of_none()
    ensures { CallersOfNone }
{}

/// The callers of a history with one more entry are within a bound exactly where its callers were and the entry's is.
pub fn callers_with_one_more()
    ensures { CallersWithOneMore }
{}

/// A bound on the callers may be raised.
pub fn callers_within_more()
    ensures { CallersWithinMore }
{}

/// The callers of a prefix are within each bound on the whole.
pub fn callers_in_front()
    ensures { CallersInFront }
{}

/// A caller with a new number has no entries.
pub fn entries_of_new()
    ensures { EntriesOfNew }
{}

/// With at most one script, runs over shapes of the same cells are one history, however the cells lie.
pub fn one_thread_runs_alike()
    ensures { OneThreadRunsAlike }
{}
