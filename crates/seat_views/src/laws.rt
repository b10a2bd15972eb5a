//! Laws of the steps of calls: each is the clause of a function that does nothing.

ghost use Rattle.seat_views.specs.PathLaws.{PathStretches, PathsStretch, PathEnds, NoCallsNoSteps, OnePathIsPaths};
ghost use Rattle.seat_views.specs.PathLaws.{PathsJoin, PathsWithOneMore, LaneStepsStay, PartsStepsStay};
ghost use Rattle.seat_views.specs.PathLaws.{CallReleasesLast, LoadReleasesLast};
ghost use Rattle.seat_views.specs.StepCounts.{OneStepIsOneItem, RefusedLookIsOneItem, WeakPathIsTwoItems};
ghost use Rattle.seat_views.specs.StepCounts.{LoopIsLookAndTries, WideWriteStoresAll, WideFailureStoresNone};
ghost use Rattle.seat_views.specs.StepCounts.{SectionLoadStoresNone, WideLoadStampsFirst, MatchedGlanceIsWhole};
ghost use Rattle.seat_views.specs.StepCounts.{HeldGlanceTakes, MovedGlanceTakes, TakeFollowsMissedLook};
ghost use Rattle.seat_views.specs.StepCounts.{WideLoadStoresNone, GlanceIsShort, MatchedGlanceIsPath};
ghost use Rattle.seat_views.specs.StepCounts.{MissedGlanceGoesOn};
ghost use Rattle.seat_views.specs.MakesLaws.{NothingMakesNone, CallIsMade, StepsMakeNone, MadeJoin, CallsJoin};

/// What is eaten of a trail as the steps of a call is eaten of every longer one.
pub fn path_stretches()
    ensures { PathStretches }
{}

/// What is eaten of a trail as the steps of calls is eaten of every longer one.
pub fn paths_stretch()
    ensures { PathsStretch }
{}

/// No path of a call goes on: what follows one is no part of it.
pub fn path_ends()
    ensures { PathEnds }
{}

/// No calls have no steps.
pub fn no_calls_no_steps()
    ensures { NoCallsNoSteps }
{}

/// The path of a call is that of a list with this call.
pub fn one_path_is_paths()
    ensures { OnePathIsPaths }
{}

/// The trails of consecutive calls, joined, are the trail of all.
pub fn paths_join()
    ensures { PathsJoin }
{}

/// So they are with one call more.
pub fn paths_with_one_more()
    ensures { PathsWithOneMore }
{}

/// Where the plan is one step the path is one item.
pub fn one_step_is_one_item()
    ensures { OneStepIsOneItem }
{}

/// Where the look finds that an exchange fails the path is the look.
pub fn refused_look_is_one_item()
    ensures { RefusedLookIsOneItem }
{}

/// Else the path of a weak exchange is the look and one try.
pub fn weak_path_is_two_items()
    ensures { WeakPathIsTwoItems }
{}

/// Else the path of a loop is the look, lost tries that each found another number, and one try that decides.
pub fn loop_is_look_and_tries()
    ensures { LoopIsLookAndTries }
{}

/// A call that writes takes the lock, reads each part, stores each, and releases.
pub fn wide_write_stores_all()
    ensures { WideWriteStoresAll }
{}

/// An exchange that fails takes the lock, reads each part, and releases.
pub fn wide_failure_stores_none()
    ensures { WideFailureStoresNone }
{}

/// In a section a load takes the lock, reads each part, and releases.
pub fn section_load_stores_none()
    ensures { SectionLoadStoresNone }
{}

/// A load of parts that is not in a section begins with a stamp on the object's own lock.
pub fn wide_load_stamps_first()
    ensures { WideLoadStampsFirst }
{}

/// A glance that matches is the whole path: a stamp, each part, and the stamp again.
pub fn matched_glance_is_whole()
    ensures { MatchedGlanceIsWhole }
{}

/// Where the stamp told that the lock was held, or was the last, the piece under the lock follows it.
pub fn held_glance_takes()
    ensures { HeldGlanceTakes }
{}

/// Where the lock had moved, the piece under the lock follows the whole glance.
pub fn moved_glance_takes()
    ensures { MovedGlanceTakes }
{}

/// Such a load takes the lock only after a look that missed.
pub fn take_follows_missed_look()
    ensures { TakeFollowsMissedLook }
{}

/// A load never stores a part.
pub fn wide_load_stores_none()
    ensures { WideLoadStoresNone }
{}

/// On an object with a lane every step is on the lane's word.
pub fn lane_steps_stay()
    ensures { LaneStepsStay }
{}

/// On an object with parts every take, release, stamp and match is on its own lock, and each other step on its parts.
pub fn parts_steps_stay()
    ensures { PartsStepsStay }
{}

/// A glance is the stamp alone, or the stamp, each part, and the stamp again; it takes and stores nothing.
pub fn glance_is_short()
    ensures { GlanceIsShort }
{}

/// A glance that matched is the path of a load.
pub fn matched_glance_is_path()
    ensures { MatchedGlanceIsPath }
{}

/// A glance that missed, and then the piece under the lock, are the path of a load.
pub fn missed_glance_goes_on()
    ensures { MissedGlanceGoesOn }
{}

/// A call on parts that isn't a load ends with a release, of the stamp that was taken, or after a write of two more.
pub fn call_releases_last()
    ensures { CallReleasesLast }
{}

/// A load that took the lock ends with a release of the stamp that it took.
pub fn load_releases_last()
    ensures { LoadReleasesLast }
{}

/// A pass with nothing in flight has made no calls, by no step.
pub fn nothing_makes_none()
    ensures { NothingMakesNone }
{}

/// A call is a list of calls with this one.
pub fn call_is_made()
    ensures { CallIsMade }
{}

/// Steps that add no entry make no call.
pub fn steps_make_none()
    ensures { StepsMakeNone }
{}

/// What a pass made, and then made, is made: the calls, the replies and the steps are joined.
pub fn made_join()
    ensures { MadeJoin }
{}

/// So are calls with their paths.
pub fn calls_join()
    ensures { CallsJoin }
{}
