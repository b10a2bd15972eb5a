//! Laws of whole runs: each is the clause of a function that does nothing.

ghost use Rattle.run_ends.specs.Laws.{RunsHaveEnds, EndsAreOfRuns, LastLoadsTellValues};

/// Up to its last loads a run is a beginning of one in which each thread made all its calls.
pub fn runs_have_ends()
    ensures { RunsHaveEnds }
{}

/// Each beginning of a run in which each thread made all its calls is one of a run.
pub fn ends_are_of_runs()
    ensures { EndsAreOfRuns }
{}

/// The last loads of a run reply the last values.
pub fn last_loads_tell_values()
    ensures { LastLoadsTellValues }
{}
