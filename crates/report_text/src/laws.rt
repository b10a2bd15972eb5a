//! Laws of reports: each is the clause of a function that does nothing.

ghost use Rattle.report_text.specs.Laws.{ManyIsFixed, EachIsFixed};

/// The text of a generated run is told by its three numbers alone, whatever the order of calls.
pub fn many_is_fixed()
    ensures { ManyIsFixed }
{}

/// Each object of a generated workload has a fixed value: the calls on it are of one family.
pub fn each_is_fixed()
    ensures { EachIsFixed }
{}
