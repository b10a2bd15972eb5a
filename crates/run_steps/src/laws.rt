//! Laws of steps: each is the clause of a function that does nothing.

ghost use Rattle.run_steps.specs.Laws.{StepsMakeParts};
ghost use Rattle.run_steps.specs.Machines.{StepsStay};

/// By steps exactly the states of beginnings of runs are reached.
pub fn steps_make_parts()
    ensures { StepsMakeParts }
{}

/// A step leads from the state of a beginning of a run to another.
pub fn steps_stay()
    ensures { StepsStay }
{}
