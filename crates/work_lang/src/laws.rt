//! Laws of texts and workloads. The functions do nothing: their contracts are the laws.

ghost use Rattle.work_lang.specs.Laws.{ReadingIsSpelling, SpellsOne, FaultSpellsNone, CanonicalIsRead, EachTextHasOneReading};
ghost use Rattle.work_lang.specs.CutLaws.{OpenByLastLine, CutTextIsRead, FaultIsOfItsLines};
ghost use Rattle.work_lang.specs.SecondLaws.{SecondFormIsOne, SecondFormIsWork, SecondFormRunsAlike};

/// A workload is read exactly where the text spells it.
pub fn reading_is_spelling()
    ensures { ReadingIsSpelling }
{}

/// A text spells one workload at most.
pub fn spells_one()
    ensures { SpellsOne }
{}

/// A text with a fault spells none.
pub fn fault_spells_none()
    ensures { FaultSpellsNone }
{}

/// A text is read as the one workload that it spells, or it has a fault and spells none.
pub fn each_text_has_one_reading()
    ensures { EachTextHasOneReading }
{}

/// What `print_work` writes of a workload is read again as that workload, where it isn't too long for a text.
pub fn canonical_is_read()
    ensures { CanonicalIsRead }
{}

/// The first canonical lines of a workload, as a text: a fault of the end where no target or no version stands in them,
/// or a thread or a block is left open, and else the workload of these lines.
pub fn cut_text_is_read()
    ensures { CutTextIsRead }
{}

/// What is left open is told by the last line: one that opens a thread or a block, a call line, or the end of a block.
pub fn open_by_last_line()
    ensures { OpenByLastLine }
{}

/// The line of a fault in a line is the least one at which no workload's text goes on as the text does: whatever follows
/// it no workload is spelled, and fewer lines can be gone on with to a text that spells one, where their bytes leave room
/// for what closes them.
pub fn fault_is_of_its_lines()
    ensures { FaultIsOfItsLines }
{}

/// A workload has one second form.
pub fn second_form_is_one()
    ensures { SecondFormIsOne }
{}

/// The second form of a workload keeps the limits of its version, and whatever else a workload keeps.
pub fn second_form_is_work()
    ensures { SecondFormIsWork }
{}

/// A run of a workload's second form is a run of the workload, and back: target, objects and the lines of each thread
/// are the same.
pub fn second_form_runs_alike()
    ensures { SecondFormRunsAlike }
{}

#[cfg(test)]
mod tests;
