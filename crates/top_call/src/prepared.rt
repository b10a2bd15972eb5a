//! A workload that is made ready to be run: all memory that its run needs is taken here.

ghost use Rattle.std.specs.Prelude.{◌≡◌, IfOk, Some};
ghost use Rattle.layout_plan.specs.Layout.{shape_of};
ghost use Rattle.place_core.specs.Shapes.{IsShape};
ghost use Rattle.report_text.specs.Report.{fixed_of};
ghost use Rattle.top_call.specs.declared.run_text.RunText.TheVariants as texts;
ghost use Rattle.top_call.specs.Preparing.{kept_of, work_in, IsPrepared};

use crate::run_text::RunText;
use layout_plan::lay;
use ledger_sums::{Fixed, fixed_values};
use op_table::NoMemory;
use place_core::{Declared, Shape};
use runner::Keep;
use std::alloc::Global;
use target_desc::Target;
use whole_run::ReadyRun;
use work_lang::Work;

/// A run that has all that it needs, the rest of its workload, and the fixed values where its text tells them.
#[derive(Drop)]
pub(crate) struct Prepared {
    pub(crate) ready: ReadyRun,
    pub(crate) version: u32,
    pub(crate) target: Target,
    pub(crate) objects: Vec<Declared>,
    pub(crate) fixed: Option<Fixed>,
}

/// The fixed values of a workload's objects, which have this shape.
fn fixed_on(alloc: Global, shape: &Shape, work: &Work) -> Result<Fixed, NoMemory>
    requires valid { IsShape shape.now }
    requires laid { shape.now ≡ shape_of work.now.target work.now.objects }
    ensures { IfOk result (λ f. f ≡ fixed_of work.now) }
{
    // Only for its clause, on what the type of a workload keeps.
    let _target = work.target();
    let fixed = fixed_values(alloc, shape, work.threads())?;
    Ok(fixed)
}

/// The fixed values of a workload's objects, where the text tells them.
fn fixed_for(
    alloc: Global,
    text: RunText,
    shape: &Shape,
    work: &Work,
) -> Result<Option<Fixed>, NoMemory>
    requires valid { IsShape shape.now }
    requires laid { shape.now ≡ shape_of work.now.target work.now.objects }
    ensures { IfOk result (λ f. text ≡ texts.Report → f ≡ Some (fixed_of work.now)) }
{
    match text {
        RunText::Report => Ok(Some(fixed_on(alloc, shape, work)?)),
        RunText::Many { .. } => Ok(None),
    }
}

/// What is kept of the calls, which only a report tells.
fn kept_for(text: RunText) -> Keep
    ensures { result ≡ kept_of text }
{
    match text {
        RunText::Report => Keep::Replies,
        RunText::Many { .. } => Keep::Nothing,
    }
}

/// Lays the objects of a workload, tells their fixed values where its text has them, and takes all memory that its run
/// needs. The scripts are not copied: the run takes them.
pub(crate) fn prepare(alloc: Global, work: Work, text: RunText) -> Result<Prepared, NoMemory>
    ensures prepared { IfOk result (λ p. IsPrepared text p) }
    ensures work { IfOk result (λ p. work_in p ≡ work) }
{
    let shape = lay(alloc, work.target(), work.objects())?;
    let fixed = fixed_for(alloc, text, &shape, &work)?;
    let (version, target, objects, scripts) = work.into_parts();
    let ready = ReadyRun::of(alloc, shape, scripts, kept_for(text))?;
    Ok(Prepared {
        ready,
        version,
        target,
        objects,
        fixed,
    })
}
