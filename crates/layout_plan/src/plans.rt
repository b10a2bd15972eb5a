//! How the calls on an object are made.

ghost use Rattle.std.specs.Prelude.{◌≡◌, ◌<◌, length};
ghost use Rattle.op_table.specs.Call.{CallFits};
ghost use Rattle.place_core.specs.declared.places.WordOp.{WordOp};
ghost use Rattle.place_core.specs.declared.places.Path.TheVariants.{One};
ghost use Rattle.place_core.specs.Shapes.{kind_of, IsPlaced, IsShape};
ghost use Rattle.place_core.specs.Operations.{OpServes, path_by, plan_of};
ghost use Rattle.layout_plan.specs.Plans.{is_sole_at, path_with};

use op_table::{Call, StepSet};
use place_core::{Object, Path, Place, Shape, WordOp, has_step, is_sole, op_for};

#[inline(always)]
fn path_by(steps: StepSet, op: Option<WordOp>) -> Path
    ensures { result ≡ path_by steps op }
{
    match op {
        Some(op) => {
            if has_step(steps, &op) {
                Path::One(op)
            } else {
                Path::Loop
            }
        }
        None => Path::Loop,
    }
}

/// How a call on an object is made, where it is known whether its lane is alone in its word. It searches nothing.
#[inline(always)]
pub fn path_with(shape: &Shape, object: &Object, sole: bool, call: &Call) -> Path
    requires placed { IsPlaced shape.now object.now.kind object.now.place }
    requires fits { CallFits object.now.kind call.now }
    ensures { result ≡ path_with shape.now.steps object.now.kind call.now object.now.place sole }
{
    match object.place {
        Place::Lane { shift, width, .. } => path_by(
            shape.steps,
            op_for(object.kind, shift, width, sole, call),
        ),
        Place::Parts { .. } => Path::Locked,
    }
}

/// Whether a place is a lane that is alone in its word. It looks at every object of the shape.
pub fn is_sole_at(shape: &Shape, place: Place) -> bool
    ensures { result ≡ is_sole_at shape.now place }
{
    match place {
        Place::Lane { word, .. } => is_sole(shape, word),
        Place::Parts { .. } => false,
    }
}

/// How a call on an object is made: by one step where there is one that makes it on the object's lane and the target
/// has it, else by a loop on the lane, and under a lock where the object has parts. It looks at every object of the
/// shape; `Plans` doesn't.
#[inline(always)]
pub fn plan(shape: &Shape, object: u32, call: &Call) -> Path
    requires shape { IsShape shape.now }
    requires object { object < length shape.now.objects }
    requires fits { CallFits (kind_of shape.now object) call.now }
    ensures path { result ≡ plan_of shape.now object call.now }
    ensures serves { (done : WordOp) → result ≡ One done → OpServes shape.now object call.now done }
{
    let object = shape.objects.at(object as usize);
    path_with(shape, &object, is_sole_at(shape, object.place), call)
}
