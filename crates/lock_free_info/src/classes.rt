//! Classes of paths.

ghost use Rattle.std.specs.Prelude.{◌≡◌, ◌↔◌, ◌<◌, length, IsTrue};
ghost use Rattle.op_table.specs.Call.{CallFits};
ghost use Rattle.place_core.specs.Shapes.{kind_of, IsShape};
ghost use Rattle.lock_free_info.specs.Classes.{IsLockFree, class_by, class_of};

use layout_plan::{has_lane, plan};
use op_table::{Call, Kind};
use place_core::{Path, Shape};
use target_desc::Target;

/// How a call is made, without the step that makes it.
#[derive(Clone, Copy, Debug, PartialEq, Eq)]
pub enum PathClass {
    /// By one step on the object's word.
    One,
    /// By a look at the word, and tries to exchange it.
    Loop,
    /// Part by part, under the object's lock.
    Locked,
}

/// Whether no call on objects of this kind takes a lock, as portable-atomic's `is_always_lock_free` tells of a type:
/// the kind has at most the bits of a word, and the target isn't one on which each call is a critical section.
pub fn is_lock_free(target: &Target, kind: Kind) -> bool
    ensures { IsTrue result ↔ IsLockFree target.now kind }
{
    has_lane(target, kind)
}

/// A path without its step.
pub(crate) fn class_by(path: Path) -> PathClass
    ensures { result ≡ class_by path }
{
    match path {
        Path::One(_) => PathClass::One,
        Path::Loop => PathClass::Loop,
        Path::Locked => PathClass::Locked,
    }
}

/// By which class of path a call on an object is made, as `plan` says. It looks at every object of the shape.
pub fn class_of(shape: &Shape, object: u32, call: &Call) -> PathClass
    requires shape { IsShape shape.now }
    requires object { object < length shape.now.objects }
    requires fits { CallFits (kind_of shape.now object) call.now }
    ensures { result ≡ class_of shape.now object call.now }
{
    class_by(plan(shape, object, call))
}
