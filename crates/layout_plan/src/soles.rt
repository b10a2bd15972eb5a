//! Plans that are made once for a shape.

ghost use Rattle.std.specs.Prelude.{◌≡◌, ℕ, ◌+◌, ◌<◌, ◌≤◌, ◌==◌, min, length, map, replicate, slice_index, IfOk};
ghost use Rattle.std.specs.List.{AllByRecursion};
ghost use Rattle.place_core.specs.WordSums.{lies_in, lanes_in, one_if};
ghost use Rattle.place_core.specs.Shapes.{strip_of, IsPlaced, IsShape};
ghost use Rattle.place_core.specs.Validity.{IsObject};
ghost use Rattle.layout_plan.specs.Plans.{is_sole_at, soles_of};

use crate::plans::path_with;
use op_table::{Call, NoMemory};
use place_core::{Object, Path, Place, Shape};
use std::alloc::Global;
use std::marker::Model;

/// Which objects of a shape have a lane that is alone in its word; contracts see it as a list, one bool an object.
#[derive(Drop)]
pub struct Plans {
    soles: Vec<bool>,
}

impl Model for Plans {
    ghost use Rattle.std.specs.Prelude.{List, Bool};

    ghost Value = { List Bool };

    ghost view = { λ p. p.soles.items };
}

impl Plans {
    ghost use Rattle.std.specs.Prelude.{◌≡◌, ◌<◌, length, IfOk};
    ghost use Rattle.op_table.specs.Call.{CallFits};
    ghost use Rattle.place_core.specs.declared.places.WordOp.{WordOp};
    ghost use Rattle.place_core.specs.declared.places.Path.TheVariants.{One};
    ghost use Rattle.place_core.specs.Shapes.{kind_of, IsShape};
    ghost use Rattle.place_core.specs.Operations.{OpServes, plan_of};
    ghost use Rattle.layout_plan.specs.Plans.{ArePlansOf};

    /// The plans for a shape. It takes as many steps as the shape has objects and words, and for a while one byte a word.
    pub fn of(alloc: Global, shape: &Shape) -> Result<Plans, NoMemory>
        requires { IsShape shape.now }
        ensures { IfOk result (λ p. ArePlansOf p shape.now) }
    {
        let counts = counts_of(alloc, shape)?;
        let soles = soles_of(alloc, shape, counts.as_slice())?;
        Ok(Plans { soles })
    }

    /// What `plan` says of a call, in a few steps, for the shape that the plans were made for.
    #[inline(always)]
    pub fn plan(&self, shape: &Shape, object: u32, call: &Call) -> Path
        requires shape { IsShape shape.now }
        requires plans { ArePlansOf self.now shape.now }
        requires object { object < length shape.now.objects }
        requires fits { CallFits (kind_of shape.now object) call.now }
        ensures path { result ≡ plan_of shape.now object call.now }
        ensures serves { (done : WordOp) → result ≡ One done → OpServes shape.now object call.now done }
    {
        let index = object as usize;
        path_with(shape, &shape.objects.at(index), self.soles[index], call)
    }
}

/// Counts a lane in its word. Counts end at 2: more are no different.
fn count_lane(shape: &Shape, object: &Object, counts: &mut [u8])
    requires object { IsObject shape.now object.now }
    requires words { length counts.old ≡ shape.now.words }
    requires small { (w : ℕ) → slice_index counts.old w ≤ 2 }
    ensures words { length counts.new ≡ length counts.old }
    ensures small { (w : ℕ) → slice_index counts.new w ≤ 2 }
    ensures counted { (w : ℕ) → w < length counts.old → slice_index counts.new w ≡ min 2 (slice_index counts.old w + one_if (lies_in w (strip_of object.now.place))) }
{
    if let Place::Lane { word, .. } = object.place {
        let count = counts[word as usize];
        counts[word as usize] = if count < 2 { count + 1 } else { 2 };
    }
}

/// How many lanes each word has, where 2 stands for 2 and more.
fn count_lanes(shape: &Shape, objects: &[Object], counts: &mut [u8])
    requires objects { AllByRecursion (IsObject shape.now) objects.now }
    requires words { length counts.old ≡ shape.now.words }
    requires none { (w : ℕ) → slice_index counts.old w ≡ 0 }
    ensures words { length counts.new ≡ shape.now.words }
    ensures counted { (w : ℕ) → w < shape.now.words → slice_index counts.new w ≡ min 2 (lanes_in (map (λ a. strip_of a.place) objects.now) w) }
{
    let mut rest = objects;
    'objects: while let [first, after @ ..] = rest {
        count_lane(shape, first, counts);
        rest = after;
    }
}

#[tactic(auto, using(place_core::proofs::ShapeTests::objects_fit))]
fn counts_of(alloc: Global, shape: &Shape) -> Result<Vec<u8>, NoMemory>
    requires { IsShape shape.now }
    ensures words { IfOk result (λ v. length v.items ≡ shape.now.words) }
    ensures counted { IfOk result (λ v. (w : ℕ) → w < shape.now.words → slice_index v.items w ≡ min 2 (lanes_in (map (λ a. strip_of a.place) shape.now.objects) w)) }
{
    let mut counts = vec![in alloc; 0u8; shape.words as usize].map_err(|_| NoMemory)?;
    count_lanes(shape, shape.objects.as_slice(), counts.as_mut_slice());
    Ok(counts)
}

/// Whether a place is the only lane of its word.
fn is_sole_by(shape: &Shape, object: &Object, counts: &[u8]) -> bool
    requires object { IsObject shape.now object.now }
    requires words { length counts.now ≡ shape.now.words }
    requires counted { (w : ℕ) → w < shape.now.words → slice_index counts.now w ≡ min 2 (lanes_in (map (λ a. strip_of a.place) shape.now.objects) w) }
    ensures { result ≡ is_sole_at shape.now object.now.place }
{
    match object.place {
        Place::Lane { word, .. } => counts[word as usize] == 1,
        Place::Parts { .. } => false,
    }
}

#[tactic(auto, using(place_core::proofs::ShapeTests::objects_fit))]
fn soles_of(alloc: Global, shape: &Shape, counts: &[u8]) -> Result<Vec<bool>, NoMemory>
    requires shape { IsShape shape.now }
    requires words { length counts.now ≡ shape.now.words }
    requires counted { (w : ℕ) → w < shape.now.words → slice_index counts.now w ≡ min 2 (lanes_in (map (λ a. strip_of a.place) shape.now.objects) w) }
    ensures { IfOk result (λ v. v.items ≡ soles_of shape.now) }
{
    let mut soles = Vec::new(alloc);
    let mut rest = shape.objects.as_slice();
    'objects: while let [first, after @ ..] = rest {
        soles
            .push(is_sole_by(shape, first, counts))
            .map_err(|_| NoMemory)?;
        rest = after;
    }
    Ok(soles)
}
