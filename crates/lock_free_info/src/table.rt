//! Writing plan tables.

ghost use Rattle.std.specs.Prelude.{◌≡◌, ◌+◌, ◌≤◌, ◌++◌, ◌∷◌, [], length};
ghost use Rattle.std.specs.Prelude.{slice_get, Some, IsSomeAnd};
ghost use Rattle.op_table.specs.Kind.{IsKind};
ghost use Rattle.op_table.specs.Words.{operations_of};
ghost use Rattle.target_desc.specs.Target.{IsTarget};
ghost use Rattle.place_core.specs.Shapes.{IsShape, most_in_shape};
ghost use Rattle.layout_plan.specs.Layout.{AreDeclared, laid_at, shape_of};
ghost use Rattle.layout_plan.specs.Plans.{is_sole_at};
ghost use Rattle.work_lang.specs.Streams.{Writes};
ghost use Rattle.lock_free_info.specs.PlanTable.{class_word, field, place_text, word_line, object_line};
ghost use Rattle.lock_free_info.specs.PlanTable.{word_lines, object_lines, lines_from, plan_lines};

use crate::classes::{PathClass, class_by};
use layout_plan::{is_sole_at, next_address, path_with};
use op_table::{LineBuf, Operation, bytes, kind_word, operation_word, operations_of};
use place_core::{Declared, Place, Shape};
use target_desc::Target;
use work_lang::{Sink, Work, WriteEnd, write_line, write_target, zero_call};

fn class_word(class: PathClass) -> &'static str
    ensures word { result.now ≡ class_word class }
    ensures short { length result.now ≤ 6 }
{
    match class {
        PathClass::One => "one",
        PathClass::Loop => "loop",
        PathClass::Locked => "locked",
    }
}

/// Writes a word of an object, and the class of its path.
fn write_word<K: Sink>(
    declared: &Declared,
    operation: Operation,
    class: PathClass,
    sink: &mut K,
) -> Result<(), WriteEnd>
    ensures { Writes K.taken K.faults K.tries K.whole sink.old sink.new result (word_line declared.now operation class ∷ []) }
{
    let mut out = LineBuf::new();
    let name = declared.name;
    out.push_text(name.bytes());
    out.push_text(b" ");
    out.push_text(operation_word(operation).as_bytes());
    out.push_text(b" ");
    out.push_text(class_word(class).as_bytes());
    out.push_text(b"\n");
    write_line(out.bytes(), sink)
}

/// Writes the words of an object, each with the class of its path. The shape is searched once for all of them.
fn write_words<K: Sink>(
    shape: &Shape,
    number: u32,
    declared: &Declared,
    sink: &mut K,
) -> Result<(), WriteEnd>
    requires shape { IsShape shape.now }
    requires place { IsSomeAnd (slice_get shape.now.objects number) (λ a. a.kind ≡ declared.now.kind) }
    ensures { Writes K.taken K.faults K.tries K.whole sink.old sink.new result
        (word_lines shape.now number declared.now (operations_of declared.now.kind.class)) }
{
    let object = shape.objects.at(number as usize);
    let sole = is_sole_at(shape, object.place);
    let mut rest = operations_of(declared.kind.class);
    'words: while let [operation, others @ ..] = rest {
        let path = path_with(shape, &object, sole, &zero_call(*operation));
        match write_word(declared, *operation, class_by(path), sink) {
            Ok(()) => {}
            Err(end) => return Err(end),
        }
        rest = others;
    }
    Ok(())
}

/// Adds a number behind what it is.
fn push_field(out: &mut LineBuf, label: &[u8], number: u32)
    requires room { length out.old + length label.now + 10 ≤ 256 }
    ensures value { out.new ≡ out.old ++ field label.now number }
    ensures short { length out.new ≤ length out.old + length label.now + 10 }
{
    out.push_text(label);
    out.push_number(u64::from(number));
}

/// Adds where an object lies, in 66 bytes at most.
fn push_place(out: &mut LineBuf, place: Place)
    requires room { length out.old + 66 ≤ 256 }
    ensures value { out.new ≡ out.old ++ place_text place }
    ensures short { length out.new ≤ length out.old + 66 }
{
    match place {
        Place::Lane { word, shift, .. } => {
            push_field(out, b" word ", word);
            push_field(out, b" shift ", shift);
            out.push_text(b" lock_free true");
        }
        Place::Parts {
            lock,
            first,
            parts,
            ..
        } => {
            push_field(out, b" parts ", parts);
            push_field(out, b" first ", first);
            push_field(out, b" lock ", lock);
            out.push_text(b" lock_free false");
        }
    }
}

/// Writes an object at its address in bytes, and where it lies.
fn write_place<K: Sink>(
    declared: &Declared,
    address: u32,
    place: Place,
    sink: &mut K,
) -> Result<(), WriteEnd>
    requires { IsKind declared.now.kind }
    ensures { Writes K.taken K.faults K.tries K.whole sink.old sink.new result (object_line declared.now address place ∷ []) }
{
    let mut out = LineBuf::new();
    let name = declared.name;
    out.push_text(name.bytes());
    out.push_text(b" ");
    out.push_text(kind_word(declared.kind).as_bytes());
    push_field(&mut out, b" address ", address);
    push_place(&mut out, place);
    out.push_text(b"\n");
    write_line(out.bytes(), sink)
}

/// Writes an object, and then its words.
fn write_object<K: Sink>(
    target: &Target,
    shape: &Shape,
    number: u32,
    declared: &Declared,
    address: u32,
    sink: &mut K,
) -> Result<(), WriteEnd>
    requires shape { IsShape shape.now }
    requires laid { slice_get shape.now.objects number ≡ Some (laid_at target.now declared.now address) }
    ensures { Writes K.taken K.faults K.tries K.whole sink.old sink.new result
        (object_lines target.now shape.now number declared.now address) }
{
    let place = shape.objects.at(number as usize).place;
    match write_place(declared, address, place, sink) {
        Ok(()) => {}
        Err(end) => return Err(end),
    }
    write_words(shape, number, declared, sink)
}

/// Writes the objects in declared order.
fn write_objects<K: Sink>(
    target: &Target,
    objects: &[Declared],
    shape: &Shape,
    sink: &mut K,
) -> Result<(), WriteEnd>
    requires target { IsTarget target.now }
    requires objects { AreDeclared objects.now }
    requires most { length objects.now ≤ most_in_shape }
    requires shape { shape.now ≡ shape_of target.now objects.now }
    ensures { Writes K.taken K.faults K.tries K.whole sink.old sink.new result (lines_from target.now shape.now 0 0 objects.now) }
{
    let mut number = 0;
    let mut after = 0;
    let mut rest = objects;
    'objects: while let [first, others @ ..] = rest {
        let address = next_address(target, after, first.kind);
        match write_object(target, shape, number, first, address, sink) {
            Ok(()) => {}
            Err(end) => return Err(end),
        }
        after = address + bytes(first.kind);
        number += 1;
        rest = others;
    }
    Ok(())
}

/// Writes the plan table of objects on a target, whose shape is given.
pub(crate) fn write_table<K: Sink>(
    target: &Target,
    objects: &[Declared],
    shape: &Shape,
    sink: &mut K,
) -> Result<(), WriteEnd>
    requires target { IsTarget target.now }
    requires objects { AreDeclared objects.now }
    requires most { length objects.now ≤ most_in_shape }
    requires shape { shape.now ≡ shape_of target.now objects.now }
    ensures { Writes K.taken K.faults K.tries K.whole sink.old sink.new result (plan_lines target.now objects.now) }
{
    match write_target(target, sink) {
        Ok(()) => {}
        Err(end) => return Err(end),
    }
    write_objects(target, objects, shape, sink)
}

/// Writes the plan table of a workload, line by line, each with its end as one piece: the target, and for each object,
/// in declared order, where it lies and the class of path of each word of its class. The shape is that of the
/// workload's objects on its target. It takes no memory. At Fault, which comes only where the sink's count rose, what
/// was taken is a front of the table.
pub fn write_plan<K: Sink>(work: &Work, shape: &Shape, sink: &mut K) -> Result<(), WriteEnd>
    requires { shape.now ≡ shape_of work.now.target work.now.objects }
    ensures { Writes K.taken K.faults K.tries K.whole sink.old sink.new result (plan_lines work.now.target work.now.objects) }
{
    let target = work.target();
    let objects = work.objects();
    write_table(target, objects, shape, sink)
}
