//! The texts of replies, and reports of two threads, with a fixed value and without one.

ghost use Rattle.std.specs.Prelude.{◌≡◌, ◌∷◌, [], length, map, true, IfOk};
ghost use Rattle.target_desc.specs.Target.{IsTarget};
ghost use Rattle.place_core.specs.DeclaredObjects.{IsDeclared};
ghost use Rattle.place_core.specs.Name.{is_name};
ghost use Rattle.place_core.specs.Pieces.{script_lines};
ghost use Rattle.place_core.specs.Runs.{ScriptsFit};
ghost use Rattle.work_lang.specs.Workload.{threads_of, LineFits};
ghost use Rattle.report_text.specs.Report.{AnswerThreads, AnswerObjects};

use crate::{push_reply, report};
use ledger_sums::{Fixed, fixed_values};
use op_table::{Call, Class, Kind, LineBuf, NoMemory, Order, Reply, StepSet, Width};
use place_core::{
    Declared, Line, Name, Object, Objects, Piece, Place, Replies, Script, Shape, shape_ok,
};
use std::alloc::Global;
use std::process::Abort;
use std::test::*;
use target_desc::{Target, builtin, target_ok};
use work_lang::{MemSink, Work};

const BYTE: Kind = Kind {
    width: Width::W8,
    signed: true,
    class: Class::Int,
};

const FLAG: Kind = Kind {
    width: Width::W1,
    signed: false,
    class: Class::Bool,
};

const ADDRESS: Kind = Kind {
    width: Width::W64,
    signed: false,
    class: Class::Ptr,
};

#[test]
fn prints_each_reply(rt: HostRuntime) -> Result<(), Fail> {
    let mut out = LineBuf::new();
    push_reply(&mut out, BYTE, &Reply::Unit);
    out.push_text(b",");
    push_reply(&mut out, BYTE, &Reply::Value(255));
    out.push_text(b",");
    push_reply(&mut out, ADDRESS, &Reply::Done(16));
    out.push_text(b",");
    push_reply(&mut out, FLAG, &Reply::Failed(1));
    out.push_text(b",");
    push_reply(&mut out, BYTE, &Reply::Bit(false));
    assert_eq!(rt; out.bytes(), b"unit,-1,ok 0x10,err true,false".as_slice());
    Ok(())
}

/// A script of one call.
fn script_of(alloc: Global, line: Line) -> Result<Script, NoMemory>
    ensures { IfOk result (λ s. s ≡ Piece.One line ∷ []) }
{
    let mut script = Script::new(alloc);
    script.push(line)?;
    Ok(script)
}

/// A workload of version 2 with one object, and two threads of a call each.
fn work_of(
    alloc: Global,
    target: Target,
    object: Declared,
    first: Line,
    second: Line,
) -> Result<Work, NoMemory>
    requires target { IsTarget target }
    requires object { IsDeclared object }
    requires name { is_name object.name ≡ true }
    requires first { LineFits (object ∷ []) first }
    requires second { LineFits (object ∷ []) second }
    ensures objects { IfOk result (λ w. w.objects ≡ object ∷ []) }
    ensures threads { IfOk result (λ w. w.scripts ≡ (Piece.One first ∷ []) ∷ (Piece.One second ∷ []) ∷ []) }
{
    let first = script_of(alloc, first)?;
    let second = script_of(alloc, second)?;
    let mut objects = Vec::new(alloc);
    let mut threads = Vec::new(alloc);
    objects.push(object).map_err(|_| NoMemory)?;
    threads.push(first).map_err(|_| NoMemory)?;
    threads.push(second).map_err(|_| NoMemory)?;
    Ok(Work::of_parts(2, target, objects, threads))
}

/// The one reply.
fn reply_of(alloc: Global, reply: Reply) -> Result<Replies, NoMemory>
    ensures { IfOk result (λ r. r.items ≡ reply ∷ []) }
{
    let mut replies = Replies::with_room(alloc, 1)?;
    replies.push(reply);
    Ok(replies)
}

/// The fixed value of an object of this kind and start, alone in its words, under scripts.
fn fixed_of(
    rt: &impl Abort,
    alloc: Global,
    kind: Kind,
    start: u128,
    scripts: &[Script],
) -> Result<Fixed, Fail>
    requires { ScriptsFit (record { kind = kind; start = start } ∷ []) (map script_lines scripts.now) }
    ensures { IfOk result (λ f. length f ≡ 1) }
{
    let place = Place::Parts {
        lock: 0,
        first: 0,
        parts: 2,
        part_bits: 64,
    };
    let mut objects = Vec::new(alloc);
    objects
        .push(Object { kind, place, start })
        .map_err(|_| NoMemory)?;
    let shape = Shape {
        word_bits: 64,
        steps: StepSet {
            swap: false,
            add: false,
            bits: false,
            order: false,
        },
        section: false,
        words: 2,
        locks: 1,
        objects: Objects::of(objects),
    };
    assert!(rt; shape_ok(&shape));
    Ok(fixed_values(alloc, &shape, scripts)?)
}

/// Writes the report of two threads with a reply each, of one object.
fn write_report(
    alloc: Global,
    work: &Work,
    fixed: &Fixed,
    replies: (Reply, Reply),
    last: Reply,
    sink: &mut MemSink,
) -> Result<(), Fail>
    requires threads { AnswerThreads work.now.objects (threads_of work.now) ((replies.0 ∷ []) ∷ (replies.1 ∷ []) ∷ []) }
    requires last { AnswerObjects work.now.objects (last ∷ []) }
    requires fixed { length fixed.now ≡ length work.now.objects }
{
    let replies = [reply_of(alloc, replies.0)?, reply_of(alloc, replies.1)?];
    let last = reply_of(alloc, last)?;
    report(work, fixed, &replies, &last, sink)?;
    Ok(())
}

const WIDE: Kind = Kind {
    width: Width::W128,
    signed: false,
    class: Class::Int,
};

const ADD: Line = Line {
    object: 0,
    call: Call::Add(5, false),
    success: Order::SeqCst,
    failure: None,
};

const SUBTRACT: Line = Line {
    object: 0,
    call: Call::Sub(3, true),
    success: Order::Relaxed,
    failure: None,
};

const EXCHANGE: Line = Line {
    object: 0,
    call: Call::Cas(7, 9),
    success: Order::Acquire,
    failure: Some(Order::Relaxed),
};

#[test]
fn writes_two_threads(rt: HostRuntime) -> Result<(), Fail> {
    let target = builtin(b"cas32").ok_or("no target")?;
    assert!(rt; target_ok(&target));
    let object = Declared {
        name: Name::of(b"n").ok_or("no name")?,
        kind: WIDE,
        start: 7,
    };
    let work = work_of(rt.alloc(), target, object, ADD, EXCHANGE)?;
    let fixed = fixed_of(&rt, rt.alloc(), WIDE, 7, work.threads())?;
    let mut sink = MemSink::of(rt.alloc(), 256, 256, &[])?;
    let replies = (Reply::Value(7), Reply::Failed(12));
    write_report(
        rt.alloc(),
        &work,
        &fixed,
        replies,
        Reply::Value(12),
        &mut sink,
    )?;
    let expected = "target cas32
thread 1
n fetch_add 5 = 7
thread 2
n compare_exchange 7 9 acquire relaxed = err 12
last
n 12
";
    assert_eq!(rt; sink.bytes(), expected.as_bytes());
    Ok(())
}

#[test]
fn writes_a_fixed_value(rt: HostRuntime) -> Result<(), Fail> {
    let target = builtin(b"full64").ok_or("no target")?;
    assert!(rt; target_ok(&target));
    let object = Declared {
        name: Name::of(b"n").ok_or("no name")?,
        kind: WIDE,
        start: 7,
    };
    let work = work_of(rt.alloc(), target, object, ADD, SUBTRACT)?;
    let fixed = fixed_of(&rt, rt.alloc(), WIDE, 7, work.threads())?;
    let mut sink = MemSink::of(rt.alloc(), 256, 256, &[])?;
    let replies = (Reply::Value(4), Reply::Unit);
    write_report(
        rt.alloc(),
        &work,
        &fixed,
        replies,
        Reply::Value(9),
        &mut sink,
    )?;
    let expected = "target full64
thread 1
n fetch_add 5 = 4
thread 2
n sub 3 relaxed = unit
last
n 9 fixed
";
    assert_eq!(rt; sink.bytes(), expected.as_bytes());
    Ok(())
}
