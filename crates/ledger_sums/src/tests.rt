//! Fixed values by example. What is wanted was worked out by hand.

ghost use Rattle.std.specs.Prelude.{◌≡◌, ◌<◌, length, true, IfOk};
ghost use Rattle.place_core.specs.Shapes.{IsShape, cells_of_shape};
ghost use Rattle.place_core.specs.Pieces.{script_lines};
ghost use Rattle.place_core.specs.Runs.{asked_of, HasCall, ScriptFits};

use super::*;
use op_table::{Call, Class, Kind, Order, StepSet, Width, bits, call_fits};
use place_core::{Line, Object, Objects, Place, Script, Shape, shape_ok};
use std::alloc::Global;
use std::process::Abort;
use std::test::*;

const U8: Kind = Kind {
    width: Width::W8,
    signed: false,
    class: Class::Int,
};

const I16: Kind = Kind {
    width: Width::W16,
    signed: true,
    class: Class::Int,
};

const U128: Kind = Kind {
    width: Width::W128,
    signed: false,
    class: Class::Int,
};

/// Two objects of a kind that begin with this value, each in words of its own.
fn pair(rt: &impl Abort, alloc: Global, kind: Kind, start: u128) -> Result<Shape, Fail>
    ensures { IfOk result (λ s. IsShape s) }
{
    let parts = (bits(kind.width) + 63) / 64;
    let mut objects = Vec::new(alloc);
    for first in [0, 2] {
        let place = Place::Parts {
            lock: 0,
            first,
            parts,
            part_bits: 64,
        };
        objects
            .push(Object { kind, place, start })
            .map_err(|_| "memory")?;
    }
    let shape = Shape {
        word_bits: 64,
        steps: StepSet {
            swap: false,
            add: false,
            bits: false,
            order: false,
        },
        section: false,
        words: 4,
        locks: 1,
        objects: Objects::of(objects),
    };
    assert!(rt; shape_ok(&shape));
    Ok(shape)
}

/// Whether the object is there and has the call.
fn fits(shape: &Shape, line: &Line) -> bool
    requires { IsShape shape.now }
    ensures { result ≡ true → HasCall (cells_of_shape shape.now) (asked_of line.now) }
{
    let number = line.object as usize;
    number < shape.objects.len() && call_fits(shape.objects.at(number).kind, &line.call)
}

/// The script of these calls, each with its object's number.
fn script_of(alloc: Global, shape: &Shape, calls: &[(u32, Call)]) -> Result<Script, Fail>
    requires { IsShape shape.now }
    ensures { IfOk result (λ s. ScriptFits (cells_of_shape shape.now) (script_lines s)) }
{
    let mut script = Script::new(alloc);
    let mut i = 0;
    'calls: while i < calls.len() && i < 1000 {
        let (object, call) = calls[i];
        let line = Line {
            object,
            call,
            success: Order::SeqCst,
            failure: None,
        };
        if !fits(shape, &line) {
            return Err(Fail::from("a call"));
        }
        script.push(line).map_err(|_| "memory")?;
        i += 1;
    }
    Ok(script)
}

/// The fixed values of two such objects where two threads make these calls.
fn fixed_pair(
    rt: &impl Abort,
    alloc: Global,
    start: (Kind, u128),
    first: &[(u32, Call)],
    second: &[(u32, Call)],
) -> Result<(Option<u128>, Option<u128>), Fail> {
    let shape = pair(rt, alloc, start.0, start.1)?;
    assert_eq!(rt; shape.objects.len(), 2, "shape.objects.len()");
    let mut scripts = Vec::new(alloc);
    scripts
        .push(script_of(alloc, &shape, first)?)
        .map_err(|_| "memory")?;
    scripts
        .push(script_of(alloc, &shape, second)?)
        .map_err(|_| "memory")?;
    let fixed = fixed_values(alloc, &shape, scripts.as_slice()).map_err(|_| "memory")?;
    Ok((fixed.at(0), fixed.at(1)))
}

#[test]
fn sums_of_bytes_wrap(rt: HostRuntime) -> Result<(), Fail> {
    let first = [(0, Call::Add(10, false)), (0, Call::Load)];
    let second = [(0, Call::Sub(3, true)), (0, Call::Sub(7, false))];
    let told = fixed_pair(&rt, rt.alloc(), (U8, 250), &first, &second)?;
    assert_eq!(rt; told, (Some(250), Some(250)));
    let more = [(0, Call::Add(9, true)), (1, Call::Sub(251, false))];
    let told = fixed_pair(&rt, rt.alloc(), (U8, 250), &more, &more)?;
    assert_eq!(rt; told, (Some(12), Some(4)));
    Ok(())
}

#[test]
fn calls_that_answer_the_new_value(rt: HostRuntime) -> Result<(), Fail> {
    let first = [(0, Call::AddFetch(10)), (1, Call::SubFetch(1))];
    let second = [(0, Call::Load), (1, Call::AddFetch(7))];
    let told = fixed_pair(&rt, rt.alloc(), (U8, 250), &first, &second)?;
    assert_eq!(rt; told, (Some(4), Some(0)));
    let first = [(0, Call::XorFetch(0x0f)), (1, Call::OrFetch(0x81))];
    let second = [(0, Call::Not(true)), (1, Call::BitSet(1))];
    let told = fixed_pair(&rt, rt.alloc(), (U8, 0), &first, &second)?;
    assert_eq!(rt; told, (Some(0xf0), Some(0x83)));
    let first = [(0, Call::AndFetch(0x0f)), (1, Call::NandFetch(1))];
    let second = [(0, Call::BitClear(0)), (1, Call::Load)];
    let told = fixed_pair(&rt, rt.alloc(), (U8, 0xff), &first, &second)?;
    assert_eq!(rt; told, (Some(0x0e), None));
    Ok(())
}

#[test]
fn sums_of_signed_numbers_wrap(rt: HostRuntime) -> Result<(), Fail> {
    let first = [(0, Call::Add(32767, false)), (1, Call::Sub(32768, false))];
    let second = [(0, Call::Add(7, true)), (1, Call::Load)];
    let told = fixed_pair(&rt, rt.alloc(), (I16, 65531), &first, &second)?;
    assert_eq!(rt; told, (Some(32769), Some(32763)));
    Ok(())
}

#[test]
fn bits_are_set_or_cleared(rt: HostRuntime) -> Result<(), Fail> {
    let first = [(0, Call::BitSet(3)), (1, Call::And(0x0f, true))];
    let second = [(0, Call::Or(0x81, false)), (1, Call::BitClear(9))];
    let told = fixed_pair(&rt, rt.alloc(), (U8, 0x16), &first, &second)?;
    assert_eq!(rt; told, (Some(0x9f), Some(0x04)));
    Ok(())
}

#[test]
fn bits_are_turned_over(rt: HostRuntime) -> Result<(), Fail> {
    let first = [(0, Call::Xor(1, false)), (0, Call::BitToggle(127))];
    let second = [(0, Call::Not(true)), (1, Call::Not(false))];
    let told = fixed_pair(&rt, rt.alloc(), (U128, 0), &first, &second)?;
    let half = 170141183460469231731687303715884105726;
    assert_eq!(rt;
        told,
        (Some(half), Some(340282366920938463463374607431768211455))
    );
    Ok(())
}

#[test]
fn maxima_go_by_the_sign(rt: HostRuntime) -> Result<(), Fail> {
    let first = [(0, Call::Max(3)), (1, Call::Min(3))];
    let second = [(0, Call::Max(65534)), (1, Call::Min(32768))];
    let told = fixed_pair(&rt, rt.alloc(), (I16, 65531), &first, &second)?;
    assert_eq!(rt; told, (Some(3), Some(32768)));
    Ok(())
}

#[test]
fn loads_alone_leave_the_start(rt: HostRuntime) -> Result<(), Fail> {
    let told = fixed_pair(&rt, rt.alloc(), (U8, 7), &[(0, Call::Load)], &[])?;
    assert_eq!(rt; told, (Some(7), Some(7)));
    Ok(())
}

/// That neither object has a fixed value, where the first thread makes one call on each and the second two.
fn none_of(
    rt: &impl Abort,
    alloc: Global,
    first: [Call; 2],
    second: [Call; 2],
) -> Result<(), Fail> {
    let other = [(0, second[0]), (1, second[1]), (0, Call::Load)];
    let told = fixed_pair(rt, alloc, (U8, 4), &[(0, first[0]), (1, first[1])], &other)?;
    assert_eq!(rt; told, (None, None), "{first:?} {second:?}");
    Ok(())
}

#[test]
fn calls_of_no_family(rt: HostRuntime) -> Result<(), Fail> {
    let loads = [Call::Load, Call::Load];
    none_of(
        &rt,
        rt.alloc(),
        [Call::Cas(3, 9), Call::CasWeak(3, 9)],
        loads,
    )?;
    none_of(&rt, rt.alloc(), [Call::Nand(1), Call::Neg(true)], loads)?;
    none_of(&rt, rt.alloc(), loads, [Call::Store(4), Call::Swap(4)])?;
    none_of(
        &rt,
        rt.alloc(),
        [Call::NandFetch(1), Call::NandFetch(1)],
        [Call::NandFetch(1), Call::AndFetch(1)],
    )?;
    none_of(
        &rt,
        rt.alloc(),
        [Call::Cas(4, 4), Call::Store(4)],
        [Call::Add(0, false), Call::Or(0, false)],
    )?;
    Ok(())
}

#[test]
fn calls_of_two_families(rt: HostRuntime) -> Result<(), Fail> {
    none_of(
        &rt,
        rt.alloc(),
        [Call::Add(1, true), Call::Xor(1, false)],
        [Call::Or(1, false), Call::BitClear(1)],
    )?;
    none_of(
        &rt,
        rt.alloc(),
        [Call::Max(1), Call::BitSet(0)],
        [Call::Min(1), Call::BitToggle(0)],
    )?;
    none_of(
        &rt,
        rt.alloc(),
        [Call::AddFetch(1), Call::OrFetch(1)],
        [Call::XorFetch(1), Call::AndFetch(1)],
    )?;
    Ok(())
}

#[test]
fn calls_on_two_objects_stand_apart(rt: HostRuntime) -> Result<(), Fail> {
    let first = [(0, Call::Add(1, false)), (1, Call::Or(2, false))];
    let second = [(1, Call::Add(1, false)), (0, Call::Add(2, false))];
    let told = fixed_pair(&rt, rt.alloc(), (U8, 4), &first, &second)?;
    assert_eq!(rt; told, (Some(7), None));
    Ok(())
}
