//! Plans by example: each class of calls on each kind of place, with each set of steps.

ghost use Rattle.place_core.specs.Shapes.{IsShape};

use super::*;
use op_table::{Call, call_fits};
use place_core::{Path, WordOp};

/// A call on an object has a path, by the shape and by its plans.
fn has_path(
    rt: &impl Abort,
    alloc: Global,
    shape: &Shape,
    object: u32,
    call: Call,
    path: Path,
) -> Result<(), Fail>
    requires { IsShape shape.now }
{
    assert!(rt; (object as usize) < shape.objects.len());
    assert!(rt;
        call_fits(shape.objects.at(object as usize).kind, &call),
        "{call:?}"
    );
    assert_eq!(rt; plan(shape, object, &call), path, "{object} {call:?}");
    let plans = Plans::of(alloc, shape).map_err(|_| "memory")?;
    assert_eq!(rt; plans.plan(shape, object, &call), path, "{object} {call:?}");
    Ok(())
}

#[test]
fn a_sole_lane_at_the_top_has_every_step(rt: HostRuntime) -> Result<(), Fail> {
    let shape = laid(&rt, rt.alloc(), "full64", &[U8])?;
    for (call, op) in [
        (Call::Load, WordOp::Load),
        (Call::Store(5), WordOp::Store(0x0500000000000000)),
        (Call::Swap(5), WordOp::Swap(0x0500000000000000)),
        (
            Call::Cas(1, 2),
            WordOp::Cas(0x0100000000000000, 0x0200000000000000),
        ),
        (
            Call::CasWeak(1, 2),
            WordOp::Cas(0x0100000000000000, 0x0200000000000000),
        ),
        (Call::Add(3, false), WordOp::Add(0x0300000000000000)),
        (Call::Sub(3, true), WordOp::Sub(0x0300000000000000)),
        (Call::And(5, false), WordOp::And(0x05ffffffffffffff)),
        (Call::Or(5, false), WordOp::Or(0x0500000000000000)),
        (Call::Xor(5, true), WordOp::Xor(0x0500000000000000)),
        (Call::Max(5), WordOp::Max(0x0500000000000000)),
        (Call::Min(5), WordOp::Min(0x0500000000000000)),
        (Call::Not(false), WordOp::Xor(0xff00000000000000)),
        (Call::BitSet(9), WordOp::Or(0x0200000000000000)),
        (Call::BitClear(9), WordOp::And(0xfdffffffffffffff)),
        (Call::BitToggle(9), WordOp::Xor(0x0200000000000000)),
        (Call::AddFetch(3), WordOp::Add(0x0300000000000000)),
        (Call::SubFetch(3), WordOp::Sub(0x0300000000000000)),
        (Call::AndFetch(5), WordOp::And(0x05ffffffffffffff)),
        (Call::OrFetch(5), WordOp::Or(0x0500000000000000)),
        (Call::XorFetch(5), WordOp::Xor(0x0500000000000000)),
    ] {
        has_path(&rt, rt.alloc(), &shape, 0, call, Path::One(op))?;
    }
    has_path(&rt, rt.alloc(), &shape, 0, Call::Nand(5), Path::Loop)?;
    has_path(&rt, rt.alloc(), &shape, 0, Call::NandFetch(5), Path::Loop)?;
    has_path(&rt, rt.alloc(), &shape, 0, Call::Neg(false), Path::Loop)?;
    Ok(())
}

/// Of two bytes of a word the first is at the top where the lowest address lies highest, and so is added to in one
/// step.
#[test]
fn a_big_lane_at_the_top_is_added_to_in_one_step(rt: HostRuntime) -> Result<(), Fail> {
    let shape = laid_on(&rt, rt.alloc(), &big(64), &[U8, U8])?;
    let add = Call::Add(10, false);
    let one = Path::One(WordOp::Add(0x0a00000000000000));
    has_path(&rt, rt.alloc(), &shape, 0, add, one)?;
    has_path(&rt, rt.alloc(), &shape, 1, add, Path::Loop)?;
    Ok(())
}

#[test]
fn shared_lanes_have_masked_steps(rt: HostRuntime) -> Result<(), Fail> {
    let shape = laid(&rt, rt.alloc(), "word64", &[U8; 8])?;
    for (object, call, path) in [
        (6, Call::Load, Path::One(WordOp::Load)),
        (6, Call::Store(5), Path::Loop),
        (6, Call::Swap(5), Path::Loop),
        (6, Call::Cas(1, 2), Path::Loop),
        (6, Call::CasWeak(1, 2), Path::Loop),
        (6, Call::Add(1, false), Path::Loop),
        (6, Call::Sub(1, false), Path::Loop),
        (6, Call::AddFetch(1), Path::Loop),
        (6, Call::Max(5), Path::Loop),
        (6, Call::Min(5), Path::Loop),
        (
            6,
            Call::And(5, false),
            Path::One(WordOp::And(0xff05ffffffffffff)),
        ),
        (
            6,
            Call::Or(5, false),
            Path::One(WordOp::Or(0x0005000000000000)),
        ),
        (
            6,
            Call::Xor(5, false),
            Path::One(WordOp::Xor(0x0005000000000000)),
        ),
        (
            6,
            Call::Not(true),
            Path::One(WordOp::Xor(0x00ff000000000000)),
        ),
        (
            6,
            Call::BitSet(7),
            Path::One(WordOp::Or(0x0080000000000000)),
        ),
        (
            6,
            Call::BitClear(7),
            Path::One(WordOp::And(0xff7fffffffffffff)),
        ),
        (
            6,
            Call::BitToggle(8),
            Path::One(WordOp::Xor(0x0001000000000000)),
        ),
        (
            7,
            Call::Add(1, false),
            Path::One(WordOp::Add(0x0100000000000000)),
        ),
        (
            7,
            Call::Sub(1, true),
            Path::One(WordOp::Sub(0x0100000000000000)),
        ),
        (7, Call::Store(5), Path::Loop),
        (7, Call::Max(5), Path::Loop),
    ] {
        has_path(&rt, rt.alloc(), &shape, object, call, path)?;
    }
    Ok(())
}

#[test]
fn a_sole_lane_may_be_below_the_top(rt: HostRuntime) -> Result<(), Fail> {
    let shape = laid(&rt, rt.alloc(), "word64", &[U8])?;
    has_path(
        &rt,
        rt.alloc(),
        &shape,
        0,
        Call::Store(5),
        Path::One(WordOp::Store(5)),
    )?;
    has_path(
        &rt,
        rt.alloc(),
        &shape,
        0,
        Call::Swap(5),
        Path::One(WordOp::Swap(5)),
    )?;
    has_path(
        &rt,
        rt.alloc(),
        &shape,
        0,
        Call::Cas(1, 2),
        Path::One(WordOp::Cas(1, 2)),
    )?;
    has_path(&rt, rt.alloc(), &shape, 0, Call::Add(1, false), Path::Loop)?;
    has_path(&rt, rt.alloc(), &shape, 0, Call::Max(5), Path::Loop)?;
    Ok(())
}

#[test]
fn signed_order_is_no_step(rt: HostRuntime) -> Result<(), Fail> {
    let shape = laid(&rt, rt.alloc(), "word32", &[I32, U32])?;
    has_path(&rt, rt.alloc(), &shape, 0, Call::Max(5), Path::Loop)?;
    has_path(&rt, rt.alloc(), &shape, 0, Call::Min(5), Path::Loop)?;
    has_path(
        &rt,
        rt.alloc(),
        &shape,
        0,
        Call::Add(5, false),
        Path::One(WordOp::Add(0x0000000500000000)),
    )?;
    has_path(
        &rt,
        rt.alloc(),
        &shape,
        1,
        Call::Max(5),
        Path::One(WordOp::Max(0x0000000500000000)),
    )?;
    Ok(())
}

/// The sixteen sets of steps: swap; add; and, or and xor; maximum and minimum.
const SETS: [[bool; 4]; 16] = [
    [false, false, false, false],
    [false, false, false, true],
    [false, false, true, false],
    [false, false, true, true],
    [false, true, false, false],
    [false, true, false, true],
    [false, true, true, false],
    [false, true, true, true],
    [true, false, false, false],
    [true, false, false, true],
    [true, false, true, false],
    [true, false, true, true],
    [true, true, false, false],
    [true, true, false, true],
    [true, true, true, false],
    [true, true, true, true],
];

/// A packed target that makes these calls in one step.
fn target_that_makes(word_bits: u32, made: [bool; 4]) -> Target {
    Target {
        word_bits,
        packed: true,
        steps: StepSet {
            swap: made[0],
            add: made[1],
            bits: made[2],
            order: made[3],
        },
        locks: 67,
        section: false,
        big: false,
    }
}

fn one_if(made: bool, op: WordOp) -> Path {
    if made { Path::One(op) } else { Path::Loop }
}

/// A target that has one kind of steps makes the calls on a number by them, and the others by a loop; a number that
/// is wider than a word is locked all the same.
fn numbers_have_steps(rt: &impl Abort, alloc: Global, made: [bool; 4]) -> Result<(), Fail> {
    let target = target_that_makes(32, made);
    let shape = laid_on(rt, alloc, &target, &[U32, U64])?;
    for (call, op, one) in [
        (Call::Load, WordOp::Load, true),
        (Call::Store(5), WordOp::Store(0x0000000500000000), true),
        (
            Call::CasWeak(5, 5),
            WordOp::Cas(0x0000000500000000, 0x0000000500000000),
            true,
        ),
        (Call::Swap(5), WordOp::Swap(0x0000000500000000), made[0]),
        (
            Call::Add(5, false),
            WordOp::Add(0x0000000500000000),
            made[1],
        ),
        (
            Call::Sub(5, false),
            WordOp::Sub(0x0000000500000000),
            made[1],
        ),
        (
            Call::And(5, false),
            WordOp::And(0x00000005ffffffff),
            made[2],
        ),
        (Call::Or(5, false), WordOp::Or(0x0000000500000000), made[2]),
        (
            Call::Xor(5, false),
            WordOp::Xor(0x0000000500000000),
            made[2],
        ),
        (Call::Not(false), WordOp::Xor(0xffffffff00000000), made[2]),
        (Call::BitSet(33), WordOp::Or(0x0000000200000000), made[2]),
        (Call::BitClear(33), WordOp::And(0xfffffffdffffffff), made[2]),
        (
            Call::BitToggle(33),
            WordOp::Xor(0x0000000200000000),
            made[2],
        ),
        (Call::Max(5), WordOp::Max(0x0000000500000000), made[3]),
        (Call::Min(5), WordOp::Min(0x0000000500000000), made[3]),
        (Call::Nand(5), WordOp::Load, false),
        (Call::Neg(true), WordOp::Load, false),
    ] {
        has_path(rt, alloc, &shape, 0, call, one_if(one, op))?;
        has_path(rt, alloc, &shape, 1, call, Path::Locked)?;
    }
    Ok(())
}

/// The same of a bool, which is one bit at the start of its word and so not at the top.
fn bools_have_steps(rt: &impl Abort, alloc: Global, made: [bool; 4]) -> Result<(), Fail> {
    let target = target_that_makes(32, made);
    let shape = laid_on(rt, alloc, &target, &[BOOL])?;
    for (call, op, one) in [
        (Call::Load, WordOp::Load, true),
        (Call::Store(1), WordOp::Store(0x0000000100000000), true),
        (Call::Cas(0, 1), WordOp::Cas(0, 0x0000000100000000), true),
        (
            Call::CasWeak(1, 0),
            WordOp::Cas(0x0000000100000000, 0),
            true,
        ),
        (Call::Swap(1), WordOp::Swap(0x0000000100000000), made[0]),
        (Call::And(0, true), WordOp::And(0xfffffffeffffffff), made[2]),
        (Call::Or(1, false), WordOp::Or(0x0000000100000000), made[2]),
        (Call::Xor(1, true), WordOp::Xor(0x0000000100000000), made[2]),
        (Call::Not(false), WordOp::Xor(0x0000000100000000), made[2]),
        (Call::Nand(1), WordOp::Load, false),
    ] {
        has_path(rt, alloc, &shape, 0, call, one_if(one, op))?;
    }
    Ok(())
}

/// The same of a pointer, which is a whole word.
fn pointers_have_steps(rt: &impl Abort, alloc: Global, made: [bool; 4]) -> Result<(), Fail> {
    let target = target_that_makes(64, made);
    let shape = laid_on(rt, alloc, &target, &[PTR])?;
    for (call, op, one) in [
        (Call::Load, WordOp::Load, true),
        (Call::Store(16), WordOp::Store(16), true),
        (Call::Cas(16, 32), WordOp::Cas(16, 32), true),
        (Call::CasWeak(16, 32), WordOp::Cas(16, 32), true),
        (Call::Swap(16), WordOp::Swap(16), made[0]),
        (Call::Add(16, false), WordOp::Add(16), made[1]),
        (Call::Sub(16, false), WordOp::Sub(16), made[1]),
        (Call::And(240, false), WordOp::And(240), made[2]),
        (Call::Or(3, false), WordOp::Or(3), made[2]),
        (Call::Xor(3, false), WordOp::Xor(3), made[2]),
        (Call::BitSet(63), WordOp::Or(0x8000000000000000), made[2]),
        (Call::BitClear(63), WordOp::And(0x7fffffffffffffff), made[2]),
        (Call::BitToggle(64), WordOp::Xor(1), made[2]),
    ] {
        has_path(rt, alloc, &shape, 0, call, one_if(one, op))?;
    }
    Ok(())
}

#[test]
fn steps_of_the_target_are_made(rt: HostRuntime) -> Result<(), Fail> {
    for made in SETS {
        numbers_have_steps(&rt, rt.alloc(), made)?;
        bools_have_steps(&rt, rt.alloc(), made)?;
        pointers_have_steps(&rt, rt.alloc(), made)?;
    }
    Ok(())
}

#[test]
fn parts_are_locked(rt: HostRuntime) -> Result<(), Fail> {
    let wide = laid(&rt, rt.alloc(), "word32", &[U64])?;
    let section = laid(&rt, rt.alloc(), "section32", &[U8])?;
    for call in [
        Call::Load,
        Call::Store(5),
        Call::Cas(1, 2),
        Call::Add(5, false),
        Call::Nand(5),
        Call::Max(5),
        Call::BitSet(5),
    ] {
        has_path(&rt, rt.alloc(), &wide, 0, call, Path::Locked)?;
        has_path(&rt, rt.alloc(), &section, 0, call, Path::Locked)?;
    }
    Ok(())
}
