//! Steps that serve calls, and shapes that are valid or not, by example.

use super::*;
use op_table::{Call, Class, Kind, StepSet, Width, bits, call_fits, kind_ok};
use std::alloc::Global;
use std::process::Abort;
use std::test::*;

const U8: Kind = Kind {
    width: Width::W8,
    signed: false,
    class: Class::Int,
};

const I8: Kind = Kind {
    width: Width::W8,
    signed: true,
    class: Class::Int,
};

const I16: Kind = Kind {
    width: Width::W16,
    signed: true,
    class: Class::Int,
};

const U32: Kind = Kind {
    width: Width::W32,
    signed: false,
    class: Class::Int,
};

const U64: Kind = Kind {
    width: Width::W64,
    signed: false,
    class: Class::Int,
};

const U128: Kind = Kind {
    width: Width::W128,
    signed: false,
    class: Class::Int,
};

const FLAG: Kind = Kind {
    width: Width::W1,
    signed: false,
    class: Class::Bool,
};

const ALL_STEPS: StepSet = StepSet {
    swap: true,
    add: true,
    bits: true,
    order: true,
};

/// The step for a call on a lane; the outer None where there is no such lane or call.
fn step(kind: Kind, shift: u32, sole: bool, call: &Call) -> Option<Option<WordOp>> {
    let width = bits(kind.width);
    if shift <= 64 && shift + width <= 64 && kind_ok(kind) && call_fits(kind, call) {
        Some(op_for(kind, shift, width, sole, call))
    } else {
        None
    }
}

/// Whether the step serves the call; None where the shape isn't valid, or there is no such object or call.
fn serves(shape: &Shape, object: u32, call: &Call, op: &WordOp) -> Option<bool> {
    if !shape_ok(shape) || object as usize >= shape.objects.len() {
        return None;
    }
    let kind = shape.objects.at(object as usize).kind;
    if kind_ok(kind) && call_fits(kind, call) {
        Some(op_serves(shape, object, call, op))
    } else {
        None
    }
}

// Values of a lane of 8 bits with lowest bit 40.
const AT_40_01: u64 = 0x0000_0100_0000_0000;

const AT_40_02: u64 = 0x0000_0200_0000_0000;

const AT_40_80: u64 = 0x0000_8000_0000_0000;

const AT_40_81: u64 = 0x0000_8100_0000_0000;

const AT_40_AB: u64 = 0x0000_ab00_0000_0000;

const AT_40_FF: u64 = 0x0000_ff00_0000_0000;
// The same where all other bits are 1.
const ONES_40_0F: u64 = 0xffff_0fff_ffff_ffff;

const ONES_40_FD: u64 = 0xffff_fdff_ffff_ffff;

#[test]
fn steps_of_a_lane_alone(rt: HostRuntime) {
    for (call, op) in [
        (Call::Load, Some(WordOp::Load)),
        (Call::Store(0xab), Some(WordOp::Store(AT_40_AB))),
        (Call::Swap(0xab), Some(WordOp::Swap(AT_40_AB))),
        (Call::Cas(1, 2), Some(WordOp::Cas(AT_40_01, AT_40_02))),
        (Call::CasWeak(1, 2), Some(WordOp::Cas(AT_40_01, AT_40_02))),
        (Call::Add(3, false), None),
        (Call::Sub(3, true), None),
        (Call::Nand(0x0f), None),
        (Call::Max(5), None),
        (Call::Min(5), None),
        (Call::Neg(true), None),
        (Call::AddFetch(3), None),
        (Call::SubFetch(3), None),
        (Call::NandFetch(0x0f), None),
    ] {
        assert_eq!(rt; step(U8, 40, true, &call), Some(op), "{call:?}");
    }
}

#[test]
fn steps_beside_other_lanes(rt: HostRuntime) {
    for (call, op) in [
        (Call::Store(0xab), None),
        (Call::Swap(0xab), None),
        (Call::Cas(1, 2), None),
        (Call::CasWeak(1, 2), None),
        (Call::And(0x0f, false), Some(WordOp::And(ONES_40_0F))),
        (Call::BitClear(9), Some(WordOp::And(ONES_40_FD))),
        (Call::Or(0x81, true), Some(WordOp::Or(AT_40_81))),
        (Call::BitSet(15), Some(WordOp::Or(AT_40_80))),
        (Call::Xor(0x81, false), Some(WordOp::Xor(AT_40_81))),
        (Call::BitToggle(8), Some(WordOp::Xor(AT_40_01))),
        (Call::Not(false), Some(WordOp::Xor(AT_40_FF))),
        (Call::AndFetch(0x0f), Some(WordOp::And(ONES_40_0F))),
        (Call::OrFetch(0x81), Some(WordOp::Or(AT_40_81))),
        (Call::XorFetch(0x81), Some(WordOp::Xor(AT_40_81))),
    ] {
        assert_eq!(rt; step(U8, 40, false, &call), Some(op), "{call:?}");
    }
}

const TOP_05: u64 = 0x0500_0000_0000_0000;

#[test]
fn steps_at_the_top(rt: HostRuntime) {
    for (kind, sole, call, op) in [
        (U8, false, Call::Add(5, true), Some(WordOp::Add(TOP_05))),
        (I8, false, Call::Sub(5, false), Some(WordOp::Sub(TOP_05))),
        (U8, true, Call::Max(5), Some(WordOp::Max(TOP_05))),
        (U8, true, Call::Min(5), Some(WordOp::Min(TOP_05))),
        (U8, false, Call::Max(5), None),
        (U8, false, Call::Min(5), None),
        (I8, true, Call::Max(5), None),
        (I8, true, Call::Min(5), None),
        (FLAG, false, Call::Not(true), Some(WordOp::Xor(1 << 63))),
        (FLAG, false, Call::Store(1), None),
        (U64, true, Call::And(0xf0, false), Some(WordOp::And(0xf0))),
        (U64, true, Call::BitSet(127), Some(WordOp::Or(1 << 63))),
        (U64, true, Call::Sub(7, true), Some(WordOp::Sub(7))),
        (U8, false, Call::AddFetch(5), Some(WordOp::Add(TOP_05))),
        (I8, false, Call::SubFetch(5), Some(WordOp::Sub(TOP_05))),
        (U64, true, Call::NandFetch(0xf0), None),
    ] {
        let shift = 64 - bits(kind.width);
        assert_eq!(rt; step(kind, shift, sole, &call), Some(op), "{call:?}");
    }
}

fn lane(kind: Kind, word: u32, shift: u32, width: u32) -> Object {
    Object {
        kind,
        place: Place::Lane { word, shift, width },
        start: 0,
    }
}

fn parts(kind: Kind, lock: u32, first: u32, parts: u32, part_bits: u32) -> Object {
    Object {
        kind,
        place: Place::Parts {
            lock,
            first,
            parts,
            part_bits,
        },
        start: 0,
    }
}

/// Six objects on words of 32 bits: two that share a word, one alone, two in parts, and one more.
fn six() -> [Object; 6] {
    [
        lane(U8, 0, 32, 8),
        lane(I16, 0, 48, 16),
        lane(U32, 1, 32, 32),
        parts(U64, 16, 4, 2, 32),
        lane(U8, 6, 32, 8),
        parts(U128, 32, 8, 4, 32),
    ]
}

fn shape_of<const N: usize>(alloc: Global, objects: [Object; N]) -> Result<Shape, Fail> {
    Ok(Shape {
        word_bits: 32,
        steps: ALL_STEPS,
        section: false,
        words: 12,
        locks: 67,
        objects: Objects::of(Vec::from_array(alloc, objects).map_err(|_| "memory")?),
    })
}

/// Whether the six are valid with another lane of 8 bits as the first.
fn fits_as_lane(alloc: Global, word: u32, shift: u32, start: u128) -> Result<bool, Fail> {
    let mut objects = six();
    objects[0] = Object {
        start,
        ..lane(U8, word, shift, 8)
    };
    Ok(shape_ok(&shape_of(alloc, objects)?))
}

#[test]
fn another_first_lane(rt: HostRuntime) -> Result<(), Fail> {
    for (word, shift, start, valid) in [
        (0, 32, 0, true),
        (0, 40, 255, true),
        (0, 40, 256, false),
        (0, 41, 0, false),
        (1, 24, 0, true),
        (1, 25, 0, false),
        (3, 0, 0, true),
        (4, 0, 0, false),
        (5, 0, 0, false),
        (7, 56, 0, true),
        (7, 57, 0, false),
        (11, 0, 0, false),
        (12, 0, 0, false),
        (4294967295, 4294967295, 0, false),
    ] {
        let fits = fits_as_lane(rt.alloc(), word, shift, start)?;
        assert_eq!(rt; fits, valid, "word {word}, shift {shift}, start {start}");
    }
    Ok(())
}

#[test]
fn a_lane_of_the_wrong_width(rt: HostRuntime) -> Result<(), Fail> {
    let no_kind = Kind {
        width: Width::W1,
        ..U8
    };
    for (kind, width, valid) in [(U8, 8, true), (U8, 16, false), (no_kind, 1, false)] {
        let mut objects = six();
        objects[0] = lane(kind, 7, 0, width);
        let shape = shape_of(rt.alloc(), objects)?;
        assert_eq!(rt; shape_ok(&shape), valid, "{kind:?} in {width} bits");
    }
    Ok(())
}

/// Whether the six are valid with other parts of 128 bits as the last.
fn fits_as_parts(
    alloc: Global,
    lock: u32,
    first: u32,
    count: u32,
    part_bits: u32,
) -> Result<bool, Fail> {
    let mut objects = six();
    objects[5] = parts(U128, lock, first, count, part_bits);
    Ok(shape_ok(&shape_of(alloc, objects)?))
}

#[test]
fn other_last_parts(rt: HostRuntime) -> Result<(), Fail> {
    for (lock, first, count, part_bits, valid) in [
        (32, 8, 4, 32, true),
        (66, 7, 4, 32, true),
        (67, 8, 4, 32, false),
        (32, 8, 3, 32, false),
        (32, 7, 5, 32, false),
        (32, 8, 2, 64, false),
        (32, 9, 4, 32, false),
        (32, 6, 4, 32, false),
        (32, 5, 4, 32, false),
        (32, 4294967295, 4, 32, false),
    ] {
        let fits = fits_as_parts(rt.alloc(), lock, first, count, part_bits)?;
        assert_eq!(rt;
            fits,
            valid,
            "{count} parts of {part_bits} from {first} on, lock {lock}"
        );
    }
    Ok(())
}

#[test]
fn wrong_sizes_are_told(rt: HostRuntime) -> Result<(), Fail> {
    for (word_bits, words, locks, valid) in [
        (32, 12, 67, true),
        (64, 12, 67, false),
        (31, 12, 67, false),
        (32, 11, 67, false),
        (32, 16777216, 67, true),
        (32, 16777217, 67, false),
        (32, 12, 33, true),
        (32, 12, 32, false),
        (32, 12, 68, false),
    ] {
        let shape = Shape {
            word_bits,
            words,
            locks,
            ..shape_of(rt.alloc(), six())?
        };
        assert_eq!(rt;
            shape_ok(&shape),
            valid,
            "{word_bits} bits, {words} words, {locks} locks"
        );
    }
    Ok(())
}

#[test]
fn a_shape_without_objects(rt: HostRuntime) -> Result<(), Fail> {
    for (words, locks, valid) in [(0, 1, true), (0, 0, false)] {
        let shape = Shape {
            words,
            locks,
            ..shape_of(rt.alloc(), [])?
        };
        assert_eq!(rt; shape_ok(&shape), valid, "{words} words, {locks} locks");
    }
    Ok(())
}

#[test]
fn a_section_has_parts_under_lock_0(rt: HostRuntime) -> Result<(), Fail> {
    for (object, valid) in [
        (parts(FLAG, 0, 2, 1, 32), true),
        (parts(FLAG, 1, 2, 1, 32), false),
        (lane(FLAG, 2, 63, 1), false),
    ] {
        let shape = Shape {
            section: true,
            ..shape_of(rt.alloc(), [parts(U64, 0, 0, 2, 32), object])?
        };
        assert_eq!(rt; shape_ok(&shape), valid, "{object:?}");
    }
    Ok(())
}

/// Whether so many lanes of 8 bits, eight a word and in no order, are valid in so many words.
fn bytes_fit(alloc: Global, count: u32, words: u32) -> Result<bool, Fail> {
    let mut objects = Vec::new(alloc);
    for i in 0..count {
        let at = i.wrapping_mul(40503) % 65536;
        let object = lane(U8, at / 8, at % 8 * 8, 8);
        objects.push(object).map_err(|_| "memory")?;
    }
    let shape = Shape {
        words,
        objects: Objects::of(objects),
        ..shape_of(alloc, [])?
    };
    Ok(shape_ok(&shape))
}

#[test]
fn many_objects(rt: HostRuntime) -> Result<(), Fail> {
    for (count, words, valid) in [
        (65536, 8192, true),
        (65536, 8191, false),
        (65537, 8192, false),
    ] {
        let fits = bytes_fit(rt.alloc(), count, words)?;
        assert_eq!(rt; fits, valid, "{count} in {words}");
    }
    Ok(())
}

/// Whether lanes of 8 bits, eight a word, are valid at 5,000 places that fall from the 5,000th, and then at one more.
fn falling_fit(alloc: Global, last: u32) -> Result<bool, Fail> {
    let mut objects = Vec::new(alloc);
    for i in 0..5000 {
        let at = 5000 - i;
        let object = lane(U8, at / 8, at % 8 * 8, 8);
        objects.push(object).map_err(|_| "memory")?;
    }
    let object = lane(U8, last / 8, last % 8 * 8, 8);
    objects.push(object).map_err(|_| "memory")?;
    let shape = Shape {
        words: 626,
        objects: Objects::of(objects),
        ..shape_of(alloc, [])?
    };
    Ok(shape_ok(&shape))
}

/// The last object is compared with those at the start, in the middle and beside it.
#[test]
fn far_objects_may_overlap(rt: HostRuntime) -> Result<(), Fail> {
    for (last, valid) in [
        (0, true),
        (5001, true),
        (5000, false),
        (2952, false),
        (2953, false),
        (1000, false),
        (1, false),
    ] {
        assert_eq!(rt; falling_fit(rt.alloc(), last)?, valid, "{last}");
    }
    Ok(())
}

#[test]
fn words_of_a_table(rt: HostRuntime) -> Result<(), Fail> {
    let shape = shape_of(rt.alloc(), six())?;
    if !shape_ok(&shape) || shape.locks <= 16 {
        return Err("a valid shape".into());
    }
    assert_eq!(rt; lock_word(&shape, 16), 29);
    assert_eq!(rt; data_word(6), 7);
    Ok(())
}

#[test]
fn steps_of_a_shape(rt: HostRuntime) -> Result<(), Fail> {
    let shape = shape_of(rt.alloc(), six())?;
    for (object, call, op, served) in [
        (0, Call::Store(1), WordOp::Store(1 << 32), false),
        (0, Call::Or(1, false), WordOp::Or(1 << 32), true),
        (0, Call::Or(1, false), WordOp::Or(1), false),
        (0, Call::Or(1, false), WordOp::Xor(1 << 32), false),
        (1, Call::Add(1, false), WordOp::Add(1 << 48), true),
        (1, Call::Max(1), WordOp::Max(1 << 48), false),
        (2, Call::Store(1), WordOp::Store(1 << 32), true),
        (2, Call::Max(1), WordOp::Max(1 << 32), true),
        (2, Call::Max(1), WordOp::Min(1 << 32), false),
        (4, Call::Store(1), WordOp::Store(1 << 32), true),
        (4, Call::Add(1, true), WordOp::Add(1 << 32), false),
        (3, Call::Load, WordOp::Load, false),
        (5, Call::Load, WordOp::Load, false),
    ] {
        assert_eq!(rt;
            serves(&shape, object, &call, &op),
            Some(served),
            "{call:?} on {object}"
        );
    }
    Ok(())
}

#[test]
fn bits_of_a_lane(rt: HostRuntime) {
    assert_eq!(rt; raised(0xab, 40, 8), AT_40_AB);
    assert_eq!(rt; lane_bits(0x1122_3344_5566_7788, 40, 8), 0x33);
    assert_eq!(rt;
        put_lane(0x1122_3344_5566_7788, 40, 8, 0xab),
        0x1122_ab44_5566_7788
    );
}

#[test]
fn steps_that_a_target_has(rt: HostRuntime) {
    let no_add = StepSet {
        add: false,
        ..ALL_STEPS
    };
    assert!(rt; !has_step(no_add, &WordOp::Sub(1)));
    assert!(rt; has_step(no_add, &WordOp::Cas(1, 2)));
    assert!(rt; has_step(no_add, &WordOp::Xor(1)));
}
