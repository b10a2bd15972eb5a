//! Shapes by example. What is wanted was worked out by hand from the rules of layout.

ghost use Rattle.std.specs.Prelude.{IfOk};
ghost use Rattle.place_core.specs.Shapes.{IsShape};

mod paths;

use super::*;
use op_table::{Class, Kind, StepSet, Width, bytes};
use place_core::{Declared, Name, Place, Shape, shape_ok};
use std::alloc::Global;
use std::process::Abort;
use std::test::*;
use target_desc::{Target, builtin, target_ok};

const U8: Kind = Kind {
    width: Width::W8,
    signed: false,
    class: Class::Int,
};

const I16: Kind = Kind {
    width: Width::W16,
    signed: true,
    class: Class::Int,
};

const U16: Kind = Kind {
    width: Width::W16,
    signed: false,
    class: Class::Int,
};

const I32: Kind = Kind {
    width: Width::W32,
    signed: true,
    class: Class::Int,
};

const U32: Kind = Kind {
    width: Width::W32,
    signed: false,
    class: Class::Int,
};

const U64: Kind = Kind {
    width: Width::W64,
    signed: false,
    class: Class::Int,
};

const U128: Kind = Kind {
    width: Width::W128,
    signed: false,
    class: Class::Int,
};

const BOOL: Kind = Kind {
    width: Width::W1,
    signed: false,
    class: Class::Bool,
};

const PTR: Kind = Kind {
    width: Width::W64,
    signed: false,
    class: Class::Ptr,
};

/// The shape of objects of these kinds on a target.
fn laid_on(rt: &impl Abort, alloc: Global, target: &Target, kinds: &[Kind]) -> Result<Shape, Fail>
    ensures { IfOk result (λ s. IsShape s) }
{
    let name = Name::of(b"o").ok_or("a name")?;
    let mut objects = Vec::new(alloc);
    for kind in kinds {
        let object = Declared {
            name,
            kind: *kind,
            start: 0,
        };
        objects.push(object).map_err(|_| "memory")?;
    }
    assert!(rt; target_ok(target), "{target:?}");
    assert!(rt; are_declared(objects.as_slice()), "{kinds:?}");
    assert!(rt; objects.len() <= 65536);
    let shape = lay(alloc, target, objects.as_slice()).map_err(|_| "memory")?;
    Ok(shape)
}

/// The same on a target with a name.
fn laid(rt: &impl Abort, alloc: Global, name: &str, kinds: &[Kind]) -> Result<Shape, Fail>
    ensures { IfOk result (λ s. IsShape s) }
{
    let target = builtin(name.as_bytes()).ok_or("a target")?;
    let shape = laid_on(rt, alloc, &target, kinds)?;
    Ok(shape)
}

fn lane(word: u32, shift: u32, width: u32) -> Place {
    Place::Lane { word, shift, width }
}

fn parts(lock: u32, first: u32, parts: u32, part_bits: u32) -> Place {
    Place::Parts {
        lock,
        first,
        parts,
        part_bits,
    }
}

/// A shape has so many words, and its objects lie at these places.
fn has_places(rt: &impl Abort, shape: &Shape, words: u32, places: &[Place]) {
    assert_eq!(rt; shape.words, words);
    assert_eq!(rt; shape.objects.len(), places.len());
    for (object, place) in shape.objects.as_slice().iter().zip(places) {
        assert_eq!(rt; object.place, *place);
    }
}

#[test]
fn eight_bytes_share_a_word(rt: HostRuntime) -> Result<(), Fail> {
    let shape = laid(&rt, rt.alloc(), "word64", &[U8; 8])?;
    has_places(
        &rt,
        &shape,
        1,
        &[
            lane(0, 0, 8),
            lane(0, 8, 8),
            lane(0, 16, 8),
            lane(0, 24, 8),
            lane(0, 32, 8),
            lane(0, 40, 8),
            lane(0, 48, 8),
            lane(0, 56, 8),
        ],
    );
    Ok(())
}

#[test]
fn wide_objects_have_parts(rt: HostRuntime) -> Result<(), Fail> {
    has_places(
        &rt,
        &laid(&rt, rt.alloc(), "word64", &[U128])?,
        2,
        &[parts(0, 0, 2, 64)],
    );
    has_places(
        &rt,
        &laid(&rt, rt.alloc(), "word32", &[U128])?,
        4,
        &[parts(0, 0, 4, 32)],
    );
    has_places(
        &rt,
        &laid(&rt, rt.alloc(), "full64", &[U8, U128])?,
        4,
        &[lane(0, 56, 8), parts(16, 2, 2, 64)],
    );
    Ok(())
}

#[test]
fn objects_67_apart_share_a_lock(rt: HostRuntime) -> Result<(), Fail> {
    let shape = laid(&rt, rt.alloc(), "word64", &[U128; 68])?;
    assert_eq!(rt; shape.words, 136);
    assert_eq!(rt; shape.objects.len(), 68);
    assert_eq!(rt; shape.objects.at(0).place, parts(0, 0, 2, 64));
    assert_eq!(rt; shape.objects.at(1).place, parts(16, 2, 2, 64));
    assert_eq!(rt; shape.objects.at(67).place, parts(0, 134, 2, 64));
    Ok(())
}

#[test]
fn words_of_32_bits_are_in_high_halves(rt: HostRuntime) -> Result<(), Fail> {
    let shape = laid(&rt, rt.alloc(), "cas32", &[U32, U64])?;
    has_places(&rt, &shape, 4, &[lane(0, 32, 32), parts(8, 2, 2, 32)]);
    Ok(())
}

/// The kinds of a generated workload.
const MIXED: [Kind; 8] = [U8, I16, U32, I32, U64, U8, U16, U128];

#[test]
fn addresses_are_multiples_of_bytes(rt: HostRuntime) -> Result<(), Fail> {
    let target = builtin(b"word32").ok_or("a target")?;
    assert!(rt; target_ok(&target));
    let mut after = 0;
    for (kind, wanted) in MIXED.iter().zip([0u32, 2, 4, 8, 16, 24, 26, 32]) {
        assert!(rt; after <= 4194304);
        let address = next_address(&target, after, *kind);
        assert_eq!(rt; address, wanted, "{kind:?}");
        after = wanted + bytes(*kind);
    }
    Ok(())
}

#[test]
fn mixed_objects_are_packed(rt: HostRuntime) -> Result<(), Fail> {
    let shape = laid(&rt, rt.alloc(), "word32", &MIXED)?;
    has_places(
        &rt,
        &shape,
        12,
        &[
            lane(0, 32, 8),
            lane(0, 48, 16),
            lane(1, 32, 32),
            lane(2, 32, 32),
            parts(16, 4, 2, 32),
            lane(6, 32, 8),
            lane(6, 48, 16),
            parts(32, 8, 4, 32),
        ],
    );
    Ok(())
}

#[test]
fn objects_apart_are_at_the_top(rt: HostRuntime) -> Result<(), Fail> {
    let shape = laid(&rt, rt.alloc(), "full64", &[U8, BOOL, U16, PTR])?;
    has_places(
        &rt,
        &shape,
        4,
        &[
            lane(0, 56, 8),
            lane(1, 63, 1),
            lane(2, 48, 16),
            lane(3, 0, 64),
        ],
    );
    Ok(())
}

/// A packed target of all steps whose lowest addresses lie highest.
fn big(word_bits: u32) -> Target {
    Target {
        word_bits,
        packed: true,
        steps: StepSet {
            swap: true,
            add: true,
            bits: true,
            order: true,
        },
        locks: 67,
        section: false,
        big: true,
    }
}

#[test]
fn big_lanes_begin_at_the_top(rt: HostRuntime) -> Result<(), Fail> {
    let shape = laid_on(&rt, rt.alloc(), &big(32), &[U8, U16, U32, BOOL, BOOL, U64])?;
    has_places(
        &rt,
        &shape,
        6,
        &[
            lane(0, 56, 8),
            lane(0, 32, 16),
            lane(1, 32, 32),
            lane(2, 56, 1),
            lane(2, 48, 1),
            parts(16, 4, 2, 32),
        ],
    );
    let shape = laid_on(&rt, rt.alloc(), &big(64), &[BOOL, U8, U16, U32, U64])?;
    has_places(
        &rt,
        &shape,
        2,
        &[
            lane(0, 56, 1),
            lane(0, 48, 8),
            lane(0, 32, 16),
            lane(0, 0, 32),
            lane(1, 0, 64),
        ],
    );
    Ok(())
}

#[test]
fn a_section_has_parts_only(rt: HostRuntime) -> Result<(), Fail> {
    let shape = laid(&rt, rt.alloc(), "section32", &[U8, U128, BOOL, PTR, U8])?;
    has_places(
        &rt,
        &shape,
        13,
        &[
            parts(0, 0, 1, 32),
            parts(0, 4, 4, 32),
            parts(0, 8, 1, 32),
            parts(0, 10, 2, 32),
            parts(0, 12, 1, 32),
        ],
    );
    Ok(())
}

#[test]
fn no_objects_have_no_words(rt: HostRuntime) -> Result<(), Fail> {
    has_places(&rt, &laid(&rt, rt.alloc(), "full64", &[])?, 0, &[]);
    Ok(())
}

#[test]
fn lanes_are_for_narrow_kinds(rt: HostRuntime) -> Result<(), Fail> {
    for (name, kind, wanted) in [
        ("full64", U64, true),
        ("full64", U128, false),
        ("word32", U32, true),
        ("word32", PTR, false),
        ("section32", BOOL, false),
    ] {
        let target = builtin(name.as_bytes()).ok_or("a target")?;
        assert_eq!(rt; has_lane(&target, kind), wanted, "{name} {kind:?}");
    }
    Ok(())
}

/// As many objects as a shape has at most, of which two bytes share a word, lie on a packed target.
#[test]
fn most_objects_are_apart(rt: HostRuntime) -> Result<(), Fail> {
    let mut kinds = Vec::new(rt.alloc());
    for _ in 0..16384 {
        for kind in [U8, U8, U64, U128] {
            kinds.push(kind).map_err(|_| "memory")?;
        }
    }
    let shape = laid(&rt, rt.alloc(), "word64", kinds.as_slice())?;
    assert_eq!(rt; shape.objects.len(), 65536);
    assert_eq!(rt; shape.words, 65536);
    assert!(rt; shape_ok(&shape));
    Ok(())
}
