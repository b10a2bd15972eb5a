//! Plan tables by example. What is wanted was worked out by hand from the rules of layout and plans.

use crate::table::write_table;
use crate::{PathClass, class_of, is_lock_free, write_plan};
use layout_plan::{are_declared, lay};
use op_table::{Call, call_fits, kind_of_word};
use place_core::{Declared, Name, shape_ok};
use std::alloc::Global;
use std::process::Abort;
use std::test::Fail;
use target_desc::{builtin, target_ok};
use work_lang::{MemSink, read_work};

fn object(name: &str, kind: &str) -> Result<Declared, Fail> {
    let name = Name::of(name.as_bytes()).ok_or("a name")?;
    let kind = kind_of_word(kind.as_bytes()).ok_or("a kind")?;
    Ok(Declared {
        name,
        kind,
        start: 0,
    })
}

/// So many objects of a kind, each with the letter and its number as its name.
fn numbered(alloc: Global, letter: char, kind: &str, count: u32) -> Result<Vec<Declared>, Fail> {
    let mut objects = Vec::new(alloc);
    for i in 0..count {
        let name = format!(in alloc; "{letter}{i}")?;
        objects.push(object(&name, kind)?)?;
    }
    Ok(objects)
}

/// What a sink that fails at these writes took of the plan table of objects on a target with a name.
fn taken(
    rt: &impl Abort,
    alloc: Global,
    target: &str,
    objects: &[Declared],
    fails: &[u64],
) -> Result<String, Fail> {
    let target = builtin(target.as_bytes()).ok_or("a target")?;
    assert!(rt; target_ok(&target));
    assert!(rt; are_declared(objects));
    assert!(rt; objects.len() <= 65536);
    let shape = lay(alloc, &target, objects).map_err(|_| "memory")?;
    let mut sink = MemSink::of(alloc, 131072, 4096, fails).map_err(|_| "memory")?;
    let end = write_table(&target, objects, &shape, &mut sink);
    assert_eq!(rt; end.is_ok(), fails.is_empty());
    let text = String::from_str(alloc, str::from_utf8(sink.bytes())?)?;
    Ok(text)
}

fn line_at(rt: &impl Abort, text: &str, number: usize, line: &str) {
    assert_eq!(rt; text.lines().nth(number), Some(line));
}

fn has_line(rt: &impl Abort, text: &str, line: &str) {
    assert!(rt; text.lines().any(|each| each == line), "{line}");
}

#[test]
fn lists_each_word_of_a_number(rt: HostRuntime) -> Result<(), Fail> {
    let text = taken(&rt, rt.alloc(), "full64", &[object("n", "u64")?], &[])?;
    let wanted = "target full64
n u64 address 0 word 0 shift 0 lock_free true
n load one
n store one
n swap one
n compare_exchange one
n compare_exchange_weak one
n fetch_add one
n add one
n fetch_sub one
n sub one
n fetch_and one
n and one
n fetch_nand loop
n fetch_or one
n or one
n fetch_xor one
n xor one
n fetch_max one
n fetch_min one
n fetch_not one
n not one
n fetch_neg loop
n neg loop
n bit_set one
n bit_clear one
n bit_toggle one
n add_fetch one
n sub_fetch one
n and_fetch one
n nand_fetch loop
n or_fetch one
n xor_fetch one
";
    assert_eq!(rt; text.as_str(), wanted);
    Ok(())
}

#[test]
fn lists_each_word_of_a_bool(rt: HostRuntime) -> Result<(), Fail> {
    let text = taken(&rt, rt.alloc(), "cas32", &[object("ready", "bool")?], &[])?;
    let wanted = "target cas32
ready bool address 0 word 0 shift 32 lock_free true
ready load one
ready store one
ready swap loop
ready compare_exchange one
ready compare_exchange_weak one
ready fetch_and loop
ready and loop
ready fetch_nand loop
ready fetch_or loop
ready or loop
ready fetch_xor loop
ready xor loop
ready fetch_not loop
ready not loop
ready and_fetch loop
ready nand_fetch loop
ready or_fetch loop
ready xor_fetch loop
";
    assert_eq!(rt; text.as_str(), wanted);
    Ok(())
}

#[test]
fn lists_each_word_of_a_pointer(rt: HostRuntime) -> Result<(), Fail> {
    let text = taken(&rt, rt.alloc(), "section32", &[object("head", "ptr")?], &[])?;
    let wanted = "target section32
head ptr address 0 parts 2 first 0 lock 0 lock_free false
head load locked
head store locked
head swap locked
head compare_exchange locked
head compare_exchange_weak locked
head fetch_byte_add locked
head fetch_byte_sub locked
head fetch_and locked
head fetch_or locked
head fetch_xor locked
head bit_set locked
head bit_clear locked
head bit_toggle locked
";
    assert_eq!(rt; text.as_str(), wanted);
    Ok(())
}

#[test]
fn adds_in_one_step_at_the_top_only(rt: HostRuntime) -> Result<(), Fail> {
    let objects = numbered(rt.alloc(), 'c', "u8", 8)?;
    let text = taken(&rt, rt.alloc(), "word64", &objects, &[])?;
    assert_eq!(rt; text.lines().count(), 257);
    line_at(&rt, &text, 0, "target word64");
    line_at(
        &rt,
        &text,
        1,
        "c0 u8 address 0 word 0 shift 0 lock_free true",
    );
    line_at(
        &rt,
        &text,
        225,
        "c7 u8 address 7 word 0 shift 56 lock_free true",
    );
    has_line(&rt, &text, "c7 fetch_add one");
    has_line(&rt, &text, "c6 fetch_add loop");
    Ok(())
}

#[test]
fn locks_what_a_word_cannot_hold(rt: HostRuntime) -> Result<(), Fail> {
    let objects = [object("u", "u32")?, object("g", "u64")?];
    let text = taken(&rt, rt.alloc(), "cas32", &objects, &[])?;
    let front = "target cas32
u u32 address 0 word 0 shift 32 lock_free true
u load one
u store one
u swap loop
u compare_exchange one
u compare_exchange_weak one
u fetch_add loop
";
    assert!(rt; text.starts_with(front), "{text}");
    line_at(
        &rt,
        &text,
        33,
        "g u64 address 8 parts 2 first 2 lock 8 lock_free false",
    );
    line_at(&rt, &text, 34, "g load locked");
    assert_eq!(rt; text.lines().count(), 65);
    Ok(())
}

#[test]
fn objects_67_apart_share_a_lock(rt: HostRuntime) -> Result<(), Fail> {
    let objects = numbered(rt.alloc(), 'q', "u128", 68)?;
    let text = taken(&rt, rt.alloc(), "word64", &objects, &[])?;
    assert_eq!(rt; text.lines().count(), 2177);
    line_at(
        &rt,
        &text,
        1,
        "q0 u128 address 0 parts 2 first 0 lock 0 lock_free false",
    );
    line_at(
        &rt,
        &text,
        2145,
        "q67 u128 address 1072 parts 2 first 134 lock 0 lock_free false",
    );
    Ok(())
}

#[test]
fn lists_the_target_alone_without_objects(rt: HostRuntime) -> Result<(), Fail> {
    let text = taken(&rt, rt.alloc(), "word32", &[], &[])?;
    assert_eq!(rt; text.as_str(), "target word32\n");
    Ok(())
}

#[test]
fn keeps_the_lines_before_a_write_that_fails(rt: HostRuntime) -> Result<(), Fail> {
    let objects = [object("u", "u32")?, object("g", "u64")?];
    for (number, wanted) in [
        (1, ""),
        (2, "target cas32\n"),
        (
            3,
            "target cas32\nu u32 address 0 word 0 shift 32 lock_free true\n",
        ),
    ] {
        let text = taken(&rt, rt.alloc(), "cas32", &objects, &[number])?;
        assert_eq!(rt; text.as_str(), wanted, "at write {number}");
    }
    Ok(())
}

#[test]
fn tells_classes_and_locks(rt: HostRuntime) -> Result<(), Fail> {
    let target = builtin(b"word32").ok_or("a target")?;
    let objects = [object("a", "u8")?, object("b", "u64")?];
    assert!(rt; target_ok(&target));
    assert!(rt; are_declared(&objects));
    let shape = lay(rt.alloc(), &target, &objects).map_err(|_| "memory")?;
    for (number, call, class) in [
        (0, Call::Load, PathClass::One),
        (0, Call::Add(5, false), PathClass::Loop),
        (1, Call::Load, PathClass::Locked),
    ] {
        assert!(rt; shape_ok(&shape) && (number as usize) < shape.objects.len());
        assert!(rt; call_fits(shape.objects.at(number as usize).kind, &call));
        assert_eq!(rt; class_of(&shape, number, &call), class, "{number} {call:?}");
    }
    Ok(())
}

#[test]
fn locks_are_for_wide_kinds_and_sections(rt: HostRuntime) -> Result<(), Fail> {
    for (target, kind, wanted) in [
        ("full64", "u64", true),
        ("full64", "u128", false),
        ("word32", "u32", true),
        ("word32", "ptr", false),
        ("section32", "u8", false),
    ] {
        let target = builtin(target.as_bytes()).ok_or("a target")?;
        let kind = kind_of_word(kind.as_bytes()).ok_or("a kind")?;
        assert_eq!(rt; is_lock_free(&target, kind), wanted, "{target:?} {kind:?}");
    }
    Ok(())
}

#[test]
fn tells_the_plan_of_a_workload(rt: HostRuntime) -> Result<(), Fail> {
    let alloc = rt.alloc();
    let work = read_work(
        alloc,
        b"work 1\ntarget cas32\nobject u u32 0\nobject g u64 0",
    )?;
    let shape = lay(alloc, work.target(), work.objects()).map_err(|_| "memory")?;
    let mut sink = MemSink::of(alloc, 131072, 4096, &[])?;
    let end = write_plan(&work, &shape, &mut sink);
    assert!(rt; end.is_ok());
    let text = str::from_utf8(sink.bytes())?;
    assert_eq!(rt; text.lines().count(), 65);
    line_at(&rt, text, 0, "target cas32");
    line_at(
        &rt,
        text,
        1,
        "u u32 address 0 word 0 shift 32 lock_free true",
    );
    line_at(
        &rt,
        text,
        33,
        "g u64 address 8 parts 2 first 2 lock 8 lock_free false",
    );
    line_at(&rt, text, 34, "g load locked");
    Ok(())
}
