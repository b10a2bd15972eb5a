//! Calls on objects of every length, by number.

use crate::trials::{
    Position, all_of, attempt, attempt_at_once, exchange_at_once, exchange_by_four, give,
    give_many, open, right_calls, row_of, rows_right, swap_position, told, try_beside,
};
use crate::{Block64, BlockCall};
use std::test::*;

#[test]
fn blocks_have_1_to_64_bytes(rt: HostRuntime) -> Result<(), Fail> {
    let bytes = [7; 65];
    assert!(rt; Block64::of(&bytes[..0]).is_none(), "no byte");
    assert!(rt; Block64::of(&bytes).is_none(), "65 bytes");
    let one = Block64::of(&bytes[..1]).ok_or("one byte")?;
    assert_eq!(rt; one.bytes(), [7].as_slice(), "one byte");
    Ok(())
}

#[test]
fn each_length_has_each_call(rt: HostRuntime) {
    for len in 1..65 {
        assert_eq!(rt;
            right_calls(&rt, rt.alloc(), len),
            Some(true),
            "{len} bytes"
        );
    }
}

#[test]
fn two_objects_have_one_lock(rt: HostRuntime) -> Result<(), Fail> {
    let small = Block64::of(&[1, 2, 3]).ok_or("three bytes")?;
    let nines = Block64::of(&[9, 9, 9]).ok_or("three bytes")?;
    let fours = Block64::of(&[4, 4, 4]).ok_or("three bytes")?;
    let zeros = all_of(0, 64).ok_or("64 bytes")?;
    let rows = [
        row_of(0, BlockCall::Load, b'o', small),
        row_of(0, BlockCall::CompareExchange(small, nines), b'd', small),
        row_of(0, BlockCall::CompareExchange(small, fours), b'f', nines),
        row_of(1, BlockCall::Load, b'o', zeros),
    ];
    let right = rows_right(&rt, rt.alloc(), &[small, zeros], &rows);
    assert_eq!(rt; right, Some(true), "each row");
    let none = [row_of(2, BlockCall::Load, b'o', small)];
    let right = rows_right(&rt, rt.alloc(), &[small, zeros], &none);
    assert_eq!(rt; right, Some(false), "no object");
    Ok(())
}

#[test]
fn locks_are_of_numbers_modulo_them(rt: HostRuntime) -> Result<(), Fail> {
    let zero = all_of(0, 1).ok_or("a byte")?;
    let (blocks, mut root) = open(rt.alloc(), &[zero; 68], 67).ok_or("it opens")?;
    let mut p = give(&blocks, &mut root).ok_or("a number is left")?;
    let mut q = give(&blocks, &mut root).ok_or("a number is left")?;
    let (tried, made) = try_beside(&blocks, &mut p, &mut q, 0, 67).ok_or("a free lock")?;
    assert!(rt; tried.is_none(), "object 67 has lock 0");
    assert!(rt; told(Some(made), b'o', &[0]), "the load under the lock");
    let (tried, _) = try_beside(&blocks, &mut p, &mut q, 0, 66).ok_or("a free lock")?;
    assert!(rt; told(tried, b'o', &[0]), "object 66 has lock 66");
    root.take_back(&blocks, p);
    root.take_back(&blocks, q);
    Ok(())
}

#[test]
fn no_reply_is_torn(rt: HostRuntime) -> Result<(), Fail> {
    let zeros = all_of(0, 64).ok_or("64 bytes")?;
    let ones = all_of(1, 64).ok_or("64 bytes")?;
    let twos = all_of(2, 64).ok_or("64 bytes")?;
    let three = all_of(3, 24).ok_or("24 bytes")?;
    let (blocks, mut root) = open(rt.alloc(), &[three, zeros], 1).ok_or("it opens")?;
    let p = give(&blocks, &mut root).ok_or("a number is left")?;
    let q = give(&blocks, &mut root).ok_or("a number is left")?;
    let ((p, torn), (q, other)) = exchange_at_once(&rt, &blocks, p, q, ones, twos, 1);
    assert_eq!(rt; (torn, other), (0, 0), "by call");
    let ((p, torn), (q, other)) = attempt_at_once(&rt, &blocks, p, q, three, three);
    assert_eq!(rt; (torn, other), (0, 0), "by try_call");
    root.take_back(&blocks, p);
    root.take_back(&blocks, q);
    let left = attempt(&blocks, root.as_pass(), 0, BlockCall::Load);
    assert!(rt; told(left, b'o', three.bytes()), "no lock is left held");
    Ok(())
}

#[test]
fn only_65535_numbers_are_given(rt: HostRuntime) -> Result<(), Fail> {
    let zero = all_of(0, 1).ok_or("a byte")?;
    let (blocks, mut root) = open(rt.alloc(), &[zero], 1).ok_or("it opens")?;
    assert_eq!(rt; give_many(&blocks, &mut root, 65536), 65535, "the numbers");
    assert!(rt; give(&blocks, &mut root).is_none(), "one more");
    Ok(())
}

#[test]
fn struct_of_three_fields_is_kept(rt: HostRuntime) -> Result<(), Fail> {
    let start = Position { x: 1, y: 2, z: 3 };
    let block = start.to_block().ok_or("24 bytes")?;
    let (blocks, mut root) = open(rt.alloc(), &[block], 1).ok_or("it opens")?;
    let mut p = give(&blocks, &mut root).ok_or("a number is left")?;
    let next = Position {
        x: 258,
        y: u64::MAX,
        z: 0,
    };
    assert_eq!(rt;
        swap_position(&rt, &blocks, &mut p, 0, next),
        Some(start),
        "the start"
    );
    assert_eq!(rt;
        swap_position(&rt, &blocks, &mut p, 0, start),
        Some(next),
        "the next"
    );
    root.take_back(&blocks, p);
    Ok(())
}

#[test]
fn three_words_agree_in_four_threads(rt: HostRuntime) -> Result<(), Fail> {
    let zero = all_of(0, 24).ok_or("24 bytes")?;
    let (blocks, mut root) = open(rt.alloc(), &[zero], 1).ok_or("it opens")?;
    let p = give(&blocks, &mut root).ok_or("a number is left")?;
    let q = give(&blocks, &mut root).ok_or("a number is left")?;
    let r = give(&blocks, &mut root).ok_or("a number is left")?;
    let s = give(&blocks, &mut root).ok_or("a number is left")?;
    let one = all_of(1, 24).ok_or("24 bytes")?;
    let two = all_of(2, 24).ok_or("24 bytes")?;
    let torn = exchange_by_four(&rt, &blocks, p, q, r, s, one, two);
    assert_eq!(rt; torn, 0, "threads with a torn reply");
    Ok(())
}
