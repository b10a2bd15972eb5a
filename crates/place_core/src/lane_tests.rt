//! Lanes beside their neighbours, and values in parts, by example.

use super::*;
use op_table::{Call, Class, Kind, Reply, Width, after, answer, bits, call_fits, kind_ok};
use std::process::Abort;
use std::test::*;

const U8: Kind = Kind {
    width: Width::W8,
    signed: false,
    class: Class::Int,
};

/// The word after a call that reads a lane and puts another value there, and the call's reply; None where there is no
/// such lane or call.
fn by_hand(word: u64, kind: Kind, shift: u32, call: &Call) -> Option<(u64, Reply)> {
    let width = bits(kind.width);
    if 0 < width && shift <= 64 && shift + width <= 64 && kind_ok(kind) && call_fits(kind, call) {
        let old = lane_bits(word, shift, width);
        let new = after(kind, call, old);
        Some((put_lane(word, shift, width, new), answer(kind, call, old)))
    } else {
        None
    }
}

/// The word after a step.
fn stepped(op: WordOp, word: u64) -> u64 {
    match op {
        WordOp::Load => word,
        WordOp::Store(k) => k,
        WordOp::Swap(k) => k,
        WordOp::Cas(e, n) => if word == e { n } else { word },
        WordOp::Add(k) => word.wrapping_add(k),
        WordOp::Sub(k) => word.wrapping_sub(k),
        WordOp::And(k) => word & k,
        WordOp::Or(k) => word | k,
        WordOp::Xor(k) => word ^ k,
        WordOp::Max(k) => word.max(k),
        WordOp::Min(k) => word.min(k),
    }
}

/// The word after the step that makes a call on a lane beside others; None where there is no such lane, call or step.
fn by_step(word: u64, kind: Kind, shift: u32, call: &Call) -> Option<u64> {
    let width = bits(kind.width);
    if shift <= 64 && shift + width <= 64 && kind_ok(kind) && call_fits(kind, call) {
        let op = op_for(kind, shift, width, false, call)?;
        Some(stepped(op, word))
    } else {
        None
    }
}

#[test]
fn sum_wraps_in_its_lane(rt: HostRuntime) {
    let call = Call::Add(10, false);
    assert_eq!(rt;
        by_hand(0x07FA, U8, 0, &call),
        Some((0x0704, Reply::Value(250)))
    );
    assert_eq!(rt; by_step(0x07FA, U8, 0, &call), None);
    assert_eq!(rt;
        by_hand(0x07FA, U8, 0, &Call::AddFetch(10)),
        Some((0x0704, Reply::Value(4)))
    );
}

#[test]
fn carry_at_the_top_falls_out(rt: HostRuntime) {
    let call = Call::Add(1, false);
    let word = 0xFF06_0504_0302_01FF;
    assert_eq!(rt; by_step(word, U8, 56, &call), Some(0x0006_0504_0302_01FF));
    assert_eq!(rt;
        by_hand(word, U8, 56, &call),
        Some((0x0006_0504_0302_01FF, Reply::Value(255)))
    );
}

#[test]
fn masks_touch_no_neighbour(rt: HostRuntime) {
    assert_eq!(rt; by_step(0x070C, U8, 0, &Call::And(10, false)), Some(0x0708));
    assert_eq!(rt; by_step(0x070C, U8, 0, &Call::Or(10, false)), Some(0x070E));
    assert_eq!(rt; by_step(0x070C, U8, 0, &Call::Xor(10, false)), Some(0x0706));
    assert_eq!(rt; by_step(0x070C, U8, 0, &Call::Not(false)), Some(0x07F3));
    assert_eq!(rt; by_step(0x070C, U8, 8, &Call::BitClear(9)), Some(0x050C));
}

#[test]
fn hands_and_masks_agree(rt: HostRuntime) {
    assert_eq!(rt;
        by_hand(0x070C, U8, 0, &Call::And(10, false)),
        Some((0x0708, Reply::Value(12)))
    );
    assert_eq!(rt;
        by_hand(0x070C, U8, 0, &Call::Nand(10)),
        Some((0x07F7, Reply::Value(12)))
    );
    assert_eq!(rt;
        by_hand(0x070C, U8, 0, &Call::NandFetch(10)),
        Some((0x07F7, Reply::Value(247)))
    );
    assert_eq!(rt;
        by_hand(0x070C, U8, 8, &Call::BitClear(9)),
        Some((0x050C, Reply::Bit(true)))
    );
}

#[test]
fn four_parts_are_the_value(rt: HostRuntime) {
    let value = 0x0011_2233_4455_6677_8899_AABB_CCDD_EEFF;
    assert_eq!(rt; part_at(32, 0, value), 0xCCDD_EEFF);
    assert_eq!(rt; part_at(32, 1, value), 0x8899_AABB);
    assert_eq!(rt; part_at(32, 2, value), 0x4455_6677);
    assert_eq!(rt; part_at(32, 3, value), 0x0011_2233);
    let first = with_part(32, 0, 0, 0xCCDD_EEFF);
    let second = with_part(32, 1, first, 0x8899_AABB);
    let third = with_part(32, 2, second, 0x4455_6677);
    assert_eq!(rt; with_part(32, 3, third, 0x0011_2233), value);
}

#[test]
fn two_parts_are_the_value(rt: HostRuntime) {
    let value = 0x0011_2233_4455_6677_8899_AABB_CCDD_EEFF;
    assert_eq!(rt; part_at(64, 0, value), 0x8899_AABB_CCDD_EEFF);
    assert_eq!(rt; part_at(64, 1, value), 0x0011_2233_4455_6677);
    let first = with_part(64, 0, 0, 0x8899_AABB_CCDD_EEFF);
    assert_eq!(rt; with_part(64, 1, first, 0x0011_2233_4455_6677), value);
}
