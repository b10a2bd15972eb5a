use super::*;
use op_table::{Call, Reply, call_fits};
use std::process::Abort;
use std::test::*;

/// A call on a value of a type, both ways by bits, leaves a value and replies.
fn leaves<V: Scalar>(rt: &impl Abort, start: u128, call: Call, next: u128, reply: Reply) {
    assert!(rt; call_fits(V::KIND, &Call::Store(start)), "{start}");
    assert!(rt; call_fits(V::KIND, &call), "{call:?}");
    let (after, answer) = V::from_bits(start).apply(&call);
    assert_eq!(rt; after.to_bits(), next, "{start} {call:?}");
    assert_eq!(rt; answer, reply, "{start} {call:?}");
}

#[test]
fn sums_wrap(rt: HostRuntime) {
    leaves::<u8>(&rt, 200, Call::Add(100, false), 44, Reply::Value(200));
    leaves::<u16>(&rt, 1, Call::Sub(2, false), 65535, Reply::Value(1));
    leaves::<u32>(&rt, 4294967295, Call::Add(2, true), 1, Reply::Unit);
    leaves::<u64>(
        &rt,
        0,
        Call::Sub(1, true),
        18446744073709551615,
        Reply::Unit,
    );
    leaves::<u128>(
        &rt,
        340282366920938463463374607431768211455,
        Call::Add(1, false),
        0,
        Reply::Value(340282366920938463463374607431768211455),
    );
    // 127 and 1 make -128, and -32768 less 1 makes 32767.
    leaves::<i8>(&rt, 127, Call::Add(1, false), 128, Reply::Value(127));
    leaves::<i16>(&rt, 32768, Call::Sub(1, true), 32767, Reply::Unit);
    leaves::<i32>(
        &rt,
        2147483647,
        Call::Add(1, false),
        2147483648,
        Reply::Value(2147483647),
    );
    // -1 and -1 make -2.
    leaves::<i64>(
        &rt,
        18446744073709551615,
        Call::Add(18446744073709551615, true),
        18446744073709551614,
        Reply::Unit,
    );
    leaves::<i128>(
        &rt,
        0,
        Call::Sub(1, false),
        340282366920938463463374607431768211455,
        Reply::Value(0),
    );
}

#[test]
fn new_values_are_answered(rt: HostRuntime) {
    leaves::<u8>(&rt, 250, Call::AddFetch(10), 4, Reply::Value(4));
    leaves::<i8>(&rt, 128, Call::SubFetch(1), 127, Reply::Value(127));
    leaves::<i16>(&rt, 32767, Call::AddFetch(1), 32768, Reply::Value(32768));
    leaves::<u128>(
        &rt,
        340282366920938463463374607431768211455,
        Call::AddFetch(1),
        0,
        Reply::Value(0),
    );
    leaves::<u8>(&rt, 12, Call::NandFetch(10), 247, Reply::Value(247));
    leaves::<i32>(&rt, 12, Call::AndFetch(10), 8, Reply::Value(8));
    leaves::<i64>(&rt, 12, Call::OrFetch(10), 14, Reply::Value(14));
    leaves::<bool>(&rt, 1, Call::XorFetch(1), 0, Reply::Value(0));
}

#[test]
fn addresses_count_bytes_and_wrap(rt: HostRuntime) {
    leaves::<Addr>(&rt, 4096, Call::Add(16, false), 4112, Reply::Value(4096));
    leaves::<Addr>(
        &rt,
        15,
        Call::Sub(16, false),
        18446744073709551615,
        Reply::Value(15),
    );
    leaves::<Addr>(&rt, 4105, Call::And(4096, false), 4096, Reply::Value(4105));
    leaves::<Addr>(&rt, 4096, Call::BitSet(64), 4097, Reply::Bit(false));
    leaves::<Addr>(&rt, 4097, Call::CasWeak(4097, 0), 0, Reply::Done(4097));
}

#[test]
fn the_least_number_is_its_own_negative(rt: HostRuntime) {
    leaves::<i8>(&rt, 128, Call::Neg(false), 128, Reply::Value(128));
    leaves::<i8>(&rt, 255, Call::Neg(true), 1, Reply::Unit);
    leaves::<u8>(&rt, 1, Call::Neg(false), 255, Reply::Value(1));
    leaves::<i128>(
        &rt,
        170141183460469231731687303715884105728,
        Call::Neg(true),
        170141183460469231731687303715884105728,
        Reply::Unit,
    );
}

#[test]
fn signed_types_have_a_signed_order(rt: HostRuntime) {
    // -5 is 65531, and -32768 is 32768.
    leaves::<i16>(&rt, 65531, Call::Max(3), 3, Reply::Value(65531));
    leaves::<i16>(&rt, 3, Call::Min(32768), 32768, Reply::Value(3));
    leaves::<i16>(&rt, 3, Call::Max(65531), 3, Reply::Value(3));
    leaves::<i64>(
        &rt,
        0,
        Call::Min(18446744073709551615),
        18446744073709551615,
        Reply::Value(0),
    );
    leaves::<u16>(&rt, 65531, Call::Max(3), 65531, Reply::Value(65531));
    leaves::<u16>(&rt, 65531, Call::Min(3), 3, Reply::Value(65531));
}

#[test]
fn logic_works_on_all_bits(rt: HostRuntime) {
    // 1100 and 1010 make 1000.
    leaves::<u8>(&rt, 12, Call::Nand(10), 247, Reply::Value(12));
    leaves::<i8>(&rt, 12, Call::And(10, false), 8, Reply::Value(12));
    leaves::<u8>(&rt, 12, Call::Or(10, true), 14, Reply::Unit);
    leaves::<i32>(&rt, 12, Call::Xor(10, false), 6, Reply::Value(12));
    leaves::<i16>(&rt, 0, Call::Not(false), 65535, Reply::Value(0));
    leaves::<bool>(&rt, 1, Call::Nand(1), 0, Reply::Value(1));
    leaves::<bool>(&rt, 1, Call::Not(true), 0, Reply::Unit);
    leaves::<bool>(&rt, 1, Call::Xor(1, false), 0, Reply::Value(1));
    leaves::<bool>(&rt, 0, Call::Or(1, true), 1, Reply::Unit);
    leaves::<bool>(&rt, 1, Call::And(0, false), 0, Reply::Value(1));
}

#[test]
fn positions_count_modulo_the_width(rt: HostRuntime) {
    leaves::<u8>(&rt, 0, Call::BitSet(3), 8, Reply::Bit(false));
    leaves::<u8>(&rt, 8, Call::BitSet(11), 8, Reply::Bit(true));
    leaves::<i8>(&rt, 128, Call::BitClear(7), 0, Reply::Bit(true));
    leaves::<i8>(&rt, 0, Call::BitToggle(15), 128, Reply::Bit(false));
    leaves::<u32>(&rt, 5, Call::BitClear(4294967295), 5, Reply::Bit(false));
    leaves::<u128>(
        &rt,
        0,
        Call::BitSet(127),
        170141183460469231731687303715884105728,
        Reply::Bit(false),
    );
}

#[test]
fn exchanges_compare_the_whole_value(rt: HostRuntime) {
    leaves::<u8>(&rt, 7, Call::Cas(7, 9), 9, Reply::Done(7));
    leaves::<u8>(&rt, 7, Call::Cas(8, 9), 7, Reply::Failed(7));
    leaves::<i64>(
        &rt,
        18446744073709551615,
        Call::CasWeak(18446744073709551615, 5),
        5,
        Reply::Done(18446744073709551615),
    );
    leaves::<bool>(&rt, 0, Call::CasWeak(1, 1), 0, Reply::Failed(0));
    leaves::<bool>(&rt, 0, Call::Swap(1), 1, Reply::Value(0));
    leaves::<u64>(&rt, 6, Call::Store(7), 7, Reply::Unit);
    leaves::<i32>(
        &rt,
        4294967295,
        Call::Load,
        4294967295,
        Reply::Value(4294967295),
    );
}

/// A call of the logic types, and one of the integers alone, through those bounds.
fn inverted<V: LogicScalar>(value: V) -> V {
    value.apply(&Call::Not(true)).0
}

fn negated<V: IntScalar>(value: V) -> V {
    value.apply(&Call::Neg(true)).0
}

#[test]
fn bounds_give_their_calls(rt: HostRuntime) {
    assert!(rt; !inverted(true));
    assert_eq!(rt; inverted(5_u8), 250);
    assert_eq!(rt; negated(-128_i8), -128);
    assert_eq!(rt; negated(5_i128), -5);
    assert_eq!(rt; negated(1_u32), 4294967295);
}
