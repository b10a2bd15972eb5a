use super::*;
use std::process::Abort;
use std::test::*;

/// A kind by its word.
fn kind(word: &str) -> Kind {
    let (width, signed, class) = match word {
        "bool" => (Width::W1, false, Class::Bool),
        "i8" => (Width::W8, true, Class::Int),
        "i16" => (Width::W16, true, Class::Int),
        "i32" => (Width::W32, true, Class::Int),
        "i64" => (Width::W64, true, Class::Int),
        "i128" => (Width::W128, true, Class::Int),
        "u8" => (Width::W8, false, Class::Int),
        "u16" => (Width::W16, false, Class::Int),
        "u32" => (Width::W32, false, Class::Int),
        "u64" => (Width::W64, false, Class::Int),
        "u128" => (Width::W128, false, Class::Int),
        _ => (Width::W64, false, Class::Ptr),
    };
    Kind {
        width,
        signed,
        class,
    }
}

fn read(rt: &impl Abort, word: &str, text: &[u8]) -> Result<u128, ValueFault> {
    let kind = kind(word);
    assert!(rt; kind_ok(kind), "{word}");
    read_value(kind, text)
}

/// A value is printed as a text, and read back from it.
#[tactic(auto, using(crate::proofs::ValueTexts::value_text_le))]
fn has_text(rt: &impl Abort, word: &str, value: u128, text: &str) {
    let kind = kind(word);
    assert!(rt; kind_ok(kind), "{word}");
    assert!(rt; call_fits(kind, &Call::Store(value)), "{word} {text}");
    let mut line = LineBuf::new();
    line.push_value(kind, value);
    assert_eq!(rt; line.bytes(), text.as_bytes(), "{word} {text}");
    assert_eq!(rt;
        read_value(kind, text.as_bytes()),
        Ok(value),
        "{word} {text}"
    );
}

#[test]
fn each_kind_prints_its_ends(rt: HostRuntime) {
    has_text(&rt, "bool", 0, "false");
    has_text(&rt, "bool", 1, "true");
    has_text(&rt, "u8", 0, "0");
    has_text(&rt, "u8", 1, "1");
    has_text(&rt, "u8", 255, "255");
    has_text(&rt, "u16", 65535, "65535");
    has_text(&rt, "u32", 4294967295, "4294967295");
    has_text(&rt, "u64", 18446744073709551615, "18446744073709551615");
    has_text(
        &rt,
        "u128",
        u128::MAX,
        "340282366920938463463374607431768211455",
    );
    has_text(&rt, "i8", 127, "127");
    has_text(&rt, "i8", 128, "-128");
    has_text(&rt, "i8", 255, "-1");
    has_text(&rt, "i16", 32767, "32767");
    has_text(&rt, "i16", 32768, "-32768");
    has_text(&rt, "i16", 65531, "-5");
    has_text(&rt, "i32", 2147483648, "-2147483648");
    has_text(&rt, "i64", 9223372036854775807, "9223372036854775807");
    has_text(&rt, "i64", 9223372036854775808, "-9223372036854775808");
    has_text(
        &rt,
        "i128",
        u128::MAX / 2,
        "170141183460469231731687303715884105727",
    );
    has_text(
        &rt,
        "i128",
        u128::MAX / 2 + 1,
        "-170141183460469231731687303715884105728",
    );
    has_text(&rt, "ptr", 0, "0x0");
    has_text(&rt, "ptr", 0x10, "0x10");
    has_text(&rt, "ptr", 0x9fa, "0x9fa");
    has_text(&rt, "ptr", 0xffffffffffffffff, "0xffffffffffffffff");
}

#[test]
fn other_forms_are_bad_numbers(rt: HostRuntime) {
    for text in [
        "", "-", "-0", "007", "-07", "+1", "0X1", "0x1", "12x", "1-", "--1", " 1", "1 ", "1e3",
        "true",
    ] {
        assert_eq!(rt;
            read(&rt, "u8", text.as_bytes()),
            Err(ValueFault::BadNumber),
            "u8 {text}"
        );
        assert_eq!(rt;
            read(&rt, "i64", text.as_bytes()),
            Err(ValueFault::BadNumber),
            "i64 {text}"
        );
        assert_eq!(rt;
            read(&rt, "i128", text.as_bytes()),
            Err(ValueFault::BadNumber),
            "i128 {text}"
        );
    }
    for text in [
        "", "0x", "0x01", "0x00", "0X1", "0xAB", "0xg", "ff", "12", "-0x1", "0x-1", "x1",
    ] {
        assert_eq!(rt;
            read(&rt, "ptr", text.as_bytes()),
            Err(ValueFault::BadNumber),
            "ptr {text}"
        );
    }
    for text in [
        "", "0", "1", "True", "False", "TRUE", "tru", "truee", "false ",
    ] {
        assert_eq!(rt;
            read(&rt, "bool", text.as_bytes()),
            Err(ValueFault::BadNumber),
            "bool {text}"
        );
    }
}

#[test]
fn numbers_past_the_ends_are_out_of_range(rt: HostRuntime) {
    let rows = [
        ("u8", "256"),
        ("u8", "-1"),
        ("i8", "128"),
        ("i8", "-129"),
        ("u64", "18446744073709551616"),
        ("i64", "9223372036854775808"),
        ("i64", "-9223372036854775809"),
        ("u128", "340282366920938463463374607431768211456"),
        ("u128", "1000000000000000000000000000000000000000"),
        ("u128", "-1"),
        ("i128", "170141183460469231731687303715884105728"),
        ("i128", "-170141183460469231731687303715884105729"),
        ("i128", "-1000000000000000000000000000000000000000"),
        ("ptr", "0x10000000000000000"),
        ("ptr", "0x1000000000000000000000000000000000000000"),
    ];
    for (word, text) in rows {
        assert_eq!(rt;
            read(&rt, word, text.as_bytes()),
            Err(ValueFault::OutOfRange),
            "{word} {text}"
        );
    }
}

#[test]
fn long_texts_are_looked_at_to_their_end(rt: HostRuntime) -> Result<(), Fail> {
    let mut digits = vec![in rt.alloc(); b'9'; 100000]?;
    assert_eq!(rt; read(&rt, "u128", &digits), Err(ValueFault::OutOfRange));
    digits.push(b'x')?;
    assert_eq!(rt; read(&rt, "u128", &digits), Err(ValueFault::BadNumber));
    Ok(())
}

/// The value after a call on a value of a kind, and the reply.
fn step(rt: &impl Abort, word: &str, value: u128, call: Call) -> (u128, Reply) {
    let kind = kind(word);
    assert!(rt; kind_ok(kind), "{word}");
    assert!(rt; call_fits(kind, &Call::Store(value)), "{word} {value}");
    assert!(rt; call_fits(kind, &call), "{word} {call:?}");
    (after(kind, &call, value), answer(kind, &call, value))
}

#[test]
fn calls_leave_and_reply_as_the_table_says(rt: HostRuntime) {
    let rows = [
        ("u64", 7, Call::Load, 7, Reply::Value(7)),
        ("u8", 7, Call::Store(9), 9, Reply::Unit),
        ("u8", 7, Call::Swap(9), 9, Reply::Value(7)),
        ("u8", 250, Call::Add(10, false), 4, Reply::Value(250)),
        ("u8", 250, Call::Add(10, true), 4, Reply::Unit),
        ("u8", 200, Call::Sub(201, false), 255, Reply::Value(200)),
        (
            "u128",
            u128::MAX,
            Call::Add(1, false),
            0,
            Reply::Value(u128::MAX),
        ),
        ("u128", 0, Call::Sub(1, false), u128::MAX, Reply::Value(0)),
        (
            "ptr",
            0xffffffffffffffff,
            Call::Add(1, false),
            0,
            Reply::Value(0xffffffffffffffff),
        ),
        ("u8", 12, Call::And(10, false), 8, Reply::Value(12)),
        ("u8", 12, Call::Nand(10), 247, Reply::Value(12)),
        ("bool", 1, Call::Nand(1), 0, Reply::Value(1)),
        ("u8", 12, Call::Or(10, false), 14, Reply::Value(12)),
        ("u8", 12, Call::Xor(10, false), 6, Reply::Value(12)),
        ("i16", 65531, Call::Max(3), 3, Reply::Value(65531)),
        ("i16", 3, Call::Min(32768), 32768, Reply::Value(3)),
        ("u16", 65531, Call::Max(3), 65531, Reply::Value(65531)),
        ("i8", 127, Call::Max(128), 127, Reply::Value(127)),
        (
            "i128",
            u128::MAX,
            Call::Min(0),
            u128::MAX,
            Reply::Value(u128::MAX),
        ),
        ("bool", 1, Call::Not(false), 0, Reply::Value(1)),
        ("u8", 12, Call::Not(true), 243, Reply::Unit),
        ("i8", 128, Call::Neg(false), 128, Reply::Value(128)),
        ("i8", 1, Call::Neg(false), 255, Reply::Value(1)),
        ("u32", 0, Call::Neg(true), 0, Reply::Unit),
        ("u8", 0, Call::BitSet(3), 8, Reply::Bit(false)),
        ("u8", 8, Call::BitSet(11), 8, Reply::Bit(true)),
        (
            "u128",
            u128::MAX - 1,
            Call::BitClear(127),
            u128::MAX / 2 - 1,
            Reply::Bit(true),
        ),
        ("i16", 4, Call::BitToggle(2), 0, Reply::Bit(true)),
        ("u8", 4, Call::Cas(3, 9), 4, Reply::Failed(4)),
        ("u8", 4, Call::Cas(4, 9), 9, Reply::Done(4)),
        ("u8", 9, Call::CasWeak(9, 4), 4, Reply::Done(9)),
        ("u8", 250, Call::AddFetch(10), 4, Reply::Value(4)),
        ("u128", u128::MAX, Call::AddFetch(1), 0, Reply::Value(0)),
        ("i8", 128, Call::SubFetch(1), 127, Reply::Value(127)),
        ("i16", 0, Call::SubFetch(32768), 32768, Reply::Value(32768)),
        ("u8", 12, Call::AndFetch(10), 8, Reply::Value(8)),
        ("u8", 12, Call::NandFetch(10), 247, Reply::Value(247)),
        ("u8", 12, Call::OrFetch(10), 14, Reply::Value(14)),
        ("u8", 12, Call::XorFetch(10), 6, Reply::Value(6)),
        ("bool", 1, Call::XorFetch(1), 0, Reply::Value(0)),
        ("bool", 1, Call::NandFetch(1), 0, Reply::Value(0)),
    ];
    for (word, value, call, left, reply) in rows {
        assert_eq!(rt;
            step(&rt, word, value, call),
            (left, reply),
            "{word} {value} {call:?}"
        );
    }
}

#[test]
fn kinds_lack_the_calls_of_others(rt: HostRuntime) {
    let rows = [
        ("u8", Call::Store(256), false),
        ("i8", Call::Cas(0, 256), false),
        ("bool", Call::Swap(2), false),
        ("bool", Call::Add(1, false), false),
        ("bool", Call::And(1, true), true),
        ("bool", Call::Max(1), false),
        ("bool", Call::BitSet(0), false),
        ("ptr", Call::Add(1, false), true),
        ("ptr", Call::Add(1, true), false),
        ("ptr", Call::Or(1, true), false),
        ("ptr", Call::Nand(1), false),
        ("ptr", Call::Not(false), false),
        ("ptr", Call::BitClear(64), true),
        ("u8", Call::AddFetch(256), false),
        ("bool", Call::SubFetch(1), false),
        ("bool", Call::NandFetch(1), true),
        ("ptr", Call::AddFetch(1), false),
        ("ptr", Call::SubFetch(1), false),
        ("ptr", Call::AndFetch(1), false),
        ("ptr", Call::NandFetch(1), false),
        ("ptr", Call::OrFetch(1), false),
        ("ptr", Call::XorFetch(1), false),
        ("i64", Call::BitToggle(4294967295), true),
    ];
    for (word, call, fits) in rows {
        let kind = kind(word);
        assert!(rt; kind_ok(kind), "{word}");
        assert_eq!(rt; call_fits(kind, &call), fits, "{word} {call:?}");
    }
}

/// An operation has a word, and is one of integers, of bools and of pointers.
fn has_word(rt: &impl Abort, operation: Operation, word: &str, classes: (bool, bool, bool)) {
    assert_eq!(rt; operation_word(operation), word);
    assert_eq!(rt;
        operation_of_word(word.as_bytes()),
        Some(operation),
        "{word}"
    );
    let int = has_operation(Class::Int, operation);
    let flag = has_operation(Class::Bool, operation);
    let ptr = has_operation(Class::Ptr, operation);
    assert_eq!(rt; (int, flag, ptr), classes, "{word}");
}

#[test]
fn each_operation_has_its_word(rt: HostRuntime) {
    let all = (true, true, true);
    let logic = (true, true, false);
    let int = (true, false, false);
    let bit = (true, false, true);
    let ptr = (false, false, true);
    has_word(&rt, Operation::Load, "load", all);
    has_word(&rt, Operation::Store, "store", all);
    has_word(&rt, Operation::Swap, "swap", all);
    has_word(&rt, Operation::CompareExchange, "compare_exchange", all);
    has_word(
        &rt,
        Operation::CompareExchangeWeak,
        "compare_exchange_weak",
        all,
    );
    has_word(&rt, Operation::FetchAdd, "fetch_add", int);
    has_word(&rt, Operation::Add, "add", int);
    has_word(&rt, Operation::FetchSub, "fetch_sub", int);
    has_word(&rt, Operation::Sub, "sub", int);
    has_word(&rt, Operation::FetchAnd, "fetch_and", all);
    has_word(&rt, Operation::And, "and", logic);
    has_word(&rt, Operation::FetchNand, "fetch_nand", logic);
    has_word(&rt, Operation::FetchOr, "fetch_or", all);
    has_word(&rt, Operation::Or, "or", logic);
    has_word(&rt, Operation::FetchXor, "fetch_xor", all);
    has_word(&rt, Operation::Xor, "xor", logic);
    has_word(&rt, Operation::FetchMax, "fetch_max", int);
    has_word(&rt, Operation::FetchMin, "fetch_min", int);
    has_word(&rt, Operation::FetchNot, "fetch_not", logic);
    has_word(&rt, Operation::Not, "not", logic);
    has_word(&rt, Operation::FetchNeg, "fetch_neg", int);
    has_word(&rt, Operation::Neg, "neg", int);
    has_word(&rt, Operation::BitSet, "bit_set", bit);
    has_word(&rt, Operation::BitClear, "bit_clear", bit);
    has_word(&rt, Operation::BitToggle, "bit_toggle", bit);
    has_word(&rt, Operation::AddFetch, "add_fetch", int);
    has_word(&rt, Operation::SubFetch, "sub_fetch", int);
    has_word(&rt, Operation::AndFetch, "and_fetch", logic);
    has_word(&rt, Operation::NandFetch, "nand_fetch", logic);
    has_word(&rt, Operation::OrFetch, "or_fetch", logic);
    has_word(&rt, Operation::XorFetch, "xor_fetch", logic);
    has_word(&rt, Operation::FetchByteAdd, "fetch_byte_add", ptr);
    has_word(&rt, Operation::FetchByteSub, "fetch_byte_sub", ptr);
    for word in [
        "",
        "Load",
        "nand",
        "fetch",
        "fetch_",
        "fetch_ad",
        "fetch_byte_or",
        "bit_test",
        "compare_exchange_weakly",
        "end",
    ] {
        assert_eq!(rt; operation_of_word(word.as_bytes()), None, "{word}");
    }
}

#[test]
fn calls_have_the_words_of_their_kind(rt: HostRuntime) {
    let rows = [
        ("u8", Call::Load, "load"),
        ("u8", Call::Add(1, false), "fetch_add"),
        ("u8", Call::Add(1, true), "add"),
        ("ptr", Call::Add(1, false), "fetch_byte_add"),
        ("ptr", Call::Sub(1, false), "fetch_byte_sub"),
        ("i128", Call::Sub(1, true), "sub"),
        ("bool", Call::And(1, true), "and"),
        ("ptr", Call::Or(1, false), "fetch_or"),
        ("bool", Call::Nand(1), "fetch_nand"),
        ("i16", Call::Min(1), "fetch_min"),
        ("bool", Call::Not(true), "not"),
        ("i8", Call::Neg(false), "fetch_neg"),
        ("ptr", Call::CasWeak(0, 16), "compare_exchange_weak"),
        ("ptr", Call::BitToggle(3), "bit_toggle"),
        ("i8", Call::SubFetch(1), "sub_fetch"),
        ("bool", Call::OrFetch(1), "or_fetch"),
    ];
    for (word, call, want) in rows {
        let kind = kind(word);
        assert!(rt; kind_ok(kind), "{word}");
        assert!(rt; call_fits(kind, &call), "{word} {call:?}");
        assert_eq!(rt; call_word(kind, &call), want, "{word} {call:?}");
    }
}

#[test]
fn each_kind_has_its_word(rt: HostRuntime) {
    for word in [
        "bool", "i8", "i16", "i32", "i64", "i128", "u8", "u16", "u32", "u64", "u128", "ptr",
    ] {
        let kind = kind(word);
        assert!(rt; kind_ok(kind), "{word}");
        assert_eq!(rt; kind_word(kind), word);
        assert_eq!(rt; kind_of_word(word.as_bytes()), Some(kind), "{word}");
    }
    assert_eq!(rt; kind_of_word(b"isize"), Some(kind("i64")));
    assert_eq!(rt; kind_of_word(b"usize"), Some(kind("u64")));
    for word in ["", "Bool", "u1", "u256", "f32", "u", "size"] {
        assert_eq!(rt; kind_of_word(word.as_bytes()), None, "{word}");
    }
}

#[test]
fn each_order_has_its_word(rt: HostRuntime) {
    let rows = [
        (Order::Relaxed, "relaxed"),
        (Order::Acquire, "acquire"),
        (Order::Release, "release"),
        (Order::AcqRel, "acq_rel"),
        (Order::SeqCst, "seq_cst"),
    ];
    for (order, word) in rows {
        assert_eq!(rt; order_word(order), word);
        assert_eq!(rt; order_of_word(word.as_bytes()), Some(order), "{word}");
    }
    for word in ["", "Relaxed", "acqrel", "consume", "seq_cs"] {
        assert_eq!(rt; order_of_word(word.as_bytes()), None, "{word}");
    }
}

#[test]
fn calls_accept_their_orders(rt: HostRuntime) {
    let rows = [
        (Call::Load, Order::Acquire, None, true),
        (Call::Load, Order::Release, None, false),
        (Call::Load, Order::AcqRel, None, false),
        (Call::Load, Order::SeqCst, Some(Order::SeqCst), false),
        (Call::Store(1), Order::Release, None, true),
        (Call::Store(1), Order::Acquire, None, false),
        (Call::Store(1), Order::AcqRel, None, false),
        (Call::Swap(1), Order::AcqRel, None, true),
        (Call::Add(1, true), Order::Relaxed, None, true),
        (
            Call::Add(1, true),
            Order::Relaxed,
            Some(Order::Relaxed),
            false,
        ),
        (Call::Cas(1, 2), Order::AcqRel, Some(Order::Acquire), true),
        (Call::Cas(1, 2), Order::Relaxed, Some(Order::SeqCst), true),
        (Call::Cas(1, 2), Order::SeqCst, Some(Order::Release), false),
        (
            Call::CasWeak(1, 2),
            Order::SeqCst,
            Some(Order::AcqRel),
            false,
        ),
        (Call::CasWeak(1, 2), Order::SeqCst, None, false),
    ];
    for (call, success, failure, fits) in rows {
        assert_eq!(rt;
            order_fits(&call, success, failure),
            fits,
            "{call:?} {success:?} {failure:?}"
        );
    }
}
