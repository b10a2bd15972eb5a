//! Targets and their texts, with values from outside.

ghost use Rattle.target_desc.specs.Target.{IsVersion};

use super::*;
use line_words::Words;
use op_table::{LineBuf, StepSet};
use std::process::Abort;

const NONE: StepSet = StepSet {
    swap: false,
    add: false,
    bits: false,
    order: false,
};

const ALL: StepSet = StepSet {
    swap: true,
    add: true,
    bits: true,
    order: true,
};

fn target(word_bits: u32, packed: bool, steps: StepSet, locks: u32, section: bool) -> Target {
    Target {
        word_bits,
        packed,
        steps,
        locks,
        section,
        big: false,
    }
}

/// A packed target whose lowest addresses lie highest.
fn big(word_bits: u32, steps: StepSet) -> Target {
    Target {
        big: true,
        ..target(word_bits, true, steps, 67, false)
    }
}

/// A target is printed as a text, and read back from it.
fn has_text(rt: &impl Abort, target: &Target, text: &str) {
    assert!(rt; target_ok(target), "{text}");
    let mut line = LineBuf::new();
    push_target(&mut line, target);
    assert_eq!(rt; line.bytes(), text.as_bytes(), "{text}");
    assert_eq!(rt; read_target(text.as_bytes(), 2), Ok(*target), "{text}");
    if is_of_version(target, 1) {
        assert_eq!(rt; read_target(text.as_bytes(), 1), Ok(*target), "{text}");
    }
}

#[test]
fn five_targets_have_names(rt: HostRuntime) {
    for (name, description, wanted) in [
        (
            "full64",
            "64 apart swap+add+bits+order 67 locks",
            target(64, false, ALL, 67, false),
        ),
        (
            "word64",
            "64 packed swap+add+bits+order 67 locks",
            target(64, true, ALL, 67, false),
        ),
        (
            "word32",
            "32 packed swap+add+bits+order 67 locks",
            target(32, true, ALL, 67, false),
        ),
        (
            "cas32",
            "32 packed none 67 locks",
            target(32, true, NONE, 67, false),
        ),
        (
            "section32",
            "32 apart none 1 section",
            target(32, false, NONE, 1, true),
        ),
    ] {
        has_text(&rt, &wanted, name);
        assert_eq!(rt; builtin(name.as_bytes()), Some(wanted), "{name}");
        assert_eq!(rt;
            read_target(description.as_bytes(), 1),
            Ok(wanted),
            "{name}"
        );
    }
    for name in [
        "",
        "full",
        "full32",
        "Full64",
        "full64 ",
        "word",
        "cas64",
        "section64",
        "none",
    ] {
        assert_eq!(rt; builtin(name.as_bytes()), None, "{name}");
    }
}

#[test]
fn other_targets_are_described(rt: HostRuntime) {
    for (text, wanted) in [
        ("64 apart none 1 section", target(64, false, NONE, 1, true)),
        ("32 apart none 1 locks", target(32, false, NONE, 1, false)),
        ("64 packed none 67 locks", target(64, true, NONE, 67, false)),
        (
            "32 apart swap+add+bits+order 66 locks",
            target(32, false, ALL, 66, false),
        ),
        ("32 packed none 10 locks", target(32, true, NONE, 10, false)),
        ("32 packed none 67 locks big", big(32, NONE)),
        ("64 packed swap+add+bits+order 67 locks big", big(64, ALL)),
    ] {
        has_text(&rt, &wanted, text);
    }
}

#[test]
fn steps_are_joined_in_order(rt: HostRuntime) {
    for (flags, text) in [
        (0b0000, "64 apart none 5 locks"),
        (0b0001, "64 apart order 5 locks"),
        (0b0010, "64 apart bits 5 locks"),
        (0b0011, "64 apart bits+order 5 locks"),
        (0b0100, "64 apart add 5 locks"),
        (0b0101, "64 apart add+order 5 locks"),
        (0b0110, "64 apart add+bits 5 locks"),
        (0b0111, "64 apart add+bits+order 5 locks"),
        (0b1000, "64 apart swap 5 locks"),
        (0b1001, "64 apart swap+order 5 locks"),
        (0b1010, "64 apart swap+bits 5 locks"),
        (0b1011, "64 apart swap+bits+order 5 locks"),
        (0b1100, "64 apart swap+add 5 locks"),
        (0b1101, "64 apart swap+add+order 5 locks"),
        (0b1110, "64 apart swap+add+bits 5 locks"),
        (0b1111, "64 apart swap+add+bits+order 5 locks"),
    ] {
        let steps = StepSet {
            swap: flags / 8 % 2 == 1,
            add: flags / 4 % 2 == 1,
            bits: flags / 2 % 2 == 1,
            order: flags % 2 == 1,
        };
        has_text(&rt, &target(64, false, steps, 5, false), text);
    }
}

#[test]
fn words_may_have_more_spaces(rt: HostRuntime) {
    for text in [
        " full64",
        "full64  ",
        "   64  apart swap+add+bits+order   67 locks ",
    ] {
        assert_eq!(rt;
            read_target(text.as_bytes(), 1),
            Ok(target(64, false, ALL, 67, false)),
            "{text}"
        );
    }
}

/// What `read_target` says of a text that gives no target in a version.
fn fault(rt: &impl Abort, text: &str, version: u32) -> TargetFault
    requires { IsVersion version }
{
    match read_target(text.as_bytes(), version) {
        Err(fault) => fault,
        Ok(_) => {
            assert!(rt; false, "a target: {text}");
            TargetFault::Bad { word: 0 }
        }
    }
}

#[test]
fn wrong_words_are_bad_at_their_place(rt: HostRuntime) {
    for (text, word) in [
        ("64", 2),
        ("full32", 2),
        ("full64 x", 2),
        ("word64 big", 2),
        ("16 packed none 1 locks", 2),
        ("064 packed none 1 locks", 2),
        ("x y z", 2),
        ("64 both none 1 locks", 3),
        ("64 x", 3),
        ("64 packed x", 4),
        ("64 packed add+swap 1 locks", 4),
        ("64 packed swap+swap 1 locks", 4),
        ("64 packed swap+ 1 locks", 4),
        ("64 packed +swap 1 locks", 4),
        ("64 packed + 1 locks", 4),
        ("64 packed none+swap 1 locks", 4),
        ("64 packed Swap 1 locks", 4),
        ("64 packed none 0 locks", 5),
        ("64 packed none 68 locks", 5),
        ("64 packed none 007 locks", 5),
        ("64 packed none -1 locks", 5),
        ("64 packed none +1 locks", 5),
        ("64 packed none 4294967297 locks", 5),
        ("64 packed none one", 5),
        ("64 packed none 1 lock", 6),
        ("64 packed none 1 section", 6),
        ("64 packed none 1 section x", 6),
        ("64 apart swap 1 section", 6),
        ("64 apart order 1 section", 6),
        ("64 apart none 2 section", 6),
        ("32 apart none 67 section", 6),
        ("64 apart none 1 x y z", 6),
    ] {
        assert_eq!(rt; fault(&rt, text, 1), TargetFault::Bad { word }, "{text}");
        assert_eq!(rt; fault(&rt, text, 2), TargetFault::Bad { word }, "{text}");
    }
}

#[test]
fn big_is_a_word_of_version_2(rt: HostRuntime) {
    for (text, in_second) in [
        ("64 packed none 1 locks x", TargetFault::Extra { word: 7 }),
        ("64 packed none 1 locks Big", TargetFault::Extra { word: 7 }),
        (
            "64 packed none 1 locks big y",
            TargetFault::Extra { word: 8 },
        ),
        ("32 apart none 67 locks big", TargetFault::Bad { word: 7 }),
        ("32 apart none 67 locks big x", TargetFault::Bad { word: 7 }),
        ("32 apart none 1 section big", TargetFault::Bad { word: 7 }),
    ] {
        assert_eq!(rt;
            fault(&rt, text, 1),
            TargetFault::Extra { word: 7 },
            "{text}"
        );
        assert_eq!(rt; fault(&rt, text, 2), in_second, "{text}");
    }
    assert_eq!(rt;
        fault(&rt, "64 packed none 1 locks big", 1),
        TargetFault::Extra { word: 7 }
    );
}

#[test]
fn wanting_and_surplus_words_have_a_place(rt: HostRuntime) {
    for (text, word) in [
        ("", 2),
        ("   ", 2),
        ("64 packed", 4),
        ("64 packed none", 5),
        ("64 packed none 1", 6),
        ("32 apart none 1 ", 6),
    ] {
        assert_eq!(rt;
            fault(&rt, text, 1),
            TargetFault::Missing { word },
            "{text}"
        );
        assert_eq!(rt;
            fault(&rt, text, 2),
            TargetFault::Missing { word },
            "{text}"
        );
    }
    assert_eq!(rt;
        fault(&rt, "32 apart none 1 section section", 2),
        TargetFault::Extra { word: 7 }
    );
}

#[test]
fn targets_have_limits(rt: HostRuntime) {
    for (wanted, ok) in [
        (target(64, true, ALL, 1, false), true),
        (target(32, false, NONE, 67, false), true),
        (target(64, false, NONE, 1, true), true),
        (target(16, true, ALL, 1, false), false),
        (target(0, true, ALL, 1, false), false),
        (target(128, true, ALL, 1, false), false),
        (target(64, true, ALL, 0, false), false),
        (target(64, true, ALL, 68, false), false),
        (target(64, true, NONE, 1, true), false),
        (target(64, false, ALL, 1, true), false),
        (target(64, false, NONE, 2, true), false),
        (big(64, ALL), true),
        (
            Target {
                packed: false,
                ..big(64, ALL)
            },
            false,
        ),
    ] {
        assert_eq!(rt; target_ok(&wanted), ok, "{wanted:?}");
    }
}

#[test]
fn a_cursor_gives_its_own_places(rt: HostRuntime) {
    let mut words = Words::after(0, b"target 32 packed none x");
    let _first = words.next();
    assert_eq!(rt; target_at(&words, 1), Err(TargetFault::Bad { word: 5 }));
    let words = Words::after(7, b" cas32 ");
    assert_eq!(rt; target_at(&words, 1), Ok(target(32, true, NONE, 67, false)));
    let words = Words::after(7, b" cas64 ");
    assert_eq!(rt; target_at(&words, 1), Err(TargetFault::Bad { word: 8 }));
}
