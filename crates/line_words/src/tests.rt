//! Lines and words of small texts, with values from outside.

use crate::{Words, line_at, word_at};

#[test]
fn lines_end_at_line_feeds(rt: HostRuntime) {
    for (text, first, lines) in [
        ("a\nbc\n", "a", 2),
        ("a\nbc", "a", 2),
        ("\n", "", 1),
        ("\n\n", "", 2),
        ("ab", "ab", 1),
        ("a\r\n", "a\r", 1),
    ] {
        let mut rest = text.as_bytes();
        let mut count = 0;
        for number in 0..8 {
            if rest.is_empty() {
                break;
            }
            let (line, after) = line_at(rest);
            if number == 0 {
                assert_eq!(rt; line, first.as_bytes(), "the first line of {text:?}");
            }
            count = number + 1;
            rest = after;
        }
        assert_eq!(rt; count, lines, "the lines of {text:?}");
    }
}

#[test]
fn words_stand_between_spaces(rt: HostRuntime) {
    for (line, word, rest) in [
        ("ab cd", "ab", " cd"),
        ("  ab", "ab", ""),
        ("ab  ", "ab", "  "),
        ("ab   cd ", "ab", "   cd "),
        ("a\tb c", "a\tb", " c"),
    ] {
        match word_at(line.as_bytes()) {
            Some((found, after)) => {
                assert_eq!(rt; found, word.as_bytes(), "the word of {line:?}");
                assert_eq!(rt; after, rest.as_bytes(), "what is left of {line:?}");
            }
            None => assert!(rt; false, "no word in {line:?}"),
        }
    }
    for line in ["", " ", "   "] {
        assert!(rt; word_at(line.as_bytes()).is_none(), "a word in {line:?}");
    }
}

#[test]
fn a_cursor_counts_its_words(rt: HostRuntime) {
    let mut words = Words::after(1, b"  load   5 ".as_slice());
    assert_eq!(rt; words.taken(), 1);
    assert!(rt; !words.is_end());
    assert_eq!(rt; words.next(), Some(b"load".as_slice()));
    assert_eq!(rt; words.next(), Some(b"5".as_slice()));
    assert_eq!(rt; words.taken(), 3);
    assert_eq!(rt; words.rest(), b" ".as_slice());
    assert!(rt; words.is_end());
    assert_eq!(rt; words.next(), None);
    assert_eq!(rt; words.taken(), 3);
}
