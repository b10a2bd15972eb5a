//! What a text of the pages and the text that the program writes must have in common.

ghost use Rattle.std.specs.Prelude.{◌≡◌, ◌↔◌, IsNone};

/// How much of what the program writes is the same at every run, and stands in a text.
#[derive(Clone, Copy, PartialEq, Eq)]
pub enum Compared {
    /// Every byte.
    Whole,
    /// The text's lines, in this order; others may stand between them.
    InOrder,
    /// Every line, but for what follows the first ` = ` in it.
    ButReplies,
}

/// A line without its reply.
fn but_reply(line: &str) -> &str {
    match line.split_once(" = ") {
        Some((call, _)) => call,
        None => line,
    }
}

/// How many lines of the text stand at the head of what was written, replies aside.
fn alike_but_replies(text: &str, written: &str) -> usize {
    let pairs = text.lines().zip(written.lines());
    pairs
        .take_while(|(line, told)| but_reply(line) == but_reply(told))
        .count()
}

/// How many lines of the text stand in this order in what was written.
fn found_in_order(text: &str, written: &str) -> usize {
    let mut told = written.lines();
    let mut found = 0usize;
    for line in text.lines() {
        if !told.any(|other| other == line) {
            break;
        }
        found = found.saturating_add(1);
    }
    found
}

/// How many lines of the text stand at the head of what was written.
fn alike(text: &str, written: &str) -> usize {
    let pairs = text.lines().zip(written.lines());
    pairs.take_while(|(line, told)| line == told).count()
}

impl Compared {
    /// The line of the text, counted from 0, at which what was written first differs from it; the number of its lines
    /// where only what follows differs, and None where nothing does.
    pub fn difference(self, text: &str, written: &str) -> Option<usize>
        ensures whole { self ≡ Compared.Whole → (IsNone result ↔ (text.now ≡ written.now)) }
    {
        match self {
            Compared::Whole => {
                if text == written {
                    None
                } else {
                    Some(alike(text, written))
                }
            }
            Compared::InOrder => {
                let found = found_in_order(text, written);
                if found == text.lines().count() {
                    None
                } else {
                    Some(found)
                }
            }
            Compared::ButReplies => {
                let alike = alike_but_replies(text, written);
                if alike == text.lines().count() && alike == written.lines().count() {
                    None
                } else {
                    Some(alike)
                }
            }
        }
    }
}
