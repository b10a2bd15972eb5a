//! Printing a target.

ghost use Rattle.std.specs.Prelude.{◌≡◌, ◌+◌, ◌≤◌, ◌∷◌, ◌++◌, length};
ghost use Rattle.target_desc.specs.Target.{IsTarget};
ghost use Rattle.target_desc.specs.Text.{description_text, target_text};

use crate::fields::{packed_word, section_word, steps_word};
use crate::target::{Target, name_of};
use op_table::LineBuf;

/// A space, and a word.
fn push_next(line: &mut LineBuf, word: &str)
    requires { length line.old + 1 + length word.now ≤ 256 }
    ensures { line.new ≡ line.old ++ 32 ∷ word.now }
{
    line.push_text(b" ");
    line.push_text(word.as_bytes());
}

/// Adds the description of a target, at most 44 bytes.
pub fn push_description(line: &mut LineBuf, target: &Target)
    requires { length line.old + length (description_text target.now) ≤ 256 }
    ensures { line.new ≡ line.old ++ description_text target.now }
{
    line.push_number(u64::from(target.word_bits));
    push_next(line, packed_word(target.packed));
    push_next(line, steps_word(target.steps));
    line.push_text(b" ");
    line.push_number(u64::from(target.locks));
    push_next(line, section_word(target.section));
    if target.big {
        push_next(line, "big");
    }
}

/// Adds the text of a target, at most 44 bytes: its name where it is a built-in one, else its description.
/// `read_target` reads it back.
#[tactic(auto, using(crate::proofs::Printed::described_short))]
pub fn push_target(line: &mut LineBuf, target: &Target)
    requires target { IsTarget target.now }
    requires room { length line.old + 64 ≤ 256 }
    ensures { line.new ≡ line.old ++ target_text target.now }
{
    match name_of(target) {
        Some(name) => line.push_text(name.as_bytes()),
        None => push_description(line, target),
    }
}
