//! The texts of replies, and the word of a fixed value.

ghost use Rattle.std.specs.Prelude.{◌≡◌, ◌+◌, ◌<◌, ◌≤◌, ◌++◌, length};
ghost use Rattle.op_table.specs.Kind.{IsKind, values_of};
ghost use Rattle.op_table.specs.Call.{ReplyFits};
ghost use Rattle.op_table.specs.Value.{value_text};
ghost use Rattle.report_text.specs.Report.{reply_text, fixed_word};

use op_table::{Kind, LineBuf, Reply};

/// Adds the text of a value, which takes 40 bytes at most.
fn push_value(out: &mut LineBuf, kind: Kind, value: u128)
    requires kind { IsKind kind }
    requires value { value < values_of kind }
    requires room { length out.old + 40 ≤ 256 }
    ensures value { out.new ≡ out.old ++ value_text kind value }
    ensures short { length out.new ≤ length out.old + 40 }
{
    out.push_value(kind, value);
}

/// Adds the text of a reply of an object of this kind. It takes 44 bytes at most.
pub fn push_reply(out: &mut LineBuf, kind: Kind, reply: &Reply)
    requires kind { IsKind kind }
    requires fits { ReplyFits kind reply.now }
    requires room { length out.old + 44 ≤ 256 }
    ensures value { out.new ≡ out.old ++ reply_text kind reply.now }
    ensures short { length out.new ≤ length out.old + 44 }
{
    match reply {
        Reply::Unit => out.push_text(b"unit"),
        Reply::Value(value) => push_value(out, kind, *value),
        Reply::Bit(true) => out.push_text(b"true"),
        Reply::Bit(false) => out.push_text(b"false"),
        Reply::Done(value) => {
            out.push_text(b"ok ");
            push_value(out, kind, *value);
        }
        Reply::Failed(value) => {
            out.push_text(b"err ");
            push_value(out, kind, *value);
        }
    }
}

/// Adds the word `fixed` where there is a fixed value. It takes 6 bytes at most.
pub(crate) fn push_fixed(out: &mut LineBuf, fixed: Option<u128>)
    requires room { length out.old + 6 ≤ 256 }
    ensures value { out.new ≡ out.old ++ fixed_word fixed }
    ensures short { length out.new ≤ length out.old + 6 }
{
    match fixed {
        Some(_) => out.push_text(b" fixed"),
        None => {}
    }
}
