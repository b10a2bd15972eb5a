//! A line that is built in place.

ghost use Rattle.std.specs.Prelude.{◌≡◌, ℕ, ◌+◌, ◌<◌, ◌≤◌, ◌^◌, List, [], ◌∷◌, ◌++◌, length, take};
ghost use Rattle.std.specs.Fmt.{decimal};
ghost use Rattle.op_table.specs.Kind.{IsKind, values_of};
ghost use Rattle.op_table.specs.Value.{value_text, int_text, bool_text, address_text};

use crate::hex::put_hex;
use crate::kind::{Class, Kind};
use crate::operations::mask;
use crate::value::greatest;
use itoa::Buffer;
use std::marker::Model;

/// A list of at most 256 bytes, which takes no memory.
#[derive(Drop)]
pub struct LineBuf {
    buf: [u8; 256],
    len: usize,
}

impl Model for LineBuf {
    ghost Value = { List ℕ };

    ghost view = { λ b. take b.len b.buf };

    ghost invariant = { λ b. b.len ≤ 256 };
}

/// Puts a piece into the cells from `at` on.
fn put(buf: &mut [u8], at: usize, text: &[u8])
    requires { at + length text.now ≤ length buf.old }
    ensures { take (at + length text.now) buf.new ≡ take at buf.old ++ text.now }
{
    buf[at..at + text.len()].copy_from_slice(text);
}

impl LineBuf {
    /// No bytes.
    pub fn new() -> Self
        ensures { result ≡ [] }
    {
        LineBuf {
            buf: [0; 256],
            len: 0,
        }
    }

    /// The bytes so far, in order.
    pub fn bytes(&self) -> &[u8]
        ensures value { result.now ≡ self.now }
        ensures short { length result.now ≤ 256 }
    {
        &self.buf[..self.len]
    }

    /// Takes all bytes out, so that the next line begins where this one did.
    pub fn clear(&mut self)
        ensures { self.new ≡ [] }
    {
        self.len = 0;
    }

    /// Adds a piece at the end.
    pub fn push_text(&mut self, text: &[u8])
        requires { length self.old + length text.now ≤ 256 }
        ensures { self.new ≡ self.old ++ text.now }
    {
        let at = self.len;
        put(&mut self.buf, at, text);
        self.len = at + text.len();
    }

    /// Adds the decimal text of a number.
    pub fn push_number(&mut self, n: u64)
        requires { length self.old + length (decimal n) ≤ 256 }
        ensures { self.new ≡ self.old ++ decimal n }
    {
        let mut buffer = Buffer::new();
        self.push_text(buffer.format(n).as_bytes());
    }

    /// Adds the decimal text of a number of 128 bits.
    fn push_decimal(&mut self, n: u128)
        requires { length self.old + length (decimal n) ≤ 256 }
        ensures { self.new ≡ self.old ++ decimal n }
    {
        // Division of 128 bits is slow, and few numbers need it.
        if n <= u64::MAX as u128 {
            self.push_number(n as u64);
        } else {
            let mut buffer = Buffer::new();
            self.push_text(buffer.format(n).as_bytes());
        }
    }

    fn push_integer(&mut self, kind: Kind, v: u128)
        requires value { v < values_of kind }
        requires room { length self.old + length (int_text kind v) ≤ 256 }
        ensures { self.new ≡ self.old ++ int_text kind v }
    {
        if v <= greatest(kind) {
            self.push_decimal(v);
        } else {
            self.push_text(b"-");
            self.push_decimal(mask(kind) - v + 1);
        }
    }

    fn push_bool(&mut self, v: u128)
        requires { length self.old + length (bool_text v) ≤ 256 }
        ensures { self.new ≡ self.old ++ bool_text v }
    {
        self.push_text(if v == 0 { b"false" } else { b"true" });
    }

    fn push_address(&mut self, v: u64)
        requires { length self.old + length (address_text v) ≤ 256 }
        ensures { self.new ≡ self.old ++ address_text v }
    {
        let mut cells = [0; 16];
        let first = put_hex(&mut cells, v);
        self.push_text(b"0x");
        self.push_text(&cells[first..]);
    }

    /// Adds the text of a value of a kind, at most 40 bytes. `read_value` reads it back.
    #[tactic(auto, unfolding(crate::specs::Value::value_text))]
    pub fn push_value(&mut self, kind: Kind, v: u128)
        requires kind { IsKind kind }
        requires value { v < values_of kind }
        requires room { length self.old + length (value_text kind v) ≤ 256 }
        ensures { self.new ≡ self.old ++ value_text kind v }
    {
        match kind.class {
            Class::Int => self.push_integer(kind, v),
            Class::Bool => self.push_bool(v),
            Class::Ptr => self.push_address(v as u64),
        }
    }
}
