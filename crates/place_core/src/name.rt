//! Names of objects, and objects as they are declared.

ghost use Rattle.std.specs.Prelude.{◌≡◌, List, length};
ghost use Rattle.std.specs.List.{list_all};
ghost use Rattle.place_core.specs.Name.{is_lower, is_name_byte, is_name, name_of};

use op_table::Kind;
use std::marker::Model;

/// The name of an object: 1 to 16 bytes of `a` to `z`, `0` to `9` and `_`, of which the first is a letter, and not
/// `end`. Contracts see it as the list of its bytes.
#[derive(Clone, Copy)]
pub struct Name {
    buf: [u8; 16],
    len: usize,
}

impl Model for Name {
    ghost use Rattle.std.specs.Prelude.{◌≡◌, ◌-◌, ◌≤◌, ◌++◌, ℕ, List, length, take, drop, replicate, true};
    ghost use Rattle.place_core.specs.Name.{is_name};
    ghost use Rattle.place_core.specs.Packed.{packed_len, packed_cells};

    ghost Value = { List ℕ };

    ghost view = { λ n. take n.len n.buf };

    ghost invariant = { λ n. (length n.buf ≡ 16) × (n.len ≤ 16) × (drop n.len n.buf ≡ replicate (16 - n.len) 0) × (is_name (take n.len n.buf) ≡ true) };

    ghost inverse = { λ bytes. record { buf = bytes ++ replicate (16 - length bytes) 0; len = length bytes } };

    ghost inverse_ok = { λ a h i. record { buf = packed_cells a.buf a.len h.0 h.1 h.2 i; len = packed_len a.buf a.len h.0 h.1 i } };
}

fn is_lower(byte: u8) -> bool
    ensures { result ≡ is_lower byte }
{
    byte >= b'a' && byte <= b'z'
}

fn is_name_byte(byte: u8) -> bool
    ensures { result ≡ is_name_byte byte }
{
    is_lower(byte) || byte >= b'0' && byte <= b'9' || byte == b'_'
}

fn are_name_bytes(text: &[u8]) -> bool
    ensures { result ≡ list_all is_name_byte text.now }
{
    text.iter().all(|byte| is_name_byte(*byte))
}

fn is_name(text: &[u8]) -> bool
    ensures { result ≡ is_name text.now }
{
    match text {
        [] => false,
        [first, rest @ ..] => {
            is_lower(*first) && are_name_bytes(rest) && rest.len() < 16 && text != b"end".as_slice()
        }
    }
}

impl Name {
    ghost use Rattle.std.specs.Prelude.{◌≡◌, ◌≤◌, length, true};
    ghost use Rattle.place_core.specs.Name.{is_name, name_of};

    /// The name that the bytes are; None exactly where they are none.
    pub fn of(text: &[u8]) -> Option<Name>
        ensures { result ≡ name_of text.now }
    {
        if !is_name(text) {
            return None;
        }
        let mut buf = [0u8; 16];
        buf[..text.len()].copy_from_slice(text);
        Some(Name {
            buf,
            len: text.len(),
        })
    }

    /// The bytes of the name, in order.
    pub fn bytes(&self) -> &[u8]
        ensures value { result.now ≡ self.now }
        ensures short { length result.now ≤ 16 }
        ensures named { is_name self.now ≡ true }
    {
        &self.buf[..self.len]
    }
}

/// An object as a workload declares it.
#[derive(Clone, Copy)]
pub struct Declared {
    pub name: Name,
    pub kind: Kind,
    /// The value that it begins with, a bit pattern of its kind.
    pub start: u128,
}
