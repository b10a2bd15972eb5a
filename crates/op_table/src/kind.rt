//! Widths, classes and the twelve kinds of values.

ghost use Rattle.std.specs.Prelude.{◌≡◌, ◌↔◌, IsTrue};
ghost use Rattle.op_table.specs.Kind.{bits_of, bytes_of, IsKind};

use thiserror::Error;

/// Memory was wanting. The one value for it in all crates.
#[derive(Clone, Copy, Debug, PartialEq, Eq, Error)]
#[error("out of memory")]
pub struct NoMemory;

/// How many bits a value has.
#[derive(Clone, Copy, Debug, PartialEq, Eq)]
pub enum Width {
    W1,
    W8,
    W16,
    W32,
    W64,
    W128,
}

/// What a value is used as: a number, a truth value or an address.
#[derive(Clone, Copy, Debug, PartialEq, Eq)]
pub enum Class {
    Int,
    Bool,
    Ptr,
}

/// A kind of value. Not every combination is one; `kind_ok` tells.
#[derive(Clone, Copy, Debug, PartialEq, Eq)]
pub struct Kind {
    pub width: Width,
    /// Whether a pattern with its highest bit set is read as a negative number.
    pub signed: bool,
    pub class: Class,
}

/// The number of bits of a width, 1 to 128.
pub fn bits(width: Width) -> u32
    ensures { result ≡ bits_of width }
{
    match width {
        Width::W1 => 1,
        Width::W8 => 8,
        Width::W16 => 16,
        Width::W32 => 32,
        Width::W64 => 64,
        Width::W128 => 128,
    }
}

/// The number of bytes that a value of a kind takes up, 1 to 16. A bool takes one.
pub fn bytes(kind: Kind) -> u32
    ensures { result ≡ bytes_of kind }
{
    match kind.width {
        Width::W1 => 1,
        width => bits(width) / 8,
    }
}

/// Whether it is one of the twelve kinds: bool, pointer, and the integers of 8 to 128 bits.
pub fn kind_ok(kind: Kind) -> bool
    ensures { IsTrue result ↔ IsKind kind }
{
    match kind.class {
        Class::Int => kind.width != Width::W1,
        Class::Bool => kind.width == Width::W1 && !kind.signed,
        Class::Ptr => kind.width == Width::W64 && !kind.signed,
    }
}
