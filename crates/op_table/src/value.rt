//! Reading the text of a value.

ghost use Rattle.std.specs.Prelude.{◌≡◌, ◌<◌, ◌+◌, ◌∷◌};
ghost use Rattle.op_table.specs.Kind.{IsKind};
ghost use Rattle.op_table.specs.Value.{parsed_value, parsed_int, parsed_bool, parsed_address, negative_value, naturals_of, below};

use crate::kind::{Class, Kind};
use crate::numeral::{Base, read_numeral};
use crate::operations::mask;
use thiserror::Error;

/// Why a text spells no value of a kind.
#[derive(Clone, Copy, Debug, PartialEq, Eq, Error)]
pub enum ValueFault {
    /// The text isn't of the form of the kind's texts.
    #[error("no number of the kind's form")]
    BadNumber,
    /// The text is of the form, and its number is none of the kind's.
    #[error("a number that is none of the kind's")]
    OutOfRange,
}

/// A number that is at most another one.
fn up_to(most: u128, n: u128) -> Result<u128, ValueFault>
    ensures { result ≡ below (most + 1) n }
{
    if n <= most {
        Ok(n)
    } else {
        Err(ValueFault::OutOfRange)
    }
}

/// The pattern of minus a number.
fn negative(kind: Kind, n: u128) -> Result<u128, ValueFault>
    requires { 0 < n }
    ensures { result ≡ negative_value kind n }
{
    let most = mask(kind);
    if kind.signed && n <= most / 2 + 1 {
        Ok(most - n + 1)
    } else {
        Err(ValueFault::OutOfRange)
    }
}

/// The greatest number of an integer kind.
pub(crate) fn greatest(kind: Kind) -> u128
    ensures { result + 1 ≡ naturals_of kind }
{
    let most = mask(kind);
    if kind.signed { most / 2 } else { most }
}

/// The value of the text that is a minus and these bytes.
fn read_negative(kind: Kind, digits: &[u8]) -> Result<u128, ValueFault>
    ensures { result ≡ parsed_int kind (45 ∷ digits.now) }
{
    match read_numeral(Base::Ten, digits) {
        Ok(n) => if n == 0 {
            Err(ValueFault::BadNumber)
        } else {
            negative(kind, n)
        },
        Err(fault) => Err(fault),
    }
}

fn read_integer(kind: Kind, text: &[u8]) -> Result<u128, ValueFault>
    ensures { result ≡ parsed_int kind text.now }
{
    match text.split_first() {
        Some((b'-', digits)) => read_negative(kind, digits),
        _ => match read_numeral(Base::Ten, text) {
            Ok(n) => up_to(greatest(kind), n),
            Err(fault) => Err(fault),
        },
    }
}

fn read_bool(text: &[u8]) -> Result<u128, ValueFault>
    ensures { result ≡ parsed_bool text.now }
{
    if text == b"false".as_slice() {
        Ok(0)
    } else if text == b"true".as_slice() {
        Ok(1)
    } else {
        Err(ValueFault::BadNumber)
    }
}

fn read_address(kind: Kind, text: &[u8]) -> Result<u128, ValueFault>
    ensures { result ≡ parsed_address kind text.now }
{
    match text {
        [b'0', b'x', digits @ ..] => match read_numeral(Base::Sixteen, digits) {
            Ok(n) => up_to(mask(kind), n),
            Err(fault) => Err(fault),
        },
        _ => Err(ValueFault::BadNumber),
    }
}

/// The value of a kind that a text spells. Each value has one text: a decimal number without leading zeros, with a
/// minus below 0; `true` or `false`; `0x` and lower-case hexadecimal digits of an address.
#[tactic(auto, unfolding(crate::specs::Value::parsed_value))]
pub fn read_value(kind: Kind, text: &[u8]) -> Result<u128, ValueFault>
    requires { IsKind kind }
    ensures { result ≡ parsed_value kind text.now }
{
    match kind.class {
        Class::Int => read_integer(kind, text),
        Class::Bool => read_bool(text),
        Class::Ptr => read_address(kind, text),
    }
}
