//! Reading digits of a base.

ghost use Rattle.std.specs.Prelude.{◌≡◌, ◌+◌, ◌*◌, true};
ghost use Rattle.std.specs.List.{list_all};
ghost use Rattle.std.specs.Char.{digit_value};
ghost use Rattle.op_table.specs.Value.{is_hex_digit};
ghost use Rattle.op_table.specs.Numeral.{base_of, is_digit_of, fitting, read_on, numeral_of};

use crate::value::ValueFault;

/// The digits that a number is written with.
#[derive(Clone, Copy, Debug, PartialEq, Eq)]
pub(crate) enum Base {
    /// `0` to `9`.
    Ten,
    /// `0` to `9` and `a` to `f`.
    Sixteen,
}

fn is_digit(base: Base, byte: u8) -> bool
    ensures { result ≡ is_digit_of base byte }
{
    let decimal = b'0' <= byte && byte <= b'9';
    match base {
        Base::Ten => decimal,
        Base::Sixteen => decimal || b'a' <= byte && byte <= b'f',
    }
}

fn are_digits(base: Base, text: &[u8]) -> bool
    ensures { result ≡ list_all (is_digit_of base) text.now }
{
    text.iter().all(|byte| is_digit(base, *byte))
}

fn digit_value(byte: u8) -> u8
    requires { is_hex_digit byte ≡ true }
    ensures { result ≡ digit_value byte }
{
    if byte <= b'9' {
        byte - b'0'
    } else {
        byte - b'a' + 10
    }
}

/// The number with one more digit, where it has 128 bits. It divides nothing, and tests no product.
fn with_digit(base: Base, n: u128, digit: u8) -> Option<u128>
    ensures { result ≡ fitting (n * base_of base + digit) }
{
    let digit = u128::from(digit);
    match base {
        Base::Ten if n <= u128::MAX / 10 => (n * 10).checked_add(digit),
        Base::Sixteen if n <= u128::MAX / 16 => (n * 16).checked_add(digit),
        _ => None,
    }
}

/// The number of digits, which are looked at once.
fn read_digits(base: Base, text: &[u8]) -> Result<u128, ValueFault>
    ensures { result ≡ read_on base 0 text.now }
{
    let mut n: u128 = 0;
    let mut rest = text;
    'digits: while let [first, after @ ..] = rest {
        if !is_digit(base, *first) {
            return Err(ValueFault::BadNumber);
        }
        match with_digit(base, n, digit_value(*first)) {
            Some(more) => n = more,
            None if are_digits(base, after) => return Err(ValueFault::OutOfRange),
            None => return Err(ValueFault::BadNumber),
        }
        rest = after;
    }
    Ok(n)
}

/// The number of a text that is `0`, or digits that don't begin with 0.
pub(crate) fn read_numeral(base: Base, text: &[u8]) -> Result<u128, ValueFault>
    ensures { result ≡ numeral_of base text.now }
{
    match text.split_first() {
        None => Err(ValueFault::BadNumber),
        Some((first, rest)) => if *first == b'0' && !rest.is_empty() {
            Err(ValueFault::BadNumber)
        } else {
            read_digits(base, text)
        },
    }
}
