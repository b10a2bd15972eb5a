//! Writing hexadecimal digits.

ghost use Rattle.std.specs.Prelude.{◌≡◌, ◌+◌, ◌≤◌, ◌<◌, length, drop, false};
ghost use Rattle.std.specs.Fmt.{digits, digit_glyph};

/// The byte of a digit.
fn glyph(digit: u64) -> u8
    requires { digit < 16 }
    ensures { result ≡ digit_glyph false digit }
{
    let digit = digit as u8;
    if digit < 10 {
        b'0' + digit
    } else {
        b'a' + (digit - 10)
    }
}

/// Writes the digits of a number into the last cells, and answers where they begin.
pub(crate) fn put_hex(cells: &mut [u8], n: u64) -> usize
    requires { length cells.old ≡ 16 }
    ensures digits { drop result cells.new ≡ digits 16 false n }
    ensures within { result < 16 }
{
    let mut at = 15;
    let mut rest = n;
    'digits: while rest >= 16 {
        cells[at] = glyph(rest % 16);
        at -= 1;
        rest /= 16;
    }
    cells[at] = glyph(rest);
    at
}
