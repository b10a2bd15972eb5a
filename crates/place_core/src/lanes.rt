//! The bits of a lane in a word.

ghost use Rattle.std.specs.Prelude.{◌≡◌, ◌+◌, ◌-◌, ◌*◌, ◌/◌, ◌%◌, ◌^◌, ◌<◌, ◌≤◌};
ghost use Rattle.place_core.specs.Operations.{outside};

/// A value at its place in a word: `shift` bits above the lowest.
pub fn raised(value: u128, shift: u32, width: u32) -> u64
    requires lane { (0 < width) × (shift + width ≤ 64) }
    requires fits { value < 2 ^ width }
    ensures { result ≡ value * 2 ^ shift }
{
    (value as u64) << shift
}

/// The value in a lane's bits of a word.
#[inline(always)]
pub fn lane_bits(word: u64, shift: u32, width: u32) -> u128
    requires { (0 < width) × (shift + width ≤ 64) }
    ensures value { result ≡ word / 2 ^ shift % 2 ^ width }
    ensures fits { result < 2 ^ width }
{
    ((word >> shift) as u128) % (1 << width)
}

/// The word with another value in a lane's bits.
#[inline(always)]
pub fn put_lane(word: u64, shift: u32, width: u32, value: u128) -> u64
    requires lane { (0 < width) × (shift + width ≤ 64) }
    requires fits { value < 2 ^ width }
    ensures { result + (word / 2 ^ shift % 2 ^ width) * 2 ^ shift ≡ word + value * 2 ^ shift }
{
    word - raised(lane_bits(word, shift, width), shift, width) + raised(value, shift, width)
}

/// Ones in the bits of a lane.
pub(crate) fn inside(shift: u32, width: u32) -> u64
    requires { (0 < width) × (shift + width ≤ 64) }
    ensures { result ≡ (2 ^ width - 1) * 2 ^ shift }
{
    raised((1 << width) - 1, shift, width)
}

/// A value at its place in a word, and ones in all bits outside the lane.
pub(crate) fn raised_in_ones(value: u128, shift: u32, width: u32) -> u64
    requires lane { (0 < width) × (shift + width ≤ 64) }
    requires fits { value < 2 ^ width }
    ensures { result ≡ value * 2 ^ shift + outside shift width }
{
    raised(value, shift, width) + (u64::MAX - inside(shift, width))
}

/// The bit of a lane at a position, which counts modulo the width.
pub(crate) fn bit_at(position: u32, shift: u32, width: u32) -> u64
    requires { (0 < width) × (shift + width ≤ 64) }
    ensures { result ≡ 2 ^ (shift + position % width) }
{
    1 << (shift + position % width)
}
