//! The parts of a value, each in a word of its own.

ghost use Rattle.std.specs.Prelude.{◌≡◌, ◌+◌, ◌*◌, ◌^◌, ◌<◌, ◌≤◌};
ghost use Rattle.place_core.specs.PartValues.{part_of};

/// A part of a value, counted from 0, which has the value's lowest bits.
#[inline(always)]
pub fn part_at(bits: u32, part: u32, value: u128) -> u64
    requires bits { (0 < bits) × (bits ≤ 64) }
    requires part { bits * part < 128 }
    ensures value { result ≡ part_of bits part value }
    ensures fits { result < 2 ^ bits }
{
    ((value >> (bits * part)) % (1 << bits)) as u64
}

/// The value of the parts below this one, and this one on top of them.
#[inline(always)]
pub fn with_part(bits: u32, part: u32, low: u128, number: u64) -> u128
    requires ends { bits * part + bits ≤ 128 }
    requires low { low < 2 ^ (bits * part) }
    requires number { number < 2 ^ bits }
    ensures value { result ≡ low + number * 2 ^ (bits * part) }
    ensures fits { result < 2 ^ (bits * part + bits) }
{
    low + ((number as u128) << (bits * part))
}
