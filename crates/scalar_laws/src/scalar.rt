//! What a scalar type is.

ghost use Rattle.std.specs.Prelude.{◌≡◌, ◌≢◌, ℕ, ◌<◌};
ghost use Rattle.op_table.specs.declared.kind.Kind.{Kind};
ghost use Rattle.op_table.specs.declared.kind.Class.TheVariants as class;
ghost use Rattle.op_table.specs.Kind.{IsKind, values_of};
ghost use Rattle.op_table.specs.Call.{CallFits, after_of, answer_of};

use op_table::{Call, Kind, Reply};

/// A type whose values are those of a kind: `bool`, `i8` to `i128`, `u8` to `u128`, or `Addr`.
pub trait Scalar: Copy {
    // The kind, the bit pattern of a value, and the value of a bit pattern.
    ghost KIND: { Kind };

    ghost bits: { Self → ℕ };

    ghost of_bits: { ℕ → Self };

    /// The kind that has the type's values and calls.
    const KIND: Kind;

    /// The bit pattern of a value, below 2 to the width; a negative number is that plus 2 to the width.
    fn to_bits(self) -> u128
        ensures value { result ≡ bits self }
        ensures fits { result < values_of KIND }
        ensures back { of_bits result ≡ self };

    /// The value of a bit pattern, the only one that has it.
    fn from_bits(pattern: u128) -> Self
        requires { pattern < values_of KIND }
        ensures value { result ≡ of_bits pattern }
        ensures back { bits result ≡ pattern };

    /// The value after a call, and the reply to it. It wraps, for signed types too (C11 7.17.7.5); a weak exchange is
    /// made as a strong one.
    fn apply(self, call: &Call) -> (Self, Reply)
        requires { CallFits KIND call.now }
        ensures value { bits result.0 ≡ after_of KIND call.now (bits self) }
        ensures reply { result.1 ≡ answer_of KIND call.now (bits self) };

    ghost is_kind: { IsKind KIND };

    ghost same_bits: { (pattern : ℕ) → pattern < values_of KIND → bits (of_bits pattern) ≡ pattern };
}

/// A scalar type that has all logic calls: each but `Addr`.
pub trait LogicScalar: Scalar {
    ghost is_logic: { Self.KIND.class ≢ class.Ptr };
}

/// An integer type, which has every call.
pub trait IntScalar: LogicScalar {
    ghost is_int: { Self.KIND.class ≡ class.Int };
}
