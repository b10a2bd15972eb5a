//! The bodies of `apply`. A value is never read as a number of another type: its own operators work on it.

// A new value, and the reply of a call that answers it.
macro_rules! answered {
    ($new:expr) => {{
        let new = $new;
        (new, Reply::Value(new.to_bits()))
    }};
}

// The calls that each type but `Addr` has. The rest of the arms follow in braces.
macro_rules! apply_logic {
    ($scalar:ty, $value:ident, $bits:ident, $call:ident, { $($rest:tt)* }) => {
        match $call {
            Call::Load => ($value, Reply::Value($bits)),
            Call::Store(a) => (<$scalar>::from_bits(*a), Reply::Unit),
            Call::Swap(a) => (<$scalar>::from_bits(*a), Reply::Value($bits)),
            Call::Cas(e, n) | Call::CasWeak(e, n) => if $value == <$scalar>::from_bits(*e) {
                (<$scalar>::from_bits(*n), Reply::Done($bits))
            } else {
                ($value, Reply::Failed($bits))
            },
            Call::And(a, quiet) => ($value & <$scalar>::from_bits(*a), unless_quiet(*quiet, $bits)),
            Call::Nand(a) => (!($value & <$scalar>::from_bits(*a)), Reply::Value($bits)),
            Call::Or(a, quiet) => ($value | <$scalar>::from_bits(*a), unless_quiet(*quiet, $bits)),
            Call::Xor(a, quiet) => ($value ^ <$scalar>::from_bits(*a), unless_quiet(*quiet, $bits)),
            Call::Not(quiet) => (!$value, unless_quiet(*quiet, $bits)),
            Call::AndFetch(a) => answered!($value & <$scalar>::from_bits(*a)),
            Call::NandFetch(a) => answered!(!($value & <$scalar>::from_bits(*a))),
            Call::OrFetch(a) => answered!($value | <$scalar>::from_bits(*a)),
            Call::XorFetch(a) => answered!($value ^ <$scalar>::from_bits(*a)),
            $($rest)*
        }
    };
}

// All calls, at an integer type.
macro_rules! apply_int {
    ($scalar:ty, $value:ident, $bits:ident, $call:ident) => {
        apply_logic!($scalar, $value, $bits, $call, {
            Call::Add(a, quiet) => ($value.wrapping_add(<$scalar>::from_bits(*a)), unless_quiet(*quiet, $bits)),
            Call::Sub(a, quiet) => ($value.wrapping_sub(<$scalar>::from_bits(*a)), unless_quiet(*quiet, $bits)),
            Call::Neg(quiet) => ($value.wrapping_neg(), unless_quiet(*quiet, $bits)),
            Call::AddFetch(a) => answered!($value.wrapping_add(<$scalar>::from_bits(*a))),
            Call::SubFetch(a) => answered!($value.wrapping_sub(<$scalar>::from_bits(*a))),
            Call::Max(a) => {
                let a = <$scalar>::from_bits(*a);
                (if $value < a { a } else { $value }, Reply::Value($bits))
            }
            Call::Min(a) => {
                let a = <$scalar>::from_bits(*a);
                (if a < $value { a } else { $value }, Reply::Value($bits))
            }
            Call::BitSet(p) => {
                let bit = 1 << (*p % <$scalar>::BITS);
                ($value | bit, Reply::Bit($value & bit != 0))
            }
            Call::BitClear(p) => {
                let bit = 1 << (*p % <$scalar>::BITS);
                ($value & !bit, Reply::Bit($value & bit != 0))
            }
            Call::BitToggle(p) => {
                let bit = 1 << (*p % <$scalar>::BITS);
                ($value ^ bit, Reply::Bit($value & bit != 0))
            }
        })
    };
}

pub(crate) use answered;
pub(crate) use apply_int;
pub(crate) use apply_logic;
