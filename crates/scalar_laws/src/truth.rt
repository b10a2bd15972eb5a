//! The truth values.

ghost use Rattle.std.specs.Prelude.{false, true, refl, ◌==◌};
ghost use Rattle.std.proofs.Common.{rules};
ghost use Rattle.std.specs.Int.{from_bool};
ghost use Rattle.scalar_laws.specs.Kinds.{truth};

use crate::bodies::{answered, apply_logic};
use crate::replies::unless_quiet;
use crate::scalar::{LogicScalar, Scalar};
use op_table::{Call, Class, Kind, Reply, Width};

impl Scalar for bool {
    ghost KIND = { truth };

    ghost bits = { λ v. from_bool v };

    ghost of_bits = { λ b. b == 1 };

    ghost is_kind = { Prim.search rules };

    ghost same_bits = { Prim.search rules };

    const KIND: Kind = Kind {
        width: Width::W1,
        signed: false,
        class: Class::Bool,
    };

    #[inline(always)]
    fn to_bits(self) -> u128 {
        self as u128
    }

    #[inline(always)]
    fn from_bits(pattern: u128) -> Self {
        pattern == 1
    }

    #[inline(always)]
    fn apply(self, call: &Call) -> (Self, Reply) {
        let bits = self.to_bits();
        apply_logic!(bool, self, bits, call, { _ => unreachable!() })
    }
}

impl LogicScalar for bool {
    ghost is_logic = { Prim.search rules };
}
