//! The unsigned integers.

ghost use Rattle.std.specs.Prelude.{false, refl};
ghost use Rattle.std.proofs.Common.{rules};
ghost use Rattle.op_table.specs.declared.kind.Width.TheVariants.{W8, W16, W32, W64, W128};
ghost use Rattle.scalar_laws.specs.Kinds.{integer};

use crate::bodies::{answered, apply_int, apply_logic};
use crate::replies::unless_quiet;
use crate::scalar::{IntScalar, LogicScalar, Scalar};
use op_table::{Call, Class, Kind, Reply, Width};

impl Scalar for u8 {
    ghost KIND = { integer W8 false };

    ghost bits = { λ v. v };

    ghost of_bits = { λ b. b };

    ghost is_kind = { Prim.search rules };

    ghost same_bits = { λ b small. refl };

    const KIND: Kind = Kind {
        width: Width::W8,
        signed: false,
        class: Class::Int,
    };

    #[inline(always)]
    fn to_bits(self) -> u128 {
        self as u128
    }

    #[inline(always)]
    fn from_bits(pattern: u128) -> Self {
        pattern as u8
    }

    #[tactic(auto, using(crate::proofs::BitPlaces::bits_8))]
    #[inline(always)]
    fn apply(self, call: &Call) -> (Self, Reply) {
        let bits = self.to_bits();
        apply_int!(u8, self, bits, call)
    }
}

impl LogicScalar for u8 {
    ghost is_logic = { Prim.search rules };
}

impl IntScalar for u8 {
    ghost is_int = { refl };
}

impl Scalar for u16 {
    ghost KIND = { integer W16 false };

    ghost bits = { λ v. v };

    ghost of_bits = { λ b. b };

    ghost is_kind = { Prim.search rules };

    ghost same_bits = { λ b small. refl };

    const KIND: Kind = Kind {
        width: Width::W16,
        signed: false,
        class: Class::Int,
    };

    #[inline(always)]
    fn to_bits(self) -> u128 {
        self as u128
    }

    #[inline(always)]
    fn from_bits(pattern: u128) -> Self {
        pattern as u16
    }

    #[tactic(auto, using(crate::proofs::BitPlaces::bits_16))]
    #[inline(always)]
    fn apply(self, call: &Call) -> (Self, Reply) {
        let bits = self.to_bits();
        apply_int!(u16, self, bits, call)
    }
}

impl LogicScalar for u16 {
    ghost is_logic = { Prim.search rules };
}

impl IntScalar for u16 {
    ghost is_int = { refl };
}

impl Scalar for u32 {
    ghost KIND = { integer W32 false };

    ghost bits = { λ v. v };

    ghost of_bits = { λ b. b };

    ghost is_kind = { Prim.search rules };

    ghost same_bits = { λ b small. refl };

    const KIND: Kind = Kind {
        width: Width::W32,
        signed: false,
        class: Class::Int,
    };

    #[inline(always)]
    fn to_bits(self) -> u128 {
        self as u128
    }

    #[inline(always)]
    fn from_bits(pattern: u128) -> Self {
        pattern as u32
    }

    #[tactic(auto, using(crate::proofs::BitPlaces::bits_32))]
    #[inline(always)]
    fn apply(self, call: &Call) -> (Self, Reply) {
        let bits = self.to_bits();
        apply_int!(u32, self, bits, call)
    }
}

impl LogicScalar for u32 {
    ghost is_logic = { Prim.search rules };
}

impl IntScalar for u32 {
    ghost is_int = { refl };
}

impl Scalar for u64 {
    ghost KIND = { integer W64 false };

    ghost bits = { λ v. v };

    ghost of_bits = { λ b. b };

    ghost is_kind = { Prim.search rules };

    ghost same_bits = { λ b small. refl };

    const KIND: Kind = Kind {
        width: Width::W64,
        signed: false,
        class: Class::Int,
    };

    #[inline(always)]
    fn to_bits(self) -> u128 {
        self as u128
    }

    #[inline(always)]
    fn from_bits(pattern: u128) -> Self {
        pattern as u64
    }

    #[tactic(auto, using(crate::proofs::BitPlaces::bits_64))]
    #[inline(always)]
    fn apply(self, call: &Call) -> (Self, Reply) {
        let bits = self.to_bits();
        apply_int!(u64, self, bits, call)
    }
}

impl LogicScalar for u64 {
    ghost is_logic = { Prim.search rules };
}

impl IntScalar for u64 {
    ghost is_int = { refl };
}

impl Scalar for u128 {
    ghost KIND = { integer W128 false };

    ghost bits = { λ v. v };

    ghost of_bits = { λ b. b };

    ghost is_kind = { Prim.search rules };

    ghost same_bits = { λ b small. refl };

    const KIND: Kind = Kind {
        width: Width::W128,
        signed: false,
        class: Class::Int,
    };

    #[inline(always)]
    fn to_bits(self) -> u128 {
        self
    }

    #[inline(always)]
    fn from_bits(pattern: u128) -> Self {
        pattern
    }

    #[tactic(auto, using(crate::proofs::BitPlaces::bits_128))]
    #[inline(always)]
    fn apply(self, call: &Call) -> (Self, Reply) {
        let bits = self.to_bits();
        apply_int!(u128, self, bits, call)
    }
}

impl LogicScalar for u128 {
    ghost is_logic = { Prim.search rules };
}

impl IntScalar for u128 {
    ghost is_int = { refl };
}
