//! The signed integers.

ghost use Rattle.std.specs.Prelude.{true, refl};
ghost use Rattle.std.proofs.Common.{rules};
ghost use Rattle.std.specs.Int.{w8, w16, w32, w64, w128, cast_signed, cast_unsigned};
ghost use Rattle.std.proofs.lemmas.Int.{of_z-to_z};
ghost use Rattle.op_table.specs.declared.kind.Width.TheVariants.{W8, W16, W32, W64, W128};
ghost use Rattle.scalar_laws.specs.Kinds.{integer};

use crate::bodies::{answered, apply_int, apply_logic};
use crate::replies::unless_quiet;
use crate::scalar::{IntScalar, LogicScalar, Scalar};
use op_table::{Call, Class, Kind, Reply, Width};

impl Scalar for i8 {
    ghost KIND = { integer W8 true };

    ghost bits = { λ v. cast_unsigned w8 v };

    ghost of_bits = { λ b. cast_signed w8 b };

    ghost is_kind = { Prim.search rules };

    ghost same_bits = { of_z-to_z w8 };

    const KIND: Kind = Kind {
        width: Width::W8,
        signed: true,
        class: Class::Int,
    };

    #[inline(always)]
    fn to_bits(self) -> u128 {
        self.cast_unsigned() as u128
    }

    #[inline(always)]
    fn from_bits(pattern: u128) -> Self {
        (pattern as u8).cast_signed()
    }

    #[tactic(auto, using(crate::proofs::BitPlaces::bits_8))]
    #[inline(always)]
    fn apply(self, call: &Call) -> (Self, Reply) {
        let bits = self.to_bits();
        apply_int!(i8, self, bits, call)
    }
}

impl LogicScalar for i8 {
    ghost is_logic = { Prim.search rules };
}

impl IntScalar for i8 {
    ghost is_int = { refl };
}

impl Scalar for i16 {
    ghost KIND = { integer W16 true };

    ghost bits = { λ v. cast_unsigned w16 v };

    ghost of_bits = { λ b. cast_signed w16 b };

    ghost is_kind = { Prim.search rules };

    ghost same_bits = { of_z-to_z w16 };

    const KIND: Kind = Kind {
        width: Width::W16,
        signed: true,
        class: Class::Int,
    };

    #[inline(always)]
    fn to_bits(self) -> u128 {
        self.cast_unsigned() as u128
    }

    #[inline(always)]
    fn from_bits(pattern: u128) -> Self {
        (pattern as u16).cast_signed()
    }

    #[tactic(auto, using(crate::proofs::BitPlaces::bits_16))]
    #[inline(always)]
    fn apply(self, call: &Call) -> (Self, Reply) {
        let bits = self.to_bits();
        apply_int!(i16, self, bits, call)
    }
}

impl LogicScalar for i16 {
    ghost is_logic = { Prim.search rules };
}

impl IntScalar for i16 {
    ghost is_int = { refl };
}

impl Scalar for i32 {
    ghost KIND = { integer W32 true };

    ghost bits = { λ v. cast_unsigned w32 v };

    ghost of_bits = { λ b. cast_signed w32 b };

    ghost is_kind = { Prim.search rules };

    ghost same_bits = { of_z-to_z w32 };

    const KIND: Kind = Kind {
        width: Width::W32,
        signed: true,
        class: Class::Int,
    };

    #[inline(always)]
    fn to_bits(self) -> u128 {
        self.cast_unsigned() as u128
    }

    #[inline(always)]
    fn from_bits(pattern: u128) -> Self {
        (pattern as u32).cast_signed()
    }

    #[tactic(auto, using(crate::proofs::BitPlaces::bits_32))]
    #[inline(always)]
    fn apply(self, call: &Call) -> (Self, Reply) {
        let bits = self.to_bits();
        apply_int!(i32, self, bits, call)
    }
}

impl LogicScalar for i32 {
    ghost is_logic = { Prim.search rules };
}

impl IntScalar for i32 {
    ghost is_int = { refl };
}

impl Scalar for i64 {
    ghost KIND = { integer W64 true };

    ghost bits = { λ v. cast_unsigned w64 v };

    ghost of_bits = { λ b. cast_signed w64 b };

    ghost is_kind = { Prim.search rules };

    ghost same_bits = { of_z-to_z w64 };

    const KIND: Kind = Kind {
        width: Width::W64,
        signed: true,
        class: Class::Int,
    };

    #[inline(always)]
    fn to_bits(self) -> u128 {
        self.cast_unsigned() as u128
    }

    #[inline(always)]
    fn from_bits(pattern: u128) -> Self {
        (pattern as u64).cast_signed()
    }

    #[tactic(auto, using(crate::proofs::BitPlaces::signed_64))]
    #[inline(always)]
    fn apply(self, call: &Call) -> (Self, Reply) {
        let bits = self.to_bits();
        apply_int!(i64, self, bits, call)
    }
}

impl LogicScalar for i64 {
    ghost is_logic = { Prim.search rules };
}

impl IntScalar for i64 {
    ghost is_int = { refl };
}

impl Scalar for i128 {
    ghost KIND = { integer W128 true };

    ghost bits = { λ v. cast_unsigned w128 v };

    ghost of_bits = { λ b. cast_signed w128 b };

    ghost is_kind = { Prim.search rules };

    ghost same_bits = { of_z-to_z w128 };

    const KIND: Kind = Kind {
        width: Width::W128,
        signed: true,
        class: Class::Int,
    };

    #[inline(always)]
    fn to_bits(self) -> u128 {
        self.cast_unsigned()
    }

    #[inline(always)]
    fn from_bits(pattern: u128) -> Self {
        pattern.cast_signed()
    }

    #[tactic(auto, using(crate::proofs::BitPlaces::signed_128))]
    #[inline(always)]
    fn apply(self, call: &Call) -> (Self, Reply) {
        let bits = self.to_bits();
        apply_int!(i128, self, bits, call)
    }
}

impl LogicScalar for i128 {
    ghost is_logic = { Prim.search rules };
}

impl IntScalar for i128 {
    ghost is_int = { refl };
}
