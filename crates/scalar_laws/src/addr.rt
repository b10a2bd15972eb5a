//! Addresses.

ghost use Rattle.std.specs.Prelude.{false, refl};
ghost use Rattle.std.proofs.Common.{rules};
ghost use Rattle.scalar_laws.specs.Kinds.{address, addr_of};

use crate::scalar::Scalar;
use op_table::{Call, Class, Kind, Reply, Width};

/// An address, in bytes. Its sums count bytes and wrap, as `wrapping_byte_add` of a Rust pointer.
#[derive(Clone, Copy, Debug, PartialEq, Eq)]
pub struct Addr(pub u64);

impl Scalar for Addr {
    ghost KIND = { address };

    ghost bits = { λ a. a.0 };

    ghost of_bits = { addr_of };

    ghost is_kind = { Prim.search rules };

    ghost same_bits = { λ b small. refl };

    const KIND: Kind = Kind {
        width: Width::W64,
        signed: false,
        class: Class::Ptr,
    };

    #[inline(always)]
    fn to_bits(self) -> u128 {
        self.0 as u128
    }

    #[inline(always)]
    fn from_bits(pattern: u128) -> Self {
        Addr(pattern as u64)
    }

    // What an address has of the table, a number of 64 bits has too.
    #[inline(always)]
    fn apply(self, call: &Call) -> (Self, Reply) {
        let (next, reply) = self.0.apply(call);
        (Addr(next), reply)
    }
}
