//! The names of atomics by type.

use crate::atomic::Atomic;

/// An atomic truth value.
pub type AtomicBool = Atomic<bool>;
/// An atomic signed number of 8 bits.
pub type AtomicI8 = Atomic<i8>;
/// An atomic signed number of 16 bits.
pub type AtomicI16 = Atomic<i16>;
/// An atomic signed number of 32 bits.
pub type AtomicI32 = Atomic<i32>;
/// An atomic signed number of 64 bits.
pub type AtomicI64 = Atomic<i64>;
/// An atomic signed number of 128 bits.
pub type AtomicI128 = Atomic<i128>;
/// An atomic signed number of a pointer's size: 64 bits, on every target.
pub type AtomicIsize = Atomic<i64>;
/// An atomic number of 8 bits.
pub type AtomicU8 = Atomic<u8>;
/// An atomic number of 16 bits.
pub type AtomicU16 = Atomic<u16>;
/// An atomic number of 32 bits.
pub type AtomicU32 = Atomic<u32>;
/// An atomic number of 64 bits.
pub type AtomicU64 = Atomic<u64>;
/// An atomic number of 128 bits.
pub type AtomicU128 = Atomic<u128>;
/// An atomic number of a pointer's size: 64 bits, on every target.
pub type AtomicUsize = Atomic<u64>;
