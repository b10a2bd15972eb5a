//! Where objects lie, and the steps on words that make their calls.

use op_table::Kind;

/// Where an object lies: in bits of one word, or in whole words under a lock.
#[derive(Clone, Copy, Debug, PartialEq, Eq)]
pub enum Place {
    /// The data word, the lane's lowest bit in it, and how many bits the lane has.
    Lane {
        word: u32,
        shift: u32,
        width: u32,
    },
    /// The lock, the first data word, how many words, and how many bits of the value each of them holds.
    Parts {
        lock: u32,
        first: u32,
        parts: u32,
        part_bits: u32,
    },
}

/// An object: what it holds, and where.
#[derive(Clone, Copy, Debug, PartialEq, Eq)]
pub struct Object {
    pub kind: Kind,
    pub place: Place,
    /// The value that it begins with, a bit pattern of its kind.
    pub start: u128,
}

/// One step on a word.
#[derive(Clone, Copy, Debug, PartialEq, Eq)]
pub enum WordOp {
    Load,
    Store(u64),
    Swap(u64),
    /// A compare and exchange: the expected word, and the new one.
    Cas(u64, u64),
    Add(u64),
    Sub(u64),
    And(u64),
    Or(u64),
    Xor(u64),
    /// The greater of two words without sign.
    Max(u64),
    /// The less of two words without sign.
    Min(u64),
}

/// How a call on an object is made.
#[derive(Clone, Copy, Debug, PartialEq, Eq)]
pub enum Path {
    /// By one step on the lane's word.
    One(WordOp),
    /// By a look at the lane's word, and tries to exchange it.
    Loop,
    /// Part by part, under the object's lock.
    Locked,
}
