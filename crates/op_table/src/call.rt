//! Calls on objects, and replies.

/// A call on an object. Values are bit patterns of the object's kind; the bool is `quiet`: such a call
/// answers nothing. Positions of bits count modulo the width. The last six answer the value after the call, as GCC's
/// `__atomic_add_fetch` and its like; the other calls that answer a value answer the one before.
#[derive(Clone, Copy, Debug, PartialEq, Eq)]
pub enum Call {
    Load,
    Store(u128),
    Swap(u128),
    /// A compare and exchange: the expected value, and the new one.
    Cas(u128, u128),
    /// A compare and exchange that may fail spuriously.
    CasWeak(u128, u128),
    Add(u128, bool),
    Sub(u128, bool),
    And(u128, bool),
    Nand(u128),
    Or(u128, bool),
    Xor(u128, bool),
    Max(u128),
    Min(u128),
    Not(bool),
    Neg(bool),
    BitSet(u32),
    BitClear(u32),
    BitToggle(u32),
    AddFetch(u128),
    SubFetch(u128),
    AndFetch(u128),
    NandFetch(u128),
    OrFetch(u128),
    XorFetch(u128),
}

/// What a call answers, with the value before the call where there is one, or the value after it (see `Call`).
#[derive(Clone, Copy, Debug, PartialEq, Eq)]
pub enum Reply {
    Unit,
    Value(u128),
    /// Whether the bit was 1.
    Bit(bool),
    /// An exchange that was made.
    Done(u128),
    /// An exchange that was not made.
    Failed(u128),
}
