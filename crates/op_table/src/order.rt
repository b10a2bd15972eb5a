//! Memory orders (C11 7.17.3), and the steps that a target has.

/// An order of a call. Every accepted order is served sequentially consistent.
#[derive(Clone, Copy, Debug, PartialEq, Eq)]
pub enum Order {
    Relaxed,
    Acquire,
    Release,
    AcqRel,
    SeqCst,
}

/// An order that a load may have, and an exchange for its failure.
#[derive(Clone, Copy, Debug, PartialEq, Eq)]
pub enum LoadOrder {
    Relaxed,
    Acquire,
    SeqCst,
}

/// An order that a store may have.
#[derive(Clone, Copy, Debug, PartialEq, Eq)]
pub enum StoreOrder {
    Relaxed,
    Release,
    SeqCst,
}

/// The most locks that a target has, as many as libatomic's table of locks may hold.
pub const MOST_LOCKS: u32 = 67;

/// The word operations that a target has beside load, store, and compare and exchange.
#[derive(Clone, Copy, Debug, PartialEq, Eq)]
pub struct StepSet {
    /// Swap.
    pub swap: bool,
    /// Add and subtract.
    pub add: bool,
    /// And, or, and exclusive or.
    pub bits: bool,
    /// Unsigned maximum and minimum.
    pub order: bool,
}
