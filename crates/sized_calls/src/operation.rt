//! Operations, calls, and why a call is refused.

ghost use Rattle.std.specs.Prelude.{◌≡◌};
ghost use Rattle.sized_calls.specs.Calls.{call_of, load_orders, is_among, accepts};

use op_table::Call;
use thiserror::Error;

/// An operation of GCC's sized functions (the GCC manual, "Built-in Functions for Memory Model Aware Atomic
/// Operations"). One that begins with `Fetch` replies the value before it, one that ends with `Fetch` the value after.
#[derive(Clone, Copy, Debug, PartialEq, Eq)]
pub enum SizedOp {
    Load,
    Store,
    Exchange,
    CompareExchange,
    FetchAdd,
    FetchSub,
    FetchAnd,
    FetchOr,
    FetchXor,
    FetchNand,
    AddFetch,
    SubFetch,
    AndFetch,
    OrFetch,
    XorFetch,
    NandFetch,
}

/// A call on the object at an address. What the operation doesn't use is passed over.
#[derive(Clone, Copy, Debug, PartialEq, Eq)]
pub struct SizedCall {
    pub op: SizedOp,
    /// The bytes of the object: 1, 2, 4, 8 or 16.
    pub size: u32,
    /// The number of the object's first byte.
    pub address: u64,
    /// The operand, or the value that an exchange expects which compares. A bit pattern, below 2 to 8 times the size.
    pub a: u128,
    /// The new value of an exchange that compares.
    pub b: u128,
    /// The order, by GCC's number: 0 relaxed, 1 consume, which is taken as acquire, 2 acquire, 3 release, 4 acq_rel,
    /// 5 seq_cst. Every order is served sequentially consistent.
    pub order: u32,
    /// The order of an exchange that compares and fails, by the same numbers.
    pub failure: u32,
}

/// Why a call is refused: the first of these causes that holds. No step was made then.
#[derive(Clone, Copy, Debug, PartialEq, Eq, Error)]
pub enum SizedFault {
    /// No cell has the address.
    #[error("no cell has the address")]
    NoCell,
    /// The cell that has the address has another size.
    #[error("the cell has another size")]
    BadSize,
    /// A value that the operation uses has more bits than the object.
    #[error("a value has more bits than the object")]
    BadValue,
    /// The operation doesn't accept an order: a load and a failure accept 0, 1, 2 and 5, a store 0, 3 and 5, any other
    /// operation 0 to 5. The failure order may be stronger than the success order, as in Rust; C11 7.17.7.4 forbids it.
    #[error("an order isn't accepted")]
    BadOrder,
}

/// Whether a load accepts an order.
fn is_load_order(order: u32) -> bool
    ensures { result ≡ is_among load_orders order }
{
    matches!(order, 0 | 1 | 2 | 5)
}

impl SizedCall {
    /// The call that it makes, never a quiet one.
    pub fn call(&self) -> Call
        ensures { result ≡ call_of self.now }
    {
        match self.op {
            SizedOp::Load => Call::Load,
            SizedOp::Store => Call::Store(self.a),
            SizedOp::Exchange => Call::Swap(self.a),
            SizedOp::CompareExchange => Call::Cas(self.a, self.b),
            SizedOp::FetchAdd => Call::Add(self.a, false),
            SizedOp::FetchSub => Call::Sub(self.a, false),
            SizedOp::FetchAnd => Call::And(self.a, false),
            SizedOp::FetchOr => Call::Or(self.a, false),
            SizedOp::FetchXor => Call::Xor(self.a, false),
            SizedOp::FetchNand => Call::Nand(self.a),
            SizedOp::AddFetch => Call::AddFetch(self.a),
            SizedOp::SubFetch => Call::SubFetch(self.a),
            SizedOp::AndFetch => Call::AndFetch(self.a),
            SizedOp::OrFetch => Call::OrFetch(self.a),
            SizedOp::XorFetch => Call::XorFetch(self.a),
            SizedOp::NandFetch => Call::NandFetch(self.a),
        }
    }

    /// Whether the operation accepts the orders.
    pub(crate) fn accepts(&self) -> bool
        ensures { result ≡ accepts self.now.op self.now.order self.now.failure }
    {
        match self.op {
            SizedOp::Load => is_load_order(self.order),
            SizedOp::Store => matches!(self.order, 0 | 3 | 5),
            SizedOp::CompareExchange => self.order <= 5 && is_load_order(self.failure),
            _ => self.order <= 5,
        }
    }
}
