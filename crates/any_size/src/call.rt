//! Calls on objects, their replies, and entries of histories.

use crate::block::Block64;

/// A call on an object, with its operands, which have the object's length.
#[derive(Clone, Copy)]
pub enum BlockCall {
    /// Answers the value.
    Load,
    /// Puts the operand.
    Store(Block64),
    /// Puts the operand, and answers the value before.
    Exchange(Block64),
    /// Puts the second operand where the value is the first. Answers the value before.
    CompareExchange(Block64, Block64),
}

/// The reply of a call.
#[derive(Clone, Copy)]
pub enum BlockReply {
    /// Of a store.
    Unit,
    /// The value, of a load or an exchange.
    Old(Block64),
    /// The value, of a compare and exchange that found the value expected.
    Done(Block64),
    /// The value, of a compare and exchange that found another, which it left.
    Failed(Block64),
}

/// A call that was made, with its caller's number, its object's number and its reply. A history is a list of entries,
/// the oldest first.
#[derive(Clone, Copy)]
pub struct BlockEntry {
    pub caller: u32,
    pub object: u32,
    pub call: BlockCall,
    pub reply: BlockReply,
}
