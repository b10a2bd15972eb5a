//! Kinds of values, the calls on them with their replies, orders, and the texts of numbers.
#![tactic(auto)]

mod call;
mod call_tests;
mod hex;
mod kind;
pub mod laws;
mod line_buf;
mod numeral;
mod operations;
mod order;
mod orders;
mod value;
mod words;

pub use call::{Call, Reply};
pub use call_tests::{does_write, expects_another, is_exchange, is_load, is_newer, is_weak};
pub use kind::{Class, Kind, NoMemory, Width, bits, bytes, kind_ok};
pub use line_buf::LineBuf;
pub use operations::{after, answer, call_fits};
pub use order::{LoadOrder, MOST_LOCKS, Order, StepSet, StoreOrder};
pub use orders::{order_fits, order_of_word, order_word};
pub use value::{ValueFault, read_value};
pub use words::{
    Operation, call_word, has_operation, kind_of_word, kind_word, operation_of, operation_of_word,
    operation_word, operations_of,
};

#[cfg(test)]
mod tests;
