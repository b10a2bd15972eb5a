//! The words of orders, and the orders that a call accepts.

ghost use Rattle.std.specs.Prelude.{◌≡◌};
ghost use Rattle.op_table.specs.Orders.{order_word, order_of_word, order_fits, is_load_order, is_store_order};

use crate::call::Call;
use crate::order::Order;

/// The word of an order in a text.
pub fn order_word(order: Order) -> &'static str
    ensures { result.now ≡ order_word order }
{
    match order {
        Order::Relaxed => "relaxed",
        Order::Acquire => "acquire",
        Order::Release => "release",
        Order::AcqRel => "acq_rel",
        Order::SeqCst => "seq_cst",
    }
}

/// The order that a word stands for. None: it is the word of none.
#[tactic(auto, unfolding(crate::specs::Orders::order_of_word))]
pub fn order_of_word(word: &[u8]) -> Option<Order>
    ensures { result ≡ order_of_word word.now }
{
    if word == b"relaxed".as_slice() {
        Some(Order::Relaxed)
    } else if word == b"acquire".as_slice() {
        Some(Order::Acquire)
    } else if word == b"release".as_slice() {
        Some(Order::Release)
    } else if word == b"acq_rel".as_slice() {
        Some(Order::AcqRel)
    } else if word == b"seq_cst".as_slice() {
        Some(Order::SeqCst)
    } else {
        None
    }
}

fn is_load_order(order: Order) -> bool
    ensures { result ≡ is_load_order order }
{
    match order {
        Order::Relaxed | Order::Acquire | Order::SeqCst => true,
        Order::Release | Order::AcqRel => false,
    }
}

fn is_store_order(order: Order) -> bool
    ensures { result ≡ is_store_order order }
{
    match order {
        Order::Relaxed | Order::Release | Order::SeqCst => true,
        Order::Acquire | Order::AcqRel => false,
    }
}

/// Whether a call accepts these orders. A load has relaxed, acquire or seq_cst; a store relaxed, release or seq_cst;
/// any other call each of the five. An exchange, and no other call, has a failure order, which is one of a load's and
/// may be stronger than the success order (as in Rust; C11 7.17.7.4 forbids it).
pub fn order_fits(call: &Call, success: Order, failure: Option<Order>) -> bool
    ensures { result ≡ order_fits call.now success failure }
{
    match call {
        Call::Load => is_load_order(success) && failure.is_none(),
        Call::Store(_) => is_store_order(success) && failure.is_none(),
        Call::Cas(_, _) | Call::CasWeak(_, _) => match failure {
            Some(order) => is_load_order(order),
            None => false,
        },
        _ => failure.is_none(),
    }
}
